//! The weight of a slip of the whole sheet.
ghost use Rattle.std.specs.Prelude.{◌≡◌, ◌≤◌};
ghost use Rattle.repair_sheets.specs.Weights.{weight_of};

use crate::slips::SheetSlip;

/// The weight of a slip: a smaller one is likelier.
pub fn weight_of(slip: &SheetSlip) -> usize
    ensures weight { result ≡ weight_of slip.now }
    ensures few { result ≤ 2 }
{
    match slip {
        SheetSlip::Unread(_) | SheetSlip::ExtraMark { .. } | SheetSlip::NoPlace { .. } => 0,
        SheetSlip::Running { .. } => 2,
    }
}
