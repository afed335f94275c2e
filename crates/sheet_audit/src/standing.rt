//! Whether the corrected record of an audit stands.
ghost use Rattle.std.specs.Prelude.{◌≡◌};
ghost use Rattle.sheet_audit.specs.Standing.{stands, is_written};

use crate::answers::AuditAnswer;
use game_case::{Audit, Finding};

/// Whether the corrected record stands: the rules allow each of its events, and no racks are ruled out.
pub fn is_corrected(audit: &Audit) -> bool
    ensures { result ≡ stands audit.now.entry.finding }
{
    match &audit.entry.finding {
        Finding::NoGame | Finding::Legal { .. } | Finding::Unsettled => true,
        Finding::Illegal { .. } => false,
    }
}

/// Whether the corrected record is to be written: it stands, and no bonus or penalty was found that would explain the numbers, so that the totals which it
/// replaces are wrong.
pub fn is_written(answer: &AuditAnswer) -> bool
    ensures { result ≡ is_written answer.now }
{
    is_corrected(&answer.audit) && answer.amount.is_none()
}
