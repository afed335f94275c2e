//! Whether two sheets agree.
ghost use Rattle.std.specs.Prelude.{◌≡◌, ◌↔◌, All, IsTrue};
ghost use Rattle.compare_answers.specs.Agreements.{NoOtherRacks, HasItsCost, BestHasItsCost, SheetsAgree, IsAgreement};

use compare_alignments::{Pair, count_items};
use compare_choices::{Best, Find, Sheets, have_other_racks};

/// Whether two sheets agree.
#[derive(Clone, Copy)]
pub enum Agreement {
    /// They agree in everything, every number of both is right, and the game is legal.
    Agree,
    /// They differ, or a number is wrong, or no choice of their lines makes a game.
    Differ,
    /// No choice of their lines is known to make a game, but one may.
    Unsettled,
}

/// Whether the lines of a pair do not state different racks.
fn has_no_other_racks(sheets: &Sheets, pair: &Pair) -> bool
    ensures { IsTrue result ↔ NoOtherRacks sheets.now pair.now }
{
    !have_other_racks(sheets, pair)
}

/// Whether two sheets do not state different racks.
fn have_no_other_racks(sheets: &Sheets, pairs: &[Pair]) -> bool
    ensures { IsTrue result ↔ All (NoOtherRacks sheets.now) pairs.now }
{
    for pair in pairs {
        if !has_no_other_racks(sheets, pair) {
            return false;
        }
    }
    true
}

/// Whether two sheets agree in everything, and every number of both is right.
#[tactic(auto, using(crate::proofs::Agreeing::nothing_wrong, crate::proofs::Agreeing::costs_its_words))]
fn agree(sheets: &Sheets, best: &Best) -> bool
    requires { HasItsCost sheets.now best.now }
    ensures { IsTrue result ↔ SheetsAgree sheets.now best.now }
{
    if count_items(sheets.pairs.as_slice()) != 0 {
        return false;
    }
    if !have_no_other_racks(sheets, sheets.pairs.as_slice()) {
        return false;
    }
    best.cost == 3 * best.unlisted as u128
}

/// Whether two sheets agree, by the best of all choices.
pub(crate) fn agreement_of(sheets: &Sheets, find: &Find) -> Agreement
    requires { BestHasItsCost sheets.now find.now.best }
    ensures { IsAgreement sheets.now find.now.best find.now.remaining.items result }
{
    match &find.best {
        Some(best) => {
            if agree(sheets, best) {
                Agreement::Agree
            } else {
                Agreement::Differ
            }
        }
        None => {
            if find.remaining.is_empty() {
                Agreement::Differ
            } else {
                Agreement::Unsettled
            }
        }
    }
}
