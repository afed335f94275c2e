//! The result of one choice.
ghost use Rattle.std.specs.Prelude.{◌≡◌, IfOk};
ghost use Rattle.compare_alignments.specs.declared.merging.NumbersOf.TheVariants.{Taken};
ghost use Rattle.compare_choices.specs.Choices.{choice_events};
ghost use Rattle.compare_choices.specs.Corrected.{IsCorrected};
ghost use Rattle.compare_choices.specs.Trials.{IsTrial};

use crate::best::Best;
use crate::corrections::{Corrected, Correction, Stopped, correct};
use crate::costs::cost_of;
use crate::settling::{Outcome, settled};
use crate::sheets::Sheets;
use compare_alignments::NumbersOf;
use gcg_read::{Players, Record};
use lex_list::WordList;
use ref_tiles::Rules;
use std::alloc::{AllocError, Global};

/// The result of one choice.
#[derive(Drop)]
pub enum Trial {
    /// An event is refused whatever its numbers are.
    Stops(Stopped),
    /// No deal yields the racks.
    NoGame,
    /// Neither a deal nor a proof that there is none was found.
    Open,
    /// It makes a game.
    Game(Best),
}

/// The result of a choice whose events have right numbers.
fn right_trial(
    alloc: Global,
    rules: &Rules,
    list: &WordList,
    sheets: &Sheets,
    choice: usize,
    corrected: Corrected,
) -> Result<Trial, AllocError>
    requires { IsCorrected rules.now list.now (choice_events sheets.now Taken choice) corrected }
    ensures { IfOk result (IsTrial rules.now list.now sheets.now choice) }
{
    let cost = cost_of(alloc, sheets, choice, &corrected)?;
    let unlisted = corrected.unlisted;
    let players = Players::unnamed(alloc);
    let game = Record {
        players,
        events: corrected.right,
    };
    match settled(alloc, rules, list, &game)? {
        Outcome::NoGame => Ok(Trial::NoGame),
        Outcome::Unsettled => Ok(Trial::Open),
        Outcome::Game { complete } => Ok(Trial::Game(Best {
            choice,
            right: game.events,
            cost,
            unlisted,
            complete,
        })),
    }
}

/// The result of a choice.
///
/// It fails only if memory runs out.
pub(crate) fn what_comes_of(
    alloc: Global,
    rules: &Rules,
    list: &WordList,
    sheets: &Sheets,
    choice: usize,
) -> Result<Trial, AllocError>
    ensures { IfOk result (IsTrial rules.now list.now sheets.now choice) }
{
    let written = sheets.events(alloc, NumbersOf::Taken, choice)?;
    match correct(alloc, rules, list, written)? {
        Correction::Stops(stopped) => Ok(Trial::Stops(stopped)),
        Correction::Right(corrected) => right_trial(alloc, rules, list, sheets, choice, corrected),
    }
}
