//! What is said of the racks of a pair.
ghost use Rattle.std.specs.Prelude.{◌≡◌, ◌↔◌, IsTrue, slice_get};
ghost use Rattle.std.specs.Option.{option_copied};
ghost use Rattle.compare_answers.specs.Racks.{own_rack, taken_rack, IsRacksAnswer};

use crate::scores::line_at;
use compare_alignments::{Pair, Side, is_chosen, own_side};
use compare_choices::{Sheets, Trial, have_other_racks};
use gcg_read::{Event, Seat};

/// Why the rack of the player's own sheet is not taken.
#[derive(Clone, Copy)]
pub enum OwnRack {
    /// There is no game with it.
    NoGame,
    /// No deal yields the racks.
    NoDeal,
    /// Neither a deal nor a proof that there is none was found.
    NoDealFound,
    /// More is wrong with it.
    MoreWrong,
}

/// What is said of the racks of a pair.
#[derive(Clone, Copy)]
pub enum RacksAnswer {
    /// They are the same, or one line does not state one.
    Same,
    /// They are not the same, and the lines are of different players.
    Differ,
    /// They are not the same, and that of the player's own sheet is taken.
    Own {
        /// The own sheet.
        side: Side,
        /// The player.
        player: Seat,
    },
    /// They are not the same, and that of the other player's sheet is taken.
    Other {
        /// The own sheet.
        own: Side,
        /// The player.
        player: Seat,
        /// Why that of the own sheet is not taken.
        why: OwnRack,
    },
}

/// Why the rack of the player's own sheet is not taken, if this comes of it.
fn own_rack(flip: Option<&Trial>) -> OwnRack
    ensures { result ≡ own_rack (option_copied flip.entry) }
{
    match flip {
        None => OwnRack::NoGame,
        Some(Trial::Stops(_)) => OwnRack::NoGame,
        Some(Trial::NoGame) => OwnRack::NoDeal,
        Some(Trial::Open) => OwnRack::NoDealFound,
        Some(Trial::Game(_)) => OwnRack::MoreWrong,
    }
}

/// Which rack of a player is taken, if `is_other` says that it is not that of the player's own sheet.
fn taken_rack(owner: Seat, player: Seat, is_other: bool, flip: Option<&Trial>) -> RacksAnswer
    ensures { result ≡ taken_rack owner player is_other (option_copied flip.entry) }
{
    let own = own_side(owner, player);
    if is_other {
        RacksAnswer::Other {
            own,
            player,
            why: own_rack(flip),
        }
    } else {
        RacksAnswer::Own { side: own, player }
    }
}

/// What is said of the racks of a pair, if they are the item with a number and a choice is the best.
#[tactic(auto, using(crate::proofs::Racking::same_without_line))]
pub(crate) fn racks_answer(
    sheets: &Sheets,
    pair: &Pair,
    choice: usize,
    number: usize,
    flips: &[Trial],
) -> RacksAnswer
    ensures { IsRacksAnswer sheets.now pair.now choice number (slice_get flips.now number) result }
{
    let Some(event) = line_at(&sheets.first, pair.first) else {
        return RacksAnswer::Same;
    };
    if !have_other_racks(sheets, pair) {
        return RacksAnswer::Same;
    }
    if !pair.other_racks {
        return RacksAnswer::Differ;
    }
    let is_other = is_chosen(choice, number);
    taken_rack(sheets.owner, event.player, is_other, flips.get(number))
}
