//! Laying the plays of a record.
ghost use Rattle.std.specs.Prelude.{◌≡◌, ◌<◌, ◌≤◌, ◌+◌, length, slice_get, if◌then◌else◌, Some, None, IfOk, OnOk, IfErr};
ghost use Rattle.game_turns.specs.Tallies.{withdraws as next_withdraws};
ghost use Rattle.game_board.specs.Laying.{board_before, kind_fault, laid_on, AreLaid};

use game_turns::{legal_play, withdraws};
use gcg_read::{Event, EventKind};
use ref_board::Board;
use ref_play::{PlayFault, apply};

/// The board with the play of an event, if it is one and can be laid.
///
/// # Errors
///
/// The first fault of the play's text, or of its placement.
pub fn lay(board: &Board, kind: &EventKind) -> Result<Board, PlayFault>
    ensures fault { IfErr result (λ why. kind_fault board.now kind.now ≡ Some why) }
    ensures none { OnOk result (kind_fault board.now kind.now ≡ None) }
    ensures laid { IfOk result (λ laid. laid ≡ laid_on board.now kind.now) }
{
    let mut laid = *board;
    if let EventKind::Play { at, dir, word } = kind {
        let play = legal_play(board, *at, *dir, word.as_slice())?;
        apply(&mut laid, &play);
    }
    Ok(laid)
}

/// Whether the event after a place takes the play there back.
#[tactic(auto, using(game_turns::proofs::PlaceLaws::copied_get))]
fn is_taken_back(events: &[Event], place: usize) -> bool
    requires { place < length events.now }
    ensures { result ≡ next_withdraws (slice_get events.now (place + 1)) }
{
    withdraws(events.get(place + 1))
}

/// The board after an event: that before it if the event is taken back.
fn kept(old: &Board, laid: &Board, taken_back: bool) -> Board
    ensures { result ≡ if taken_back then old.now else laid.now }
{
    if taken_back { *old } else { *laid }
}

/// The board of a record, as far as its plays can be laid.
#[derive(Drop)]
pub struct Laying {
    /// The board.
    pub board: Board,
    /// The place of the event before which this is the board, counted from 0; after the last event, the number of events.
    pub end: usize,
    /// Why the play at the place cannot be laid, if that ended the laying.
    pub fault: Option<PlayFault>,
}

/// Lays the plays of a record before a place, counted from 0. It ends at the first play whose text or placement has a fault, if
/// there is one before the place. A play that is taken back comes off the board after its withdrawal. Nothing else about the events
/// is checked.
pub fn lay_plays(events: &[Event], place: usize) -> Laying
    requires { place ≤ length events.now }
    ensures end { result.end ≤ place }
    ensures laid { AreLaid events.now place result.end result.fault }
    ensures board { result.board ≡ board_before events.now result.end }
{
    let mut standing = Board::empty();
    let mut board = standing;
    for end in 0..place {
        match lay(&standing, &events[end].kind) {
            Ok(laid) => board = laid,
            Err(why) => {
                return Laying {
                    board,
                    end,
                    fault: Some(why),
                };
            }
        }
        standing = kept(&standing, &board, is_taken_back(events, end));
    }
    Laying {
        board,
        end: place,
        fault: None,
    }
}
