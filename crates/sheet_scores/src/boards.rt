//! The boards of a record, as far as its plays can be laid.
ghost use Rattle.std.specs.Prelude.{◌≡◌, ◌<◌, ◌≤◌, ◌+◌, length, slice_get, IfOk, if◌then◌else◌};
ghost use Rattle.game_turns.specs.Tallies.{withdraws as next_withdraws};
ghost use Rattle.sheet_scores.specs.Boards.{ArePictures, IsShownAt};

use crate::pictures::{Picture, picture_after, picture_for};
use game_board::{lay, lay_plays};
use game_turns::withdraws;
use gcg_read::Event;
use ref_board::Board;
use std::alloc::{AllocError, Global};

/// Whether the event after a place takes back the play there.
#[tactic(auto, using(game_turns::proofs::PlaceLaws::copied_get))]
pub fn is_taken_back(events: &[Event], place: usize) -> bool
    requires { place < length events.now }
    ensures { result ≡ next_withdraws (slice_get events.now (place + 1)) }
{
    withdraws(events.get(place + 1))
}

/// The board of the plays that stand: that before an event if the event is taken back.
fn standing_after(old: &Board, laid: &Board, taken_back: bool) -> Board
    ensures { result ≡ if taken_back then old.now else laid.now }
{
    if taken_back { *old } else { *laid }
}

/// The boards after the events of a record, one for each event up to the first whose play cannot be laid. A play that is taken back lies on the
/// board after it, and comes off after its withdrawal.
///
/// It fails only if memory runs out.
pub fn pictures_of(alloc: Global, events: &[Event]) -> Result<Vec<Picture>, AllocError>
    ensures { IfOk result (λ pictures. ArePictures events.now pictures.items) }
{
    let mut pictures = Vec::new(alloc);
    let mut standing = Board::empty();
    let mut board = standing;
    for place in 0..events.len() {
        let Ok(laid) = lay(&standing, &events[place].kind) else {
            return Ok(pictures);
        };
        pictures.push(picture_after(&board, &laid))?;
        standing = standing_after(&standing, &laid, is_taken_back(events, place));
        board = laid;
    }
    Ok(pictures)
}

/// The board after the event at a place, with its new tiles marked, if the plays up to it can be laid. Otherwise the board as far as the
/// plays before the place can be laid, with the squares marked that the play at the place covers.
pub fn shown_at(events: &[Event], place: usize) -> Picture
    requires { place ≤ length events.now }
    ensures { IsShownAt events.now place result }
{
    let before = lay_plays(events, place);
    if place < events.len() {
        let after = lay_plays(events, place + 1);
        if after.fault.is_none() {
            return picture_after(&before.board, &after.board);
        }
    }
    picture_for(&before.board, events.get(place))
}
