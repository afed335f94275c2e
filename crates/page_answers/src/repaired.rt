//! The board with the likely repair of a faulty record.
ghost use Rattle.std.specs.Prelude.{◌≡◌};
ghost use Rattle.page_answers.specs.Repaired.{is_missing_play, is_in_word, is_of_play, IsBoardOf, IsRepairedBoard};

use repair_answers::Likely;
use repair_changes::{Misread, MissingLine, Slip};
use repair_single::Repair;
use sheet_scores::{Picture, shown_at};

/// Whether a missing line is a play.
fn is_missing_play(line: &MissingLine) -> bool
    ensures { result ≡ is_missing_play line.now }
{
    match line {
        MissingLine::Play { .. } => true,
        _ => false,
    }
}

/// Whether a tile that is misread twice is one of the word of a play.
fn is_in_word(slip: &Misread) -> bool
    ensures { result ≡ is_in_word slip.now }
{
    match slip {
        Misread::Played { .. } => true,
        Misread::Exchanged { .. } => false,
    }
}

/// Whether a slip is one of a play: of its position, of its text or of the whole play; or whether a play is missing.
fn is_of_play(slip: &Slip) -> bool
    ensures { result ≡ is_of_play slip.now }
{
    match slip {
        Slip::Position(_) | Slip::Spelling(_) | Slip::Replayed(_) => true,
        Slip::Misread(slip) => is_in_word(slip),
        Slip::Missing(line) => is_missing_play(line),
        _ => false,
    }
}

/// The board with the play of a repair, if it is one of a play.
fn board_of(repair: &Repair) -> Option<Picture>
    ensures { IsBoardOf repair.now result }
{
    let events = repair.right.as_slice();
    let place = repair.listed.change.place;
    if is_of_play(&repair.listed.change.slip) && place <= events.len() {
        Some(shown_at(events, place))
    } else {
        None
    }
}

/// The board with the play as it should be, its new tiles marked, if there is a likely repair and it is one of a play.
pub(crate) fn repaired_board(likely: &Option<Likely>) -> Option<Picture>
    ensures { IsRepairedBoard likely.now result }
{
    match likely {
        Some(Likely::Change(repair)) => board_of(repair),
        _ => None,
    }
}
