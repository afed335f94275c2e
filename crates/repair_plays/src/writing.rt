//! The plays that are wanted, as a record writes them.
ghost use Rattle.repair_plays.specs.Legal.{AreLegal};

use crate::asking::Asked;
use crate::searching::all_plays;
use gcg_read::{EventKind, Text};
use lex_check::Checked;
use ref_board::Board;
use ref_play::{Notation, Play, notation};
use ref_tiles::{Counts, Rules};
use repair_changes::RightPlay;
use std::alloc::{AllocError, Global};

/// The plays that are wanted, as they are written.
fn asked_of(
    alloc: Global,
    board: &Board,
    plays: &[(Play, i32)],
    asked: &Asked,
) -> Result<Vec<Notation>, AllocError>
    requires { AreLegal board.now plays.now }
{
    let mut written = Vec::new(alloc);
    for scored in plays {
        if asked.has(&scored.0, scored.1) {
            written.push(notation(board, &scored.0))?;
        }
    }
    Ok(written)
}

/// The plays of a rack on a board that are wanted, as they are written: those across before those down, then by the first square, row by
/// row, and then by the bytes of the text.
///
/// It fails only if memory runs out.
pub(crate) fn plays_asked_for(
    alloc: Global,
    rules: &Rules,
    pair: &Checked<'_>,
    board: &Board,
    rack: &Counts,
    asked: &Asked,
) -> Result<Vec<Notation>, AllocError> {
    let all = all_plays(alloc, rules, pair, board, rack)?;
    let mut written = asked_of(alloc, board, all.items(), asked)?;
    written.sort()?;
    Ok(written)
}

/// A play as it should be; none if its text is empty.
pub(crate) fn right_play(play: &Notation) -> Option<RightPlay> {
    let word = Text::new(&play.word)?;
    Some(RightPlay {
        at: play.at,
        dir: play.dir,
        word,
    })
}

/// Whether a line has exactly this play.
pub(crate) fn is_written(play: &Notation, kind: &EventKind) -> bool {
    match kind {
        EventKind::Play { at, dir, word } => {
            play.at == *at && play.dir == *dir && play.word.as_slice() == word.as_slice()
        }
        _ => false,
    }
}
