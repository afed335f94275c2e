//! A plain search: each word of a list at each place of a board in both directions, with each choice of blanks.
use super::boards::Position;
use lex_list::WordList;
use ref_board::{Dir, SIDE, Square};
use ref_play::{Notation, Play, from_text, judge, notation, score, words};
use ref_tiles::{Counts, Kind, Letter, Symbol};
use std::alloc::Global;
use std::process::Abort;

/// A play as it is written, and its score.
pub type Reported = (Notation, i32);

/// The symbol of a new tile that is taken from a rack; none if the rack does not have it.
fn taken(rack: &mut Counts, letter: Letter, is_blank: bool) -> Option<Symbol> {
    if is_blank {
        rack.take(Kind::Blank)?;
        Some(Symbol::Blank(letter))
    } else {
        rack.take(Kind::Letter(letter))?;
        Some(Symbol::Letter(letter))
    }
}

/// The text of a word from a square on; none if the position does not allow it. The new tiles are blanks where the
/// digits of a binary number are 1, the last digit first.
fn text_of(
    alloc: Global,
    position: &Position,
    word: &[u8],
    place: (usize, usize, Dir),
    blanks: usize,
) -> Option<Vec<Symbol>> {
    let (row, column, dir) = place;
    let mut remaining = position.rack;
    let mut blanks = blanks;
    let mut text = Vec::new(alloc);
    for (step, byte) in word.iter().enumerate() {
        let square = match dir {
            Dir::Across => Square::new(row, column.saturating_add(step))?,
            Dir::Down => Square::new(row.saturating_add(step), column)?,
        };
        let letter = Letter::counted_from(b'A', *byte)?;
        let symbol = match position.board.at(square) {
            Some(tile) if tile.shown == letter => Symbol::Dot,
            Some(_) => return None,
            None => {
                let is_blank = blanks % 2 == 1;
                blanks /= 2;
                taken(&mut remaining, letter, is_blank)?
            }
        };
        text.push(symbol).ok()?;
    }
    Some(text)
}

/// Keeps a play as it is written, with its score, if it is legal, its words are all listed, and it is not kept yet.
fn keep(
    rt: &impl Abort,
    list: &WordList,
    position: &Position,
    play: &Play,
    kept: &mut Vec<Reported>,
) {
    let Position { rules, board, .. } = position;
    if judge(board, play).is_err() {
        return;
    }
    if !words(board, play)
        .iter()
        .all(|word| list.has(word.as_slice()))
    {
        return;
    }
    let reported = (notation(board, play), score(rules, board, play));
    if !kept.contains(&reported) {
        kept.push(reported).expect(rt, "memory");
    }
}

/// All plays of a plain search.
pub fn searched(
    rt: &impl Abort,
    alloc: Global,
    list: &WordList,
    position: &Position,
) -> Vec<Reported> {
    let mut kept = Vec::new(alloc);
    let held = position.rack.count(Kind::Blank);
    // A play has at most seven new tiles.
    let choices = if held == 0 { 1 } else { 128 };
    for number in 0..list.len() {
        for cell in 0..SIDE * SIDE * 2 * choices {
            let (blanks, line) = (cell % choices, cell / choices);
            if blanks.count_ones() > u32::from(held) {
                continue;
            }
            let dir = if line % 2 == 0 {
                Dir::Across
            } else {
                Dir::Down
            };
            let (row, column) = (line / 2 / SIDE, line / 2 % SIDE);
            let Some(at) = Square::new(row, column) else {
                continue;
            };
            let place = (row, column, dir);
            let Some(text) = text_of(alloc, position, list.word(number), place, blanks) else {
                continue;
            };
            if let Ok(play) = from_text(&position.board, at, dir, text.as_slice()) {
                keep(rt, list, position, &play, &mut kept);
            }
        }
    }
    kept
}
