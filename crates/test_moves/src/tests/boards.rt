//! Boards and lists of words that several tables use.
use lex_list::WordList;
use ref_board::{Board, Dir, Square};
use ref_tiles::{Counts, Letter, Rules, Tile, english_rules};
use std::alloc::Global;
use std::process::Abort;
use test_samples::{PlayText, play_text, tiles_of};

/// Tiles on successive squares of a board, as the text of a play: the first square, `8E` across and `E8` down, and the letters, small
/// ones for blanks.
pub type Laid = &'static str;

/// 8E WORD, which leaves R over 9G and D over 9H, and 9G AT.
pub const WORD_AT: [Laid; 2] = ["8E WORD", "9G AT"];

/// A on 8G and on 8I.
pub const TWO: [Laid; 2] = ["8G A", "8I A"];

/// Whether a letter, as a number from 0, is one of these.
pub fn has_letter(letters: &[u8], letter: usize) -> bool {
    letters
        .iter()
        .any(|byte| usize::from(*byte) == letter.saturating_add(65))
}

/// A board and a rack, and the rules by which plays score.
#[derive(Drop)]
pub struct Position {
    pub rules: Rules,
    pub board: Board,
    pub rack: Counts,
}

impl Position {
    /// The board with these tiles and the rack of these, by the English rules.
    pub fn of(rt: &impl Abort, tiles: &[Laid], rack: &[u8]) -> Position {
        Position {
            rules: english_rules(),
            board: laid(rt, tiles),
            rack: tiles_of(rack).expect(rt, "a rack"),
        }
    }
}

/// The board with these tiles.
pub fn laid(rt: &impl Abort, tiles: &[Laid]) -> Board {
    let mut board = Board::empty();
    for text in tiles {
        let PlayText { at, dir, symbols } = text_of(rt, text);
        for (place, byte) in symbols.iter().enumerate() {
            let square = along(rt, at, dir, place);
            let tile = tile_of(rt, *byte);
            assert!(rt; board.at(square).is_none(), "{text}");
            board.put(square, tile);
        }
    }
    board
}

/// A play by its text.
pub fn text_of<'a>(rt: &impl Abort, text: &'a str) -> PlayText<'a> {
    match play_text(text) {
        Some(play) => play,
        None => panic!(rt; "{text} is no play"),
    }
}

/// The square `steps` steps after another one.
pub fn along(rt: &impl Abort, start: Square, dir: Dir, steps: usize) -> Square {
    match dir {
        Dir::Across => at(rt, start.row(), start.column().saturating_add(steps)),
        Dir::Down => at(rt, start.row().saturating_add(steps), start.column()),
    }
}

/// The square in a row and a column.
pub fn at(rt: &impl Abort, row: usize, column: usize) -> Square {
    Square::new(row, column).expect(rt, "a square")
}

/// The tile that a byte stands for: a letter, or a blank if it is small.
fn tile_of(rt: &impl Abort, byte: u8) -> Tile {
    match Letter::counted_from(b'A', byte) {
        Some(letter) => Tile::of_letter(letter),
        None => Tile::of_blank(Letter::counted_from(b'a', byte).expect(rt, "a letter")),
    }
}

/// The list of these words.
pub fn list_of(rt: &impl Abort, alloc: Global, words: &[u8]) -> WordList {
    WordList::read(alloc, words).expect(rt, "a word list")
}
