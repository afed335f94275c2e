//! The cross-sets of boards: the rows, and all 450 values by the definition, word by word.
use super::boards::{Laid, TWO, WORD_AT, along, at, has_letter, laid, list_of};
use gen_cross::Cross;
use lex_build::build;
use lex_check::SortedPaths;
use lex_file::{LexFile, PathLex};
use lex_list::WordList;
use ref_board::Dir::{Across, Down};
use ref_board::{Board, Dir, SIDE, Square};
use ref_tiles::{Letter, Rules, Tile, english_rules};
use std::alloc::Global;
use std::process::Abort;

/// The cross-set of a square, and the points beside it, for a play of a direction: the words of the list, the tiles on the
/// board, the row and the column of the square and the direction, the letters and the points.
type Row = (
    &'static [u8],
    &'static [Laid],
    (usize, usize, Dir),
    &'static [u8],
    u16,
);

/// Four words, of which only AT and TA fit beside a single A.
pub const FEW: &[u8] = b"AT\nTA\nABAS\nTABA\n";

const ALL: &[u8] = b"ABCDEFGHIJKLMNOPQRSTUVWXYZ";

const ROWS: [Row; 9] = [
    (FEW, &TWO, (7, 5, Down), b"T", 1),
    (FEW, &TWO, (7, 7, Down), b"", 2),
    (FEW, &TWO, (7, 9, Down), b"T", 1),
    // no tile beside it in its column
    (FEW, &TWO, (7, 7, Across), ALL, 0),
    // a square with a tile has neither letters nor points
    (FEW, &TWO, (7, 6, Down), b"", 0),
    // three tiles in a row, the premium of the middle one counts no more
    (FEW, &["8G ABA"], (7, 5, Down), b"T", 5),
    (FEW, &["8G ABA"], (7, 9, Down), b"S", 5),
    // a blank on the board counts no points
    (FEW, &["8G aBA"], (7, 9, Down), b"S", 4),
    // the R of WORD and the A of AT are above 10G
    (b"AT\nRA\nRAT\nWORD\n", &WORD_AT, (9, 6, Across), b"T", 2),
];

/// Asserts the letters and the points of a square, by its row and its column, for a play of a direction.
pub fn assert_cross(
    rt: &impl Abort,
    cross: &Cross,
    place: (usize, usize, Dir),
    letters: &[u8],
    points: u16,
) {
    let (line, column, dir) = place;
    let square = at(rt, line, column);
    assert_eq!(rt; cross.side(dir, square), points, "{:?}", square);
    for (letter, may) in cross.mask(dir, square).iter().enumerate() {
        assert_eq!(rt; *may, has_letter(letters, letter), "{:?}", square);
    }
}

fn assert_row(rt: &impl Abort, alloc: Global, rules: &Rules, row: Row) {
    let (words, tiles, place, letters, points) = row;
    let list = list_of(rt, alloc, words);
    let paths = SortedPaths::new(alloc, &list).expect(rt, "the paths");
    let cross = Cross::scratch(rules, &laid(rt, tiles), &paths);
    assert_cross(rt, &cross, place, letters, points);
}

#[test]
fn rows(rt: HostRuntime) {
    let rules = english_rules();
    for row in &ROWS {
        assert_row(&rt, rt.alloc(), &rules, *row);
    }
}

/// The letters of the run through a tile, and the points of its tiles.
fn run_through(
    rt: &impl Abort,
    alloc: Global,
    rules: &Rules,
    board: &Board,
    dir: Dir,
    square: Square,
) -> (Vec<u8>, u16) {
    assert!(rt; board.at(square).is_some(), "a tile");
    let (start, len) = board.run(square, dir);
    let mut word = Vec::new(alloc);
    let mut points: u16 = 0;
    for place in 0..len {
        let there = along(rt, start, dir, place);
        let tile = board.at(there).expect(rt, "a tile of the run");
        word.push(tile.shown.capital()).expect(rt, "memory");
        points = points.saturating_add(u16::from(rules.points_of(tile.kind)));
    }
    (word, points)
}

/// Cross-sets of a board, and the rules and the list that say what they have to be.
#[derive(Clone, Copy)]
struct Made<'a> {
    rules: &'a Rules,
    list: &'a WordList,
    cross: &'a Cross,
    board: &'a Board,
}

/// Asserts the values of an empty square for plays of a direction: each letter is put there as a blank, and the run through it
/// across the play is read.
fn assert_letters(rt: &impl Abort, alloc: Global, made: Made<'_>, place: (Dir, Dir, Square)) {
    let (dir, across, square) = place;
    let mask = made.cross.mask(dir, square);
    for byte in b'A'..=b'Z' {
        let shown = Letter::counted_from(b'A', byte).expect(rt, "a letter");
        let mut held = *made.board;
        assert!(rt; held.at(square).is_none(), "an empty square");
        held.put(square, Tile::of_blank(shown));
        let (word, points) = run_through(rt, alloc, made.rules, &held, across, square);
        let may = word.len() < 2 || made.list.has(word.as_slice());
        assert_eq!(rt;
            mask[usize::from(shown.index)],
            may,
            "{:?} {}",
            square,
            byte
        );
        assert_eq!(rt; made.cross.side(dir, square), points, "{:?}", square);
    }
}

/// Asserts the values of a square for plays of a direction.
fn assert_value(rt: &impl Abort, alloc: Global, made: Made<'_>, place: (Dir, Dir, Square)) {
    let (dir, _across, square) = place;
    if made.board.at(square).is_none() {
        assert_letters(rt, alloc, made, place);
    } else {
        assert_eq!(rt; made.cross.mask(dir, square), [false; 26], "{:?}", square);
        assert_eq!(rt; made.cross.side(dir, square), 0, "{:?}", square);
    }
}

/// Asserts all 450 values of a board.
fn assert_values(rt: &impl Abort, alloc: Global, made: Made<'_>) {
    for row in 0..SIDE {
        for column in 0..SIDE {
            let square = at(rt, row, column);
            assert_value(rt, alloc, made, (Dir::Across, Dir::Down, square));
            assert_value(rt, alloc, made, (Dir::Down, Dir::Across, square));
        }
    }
}

/// The lists and boards whose values are all compared, the values over the file and over the paths of the list.
const WHOLE: [(&[u8], &[Laid]); 4] = [
    (FEW, &[]),
    (FEW, &TWO),
    (b"AT\nRA\nWORD\n", &WORD_AT),
    (b"AT\nEAT\nOE\nRA\nWORD\n", &WORD_AT),
];

/// Asserts all values that are computed anew over a lexicon.
fn assert_afresh<L: PathLex>(
    rt: &impl Abort,
    alloc: Global,
    rules: &Rules,
    list: &WordList,
    lex: &L,
    board: &Board,
) {
    let cross = Cross::scratch(rules, board, lex);
    let made = Made {
        rules,
        list,
        cross: &cross,
        board,
    };
    assert_values(rt, alloc, made);
}

fn assert_whole(rt: &impl Abort, alloc: Global, rules: &Rules, words: &[u8], tiles: &[Laid]) {
    let list = list_of(rt, alloc, words);
    let board = laid(rt, tiles);
    let paths = SortedPaths::new(alloc, &list).expect(rt, "the paths");
    assert_afresh(rt, alloc, rules, &list, &paths, &board);
    let bytes = build(alloc, &list).expect(rt, "a lexicon");
    let file = LexFile::open(bytes.as_slice()).expect(rt, "a file");
    assert_afresh(rt, alloc, rules, &list, &file, &board);
}

#[test]
fn all_values(rt: HostRuntime) {
    let rules = english_rules();
    for (words, tiles) in &WHOLE {
        assert_whole(&rt, rt.alloc(), &rules, words, tiles);
    }
}
