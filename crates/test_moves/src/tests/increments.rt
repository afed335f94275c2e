//! Cross-sets that are updated after puts and lifts: boards whose tiles, or whose plays, are put and lifted in several orders,
//! all values compared with those that are computed anew.
use super::boards::{Laid, TWO, at, laid, list_of, text_of};
use super::crosses::{FEW, assert_cross};
use gcg_read::Text;
use gen_cross::Cross;
use lex_check::SortedPaths;
use ref_board::{Board, Dir, SIDE, Square};
use ref_play::{Play, from_text};
use ref_tiles::{Letter, Rules, Tile, english_rules};
use std::process::Abort;
use test_samples::PlayText;

/// The tile of a capital.
fn tile_of(rt: &impl Abort, byte: u8) -> Tile {
    Tile::of_letter(Letter::counted_from(b'A', byte).expect(rt, "a letter"))
}

/// Puts a tile on a square, or lifts the one that is there, and updates the cross-sets.
fn turn(
    rt: &impl Abort,
    rules: &Rules,
    board: &mut Board,
    cross: &mut Cross,
    paths: &SortedPaths,
    tile: (usize, usize, u8),
) {
    let square = at(rt, tile.0, tile.1);
    match board.at(square) {
        None => {
            board.put(square, tile_of(rt, tile.2));
            cross.after_put(rules, board, paths, square);
        }
        Some(there) => {
            assert_eq!(rt; board.lift(square), there, "{:?}", square);
            cross.after_lift(rules, board, paths, square);
        }
    }
}

/// Asserts that two crosses have one value of a square.
fn assert_value(rt: &impl Abort, kept: &Cross, made: &Cross, dir: Dir, square: Square) {
    let held = (kept.mask(dir, square), kept.side(dir, square));
    let afresh = (made.mask(dir, square), made.side(dir, square));
    assert_eq!(rt; held, afresh, "{:?}", square);
}

/// Asserts that two crosses have the same 450 values.
fn assert_same(rt: &impl Abort, kept: &Cross, made: &Cross) {
    for number in 0..SIDE * SIDE {
        let square = at(rt, number / SIDE, number % SIDE);
        assert_value(rt, kept, made, Dir::Across, square);
        assert_value(rt, kept, made, Dir::Down, square);
    }
}

/// The letters and the points of 8F, 8H and 8J for plays down: first A is on 8G and on 8I, then also B on 8H, and then B is lifted.
const AROUND_B: [[(&[u8], u16); 3]; 3] = [
    [(b"T", 1), (b"", 2), (b"T", 1)],
    [(b"T", 5), (b"", 0), (b"S", 5)],
    [(b"T", 1), (b"", 2), (b"T", 1)],
];

#[test]
fn tile_between_two(rt: HostRuntime) {
    let rules = english_rules();
    let list = list_of(&rt, rt.alloc(), FEW);
    let paths = SortedPaths::new(rt.alloc(), &list).expect(&rt, "the paths");
    let mut board = laid(&rt, &TWO);
    let mut cross = Cross::scratch(&rules, &board, &paths);
    for (turns, [before, between, after]) in AROUND_B.iter().enumerate() {
        if turns > 0 {
            turn(&rt, &rules, &mut board, &mut cross, &paths, (7, 7, b'B'));
        }
        assert_cross(&rt, &cross, (7, 5, Dir::Down), before.0, before.1);
        assert_cross(&rt, &cross, (7, 7, Dir::Down), between.0, between.1);
        assert_cross(&rt, &cross, (7, 9, Dir::Down), after.0, after.1);
    }
}

/// 8E WORD, 9G AT and 9F E.
const TILES: [(usize, usize, u8); 7] = [
    (7, 4, b'W'),
    (7, 5, b'O'),
    (7, 6, b'R'),
    (7, 7, b'D'),
    (8, 6, b'A'),
    (8, 7, b'T'),
    (8, 5, b'E'),
];

/// Orders of these tiles: each that is on the board is lifted, each other one put. The first is that of a game in which AT
/// was withdrawn and played again.
const ORDERS: [&[usize]; 4] = [
    &[0, 1, 2, 3, 4, 5, 4, 5, 4, 5, 6],
    &[6, 5, 4, 3, 2, 1, 0, 0, 1, 2, 3, 4, 5, 6],
    &[0, 3, 1, 2, 6, 5, 4, 1, 2, 3, 0],
    &[1, 4, 6, 2, 1, 0, 3, 5, 1, 2, 6, 4],
];

#[test]
fn orders_of_tiles(rt: HostRuntime) {
    let rules = english_rules();
    let list = list_of(&rt, rt.alloc(), b"AT\nEAT\nOE\nRA\nWORD\n");
    let paths = SortedPaths::new(rt.alloc(), &list).expect(&rt, "the paths");
    for order in ORDERS {
        let mut board = Board::empty();
        let mut cross = Cross::scratch(&rules, &board, &paths);
        for place in order {
            let tile = *TILES.get(*place).expect(&rt, "a tile");
            turn(&rt, &rules, &mut board, &mut cross, &paths, tile);
            assert_same(&rt, &cross, &Cross::scratch(&rules, &board, &paths));
        }
    }
}

/// Plays: 8E WORD, 9G AT, G8 RAES through both and 10E TOES through its E; at the edges 1A ABAS, A1 AA, 15I RETAINS, which has
/// seven tiles, and O14 AS.
const PLAYS: [Laid; 8] = [
    "8E WORD",
    "9G AT",
    "G8 RAES",
    "10E TOES",
    "1A ABAS",
    "15I RETAINS",
    "O14 AS",
    "A1 AA",
];

/// Orders of these plays.
const GAMES: [&[usize]; 4] = [
    &[0, 1, 2, 3, 4, 5, 6, 7],
    &[3, 2, 1, 0, 7, 4, 6, 5],
    &[2, 0, 3, 1, 5, 4],
    &[1, 2, 3, 0, 7, 6],
];

/// The play on these squares, by the letters of all of them.
fn play_of(rt: &impl Abort, board: &Board, laid: Laid) -> Play {
    let PlayText { at, dir, symbols } = text_of(rt, laid);
    let text = Text::of_bytes(symbols).expect(rt, "a text");
    from_text(board, at, dir, text.as_slice()).expect(rt, "a play")
}

/// Puts the tiles of a play if none are there, or lifts those that are, and updates the cross-sets once.
fn turn_play(
    rules: &Rules,
    board: &mut Board,
    cross: &mut Cross,
    paths: &SortedPaths,
    play: &Play,
) {
    for placed in &play.tiles {
        match board.at(placed.square) {
            None => board.put(placed.square, placed.tile),
            Some(_) => {
                board.lift(placed.square);
            }
        }
    }
    cross.after_play(rules, board, paths, play);
}

/// Each play is put, lifted and put again.
#[test]
fn orders_of_plays(rt: HostRuntime) {
    let rules = english_rules();
    let list = list_of(
        &rt,
        rt.alloc(),
        b"AA\nAT\nEAT\nOE\nORE\nRA\nRETAINS\nSTOAE\nTOES\nWORDS\n",
    );
    let paths = SortedPaths::new(rt.alloc(), &list).expect(&rt, "the paths");
    for game in GAMES {
        let mut board = Board::empty();
        let mut cross = Cross::scratch(&rules, &board, &paths);
        for place in game {
            let play = play_of(&rt, &board, *PLAYS.get(*place).expect(&rt, "a play"));
            for _ in 0..3 {
                turn_play(&rules, &mut board, &mut cross, &paths, &play);
                assert_same(&rt, &cross, &Cross::scratch(&rules, &board, &paths));
            }
        }
    }
}
