//! Measures cross-sets: `tool_crosses LEXICON RECORD`. It prints, on the board in the middle of a game, the times of cross-sets
//! computed anew, and of a copy of them updated for plays of 1 to 7 tiles, once for the play and tile by tile; and for each play of
//! the record, on its own board, how many tiles it has, and the times of updating a copy once and of computing cross-sets anew. The
//! sums of some points are printed too, so that no round is optimized away.
#![tactic(auto)]

use gcg_read::{EventKind, Record, Text, read};
use gen_cross::Cross;
use io_devices::{FromRead, read_within};
use lex_file::LexFile;
use ref_board::{Board, Dir, SIDE, Square};
use ref_play::{Play, from_text};
use ref_tiles::{Letter, Rules, Tile, english_rules};
use std::process::ExitCode;
use std::rt::Runtime;
use std::time::{CpuClock, Duration};
use std::{env, fs};

/// The tiles of the example game after 21 events, row by row, small letters for blanks.
const ROWS: [&[u8]; 15] = [
    b".......C......W",
    b"......NO....OWE",
    b"......YU....EH.",
    b".......R.....ER",
    b"......AT..PE.NE",
    b".....QI..KA...S",
    b".....u.SAID...U",
    b"....GAZE......L",
    b"......ONCE..HAT",
    b".....NOD.FLOAT.",
    b"..PILE....AID..",
    b"...............",
    b"...............",
    b"...............",
    b"...............",
];

/// Where the text of the plays begins: row 12, column D, below the I of PILE.
const START: (usize, usize) = (11, 3);

/// The letters of the longest of these plays; each other one is a prefix of it. Three of them are below other tiles.
const RETAINS: &[u8] = b"RETAINS";

/// How many tiles these plays have.
const SIZES: [usize; 6] = [1, 2, 3, 4, 5, 7];

/// The greatest number of bytes of a file.
const LIMIT: usize = 64 << 20;

/// How many times cross-sets are computed anew.
const MADE: u32 = 2_000;

/// How many times they are updated for a play.
const KEPT: u32 = 20_000;

fn main(rt: HostRuntime) -> ExitCode {
    match measure(&rt) {
        Some(()) => ExitCode::from(0),
        None => ExitCode::from(64),
    }
}

/// Measures all. It prints nothing if the lexicon or the record cannot be read.
fn measure<R: Runtime + AllocGlobal + CpuClock>(rt: &R) -> Option<()> {
    let game = file_named(rt, 2)?;
    let record = read(rt.alloc(), game.as_slice()).ok()?;
    measure_by(rt, &record)
}

/// Measures all by a record that was read.
fn measure_by<R: Runtime + AllocGlobal + CpuClock>(rt: &R, record: &Record) -> Option<()> {
    let bytes = file_named(rt, 1)?;
    let file = LexFile::open(bytes.as_slice()).ok()?;
    measure_middle(rt, &file)?;
    measure_record(rt, &file, record)
}

/// The bytes of the file that an argument names.
fn file_named<R: Runtime + AllocGlobal>(rt: &R, argument: usize) -> Option<Vec<u8>> {
    let args: Vec<String> = env::args(rt).ok()?.collect(rt.alloc()).ok()?;
    let mut input = FromRead::new(fs::open(rt, args.get(argument)?.as_str()).ok()?);
    read_within(rt.alloc(), &mut input, LIMIT).ok()
}

/// A board on which plays are measured, the lexicon, the rules, and the cross-sets of the board, computed anew.
#[derive(Drop)]
struct Site<'a> {
    rules: Rules,
    file: &'a LexFile<'a>,
    board: Board,
    made: Cross,
}

impl<'a> Site<'a> {
    /// The board by the English rules.
    fn new(file: &'a LexFile<'a>, board: &Board) -> Site<'a> {
        let rules = english_rules();
        let made = Cross::scratch(&rules, board, file);
        Site {
            rules,
            file,
            board: *board,
            made,
        }
    }
}

/// Measures plays of some sizes on the board in the middle of a game.
fn measure_middle<R: Runtime + CpuClock>(rt: &R, file: &LexFile<'_>) -> Option<()> {
    let site = Site::new(file, &middle());
    let at = Square::new(START.0, START.1)?;
    measure_copy(rt, &site)?;
    for size in SIZES {
        let text = Text::of_bytes(RETAINS.get(..size)?)?;
        let play = from_text(&site.board, at, Dir::Across, text.as_slice()).ok()?;
        measure_play(rt, &site, &play)?;
        measure_puts(rt, &site, &play)?;
    }
    Some(())
}

/// Measures the plays of a record, each on its own board.
fn measure_record<R: Runtime + CpuClock>(
    rt: &R,
    file: &LexFile<'_>,
    record: &Record,
) -> Option<()> {
    let mut before = Board::empty();
    let mut board = before;
    for event in record.events.as_slice() {
        match &event.kind {
            EventKind::Play { at, dir, word } => {
                let play = from_text(&board, *at, *dir, word.as_slice()).ok()?;
                measure_play(rt, &Site::new(&*file, &board), &play)?;
                before = board;
                board = with_play(&board, &play);
            }
            EventKind::Withdraw => board = before,
            _ => {}
        }
    }
    Some(())
}

/// Measures the copies that each round below makes.
fn measure_copy<R: Runtime + CpuClock>(rt: &R, site: &Site<'_>) -> Option<()> {
    let start = rt.process_cpu_time().ok()?;
    let mut points: u16 = 0;
    for _ in 0..KEPT {
        let cross = site.made;
        points = points.wrapping_add(beside(&cross));
    }
    report(rt, "copy alone", start, KEPT, points)
}

/// Measures cross-sets that are updated once for a play, and those computed anew for the board with it.
fn measure_play<R: Runtime + CpuClock>(rt: &R, site: &Site<'_>, play: &Play) -> Option<()> {
    println!(rt; "tiles: {}", play.tiles.len()).ok()?;
    let start = rt.process_cpu_time().ok()?;
    let points = made_points(site, play);
    report(rt, "scratch", start, MADE, points)?;
    let start = rt.process_cpu_time().ok()?;
    let points = kept_points(site, play);
    report(rt, "after_play", start, KEPT, points)
}

/// Measures cross-sets that are updated tile by tile.
fn measure_puts<R: Runtime + CpuClock>(rt: &R, site: &Site<'_>, play: &Play) -> Option<()> {
    let start = rt.process_cpu_time().ok()?;
    let points = put_points(site, play);
    report(rt, "after_put of each", start, KEPT, points)
}

/// Prints the time of one of `rounds` rounds since the start.
fn report<R: Runtime + CpuClock>(
    rt: &R,
    what: &str,
    start: Duration,
    rounds: u32,
    points: u16,
) -> Option<()> {
    let spent = rt.process_cpu_time().ok()?.saturating_sub(start);
    let round = spent.as_nanos().checked_div(u128::from(rounds))?;
    println!(rt; "{what}: {round} ns ({points})").ok()
}

/// The points beside row 13, by cross-sets computed anew for the board with a play.
fn made_points(site: &Site<'_>, play: &Play) -> u16 {
    let after = with_play(&site.board, play);
    let mut points: u16 = 0;
    for _ in 0..MADE {
        let cross = Cross::scratch(&site.rules, &after, site.file);
        points = points.wrapping_add(beside(&cross));
    }
    points
}

/// The points beside row 13, by cross-sets updated once for a play.
fn kept_points(site: &Site<'_>, play: &Play) -> u16 {
    let mut points: u16 = 0;
    for _ in 0..KEPT {
        let mut cross = site.made;
        cross.after_play(&site.rules, &with_play(&site.board, play), site.file, play);
        points = points.wrapping_add(beside(&cross));
    }
    points
}

/// The points beside row 13, by cross-sets updated tile by tile.
fn put_points(site: &Site<'_>, play: &Play) -> u16 {
    let mut points: u16 = 0;
    for _ in 0..KEPT {
        points = points.wrapping_add(beside(&after_puts(site, play)));
    }
    points
}

/// The cross-sets after the tiles of a play are put one by one.
fn after_puts(site: &Site<'_>, play: &Play) -> Cross {
    let mut board = site.board;
    let mut cross = site.made;
    for placed in &play.tiles {
        put(&mut board, placed.square, placed.tile);
        cross.after_put(&site.rules, &board, site.file, placed.square);
    }
    cross
}

/// The board with the tiles of a play.
fn with_play(board: &Board, play: &Play) -> Board {
    let mut after = *board;
    for placed in &play.tiles {
        put(&mut after, placed.square, placed.tile);
    }
    after
}

/// The board of the rows.
fn middle() -> Board {
    let mut board = Board::empty();
    for number in 0..SIDE * SIDE {
        let square = Square::on_line(Dir::Across, number / SIDE, number % SIDE);
        let byte = ROWS[number / SIDE].get(number % SIDE);
        if let Some(tile) = byte.and_then(|byte| tile_of(*byte)) {
            put(&mut board, square, tile);
        }
    }
    board
}

/// Puts a tile on an empty square.
fn put(board: &mut Board, square: Square, tile: Tile) {
    if board.at(square).is_none() {
        board.put(square, tile);
    }
}

/// The tile of a byte, if it stands for one.
fn tile_of(byte: u8) -> Option<Tile> {
    match Letter::counted_from(b'A', byte) {
        Some(letter) => Some(Tile::of_letter(letter)),
        None => Letter::counted_from(b'a', byte).map(|shown| Tile::of_blank(shown)),
    }
}

/// The points beside the squares of row 13.
fn beside(cross: &Cross) -> u16 {
    let mut points: u16 = 0;
    for place in 0..SIDE {
        let square = Square::on_line(Dir::Across, 12, place);
        points = points.wrapping_add(cross.side(Dir::Across, square));
    }
    points
}
