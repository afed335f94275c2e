//! Squares, tiles on them, and runs.
use ref_board::{Board, Dir, Square};
use ref_tiles::{Letter, Tile};
use std::process::Abort;

/// A board with a tile on each of these squares, given as rows and columns from 0.
fn board_with(rt: &impl Abort, places: &[(usize, usize)]) -> Board {
    let a = Letter::new(0).expect(rt, "A");
    let mut board = Board::empty();
    for (row, column) in places {
        let square = Square::new(*row, *column).expect(rt, "a square");
        assert!(rt; board.at(square).is_none());
        board.put(square, Tile::of_letter(a));
    }
    board
}

/// Asserts that a square has this number, is where it should be, and has its line and its place in both directions.
fn assert_square(rt: &impl Abort, square: Square, place: (usize, usize), number: usize) {
    let (row, column) = place;
    assert_eq!(rt;
        (square.number(), square.row(), square.column()),
        (number, row, column)
    );
    let across = (square.line(Dir::Across), square.place(Dir::Across));
    let down = (square.line(Dir::Down), square.place(Dir::Down));
    assert_eq!(rt; (across, down), ((row, column), (column, row)));
}

#[test]
fn squares(rt: HostRuntime) {
    for (row, column, number) in [(0, 0, 0), (0, 14, 14), (7, 7, 112), (14, 14, 224)] {
        let square = Square::new(row, column).expect(&rt, "a square");
        assert_square(&rt, square, (row, column), number);
    }
    assert_eq!(rt; (Square::new(0, 15), Square::new(15, 0)), (None, None));
    assert_eq!(rt; Square::default().number(), 0);
}

#[test]
fn squares_on_lines(rt: HostRuntime) {
    let across = Square::on_line(Dir::Across, 2, 6);
    assert_eq!(rt; (across.row(), across.column()), (2, 6));
    let down = Square::on_line(Dir::Down, 2, 6);
    assert_eq!(rt; (down.row(), down.column()), (6, 2));
    assert_eq!(rt;
        (Dir::Across.other(), Dir::Down.other()),
        (Dir::Down, Dir::Across)
    );
}

#[test]
fn tiles_on_squares(rt: HostRuntime) {
    let mut board = Board::empty();
    assert!(rt; board.is_empty());
    assert_eq!(rt; board.len(), 225);
    let centre = Square::new(7, 7).expect(&rt, "8H");
    let beside = Square::new(7, 8).expect(&rt, "8I");
    let blank = Tile::of_blank(Letter::new(16).expect(&rt, "Q"));
    assert!(rt; board.at(centre).is_none());
    board.put(centre, blank);
    assert_eq!(rt; (board.at(centre), board.at(beside)), (Some(blank), None));
    assert_lifts(&rt, &mut board, centre, blank);
}

/// Lifts the one tile of a board.
fn assert_lifts(rt: &impl Abort, board: &mut Board, square: Square, tile: Tile) {
    assert!(rt; !board.is_empty());
    assert!(rt; board.at(square).is_some());
    assert_eq!(rt; board.lift(square), tile);
    assert_eq!(rt; board.at(square), None);
    assert!(rt; board.is_empty() && *board == Board::empty());
}

#[test]
fn runs(rt: HostRuntime) {
    let board = board_with(
        &rt,
        &[
            (7, 6),
            (7, 7),
            (7, 8),
            (6, 7),
            (5, 7),
            (7, 10),
            (0, 13),
            (0, 14),
            (1, 14),
            (13, 0),
            (14, 0),
        ],
    );
    // the square, the direction, and the row, column and length of its run
    for ((row, column), dir, run) in [
        ((7, 7), Dir::Across, (7, 6, 3)),
        ((7, 8), Dir::Across, (7, 6, 3)),
        ((7, 7), Dir::Down, (5, 7, 3)),
        ((7, 6), Dir::Down, (7, 6, 1)),
        ((7, 10), Dir::Across, (7, 10, 1)),
        ((0, 13), Dir::Across, (0, 13, 2)),
        ((0, 14), Dir::Down, (0, 14, 2)),
        ((14, 0), Dir::Down, (13, 0, 2)),
        ((14, 0), Dir::Across, (14, 0, 1)),
    ] {
        let square = Square::new(row, column).expect(&rt, "a square");
        assert!(rt; board.at(square).is_some());
        let (start, len) = board.run(square, dir);
        assert_eq!(rt;
            (start.row(), start.column(), len),
            run,
            "{row}, {column}, {dir:?}"
        );
    }
}
