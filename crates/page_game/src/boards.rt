//! A board as a table.
ghost use Rattle.std.specs.Prelude.{◌<◌};

use game_board::tile_mark;
use page_pieces::{PageText, Piece};
use ref_board::{Dir, SIDE, Square};
use ref_tiles::{Kind, Premium, Rules, Tile};
use sheet_scores::Picture;
use std::alloc::AllocError;

/// The number of the centre, 8H.
const CENTRE: usize = 112;

/// The markup of an empty square up to its text: the class is the letter that a rules text has for its premium, and `x` if it is marked.
fn empty_begin(premium: Premium, is_marked: bool) -> &'static str {
    match (premium, is_marked) {
        (Premium::Plain, false) => "<td>",
        (Premium::Plain, true) => "<td class=x>",
        (Premium::DoubleLetter, false) => "<td class=d>",
        (Premium::DoubleLetter, true) => "<td class=\"d x\">",
        (Premium::TripleLetter, false) => "<td class=t>",
        (Premium::TripleLetter, true) => "<td class=\"t x\">",
        (Premium::DoubleWord, false) => "<td class=D>",
        (Premium::DoubleWord, true) => "<td class=\"D x\">",
        (Premium::TripleWord, false) => "<td class=T>",
        (Premium::TripleWord, true) => "<td class=\"T x\">",
    }
}

/// The text on an empty square: the first letters of the name of its premium.
fn premium_name(premium: Premium) -> &'static str {
    match premium {
        Premium::Plain => "",
        Premium::DoubleLetter => "DL",
        Premium::TripleLetter => "TL",
        Premium::DoubleWord => "DW",
        Premium::TripleWord => "TW",
    }
}

/// The markup of the centre, while it is free: a star.
fn centre(premium: Premium, is_marked: bool) -> [Piece<'static>; 2] {
    let begin = match (premium, is_marked) {
        (Premium::Plain, false) => "<td class=s>",
        (Premium::Plain, true) => "<td class=\"s x\">",
        _ => empty_begin(premium, is_marked),
    };
    [Piece::Markup(begin), Piece::Markup("&#9733;")]
}

/// The markup before the letter of a tile: a blank, a new tile and a new blank each have a class.
fn tile_begin(kind: Kind, is_marked: bool) -> &'static str {
    match (kind, is_marked) {
        (Kind::Letter(_), false) => "<td>",
        (Kind::Letter(_), true) => "<td class=n>",
        (Kind::Blank, false) => "<td class=b>",
        (Kind::Blank, true) => "<td class=m>",
    }
}

/// Appends a tile: its letter and its points.
fn push_tile(
    page: &mut PageText,
    rules: &Rules,
    tile: Tile,
    is_marked: bool,
) -> Result<(), AllocError> {
    let letter = [tile_mark(&tile)];
    page.push(&[
        Piece::Markup(tile_begin(tile.kind, is_marked)),
        Piece::Text(&letter),
        Piece::Number(i64::from(rules.points_of(tile.kind))),
    ])
}

/// Appends a square: its tile with the points, or the name of its premium.
fn push_square(
    page: &mut PageText,
    rules: &Rules,
    picture: &Picture,
    square: Square,
) -> Result<(), AllocError> {
    let is_marked = picture.is_marked(square);
    if let Some(tile) = picture.board.at(square) {
        return push_tile(page, rules, tile, is_marked);
    }
    let premium = rules.premium(square.number());
    if square.number() == CENTRE {
        return page.push(&centre(premium, is_marked));
    }
    page.push(&[
        Piece::Markup(empty_begin(premium, is_marked)),
        Piece::Markup(premium_name(premium)),
    ])
}

/// Appends a row, its number first.
fn push_row(
    page: &mut PageText,
    rules: &Rules,
    picture: &Picture,
    row: usize,
) -> Result<(), AllocError>
    requires { row < 15 }
{
    page.push(&[Piece::Markup("<tr><th>"), Piece::Many(row + 1)])?;
    for column in 0..SIDE {
        let square = Square::on_line(Dir::Across, row, column);
        push_square(page, rules, picture, square)?;
    }
    Ok(())
}

/// Appends a board as a table: its columns A to O, its rows 1 to 15, each tile by its letter and its points, each empty premium square by the
/// first letters of its name, and the free centre by a star. The ends of rows and cells are left out, as HTML allows: a board of 100 tiles has
/// about 1,700 bytes.
pub fn push_board(page: &mut PageText, rules: &Rules, picture: &Picture) -> Result<(), AllocError> {
    page.push(&[Piece::Markup(
        "<table class=\"board\"><tr><td><th>A<th>B<th>C<th>D<th>E<th>F<th>G<th>H<th>I<th>J<th>K<th>L<th>M<th>N<th>O",
    )])?;
    for row in 0..SIDE {
        push_row(page, rules, picture, row)?;
    }
    page.push(&[Piece::Markup("</table>")])
}
