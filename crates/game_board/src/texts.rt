//! The board of a record as a text.
ghost use Rattle.std.specs.Prelude.{◌≡◌, ◌<◌, ◌≤◌, ◌+◌, ◌∷◌, ◌++◌, [], OnOk, IfOk, length, slice_get, codes, decimal};
ghost use Rattle.std.specs.Fmt.{signed_decimal};
ghost use Rattle.std.specs.Option.{option_copied};
ghost use Rattle.ref_play.specs.Faults.{name_of};
ghost use Rattle.game_board.specs.Laying.{board_before};
ghost use Rattle.game_board.specs.Texts.{place_text, refusal_text, end_text, row_name, cell_text, row_line, rows_text, columns_line, marks_lines, squares_text, count_line, player_line, short_nick, rack_text, players_text, counted_kind, kinds_line, off_text, board_text};

use crate::laying::Laying;
use crate::marks::square_mark;
use crate::tiles::{off_board, tiles_off};
use game_corrections::had_before;
use gcg_read::{Event, Record, Seat};
use gcg_write::tiles_text;
use ref_board::{Board, Dir, SIDE, Square};
use ref_play::PlayFault;
use ref_tiles::{Kind, Rules};
use std::alloc::{AllocError, Global};
use text_decimals::push_number;

/// The maximum number of bytes of a nickname that are written.
const NICK: usize = 60;

/// Appends that it is the board before a line.
fn push_before(text: &mut Vec<u8>, line: u32) -> Result<(), AllocError>
    ensures { OnOk result (text.new.items ≡ text.old.items ++ (codes "board before line " ++ decimal line)) }
{
    text.extend_from_slice(b"board before line ")?;
    push_number(text, line)?;
    Ok(())
}

/// Appends which board it is.
#[tactic(auto, unfolding(crate::specs::Texts::place_text))]
fn push_place(text: &mut Vec<u8>, event: Option<&Event>) -> Result<(), AllocError>
    ensures { OnOk result (text.new.items ≡ text.old.items ++ place_text (option_copied event.entry)) }
{
    let Some(event) = event else {
        text.extend_from_slice(b"board after the last event")?;
        return Ok(());
    };
    push_before(text, event.line)
}

/// Appends the name of a fault.
fn push_name(text: &mut Vec<u8>, why: PlayFault) -> Result<(), AllocError>
    ensures { OnOk result (text.new.items ≡ text.old.items ++ name_of why) }
{
    text.extend_from_slice(why.name().as_bytes())
}

/// Appends why the play of the line cannot be laid.
fn push_refusal(text: &mut Vec<u8>, why: PlayFault) -> Result<(), AllocError>
    ensures { OnOk result (text.new.items ≡ text.old.items ++ refusal_text why) }
{
    text.extend_from_slice(b", whose play cannot be laid: ")?;
    push_name(text, why)?;
    Ok(())
}

/// Appends the same if it cannot, and the end of the line.
#[tactic(auto, unfolding(crate::specs::Texts::end_text))]
fn push_end(text: &mut Vec<u8>, why: Option<PlayFault>) -> Result<(), AllocError>
    ensures { OnOk result (text.new.items ≡ text.old.items ++ end_text why) }
{
    let Some(why) = why else {
        text.push(b'\n')?;
        return Ok(());
    };
    push_refusal(text, why)?;
    text.push(b'\n')?;
    Ok(())
}

/// The event at a place of a record, if there is one.
#[tactic(auto, using(game_turns::proofs::PlaceLaws::copied_get))]
fn event_at(game: &Record, place: usize) -> Option<&Event>
    ensures { option_copied result ≡ slice_get game.now.events place }
{
    game.events.as_slice().get(place)
}

/// Appends the number of a row, counted from 1, in two places.
#[tactic(auto, unfolding(crate::specs::Texts::row_name))]
fn push_row_name(text: &mut Vec<u8>, row: usize) -> Result<(), AllocError>
    requires { row < 15 }
    ensures { OnOk result (text.new.items ≡ text.old.items ++ row_name row) }
{
    if row < 9 {
        text.push(b' ')?;
    }
    push_number(text, row + 1)
}

/// Appends the mark of a square after a space.
fn push_cell(
    text: &mut Vec<u8>,
    rules: &Rules,
    board: &Board,
    row: usize,
    column: usize,
) -> Result<(), AllocError>
    requires row { row < 15 }
    requires column { column < 15 }
    ensures { OnOk result (text.new.items ≡ text.old.items ++ cell_text rules.now board.now row column) }
{
    let square = Square::on_line(Dir::Across, row, column);
    text.push(b' ')?;
    text.push(square_mark(rules, board, square))?;
    Ok(())
}

/// Appends the line of a row.
#[tactic(auto, unfolding(crate::specs::Texts::row_line))]
fn push_row(text: &mut Vec<u8>, rules: &Rules, board: &Board, row: usize) -> Result<(), AllocError>
    requires { row < 15 }
    ensures { OnOk result (text.new.items ≡ text.old.items ++ row_line rules.now board.now row) }
{
    push_row_name(text, row)?;
    for column in 0..SIDE {
        push_cell(text, rules, board, row, column)?;
    }
    text.push(b'\n')?;
    Ok(())
}

/// Appends the lines of all rows.
fn push_rows(text: &mut Vec<u8>, rules: &Rules, board: &Board) -> Result<(), AllocError>
    ensures { OnOk result (text.new.items ≡ text.old.items ++ rows_text rules.now board.now 15) }
{
    for row in 0..SIDE {
        push_row(text, rules, board, row)?;
    }
    Ok(())
}

/// Appends the names of the columns.
#[tactic(auto, unfolding(crate::specs::Texts::columns_line))]
fn push_columns(text: &mut Vec<u8>) -> Result<(), AllocError>
    ensures { OnOk result (text.new.items ≡ text.old.items ++ columns_line) }
{
    text.extend_from_slice(b"   A B C D E F G H I J K L M N O\n")
}

/// Appends what the marks mean.
#[tactic(auto, unfolding(crate::specs::Texts::marks_lines))]
fn push_marks(text: &mut Vec<u8>) -> Result<(), AllocError>
    ensures { OnOk result (text.new.items ≡ text.old.items ++ marks_lines) }
{
    text.extend_from_slice(
        b"= triple word, - double word, \" triple letter, ' double letter\nsmall letters are blanks\n",
    )
}

/// Appends the names of the columns, the rows, and what the marks mean.
fn push_squares(text: &mut Vec<u8>, rules: &Rules, board: &Board) -> Result<(), AllocError>
    ensures { OnOk result (text.new.items ≡ text.old.items ++ squares_text rules.now board.now) }
{
    push_columns(text)?;
    push_rows(text, rules, board)?;
    push_marks(text)?;
    Ok(())
}

/// The first bytes of a nickname.
#[tactic(auto, unfolding(crate::specs::Texts::short_nick))]
fn short_nick(nick: &[u8]) -> &[u8]
    ensures { result.now ≡ short_nick nick.now }
{
    if nick.len() > NICK {
        &nick[..NICK]
    } else {
        nick
    }
}

/// Appends the line of a player, with the last total written before a place.
#[tactic(auto, unfolding(crate::specs::Texts::player_line))]
fn push_player(
    text: &mut Vec<u8>,
    game: &Record,
    place: usize,
    player: Seat,
) -> Result<(), AllocError>
    requires { place ≤ length game.now.events }
    ensures { OnOk result (text.new.items ≡ text.old.items ++ player_line game.now place player) }
{
    text.extend_from_slice(short_nick(game.players.of(player).nick.as_bytes()))?;
    text.push(b' ')?;
    let total = had_before(game.events.as_slice(), player, place);
    push_number(text, total)?;
    text.push(b'\n')?;
    Ok(())
}

/// Appends the rack of an event, if its line has one.
#[tactic(auto, unfolding(crate::specs::Texts::rack_text))]
fn push_rack(text: &mut Vec<u8>, event: Option<&Event>) -> Result<(), AllocError>
    ensures { OnOk result (text.new.items ≡ text.old.items ++ rack_text (option_copied event.entry)) }
{
    let Some(event) = event else {
        return Ok(());
    };
    let Some(rack) = event.rack else {
        return Ok(());
    };
    text.extend_from_slice(b"rack ")?;
    tiles_text(&rack, text)?;
    text.push(b'\n')?;
    Ok(())
}

/// Appends the byte of a kind and the number of its tiles that are not on the board.
fn push_kind(text: &mut Vec<u8>, number: usize, off: usize) -> Result<(), AllocError>
    requires { number < 27 }
    ensures { OnOk result (text.new.items ≡ text.old.items ++ counted_kind number off) }
{
    text.extend_from_slice(b"  ")?;
    text.push(Kind::at(number).byte())?;
    text.push(b' ')?;
    push_number(text, off)
}

/// Appends the line of nine kinds.
#[tactic(auto, unfolding(crate::specs::Texts::kinds_line))]
fn push_kinds(
    text: &mut Vec<u8>,
    rules: &Rules,
    board: &Board,
    first: usize,
) -> Result<(), AllocError>
    requires { first ≤ 18 }
    ensures { OnOk result (text.new.items ≡ text.old.items ++ kinds_line rules.now board.now first) }
{
    for k in 0..9 {
        let number = first + k;
        push_kind(text, number, off_board(rules, board, number))?;
    }
    text.push(b'\n')?;
    Ok(())
}

/// Appends the number of tiles that are not on the board.
fn push_count(text: &mut Vec<u8>, rules: &Rules, board: &Board) -> Result<(), AllocError>
    ensures { OnOk result (text.new.items ≡ text.old.items ++ count_line rules.now board.now) }
{
    text.extend_from_slice(b"tiles not on the board: ")?;
    push_number(text, tiles_off(rules, board))?;
    text.push(b'\n')?;
    Ok(())
}

/// Appends the tiles that are not on the board.
fn push_off(text: &mut Vec<u8>, rules: &Rules, board: &Board) -> Result<(), AllocError>
    ensures { OnOk result (text.new.items ≡ text.old.items ++ off_text rules.now board.now) }
{
    push_count(text, rules, board)?;
    push_kinds(text, rules, board, 0)?;
    push_kinds(text, rules, board, 9)?;
    push_kinds(text, rules, board, 18)?;
    Ok(())
}

/// Appends both players and the rack of the line.
fn push_players(text: &mut Vec<u8>, game: &Record, place: usize) -> Result<(), AllocError>
    requires { place ≤ length game.now.events }
    ensures { OnOk result (text.new.items ≡ text.old.items ++ players_text game.now place) }
{
    push_player(text, game, place, Seat::First)?;
    push_player(text, game, place, Seat::Second)?;
    push_rack(text, event_at(game, place))?;
    Ok(())
}

/// The board of a record as a text: which board it is, and why laying ended if a play cannot be laid; the squares, with their rows
/// and columns named; both players with their last totals as they are written, and the rack of the line; and the tiles that are not
/// on the board. That no line has more than 80 bytes is tested.
///
/// It fails only if memory runs out.
pub fn board_text(
    alloc: Global,
    rules: &Rules,
    game: &Record,
    laying: &Laying,
) -> Result<Vec<u8>, AllocError>
    requires end { laying.now.end ≤ length game.now.events }
    requires board { laying.now.board ≡ board_before game.now.events laying.now.end }
    ensures { IfOk result (λ text. text.items ≡ board_text rules.now game.now laying.now.end laying.now.fault) }
{
    let mut text = Vec::new(alloc);
    push_place(&mut text, event_at(game, laying.end))?;
    push_end(&mut text, laying.fault)?;
    push_squares(&mut text, rules, &laying.board)?;
    push_players(&mut text, game, laying.end)?;
    push_off(&mut text, rules, &laying.board)?;
    Ok(text)
}
