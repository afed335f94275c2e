//! The statement of one line of a rules text.
ghost use Rattle.std.specs.Prelude.{◌≡◌, ◌≢◌, ◌<◌, ◌∷◌, [], IfNone, IfSome, length};
ghost use Rattle.ref_tiles.specs.Statements.{kind_in, row_in, parameter_in, tile_of, row_of, tile_in, premiums_in, number_in, statement_in, statement_of, IsPlace, IsLinePlace};
ghost use Rattle.text_lines.specs.Fields.{fields_of};

use crate::counting::KINDS;
use crate::kinds::Kind;
use crate::premiums::Premium;
use crate::rulebook::SIDE;
use crate::rules_faults::RulesWhy;
use text_lines::{next_field, numeral};

/// The maximum number of digits of a number of a rules text.
const MAX_DIGITS: usize = 3;

/// The item of the first row.
pub const FIRST_ROW: usize = KINDS;

/// The item of the bonus, the first of the parameters.
pub const BONUS: usize = 42;

/// The item of the minimum number of tiles in the bag for an exchange.
pub const EXCHANGE_MIN: usize = 43;

/// The item of the number of scoreless turns.
pub const ZERO_LIMIT: usize = 44;

/// The item of the points for a challenged word.
pub const CHALLENGE_UNIT: usize = 45;

/// The item of the unit of time penalties.
pub const TIME_STEP: usize = 46;

/// The number of items that a rules text states: 27 tiles, 15 rows and 5 parameters.
pub const ITEMS: usize = 47;

/// What a line of a rules text states of its item.
#[derive(Clone, Copy)]
pub enum Entry {
    /// The number of tiles of a kind, and the points of each.
    Tile { count: u32, points: u32 },
    /// The premiums of a row, from column A on.
    Row([Premium; SIDE]),
    /// The number of a parameter.
    Number(u32),
}

/// What a line of a rules text states.
#[derive(Clone, Copy)]
pub struct Statement {
    /// What it is about: 0 to 25 for the tiles A to Z, 26 for `?`, then the 15 rows, then the 5 parameters.
    pub item: usize,
    /// What it states about the item.
    pub entry: Entry,
}

/// The tile that a field names.
fn kind(name: &[u8]) -> Option<Kind>
    ensures { result ≡ kind_in name.now }
{
    match name {
        [byte] => Kind::of_byte(*byte),
        _ => None,
    }
}

/// The row that one or two digits name, 1 to 15, counted from 0; none for any other bytes.
pub fn row_of_digits(digits: &[u8]) -> Option<usize>
    ensures row { result ≡ row_in digits.now }
    ensures in_range { IfSome result (λ n. n < 15) }
{
    let number = numeral(2, digits)? as usize;
    if 1 <= number && number <= SIDE {
        Some(number - 1)
    } else {
        None
    }
}

/// The item of the parameter that a field names.
#[tactic(auto, unfolding(crate::specs::Statements::parameter_in))]
fn parameter(name: &[u8]) -> Option<usize>
    ensures item { result ≡ parameter_in name.now }
    ensures in_range { IfSome result (λ n. n < 47) }
{
    if name == b"bonus".as_slice() {
        Some(BONUS)
    } else if name == b"exchange_min".as_slice() {
        Some(EXCHANGE_MIN)
    } else if name == b"zero_limit".as_slice() {
        Some(ZERO_LIMIT)
    } else if name == b"challenge_unit".as_slice() {
        Some(CHALLENGE_UNIT)
    } else if name == b"time_step".as_slice() {
        Some(TIME_STEP)
    } else {
        None
    }
}

/// The premiums that the 15 codes of a row name.
fn premiums(codes: &[u8]) -> Option<[Premium; SIDE]>
    ensures { result ≡ premiums_in codes.now }
{
    if codes.len() != SIDE {
        return None;
    }
    let mut premiums = [Premium::Plain; SIDE];
    for (column, code) in codes.iter().enumerate() {
        premiums[column] = Premium::of_code(*code)?;
    }
    Some(premiums)
}

/// The only field of a text; none unless it has exactly one.
fn one_field(text: &[u8]) -> Option<&[u8]>
    ensures none { IfNone result (length (fields_of text.now) ≢ 1) }
    ensures fields { IfSome result (λ field. fields_of text.now ≡ field.now ∷ []) }
{
    let field = next_field(text)?;
    if next_field(field.after).is_some() {
        return None;
    }
    Some(field.bytes)
}

/// The two fields of a text; none unless it has exactly two.
fn two_fields(text: &[u8]) -> Option<(&[u8], &[u8])>
    ensures none { IfNone result (length (fields_of text.now) ≢ 2) }
    ensures fields { IfSome result (λ pair. fields_of text.now ≡ pair.0.now ∷ pair.1.now ∷ []) }
{
    let first = next_field(text)?;
    let second = one_field(first.after)?;
    Some((first.bytes, second))
}

/// The three fields of a text; none unless it has exactly three.
fn three_fields(text: &[u8]) -> Option<(&[u8], &[u8], &[u8])>
    ensures none { IfNone result (length (fields_of text.now) ≢ 3) }
    ensures fields { IfSome result (λ all. fields_of text.now ≡ all.0.now ∷ all.1.now ∷ all.2.now ∷ []) }
{
    let first = next_field(text)?;
    let (second, third) = two_fields(first.after)?;
    Some((first.bytes, second, third))
}

/// What is stated of a tile.
#[tactic(auto, unfolding(crate::specs::Statements::tile_of))]
fn tile(name: &[u8], count: &[u8], points: &[u8]) -> Result<Statement, RulesWhy>
    ensures statement { result ≡ tile_of name.now count.now points.now }
    ensures place { IsPlace result }
{
    let Some(kind) = kind(name) else {
        return Err(RulesWhy::Name);
    };
    let Some(count) = numeral(MAX_DIGITS, count) else {
        return Err(RulesWhy::Number);
    };
    let Some(points) = numeral(MAX_DIGITS, points) else {
        return Err(RulesWhy::Number);
    };
    if kind.number() == Kind::Blank.number() && points > 0 {
        return Err(RulesWhy::Number);
    }
    Ok(Statement {
        item: kind.number(),
        entry: Entry::Tile { count, points },
    })
}

/// The statement of a line about a tile, after its first field.
#[tactic(auto, using(crate::proofs::FieldCounts::tile_of_others), unfolding(crate::specs::Statements::tile_in))]
fn read_tile(text: &[u8]) -> Result<Statement, RulesWhy>
    ensures statement { result ≡ tile_in (fields_of text.now) }
    ensures place { IsPlace result }
{
    let Some((name, count, points)) = three_fields(text) else {
        return Err(RulesWhy::Fields);
    };
    tile(name, count, points)
}

/// The statement of a line about a row, after its first field.
#[tactic(auto, using(crate::proofs::FieldCounts::row_of_others), unfolding(crate::specs::Statements::row_of))]
fn read_row(text: &[u8]) -> Result<Statement, RulesWhy>
    ensures statement { result ≡ row_of (fields_of text.now) }
    ensures place { IsPlace result }
{
    let Some((number, codes)) = two_fields(text) else {
        return Err(RulesWhy::Fields);
    };
    let Some(row) = row_of_digits(number) else {
        return Err(RulesWhy::Name);
    };
    let Some(premiums) = premiums(codes) else {
        return Err(RulesWhy::Name);
    };
    Ok(Statement {
        item: FIRST_ROW + row,
        entry: Entry::Row(premiums),
    })
}

/// The statement of a line about a parameter, after its first field.
#[tactic(auto, using(crate::proofs::FieldCounts::number_of_others), unfolding(crate::specs::Statements::number_in))]
fn read_number(item: usize, text: &[u8]) -> Result<Statement, RulesWhy>
    requires { item < 47 }
    ensures statement { result ≡ number_in item (fields_of text.now) }
    ensures place { IsPlace result }
{
    let Some(digits) = one_field(text) else {
        return Err(RulesWhy::Fields);
    };
    let Some(number) = numeral(MAX_DIGITS, digits) else {
        return Err(RulesWhy::Number);
    };
    Ok(Statement {
        item,
        entry: Entry::Number(number),
    })
}

/// The statement of a line with this first field and this text after it.
#[tactic(auto, unfolding(crate::specs::Statements::statement_in))]
fn read_statement(first: &[u8], text: &[u8]) -> Result<Statement, RulesWhy>
    ensures statement { result ≡ statement_in first.now (fields_of text.now) }
    ensures place { IsPlace result }
{
    if first == b"tile".as_slice() {
        return read_tile(text);
    }
    if first == b"row".as_slice() {
        return read_row(text);
    }
    let Some(item) = parameter(first) else {
        return Err(RulesWhy::Unknown);
    };
    read_number(item, text)
}

/// What a line states, or its fault; nothing for a line that is ignored.
#[tactic(auto, unfolding(crate::specs::Statements::statement_of))]
pub fn read_line(line: &[u8]) -> Result<Option<Statement>, RulesWhy>
    ensures statement { result ≡ statement_of line.now }
    ensures place { IsLinePlace result }
{
    if let [b'#', ..] = line {
        return Ok(None);
    }
    let Some(first) = next_field(line) else {
        return Ok(None);
    };
    match read_statement(first.bytes, first.after) {
        Ok(statement) => Ok(Some(statement)),
        Err(why) => Err(why),
    }
}
