//! What repairs a text that is not a record because of one of its lines.
ghost use Rattle.std.specs.Prelude.{◌≡◌, ◌++◌, ◌<◌, true, [], None, length, IfOk, OnOk};
ghost use Rattle.std.specs.List.{count_by};
ghost use Rattle.repair_answers.specs.BadRecords.{costs, lines_at, all_lines, AreLineRepairs};
ghost use Rattle.repair_answers.specs.Choices.{IsChoice};

use crate::choices::Choice;
use crate::sheet_choices::with_sheets;
use crate::sheet_repair::SheetRepair;
use crate::sheets::line_repairs;
use lex_list::WordList;
use ref_tiles::Rules;
use std::alloc::{AllocError, Global};

/// Repairs of a text that cost the same.
#[derive(Clone, Copy)]
pub struct SameCost {
    /// The number of the first.
    pub first: usize,
    /// How many of them there are.
    pub many: usize,
}

/// What repairs a text that is not a record because of one of its lines.
#[derive(Drop)]
pub struct LineRepairs {
    /// The slips of the line with which it is a record, and a game as far as is known: those that cost least first.
    pub found: Vec<SheetRepair>,
    /// The first of them in lines: those that cost the same are listed together.
    pub lines: Vec<SameCost>,
}

/// How many of some repairs have this cost.
fn count_with(found: &[SheetRepair], cost: u128) -> usize
    ensures { result ≡ count_by (costs cost) found.now }
{
    found.iter().filter(|repair| repair.cost == cost).count()
}

/// Adds the line of the repairs that cost what the one with a number does, if that is the first of them.
fn push_line_of_first(
    lines: &mut Vec<SameCost>,
    found: &[SheetRepair],
    number: usize,
) -> Result<(), AllocError>
    requires { number < length found.now }
    ensures { OnOk result (lines.new.items ≡ lines.old.items ++ lines_at found.now number) }
{
    let cost = found[number].cost;
    if count_with(&found[..number], cost) == 0 {
        lines.push(SameCost {
            first: number,
            many: count_with(found, cost),
        })?;
    }
    Ok(())
}

/// The lines of some repairs.
#[tactic(auto, using(crate::proofs::LinesFound::line_more))]
fn all_lines(alloc: Global, found: &[SheetRepair]) -> Result<Vec<SameCost>, AllocError>
    ensures { IfOk result (λ lines. lines.items ≡ all_lines found.now) }
{
    let mut lines = Vec::new(alloc);
    for number in 0..found.len() {
        push_line_of_first(&mut lines, found, number)?;
    }
    Ok(lines)
}

/// What repairs a text that is not a record because of the line with this number, in at most `most` lines.
///
/// It fails only if memory runs out.
pub(crate) fn repairs_of_line(
    alloc: Global,
    rules: &Rules,
    list: &WordList,
    text: &[u8],
    number: u32,
    most: usize,
) -> Result<LineRepairs, AllocError>
    ensures { IfOk result (AreLineRepairs rules.now list.now text.now number most) }
{
    let found = line_repairs(alloc, rules, list, text, number)?;
    let mut lines = all_lines(alloc, found.as_slice())?;
    lines.truncate(most);
    Ok(LineRepairs { found, lines })
}

/// Whether one of the repairs of a text that is not a record is to be chosen.
pub fn choice_of_line(repairs: &LineRepairs) -> Choice<'_>
    ensures { IsChoice [] true [] repairs.now.found.items None result }
{
    match repairs.found.as_slice() {
        [] => Choice::None,
        [first, rest @ ..] => with_sheets(Choice::None, first, rest, &[], &[], &None),
    }
}
