//! The written numbers of a draft that are wrong.
ghost use Rattle.std.specs.Prelude.{◌≡◌, ◌++◌, min, if◌then◌else◌, IfOk, OnOk, Some};
ghost use Rattle.std.specs.Option.{option_copied};
ghost use Rattle.gcg_read.specs.Numerals.{IsPoints};
ghost use Rattle.game_corrections.specs.WrongNumbers.{wrong_sum};
ghost use Rattle.draft_numbers.specs.Numbers.{said, wrong_score, wrong_on, wrong_written};

use crate::totals::{Had, total_on};
use game_corrections::{WrongNumber, is_right_sum};
use game_walk::Numbers;
use gcg_drafts::Missing;
use gcg_read::{Event, Points};
use std::alloc::{AllocError, Global};

/// What is said of a line: it lacks nothing, if nothing is said.
fn said(missing: Option<&Missing>) -> Missing
    ensures { result ≡ said (option_copied missing.entry) }
{
    match missing {
        None => Missing::Nothing,
        Some(missing) => *missing,
    }
}

/// Adds the score of a line, if it is not the right one.
fn push_score(
    wrong: &mut Vec<WrongNumber>,
    written: &Event,
    right: Points,
) -> Result<(), AllocError>
    ensures { OnOk result (wrong.new.items ≡ wrong.old.items ++ wrong_score written.now right) }
{
    if written.score.value() != right.value() {
        wrong.push(WrongNumber::Score {
            line: written.line,
            written: written.score.value(),
            right: right.value(),
        })?;
    }
    Ok(())
}

/// Adds the total of a line, if it is neither what its player had and the score nor the right one.
fn push_sum(
    wrong: &mut Vec<WrongNumber>,
    had: i32,
    written: &Event,
    right: Option<i32>,
) -> Result<(), AllocError>
    requires { IsPoints had }
    ensures { OnOk result (wrong.new.items ≡ wrong.old.items ++ wrong_sum had written.now right) }
{
    if is_right_sum(written.total, had, written.score, right) {
        return Ok(());
    }
    wrong.push(WrongNumber::Sum {
        line: written.line,
        written: written.total.value(),
        sum: had + written.score.value(),
        right,
    })?;
    Ok(())
}

/// Adds the score and the total of a line, if they are wrong.
fn push_both(
    wrong: &mut Vec<WrongNumber>,
    had: Points,
    written: &Event,
    right: &Numbers,
) -> Result<(), AllocError>
    ensures { OnOk result (wrong.new.items ≡ wrong.old.items ++ (wrong_score written.now right.now.score ++ wrong_sum had written.now (Some right.now.total))) }
{
    push_score(wrong, written, right.score)?;
    push_sum(wrong, had.value(), written, Some(right.total.value()))?;
    Ok(())
}

/// Adds those numbers of a line that are written and wrong.
fn push_wrong(
    wrong: &mut Vec<WrongNumber>,
    missing: Missing,
    had: Points,
    written: &Event,
    right: &Numbers,
) -> Result<(), AllocError>
    ensures { OnOk result (wrong.new.items ≡ wrong.old.items ++ wrong_on missing had written.now right.now) }
{
    match missing {
        Missing::Both => Ok(()),
        Missing::Total => push_score(wrong, written, right.score),
        Missing::Nothing => push_both(wrong, had, written, right),
    }
}

/// The lesser of two numbers.
fn lesser(number: usize, other: usize) -> usize
    ensures { result ≡ min number other }
{
    if number < other { number } else { other }
}

/// The written numbers of a draft that are wrong, in the order of its lines, by what each of them lacks and by the right numbers.
///
/// It fails only if memory runs out.
#[tactic(auto, using(crate::proofs::Numbered::one_more_line, crate::proofs::Numbered::all_lines), unfolding(crate::specs::Numbers::wrong_written))]
pub fn wrong_written(
    alloc: Global,
    lacks: &[Missing],
    written: &[Event],
    right: &[Numbers],
) -> Result<Vec<WrongNumber>, AllocError>
    ensures { IfOk result (λ wrong. wrong.items ≡ wrong_written lacks.now written.now right.now) }
{
    let mut wrong = Vec::new(alloc);
    let mut had = Had::nothing();
    let end = lesser(written.len(), right.len());
    for place in 0..end {
        let missing = said(lacks.get(place));
        let line = &written[place];
        let due = &right[place];
        let before = had.of(line.player);
        push_wrong(&mut wrong, missing, before, line, due)?;
        had.note(line.player, total_on(missing, before, line, due));
    }
    Ok(wrong)
}
