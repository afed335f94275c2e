//! Settles records and shows what was found, for a judge that checks it: `tool_settle WORDS RULES BUDGET RECORD..`. `-` stands for the rules of the
//! English game, and for the usual budget. For each record it prints its name; then `dealt`, and for each step both racks and what is thrown; or
//! `cut`, the kinds that are counted, whether the steps before the last of these have a deal, `dealt` or `unsettled`, and for each of the first steps
//! the places where they are; or `unknown`; or `refused`, if the events are not allowed. The processor time in nanoseconds comes last. All of it is
//! printed at the end.
#![tactic(auto)]

mod reports;

use crate::reports::Report;
use deal_search::{Settling, settle, settle_within};
use deal_steps::Step;
use game_deal::all_steps;
use game_turns::play_through;
use gcg_read::{Record, read};
use io_devices::{FromRead, read_within};
use lex_list::WordList;
use ref_tiles::{Rules, english_rules};
use std::alloc::Global;
use std::process::ExitCode;
use std::rt::Runtime;
use std::time::CpuClock;
use std::{env, fs};

/// The greatest number of bytes of an input.
const LIMIT: usize = 64 << 20;

fn main(rt: HostRuntime) -> ExitCode {
    let mut report = Report::new(rt.alloc());
    let is_reported = report_all(&rt, &mut report).is_some();
    let is_printed = rt.print(report.text()).is_ok();
    ExitCode::from(if is_reported && report.is_whole() && is_printed {
        0
    } else {
        64
    })
}

/// What records are settled by.
#[derive(Clone, Copy)]
struct Judge<'a> {
    list: &'a WordList,
    rules: &'a Rules,
    budget: Option<usize>,
}

/// Settles the records that the arguments name. It prints nothing if an input cannot be read.
fn report_all<R: Runtime + AllocGlobal + CpuClock>(rt: &R, report: &mut Report) -> Option<()> {
    let args: Vec<String> = env::args(rt).ok()?.collect(rt.alloc()).ok()?;
    let [_, words, rules, budget, names @ ..] = args.as_slice() else {
        return None;
    };
    let text = bytes_of(rt, words.as_str())?;
    let list = WordList::read(rt.alloc(), text.as_slice()).ok()?;
    let judge = Judge {
        list: &list,
        rules: &rules_of(rt, rules.as_str())?,
        budget: budget.as_str().parse::<usize>().ok(),
    };
    report_records(rt, &judge, names, report)
}

/// Settles the records of these names.
fn report_records<R: Runtime + AllocGlobal + CpuClock>(
    rt: &R,
    judge: &Judge<'_>,
    names: &[String],
    report: &mut Report,
) -> Option<()> {
    for name in names {
        report.push_line(name.as_str());
        let record = record_of(rt, name.as_str())?;
        report_record(rt, judge, &record, report)?;
    }
    Some(())
}

/// The bytes of a file.
fn bytes_of<R: Runtime + AllocGlobal>(rt: &R, name: &str) -> Option<Vec<u8>> {
    let mut input = FromRead::new(fs::open(rt, name).ok()?);
    read_within(rt.alloc(), &mut input, LIMIT).ok()
}

/// The rules of a text, or the English ones.
fn rules_of<R: Runtime + AllocGlobal>(rt: &R, name: &str) -> Option<Rules> {
    if name == "-" {
        return Some(english_rules());
    }
    let text = bytes_of(rt, name)?;
    Rules::read(text.as_slice()).ok()
}

/// The record of a file.
fn record_of<R: Runtime + AllocGlobal>(rt: &R, name: &str) -> Option<Record> {
    let text = bytes_of(rt, name)?;
    read(rt.alloc(), text.as_slice()).ok()
}

/// Settles a record.
fn report_record<R: Runtime + AllocGlobal + CpuClock>(
    rt: &R,
    judge: &Judge<'_>,
    record: &Record,
    report: &mut Report,
) -> Option<()> {
    let Ok(passed) = play_through(judge.rules, record, judge.list) else {
        report.push_line("refused");
        return Some(());
    };
    let all = all_steps(rt.alloc(), &passed).ok()?;
    report_steps(rt, judge, all.as_slice(), report)
}

/// Settles steps, and prints the time that it took.
fn report_steps<R: Runtime + AllocGlobal + CpuClock>(
    rt: &R,
    judge: &Judge<'_>,
    steps: &[Step],
    report: &mut Report,
) -> Option<()> {
    let start = rt.process_cpu_time().ok()?;
    let settled = settled_by(rt.alloc(), judge, steps)?;
    let spent = rt.process_cpu_time().ok()?.saturating_sub(start);
    report.push_settled(steps, &settled);
    report.push_time(spent.as_nanos());
    Some(())
}

/// What is found of steps with the budget.
fn settled_by(alloc: Global, judge: &Judge<'_>, steps: &[Step]) -> Option<Settling> {
    match judge.budget {
        Some(looks) => settle_within(alloc, judge.rules, steps, looks).ok(),
        None => settle(alloc, judge.rules, steps).ok(),
    }
}
