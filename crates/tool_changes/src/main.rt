//! Shows the single changes of records, for a judge that lists them too: `tool_changes WORDS RULES RECORD..`. `-` stands for the rules of
//! the English game. For each record it goes to the first event that is not allowed, and prints for each change at the places up to there
//! the place, what it weighs, and the record with the change in the normal form. All of it is printed at the end.
#![tactic(auto)]

ghost use Rattle.std.specs.Prelude.{◌≤◌, length};

use game_turns::Machine;
use gcg_read::{Record, read};
use gcg_write::write;
use io_devices::{FromRead, read_within};
use itoa::Buffer;
use lex_list::WordList;
use ref_tiles::{Rules, english_rules};
use repair_changes::{Change, apply, weight_of};
use repair_slips::slips_at;
use std::alloc::{AllocError, Global};
use std::io::Write;
use std::process::ExitCode;
use std::rt::Runtime;
use std::{env, fs, io};

/// The greatest number of bytes of an input.
const LIMIT: usize = 64 << 20;

fn main(rt: HostRuntime) -> ExitCode {
    let mut report = Vec::new(rt.alloc());
    let is_reported = report_all(&rt, &mut report).is_some();
    let is_printed = io::writer(&rt).write_all(report.as_slice()).is_ok();
    ExitCode::from(if is_reported && is_printed { 0 } else { 64 })
}

/// Prints the changes of the records that the arguments name. It prints nothing if an input cannot be read.
fn report_all<R: Runtime + AllocGlobal>(rt: &R, report: &mut Vec<u8>) -> Option<()> {
    let args: Vec<String> = env::args(rt).ok()?.collect(rt.alloc()).ok()?;
    let [_, words, rules, names @ ..] = args.as_slice() else {
        return None;
    };
    let text = bytes_of(rt, words.as_str())?;
    let list = WordList::read(rt.alloc(), text.as_slice()).ok()?;
    let rules = rules_of(rt, rules.as_str())?;
    for name in names {
        let text = bytes_of(rt, name.as_str())?;
        report_record(rt.alloc(), &rules, &list, text.as_slice(), report)?;
    }
    Some(())
}

/// The bytes of a file.
fn bytes_of<R: Runtime + AllocGlobal>(rt: &R, name: &str) -> Option<Vec<u8>> {
    let mut input = FromRead::new(fs::open(rt, name).ok()?);
    read_within(rt.alloc(), &mut input, LIMIT).ok()
}

/// The rules of a text, or the English ones.
fn rules_of<R: Runtime + AllocGlobal>(rt: &R, name: &str) -> Option<Rules> {
    if name == "-" {
        return Some(english_rules());
    }
    let text = bytes_of(rt, name)?;
    Rules::read(text.as_slice()).ok()
}

/// Prints the changes of the record of a text, up to the first event that is not allowed.
fn report_record(
    alloc: Global,
    rules: &Rules,
    list: &WordList,
    text: &[u8],
    report: &mut Vec<u8>,
) -> Option<()> {
    let written = read(alloc, text).ok()?;
    let mut shown = read(alloc, text).ok()?;
    let events = written.events.as_slice();
    let mut game = Machine::new(rules);
    for place in 0..=events.len() {
        report_place(alloc, rules, &game, &written, place, &mut shown, report).ok()?;
        let Some(event) = events.get(place) else {
            break;
        };
        if game.step(event, events.get(place + 1), list).is_err() {
            break;
        }
    }
    Some(())
}

/// Prints the changes at a place.
fn report_place(
    alloc: Global,
    rules: &Rules,
    game: &Machine,
    written: &Record,
    place: usize,
    shown: &mut Record,
    report: &mut Vec<u8>,
) -> Result<(), AllocError>
    requires { place ≤ length written.now.events }
{
    let events = written.events.as_slice();
    for slip in slips_at(alloc, rules, game, events, place)? {
        push_numbers(place, weight_of(&slip), report)?;
        let change = Change { place, slip };
        shown.events = apply(alloc, &change, events)?;
        write(shown, report)?;
        report.push(b'\n')?;
    }
    Ok(())
}

/// Appends the place and the weight of a change on a line of their own.
fn push_numbers(place: usize, weight: usize, report: &mut Vec<u8>) -> Result<(), AllocError> {
    let mut buffer = Buffer::new();
    report.extend_from_slice(buffer.format(place).as_bytes())?;
    report.push(b' ')?;
    report.extend_from_slice(buffer.format(weight).as_bytes())?;
    report.push(b'\n')?;
    Ok(())
}
