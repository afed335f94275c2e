//! What a line says of a game.
ghost use Rattle.std.specs.Prelude.{◌≡◌, IfOk, option_map};
ghost use Rattle.std.specs.Cow.{cow_str_bytes};
ghost use Rattle.archive_lines.specs.Said.{IsBare, SaysEntry, SaysBadRecord, SaysUnread};

use crate::answers::{Answer, Ending, Unread, answer_of, ending_in};
use crate::faults::{expected_in, fault_in, line_in, line_of_fault, name_in, owned};
use crate::likely::LikelyFields;
use crate::pages::PageField;
use crate::players::{nick_of, total_of};
use game_case::Entry;
use gcg_about::Encoding;
use gcg_read::{ReadFault, Seat};
use std::alloc::{AllocError, Global};
use std::borrow::CowStr;

/// What a line says of a game, in the order in which it says it. What is not known, or does not apply, is `None`.
#[derive(Drop)]
pub struct Fields<'a> {
    /// The name of the file, as it was given.
    pub name: &'a str,
    /// The verdict.
    pub verdict: Answer,
    /// Whether a legal game has ended.
    pub ending: Option<Ending>,
    /// The line of the fault.
    pub line: Option<u32>,
    /// The fault, or why the game is unread.
    pub fault: Option<CowStr<'a, Global>>,
    /// How many events the record has.
    pub events: Option<usize>,
    /// The nickname of player 1.
    pub player1: Option<String>,
    /// The last total that the record has for player 1.
    pub total1: Option<i32>,
    /// The nickname of player 2.
    pub player2: Option<String>,
    /// The last total that the record has for player 2.
    pub total2: Option<i32>,
    /// How many plays stand with a word that is not listed.
    pub unlisted: Option<usize>,
    /// The page of the game; none if no pages are made, and then no line has the field.
    pub page: Option<PageField>,
    /// The likely repair of the game; none if no repairs are looked for, and then no line has its fields.
    pub likely: Option<LikelyFields>,
    /// The name of the fault of a game or a record, without a number or a tile after it. Only the JSON object has it.
    pub fault_name: Option<CowStr<'a, Global>>,
    /// The number that was expected instead of the wrong one. Only the JSON object has it.
    pub expected: Option<i32>,
    /// How many lines of the record are not read although they look like events.
    pub unread_lines: Option<usize>,
}

impl<'a> Fields<'a> {
    /// A line that says no more than a verdict and a fault.
    fn bare(
        name: &'a str,
        verdict: Answer,
        line: Option<u32>,
        fault: &'static str,
        fault_name: Option<CowStr<'a, Global>>,
    ) -> Fields<'a>
        ensures { IsBare name.entry verdict line fault.now (option_map cow_str_bytes fault_name.entry) result }
    {
        Fields {
            name,
            verdict,
            ending: None,
            line,
            fault: Some(CowStr::Borrowed(fault)),
            events: None,
            player1: None,
            total1: None,
            player2: None,
            total2: None,
            unlisted: None,
            page: None,
            likely: None,
            fault_name,
            expected: None,
            unread_lines: None,
        }
    }

    /// What is said of a game that was not read.
    pub fn unread(name: &'a str, why: Unread) -> Fields<'a>
        ensures { SaysUnread name.entry why result }
    {
        Fields::bare(name, Answer::Unread, None, why.name(), None)
    }

    /// What is said of a file that is not a record.
    pub fn bad_record(name: &'a str, fault: &ReadFault) -> Fields<'a>
        ensures { SaysBadRecord name.entry fault.now result }
    {
        let why = fault.why.name();
        Fields::bare(
            name,
            Answer::BadRecord,
            line_of_fault(fault),
            why,
            Some(CowStr::Borrowed(why)),
        )
    }

    /// What is said of the game of a record, whose nicknames are text by this encoding, and of which so many lines are not read.
    ///
    /// # Errors
    ///
    /// Memory was refused.
    pub fn of_entry(
        alloc: Global,
        name: &'a str,
        entry: &Entry,
        encoding: Encoding,
        unread: usize,
    ) -> Result<Fields<'a>, AllocError>
        ensures { IfOk result (SaysEntry name.entry entry.now encoding unread) }
    {
        let events = entry.record.events.as_slice();
        let players = &entry.record.players;
        let fault = fault_in(alloc, entry.finding)?;
        let fault_name = name_in(alloc, &fault)?;
        Ok(Fields {
            name,
            verdict: answer_of(entry.finding),
            ending: ending_in(entry.finding),
            line: line_in(entry.finding),
            fault: owned(fault),
            events: Some(events.len()),
            player1: nick_of(alloc, &players.first, encoding)?,
            total1: total_of(events, Seat::First),
            player2: nick_of(alloc, &players.second, encoding)?,
            total2: total_of(events, Seat::Second),
            unlisted: entry.unlisted,
            page: None,
            likely: None,
            fault_name: owned(fault_name),
            expected: expected_in(entry.finding),
            unread_lines: Some(unread),
        })
    }
}
