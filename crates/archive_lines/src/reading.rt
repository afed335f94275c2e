//! Reading a line back.

use crate::answers::Answer;
use crate::tab_reading::read_fields;
use serde::Deserialize;
use std::alloc::{AllocError, Global};
use std::str::{self, FromStr};

/// The least number of fields that a line with tabs has: one of earlier versions has no number of lines that are not read. A page is one more, and a
/// likely repair two more.
const FIELDS: usize = 11;

/// What a line of an archive says, as its reader has it: only the fields that name a game and its result.
#[derive(Drop)]
pub struct LineRead {
    /// The name of the file.
    pub name: String,
    /// The verdict.
    pub verdict: Answer,
    /// Whether a legal game has ended, in the word of the line.
    pub ending: Option<String>,
    /// The line of the fault.
    pub line: Option<u32>,
    /// The fault, or why the game is unread.
    pub fault: Option<String>,
    /// The nickname of player 1.
    pub player1: Option<String>,
    /// The last total of player 1.
    pub total1: Option<i32>,
    /// The nickname of player 2.
    pub player2: Option<String>,
    /// The last total of player 2.
    pub total2: Option<i32>,
    /// How many plays stand with a word that is not listed.
    pub unlisted: Option<usize>,
    /// The page, or why there is none.
    pub page: Option<String>,
    /// The likely repair, in words.
    pub likely: Option<String>,
}

/// The same as the JSON object of a line has it.
#[derive(Drop, Deserialize)]
struct ObjectRead {
    name: String,
    verdict: String,
    ending: Option<String>,
    line: Option<u32>,
    fault: Option<String>,
    player1: Option<String>,
    total1: Option<i32>,
    player2: Option<String>,
    total2: Option<i32>,
    #[serde(default)]
    unlisted: Option<usize>,
    #[serde(default)]
    page: Option<String>,
    #[serde(default)]
    likely: Option<LikelyRead>,
}

/// What the object of a line says of a likely repair.
#[derive(Drop, Deserialize)]
struct LikelyRead {
    change: Option<String>,
}

impl LineRead {
    /// What a line without its LF says, in either form; none if it is not a line of an archive. What it makes of the fields is tested.
    ///
    /// # Errors
    ///
    /// Memory was refused.
    pub fn of(alloc: Global, line: &[u8]) -> Result<Option<LineRead>, AllocError> {
        if line.contains(&b'\t') {
            LineRead::of_tabs(alloc, line)
        } else {
            LineRead::of_object(alloc, line)
        }
    }

    /// What a line says whose fields are separated by tabs.
    fn of_tabs(alloc: Global, line: &[u8]) -> Result<Option<LineRead>, AllocError> {
        if str::from_utf8(line).is_err() {
            return Ok(None);
        }
        let fields = read_fields(alloc, line)?;
        if fields.len() < FIELDS || fields.len() > FIELDS + 4 {
            return Ok(None);
        }
        LineRead::of_fields(alloc, fields.as_slice())
    }

    /// What the fields of a line say.
    fn of_fields(alloc: Global, fields: &[Vec<u8>]) -> Result<Option<LineRead>, AllocError> {
        let (Some(verdict), Some(numbers)) = (answer_in(fields), Numbers::of(fields)) else {
            return Ok(None);
        };
        Ok(Some(LineRead {
            name: String::from_str(alloc, text_at(fields, 0))?,
            verdict,
            ending: shown_at(alloc, fields, 2)?,
            line: numbers.line,
            fault: shown_at(alloc, fields, 4)?,
            player1: shown_at(alloc, fields, 6)?,
            total1: numbers.total1,
            player2: shown_at(alloc, fields, 8)?,
            total2: numbers.total2,
            unlisted: numbers.unlisted,
            page: page_in(alloc, fields)?,
            likely: likely_in(alloc, fields)?,
        }))
    }

    /// What a line says that is a JSON object.
    fn of_object(alloc: Global, line: &[u8]) -> Result<Option<LineRead>, AllocError> {
        match serde_json::from_slice::<ObjectRead>(alloc, line) {
            Ok(object) => Ok(LineRead::of_parts(object)),
            Err(error) if error.is_memory() => Err(AllocError),
            Err(_) => Ok(None),
        }
    }

    /// What a JSON object says, if its verdict is one.
    fn of_parts(object: ObjectRead) -> Option<LineRead> {
        let verdict = Answer::of_name(object.verdict.as_str())?;
        Some(LineRead {
            name: object.name,
            verdict,
            ending: object.ending,
            line: object.line,
            fault: object.fault,
            player1: object.player1,
            total1: object.total1,
            player2: object.player2,
            total2: object.total2,
            unlisted: object.unlisted,
            page: object.page,
            likely: change_in(object.likely),
        })
    }

    /// Whether the line names a page outside the folder of the pages: its path begins with a slash, or has a part `..`.
    pub fn is_page_outside(&self) -> bool {
        match self.page_name() {
            Some(page) => page.starts_with('/') || page.split('/').any(|part| part == ".."),
            None => false,
        }
    }

    /// The file of the page, if one is written: nothing else that the field may have ends in `.html`.
    pub fn page_name(&self) -> Option<&str> {
        match &self.page {
            Some(page) if page.as_str().ends_with(".html") => Some(page.as_str()),
            _ => None,
        }
    }
}

/// The change of a likely repair, if there is one.
fn change_in(likely: Option<LikelyRead>) -> Option<String> {
    match likely {
        Some(likely) => likely.change,
        None => None,
    }
}

/// The numbers of a line.
#[derive(Clone, Copy)]
struct Numbers {
    line: Option<u32>,
    total1: Option<i32>,
    total2: Option<i32>,
    unlisted: Option<usize>,
}

impl Numbers {
    /// The numbers of these fields; none if one is neither a number nor `-`.
    fn of(fields: &[Vec<u8>]) -> Option<Numbers> {
        let _events = number_at::<u64>(fields, 5)?;
        Some(Numbers {
            line: number_at::<u32>(fields, 3)?.value,
            total1: number_at::<i32>(fields, 7)?.value,
            total2: number_at::<i32>(fields, 9)?.value,
            unlisted: number_at::<usize>(fields, 10)?.value,
        })
    }
}

/// The answer of a line.
fn answer_in(fields: &[Vec<u8>]) -> Option<Answer> {
    Answer::of_name(text_at(fields, 1))
}

/// The field at a place, from 0, as text.
fn text_at(fields: &[Vec<u8>], place: usize) -> &str {
    match fields.get(place) {
        None => "",
        Some(field) => str::from_utf8(field.as_slice()).unwrap_or(""),
    }
}

/// The field at a place, if it is there and is not `-`.
fn shown_at(alloc: Global, fields: &[Vec<u8>], place: usize) -> Result<Option<String>, AllocError> {
    match text_at(fields, place) {
        "" | "-" => Ok(None),
        text => Ok(Some(String::from_str(alloc, text)?)),
    }
}

/// The field of the page, if a line has one: no other field has the name of a page, or why there is none.
fn page_in(alloc: Global, fields: &[Vec<u8>]) -> Result<Option<String>, AllocError> {
    let text = text_at(fields, FIELDS);
    if text.ends_with(".html") || text == "cannot write" || text == "no memory" {
        Ok(Some(String::from_str(alloc, text)?))
    } else {
        Ok(None)
    }
}

/// Whether a field says how many of some numbers are right, such as `90 of 90`.
fn is_share(text: &str) -> bool {
    let mut words = text.split(' ');
    let right = words.next();
    let between = words.next();
    let all = words.next();
    match (right, between, all, words.next()) {
        (Some(right), Some("of"), Some(all), None) => {
            right.parse::<u64>().is_ok() && all.parse::<u64>().is_ok()
        }
        _ => false,
    }
}

/// The likely repair, if a line has one: the field before the one that says how many numbers are right with it.
fn likely_in(alloc: Global, fields: &[Vec<u8>]) -> Result<Option<String>, AllocError> {
    for place in FIELDS + 1..fields.len() {
        if is_share(text_at(fields, place)) {
            return shown_at(alloc, fields, place - 1);
        }
    }
    Ok(None)
}

/// A number, or none, that a field says.
#[derive(Clone, Copy)]
struct Known<T> {
    value: Option<T>,
}

/// The number at a place, or none if the field is `-`; nothing if it is neither.
fn number_at<T: FromStr>(fields: &[Vec<u8>], place: usize) -> Option<Known<T>>
where
    T::Err: Drop,
{
    match text_at(fields, place) {
        "-" => Some(Known { value: None }),
        text => match text.parse::<T>() {
            Ok(number) => Some(Known {
                value: Some(number),
            }),
            Err(_) => None,
        },
    }
}
