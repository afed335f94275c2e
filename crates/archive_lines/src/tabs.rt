//! Lines whose fields are separated by tabs.
ghost use Rattle.std.specs.Prelude.{◌≡◌, ◌++◌, ◌∷◌, OnOk, option_map};
ghost use Rattle.std.specs.String.{string_bytes};
ghost use Rattle.std.specs.Cow.{cow_str_bytes};
ghost use Rattle.archive_lines.specs.TabLines.{escaped};
ghost use Rattle.archive_lines.specs.Answers.{ending_text};
ghost use Rattle.archive_lines.specs.Pages.{page_text};
ghost use Rattle.archive_lines.specs.Tabs.{shown, following, verdict_reported, record_reported, page_reported, likely_reported, unread_reported, rest_reported, tab_line};

use crate::answers::Ending;
use crate::fields::Fields;
use crate::likely::LikelyFields;
use crate::pages::PageField;
use crate::tab_fields::{push_escaped, push_field};
use itoa::{Buffer, Integer};
use std::alloc::{AllocError, Global};
use std::borrow::CowStr;

/// Appends the field of a text, or of none.
fn push_text(line: &mut Vec<u8>, text: Option<&str>) -> Result<(), AllocError>
    ensures { OnOk result (line.new.items ≡ line.old.items ++ 9 ∷ escaped (shown (option_map (λ t. t.now) text.entry))) }
{
    match text {
        None => push_field(line, b"-"),
        Some(text) => push_field(line, text.as_bytes()),
    }
}

/// Appends the field of a number, or of none.
fn push_known<I: Integer>(line: &mut Vec<u8>, number: Option<I>) -> Result<(), AllocError>
    ensures { OnOk result (line.new.items ≡ line.old.items ++ 9 ∷ escaped (shown (option_map I.text number))) }
{
    match number {
        None => push_field(line, b"-"),
        Some(number) => {
            let mut buffer = Buffer::new();
            push_field(line, buffer.format(number).as_bytes())
        }
    }
}

/// Appends the field of the ending of a game, or of none.
fn push_ending(line: &mut Vec<u8>, ending: Option<Ending>) -> Result<(), AllocError>
    ensures { OnOk result (line.new.items ≡ line.old.items ++ 9 ∷ escaped (shown (option_map ending_text ending))) }
{
    match ending {
        None => push_field(line, b"-"),
        Some(ending) => push_field(line, ending.name().as_bytes()),
    }
}

/// Appends the field of a fault, or of none.
fn push_fault(line: &mut Vec<u8>, fault: &Option<CowStr<'_, Global>>) -> Result<(), AllocError>
    ensures { OnOk result (line.new.items ≡ line.old.items ++ 9 ∷ escaped (shown (option_map cow_str_bytes fault.now))) }
{
    match fault {
        None => push_field(line, b"-"),
        Some(fault) => push_field(line, fault.as_str().as_bytes()),
    }
}

/// Appends the field of a text that the line owns, or of none.
fn push_owned(line: &mut Vec<u8>, text: &Option<String>) -> Result<(), AllocError>
    ensures { OnOk result (line.new.items ≡ line.old.items ++ 9 ∷ escaped (shown (option_map string_bytes text.now))) }
{
    match text {
        None => push_field(line, b"-"),
        Some(text) => push_field(line, text.as_bytes()),
    }
}

/// Appends the fields that say what the verdict is.
fn push_verdict(line: &mut Vec<u8>, fields: &Fields<'_>) -> Result<(), AllocError>
    ensures { OnOk result (line.new.items ≡ line.old.items ++ following (verdict_reported fields.now)) }
{
    push_field(line, fields.verdict.name().as_bytes())?;
    push_ending(line, fields.ending)?;
    push_known(line, fields.line)?;
    push_fault(line, &fields.fault)
}

/// Appends the fields that say what the record has.
fn push_record(line: &mut Vec<u8>, fields: &Fields<'_>) -> Result<(), AllocError>
    ensures { OnOk result (line.new.items ≡ line.old.items ++ following (record_reported fields.now)) }
{
    push_known(line, fields.events)?;
    push_owned(line, &fields.player1)?;
    push_known(line, fields.total1)?;
    push_owned(line, &fields.player2)?;
    push_known(line, fields.total2)?;
    push_known(line, fields.unlisted)
}

/// Appends the field of the page, if pages are made.
fn push_page(line: &mut Vec<u8>, page: &Option<PageField>) -> Result<(), AllocError>
    ensures { OnOk result (line.new.items ≡ line.old.items ++ following (page_reported page.now)) }
{
    match page {
        None => Ok(()),
        Some(page) => push_text(line, page.text()),
    }
}

/// Appends the fields of the likely repair, if repairs are looked for.
fn push_likely(line: &mut Vec<u8>, likely: &Option<LikelyFields>) -> Result<(), AllocError>
    ensures { OnOk result (line.new.items ≡ line.old.items ++ following (likely_reported likely.now)) }
{
    match likely {
        None => Ok(()),
        Some(likely) => {
            push_owned(line, &likely.change)?;
            push_owned(line, &likely.numbers_right)
        }
    }
}

/// Appends the field with the number of lines that are not read.
fn push_unread(line: &mut Vec<u8>, unread: Option<usize>) -> Result<(), AllocError>
    ensures { OnOk result (line.new.items ≡ line.old.items ++ following (unread_reported unread)) }
{
    push_known(line, unread)
}

/// Appends the fields of the likely repair, if repairs are looked for, and how many lines are not read.
#[tactic(auto, using(crate::proofs::Joined::two_parts))]
fn push_end(line: &mut Vec<u8>, fields: &Fields<'_>) -> Result<(), AllocError>
    ensures { OnOk result (line.new.items ≡ line.old.items ++ following (likely_reported fields.now.likely ++ unread_reported fields.now.unread_lines)) }
{
    push_likely(line, &fields.likely)?;
    push_unread(line, fields.unread_lines)
}

/// Appends the fields after those that each line has: those that a line has only on request, and how many lines are not read.
#[tactic(auto, using(crate::proofs::Joined::two_parts))]
fn push_rest(line: &mut Vec<u8>, fields: &Fields<'_>) -> Result<(), AllocError>
    ensures { OnOk result (line.new.items ≡ line.old.items ++ following (rest_reported fields.now.page fields.now.likely fields.now.unread_lines)) }
{
    push_page(line, &fields.page)?;
    push_end(line, fields)
}

/// Appends a line: its fields in their order with a tab between two, `-` for a missing one, and an LF. It has the field of the page only if pages
/// are made, and those of the likely repair only if repairs are looked for; the last is how many lines are not read. A tab, an LF and a backslash of a field are written `\t`, `\n` and
/// `\\`.
///
/// # Errors
///
/// Memory was refused.
pub fn push_tab_line(line: &mut Vec<u8>, fields: &Fields<'_>) -> Result<(), AllocError>
    ensures { OnOk result (line.new.items ≡ line.old.items ++ tab_line fields.now) }
{
    push_escaped(line, fields.name.as_bytes())?;
    push_verdict(line, fields)?;
    push_record(line, fields)?;
    push_rest(line, fields)?;
    line.push(b'\n')?;
    Ok(())
}
