//! The lines of a legal game's events, and the words in them that are not in the list.
ghost use Rattle.std.specs.Prelude.{◌≡◌, ◌<◌, ◌∷◌, ◌++◌, ◌+◌, [], OnOk, OnErr, length, decimal};
ghost use Rattle.ref_play.specs.Words.{items_of};
ghost use Rattle.game_turns.specs.Passing.{rules_in, record_in};
ghost use Rattle.lex_check.specs.Pairs.{list_in};
ghost use Rattle.game_notes.specs.Latest.{AreBests};
ghost use Rattle.game_report.specs.BestPlays.{Appends};
ghost use Rattle.game_report.specs.Beside.{StandAt};
ghost use Rattle.game_report.specs.EventLines.{unlisted_word, unlisted_text, AreEventLines, IsEventLine};

use crate::best_plays::push_best;
use crate::replaying::follow_event;
use game_notes::{Follow, LatestBests};
use game_turns::{Machine, Passed, all_listed};
use gcg_write::event_text;
use lex_check::Checked;
use lex_list::WordList;
use ref_play::Word;
use std::alloc::AllocError;
use text_decimals::push_number;

/// Appends the number of a line and a nickname, and a space after each.
fn push_heading(text: &mut Vec<u8>, line: u32, nick: &[u8]) -> Result<(), AllocError>
    ensures { OnOk result (text.new.items ≡ text.old.items ++ (decimal line ++ 32 ∷ nick.now ++ 32 ∷ [])) }
{
    push_number(text, line)?;
    text.push(b' ')?;
    text.extend_from_slice(nick)?;
    text.push(b' ')?;
    Ok(())
}

/// Appends a space and a word, if it is not in the list.
fn push_word(text: &mut Vec<u8>, list: &WordList, word: &Word) -> Result<(), AllocError>
    ensures { OnOk result (text.new.items ≡ text.old.items ++ unlisted_word list.now word.now.items) }
{
    if list.has(word.as_slice()) {
        return Ok(());
    }
    text.push(b' ')?;
    text.extend_from_slice(word.as_slice())
}

/// Appends ` unlisted` and the words that are not in the list; nothing if all are in it.
#[tactic(auto, using(crate::proofs::ReportLines::some_unlisted), unfolding(crate::specs::EventLines::unlisted_text))]
fn push_unlisted(text: &mut Vec<u8>, list: &WordList, words: &[Word]) -> Result<(), AllocError>
    ensures { OnOk result (text.new.items ≡ text.old.items ++ unlisted_text list.now (items_of words.now)) }
{
    if all_listed(list, words) {
        return Ok(());
    }
    text.extend_from_slice(b" unlisted")?;
    for word in words {
        push_word(text, list, word)?;
    }
    Ok(())
}

/// Appends the line of the event at a place, and takes the event: the number of its line, the nickname, the event, its score
/// and the total, what is said of the best play, and then the words that are not in the list.
#[tactic(auto, using(crate::proofs::ReportLines::line_is))]
fn push_event_line(
    text: &mut Vec<u8>,
    passed: &Passed<'_>,
    pair: &Checked<'_>,
    machine: &mut Machine,
    follow: &mut Follow,
    latest: &mut LatestBests,
    place: usize,
) -> Result<(), AllocError>
    requires place { place < length (record_in passed.now).events }
    requires stand { StandAt (rules_in passed.now) (list_in pair.now) (record_in passed.now).events place machine.old follow.old }
    requires latest { AreBests (rules_in passed.now) (list_in pair.now) latest.old }
    ensures stand { OnOk result (StandAt (rules_in passed.now) (list_in pair.now) (record_in passed.now).events (place + 1) machine.new follow.new) }
    ensures latest { OnOk result (AreBests (rules_in passed.now) (list_in pair.now) latest.new) }
    ensures line { OnOk result (Appends (IsEventLine (rules_in passed.now) (list_in pair.now) (record_in passed.now) place)
        text.old.items text.new.items) }
{
    let game = passed.record();
    let event = &game.events.as_slice()[place];
    push_heading(
        text,
        event.line,
        game.players.of(event.player).nick.as_bytes(),
    )?;
    event_text(game, place, text)?;
    push_best(text, passed, pair, machine, follow, latest, event)?;
    follow_event(passed, pair, machine, follow, place);
    push_unlisted(text, pair.list(), machine.standing_words())?;
    text.push(b'\n')?;
    Ok(())
}

/// Appends the lines of all events of a record that passed.
#[tactic(auto, using(crate::proofs::ReportLines::one_more_line))]
fn push_lines(text: &mut Vec<u8>, passed: &Passed<'_>, pair: &Checked<'_>) -> Result<(), AllocError>
    ensures { OnOk result (Appends (AreEventLines (rules_in passed.now) (list_in pair.now) (record_in passed.now)
        (length (record_in passed.now).events)) text.old.items text.new.items) }
{
    let mut machine = Machine::new(passed.rules());
    let mut follow = Follow::new(passed.rules(), pair);
    let mut latest = LatestBests::new();
    for place in 0..passed.record().events.len() {
        push_event_line(
            text,
            passed,
            pair,
            &mut machine,
            &mut follow,
            &mut latest,
            place,
        )?;
    }
    Ok(())
}

/// Appends the lines of all events of a record that passed, by its rules and the word list of a pair: a line `N NICK EVENT SCORE
/// TOTAL` for each, N its line in the record. The line of a play, an exchange or a pass goes on with ` best NOTATION SCORE`, the
/// play that scores most by the stated rack, or the first of several by their notations; with ` best none` if there is no legal
/// play with words of the list; with ` best -` if the stated rack is not the whole rack. The line of a play that stands ends
/// with ` unlisted` and its words that are not in the list, if there are any.
///
/// It fails only if memory was refused, and then `text` is as it was.
pub fn push_event_lines(
    text: &mut Vec<u8>,
    passed: &Passed<'_>,
    pair: &Checked<'_>,
) -> Result<(), AllocError>
    ensures lines { OnOk result (Appends (AreEventLines (rules_in passed.now) (list_in pair.now) (record_in passed.now)
        (length (record_in passed.now).events)) text.old.items text.new.items) }
    ensures refused { OnErr result (text.new.items ≡ text.old.items) }
{
    let mut lines = Vec::new(*text.allocator());
    push_lines(&mut lines, passed, pair)?;
    text.extend_from_slice(lines.as_slice())
}
