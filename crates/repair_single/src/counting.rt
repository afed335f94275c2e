//! How many numbers and words are wrong, counted event by event.
ghost use Rattle.std.specs.Prelude.{◌≡◌, ◌≤◌, ◌+◌, length};
ghost use Rattle.gcg_read.specs.Numerals.{IsPoints};
ghost use Rattle.ref_play.specs.Words.{items_of};
ghost use Rattle.game_turns.specs.LatestEvents.{standing_words};
ghost use Rattle.game_turns.specs.Machines.{state_of};
ghost use Rattle.repair_single.specs.Counting.{Leaves, count_unlisted, count_by_row, count_in_rows};

use crate::had::wrong_numbers;
use crate::rooms::less;
use game_corrections::had_before;
use game_turns::Machine;
use game_walk::Row;
use gcg_read::Event;
use lex_list::WordList;
use ref_play::Word;

/// How many of the words are not in the list.
fn count_unlisted(list: &WordList, words: &[Word]) -> usize
    ensures { result ≡ count_unlisted list.now (items_of words.now) }
{
    words
        .iter()
        .filter(|word| !list.has(word.as_slice()))
        .count()
}

/// The room that is left by the words that stand after an event and are not in the list. If there is no limit, none is looked up.
#[tactic(auto, using(crate::proofs::Leaving::words_leave, crate::proofs::Leaving::leaves_any))]
fn after_words(room: Option<usize>, list: &WordList, game: &Machine) -> Option<usize>
    ensures { Leaves room (count_unlisted list.now (standing_words (state_of game.now).latest)) result }
{
    if room.is_none() {
        return None;
    }
    less(room, count_unlisted(list, game.standing_words()))
}

/// The room that an event leaves, with `numbers` wrong numbers, and after it a game in which its words stand.
#[tactic(auto, using(crate::proofs::Leaving::event_leaves))]
pub(crate) fn after_event(
    room: Option<usize>,
    list: &WordList,
    game: &Machine,
    numbers: usize,
) -> Option<usize>
    ensures { Leaves room (numbers + count_unlisted list.now (standing_words (state_of game.now).latest)) result }
{
    after_words(less(room, numbers), list, game)
}

/// The room that a row leaves, if its player had this. Its words are looked up only if one of them is not in the list.
#[tactic(auto, using(crate::proofs::Leaving::row_leaves, crate::proofs::Leaving::numbers_leave))]
fn after_row(room: Option<usize>, list: &WordList, row: &Row, had: i32) -> Option<usize>
    requires { IsPoints had }
    ensures { Leaves room (count_by_row list.now had row.now) result }
{
    let numbers = wrong_numbers(had, &row.written, &row.right);
    if row.listed {
        return less(room, numbers);
    }
    after_event(room, list, &row.following, numbers)
}

/// The room that the rows before a place leave. If there is no limit, none is counted.
#[tactic(auto, using(crate::proofs::Leaving::leaves_any))]
pub(crate) fn after_rows(
    room: Option<usize>,
    list: &WordList,
    events: &[Event],
    rows: &[Row],
    start: usize,
) -> Option<usize>
    requires rows { start ≤ length rows.now }
    requires events { start ≤ length events.now }
    ensures { Leaves room (count_in_rows list.now events.now rows.now start) result }
{
    if room.is_none() {
        return None;
    }
    let mut room = room;
    for place in 0..start {
        let had = had_before(events, events[place].player, place);
        room = after_row(room, list, &rows[place], had);
    }
    room
}
