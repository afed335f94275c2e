//! What is answered for each event.
ghost use Rattle.std.specs.Prelude.{◌≡◌, ◌<◌, ◌+◌, length, IfOk, OnOk};
ghost use Rattle.game_turns.specs.LatestEvents.{latest_tiles, standing_words};
ghost use Rattle.game_turns.specs.Machines.{rules_of, state_of};
ghost use Rattle.game_turns.specs.Passing.{rules_in, record_in};
ghost use Rattle.lex_check.specs.Pairs.{list_in};
ghost use Rattle.game_known.specs.Besides.{IsBeside};
ghost use Rattle.game_known.specs.Known.{AreKnown};
ghost use Rattle.game_answers.specs.Going.{HasTaken};
ghost use Rattle.sheet_scores.specs.Gains.{given_at};
ghost use Rattle.game_answers.specs.Answers.{tiles_in, IsAnswerAt, AreAnswersTo};
ghost use Rattle.game_answers.specs.Letters.{word_of};
ghost use Rattle.game_bests.specs.Bests.{IsTurnBest};
ghost use Rattle.game_turns.specs.Unlisted.{letters_in, unlisted_of};

use crate::copies::copied;
use crate::letters::word_of;
use game_bests::TurnBest;
use game_known::{Beside, KnownBests};
use game_turns::{Machine, Passed, SpelledWord, unlisted_of};
use gcg_read::Event;
use lex_check::Checked;
use lex_list::WordList;
use ref_play::{Play, Word};
use sheet_scores::{given_by, is_taken_back};
use std::alloc::{AllocError, Global};

/// What is answered for an event.
#[derive(Drop)]
pub struct EventAnswer {
    /// What is said of the best play.
    pub best: TurnBest,
    /// The new tiles of a play, and those that a withdrawal took back.
    pub play: Option<Play>,
    /// The word of a play, with the letters that it plays through; empty for other events.
    pub word: Word,
    /// The words of a play that stands which are not in the list.
    pub unlisted: Vec<SpelledWord>,
}

/// What the event at a place gave: its score; and nothing if it is a play that the next event takes back.
fn given_at(events: &[Event], place: usize, event: &Event) -> i32
    requires { place < length events.now }
    ensures { result ≡ given_at events.now place event.now }
{
    given_by(is_taken_back(events, place), event.score)
}

/// What is said of the best play of an event of the record that gave `gave` points; `machine` is before it. It searches only for what is not known.
#[tactic(auto, using(crate::proofs::AnswerLaws::best_by_own))]
fn best_at(
    passed: &Passed<'_>,
    pair: &Checked<'_>,
    machine: &Machine,
    beside: &mut Beside,
    known: &mut KnownBests,
    place: usize,
    event: &Event,
    gave: i32,
) -> TurnBest
    requires place { place < length (record_in passed.now).events }
    requires beside { IsBeside (rules_in passed.now) (list_in pair.now) beside.old }
    requires known { AreKnown (rules_in passed.now) (list_in pair.now) known.old }
    ensures beside { IsBeside (rules_in passed.now) (list_in pair.now) beside.new }
    ensures known { AreKnown (rules_in passed.now) (list_in pair.now) known.new }
    ensures best { IsTurnBest (rules_in passed.now) (list_in pair.now) (state_of machine.now) event.now gave result }
{
    let events = passed.record().events.as_slice();
    beside.best_at(
        passed.rules(),
        pair,
        machine,
        events,
        place,
        event,
        gave,
        known,
    )
}

/// What is answered for an event, by its best play and the machine after it.
fn answer_after(
    alloc: Global,
    list: &WordList,
    machine: &Machine,
    event: &Event,
    best: TurnBest,
) -> Result<EventAnswer, AllocError>
    ensures best { IfOk result (λ a. a.best ≡ best) }
    ensures tiles { IfOk result (λ a. tiles_in a.play ≡ latest_tiles (state_of machine.now).latest) }
    ensures word { IfOk result (λ a. a.word.items ≡ word_of (state_of machine.now).board event.now.kind) }
    ensures unlisted { IfOk result (λ a. letters_in a.unlisted.items ≡ unlisted_of list.now (standing_words (state_of machine.now).latest)) }
{
    let unlisted = unlisted_of(alloc, list, machine.standing_words())?;
    Ok(EventAnswer {
        best,
        play: copied(machine.last_play()),
        word: word_of(machine.board(), &event.kind),
        unlisted,
    })
}

/// What is answered for the event at a place, which the machine takes.
#[tactic(auto, using(crate::proofs::AnswerLaws::answer_is))]
fn answer_at(
    alloc: Global,
    passed: &Passed<'_>,
    pair: &Checked<'_>,
    machine: &mut Machine,
    beside: &mut Beside,
    known: &mut KnownBests,
    place: usize,
) -> Result<EventAnswer, AllocError>
    requires place { place < length (record_in passed.now).events }
    requires taken { HasTaken (rules_in passed.now) (record_in passed.now).events place machine.old }
    requires beside { IsBeside (rules_in passed.now) (list_in pair.now) beside.old }
    requires known { AreKnown (rules_in passed.now) (list_in pair.now) known.old }
    ensures taken { OnOk result (HasTaken (rules_in passed.now) (record_in passed.now).events (place + 1) machine.new) }
    ensures beside { IsBeside (rules_in passed.now) (list_in pair.now) beside.new }
    ensures known { AreKnown (rules_in passed.now) (list_in pair.now) known.new }
    ensures answer { IfOk result (IsAnswerAt (rules_in passed.now) (list_in pair.now) (record_in passed.now).events place) }
{
    let game = passed.record();
    let events = game.events.as_slice();
    let event = &events[place];
    let gave = given_at(events, place, event);
    let best = best_at(passed, pair, machine, beside, known, place, event, gave);
    passed.take_event(machine, place);
    let answer = answer_after(alloc, pair.list(), machine, event, best)?;
    Ok(answer)
}

/// What is answered for each event of a record that passed, by its rules and the words of a pair. Best plays that are known are not searched for,
/// and those that are found are known from then on.
///
/// It fails only if memory runs out.
#[tactic(auto, using(crate::proofs::AnswerLaws::answers_more))]
pub(crate) fn answers_with(
    alloc: Global,
    passed: &Passed<'_>,
    pair: &Checked<'_>,
    known: &mut KnownBests,
) -> Result<Vec<EventAnswer>, AllocError>
    requires known { AreKnown (rules_in passed.now) (list_in pair.now) known.old }
    ensures answers { IfOk result (λ answers. AreAnswersTo (rules_in passed.now) (list_in pair.now) (record_in passed.now).events
        (length (record_in passed.now).events) answers.items) }
    ensures many { IfOk result (λ answers. length answers.items ≡ length (record_in passed.now).events) }
    ensures known { AreKnown (rules_in passed.now) (list_in pair.now) known.new }
{
    let mut machine = Machine::new(passed.rules());
    let mut beside = Beside::new(passed.rules(), pair);
    let mut answers = Vec::new(alloc);
    for place in 0..passed.record().events.len() {
        let answer = answer_at(alloc, passed, pair, &mut machine, &mut beside, known, place)?;
        answers.push(answer)?;
    }
    Ok(answers)
}
