//! Events as trees.
ghost use Rattle.std.specs.Prelude.{◌≡◌, IfOk, length, map};
ghost use Rattle.std.specs.List.{range_with_len};
ghost use Rattle.std.specs.Option.{option_copied};
ghost use Rattle.json_trees.specs.Trees.{view};
ghost use Rattle.json_trees.specs.Values.{array_of};
ghost use Rattle.json_base.specs.Kinds.{kind_tiles};
ghost use Rattle.game_json.specs.Events.{best_in, best_value, event_at, event_object, played_or, spelled_value, tiles_in, turn_in, turn_word, unlisted_in, word_in};

use crate::plays::{best_tree, placed_tree};
use game_answers::EventAnswer;
use game_bests::TurnBest;
use game_turns::SpelledWord;
use gcg_read::{Event, EventKind, Players};
use json_base::{
    given_tree, item_at, kind_direction_tree, kind_name, kind_number_tree, kind_place_tree,
    kind_symbols_tree, kind_tiles_tree, number_of, rack_tree,
};
use json_trees::{Tree, array, count_tree, integer_tree, name_tree, null_tree, object, text_tree};
use ref_play::Play;
use std::alloc::{AllocError, Global};

/// The whole word of a play; null if it is not known.
fn word_tree(alloc: Global, answer: Option<&EventAnswer>) -> Result<Tree, AllocError>
    ensures { IfOk result (λ tree. view tree ≡ word_in (option_copied answer.entry)) }
{
    match answer {
        Some(answer) => given_tree(alloc, answer.word.as_slice()),
        None => Ok(null_tree()),
    }
}

/// The tiles of a play that is put down or taken back; otherwise those that the event names.
fn played_tree(alloc: Global, kind: &EventKind, play: &Option<Play>) -> Result<Tree, AllocError>
    ensures { IfOk result (λ tree. view tree ≡ played_or (kind_tiles kind.now) play.now) }
{
    match play {
        Some(play) => placed_tree(alloc, play.tiles.as_slice()),
        None => kind_tiles_tree(alloc, kind),
    }
}

/// The tiles of an event.
fn event_tiles(
    alloc: Global,
    kind: &EventKind,
    answer: Option<&EventAnswer>,
) -> Result<Tree, AllocError>
    ensures { IfOk result (λ tree. view tree ≡ tiles_in kind.now (option_copied answer.entry)) }
{
    match answer {
        Some(answer) => played_tree(alloc, kind, &answer.play),
        None => kind_tiles_tree(alloc, kind),
    }
}

/// What is said of the best play of a turn.
fn turn_name(best: &TurnBest) -> &'static str
    ensures { result.now ≡ turn_word best.now }
{
    match best {
        TurnBest::NoTurn => "none",
        TurnBest::NotShown => "rack not shown",
        TurnBest::NoPlay => "no play",
        TurnBest::Best(_) => "best play",
    }
}

/// What is said of the best play of a turn; null if nothing is answered for the event.
fn turn_tree(answer: Option<&EventAnswer>) -> Tree
    ensures { view result ≡ turn_in (option_copied answer.entry) }
{
    match answer {
        Some(answer) => name_tree(turn_name(&answer.best)),
        None => null_tree(),
    }
}

/// The best play of a turn, if there is one.
fn turn_best(alloc: Global, best: &TurnBest) -> Result<Tree, AllocError>
    ensures { IfOk result (λ tree. view tree ≡ best_value best.now) }
{
    match best {
        TurnBest::Best(best) => best_tree(alloc, best),
        TurnBest::NoTurn | TurnBest::NotShown | TurnBest::NoPlay => Ok(null_tree()),
    }
}

/// The best play of the turn of an event, if it is known.
fn event_best(alloc: Global, answer: Option<&EventAnswer>) -> Result<Tree, AllocError>
    ensures { IfOk result (λ tree. view tree ≡ best_in (option_copied answer.entry)) }
{
    match answer {
        Some(answer) => turn_best(alloc, &answer.best),
        None => Ok(null_tree()),
    }
}

/// Words as texts.
fn words_array(alloc: Global, words: &[SpelledWord]) -> Result<Tree, AllocError>
    ensures { IfOk result (λ tree. view tree ≡ array_of (map spelled_value words.now)) }
{
    let mut trees = Vec::new(alloc);
    for word in words {
        trees.push(text_tree(alloc, word.letters.as_slice())?)?;
    }
    Ok(array(trees))
}

/// The words of a play that are not in the list; null if nothing is answered for the event.
fn event_unlisted(alloc: Global, answer: Option<&EventAnswer>) -> Result<Tree, AllocError>
    ensures { IfOk result (λ tree. view tree ≡ unlisted_in (option_copied answer.entry)) }
{
    match answer {
        Some(answer) => words_array(alloc, answer.unlisted.as_slice()),
        None => Ok(null_tree()),
    }
}

/// An event, with what is answered for it if that is known.
fn event_tree(
    alloc: Global,
    players: &Players,
    event: &Event,
    answer: Option<&EventAnswer>,
) -> Result<Tree, AllocError>
    ensures { IfOk result (λ tree. view tree ≡ event_object players.now event.now (option_copied answer.entry)) }
{
    let nick = text_tree(alloc, players.of(event.player).nick.as_bytes())?;
    let rack = rack_tree(alloc, &event.rack)?;
    let place = kind_place_tree(alloc, &event.kind)?;
    let symbols = kind_symbols_tree(alloc, &event.kind)?;
    let word = word_tree(alloc, answer)?;
    let tiles = event_tiles(alloc, &event.kind, answer)?;
    let best = event_best(alloc, answer)?;
    let unlisted = event_unlisted(alloc, answer)?;
    let fields = vec![in alloc;
        ("line", count_tree(event.line)),
        ("player", count_tree(number_of(event.player))),
        ("nick", nick),
        ("rack", rack),
        ("kind", name_tree(kind_name(&event.kind))),
        ("place", place),
        ("direction", kind_direction_tree(&event.kind)),
        ("text", symbols),
        ("word", word),
        ("tiles", tiles),
        ("number", kind_number_tree(&event.kind)),
        ("score", integer_tree(event.score.value())),
        ("total", integer_tree(event.total.value())),
        ("turn", turn_tree(answer)),
        ("best", best),
        ("unlisted", unlisted),
    ]?;
    Ok(object(fields))
}

/// The event at a place, with the answer at that place.
#[tactic(auto, unfolding(crate::specs::Events::event_at))]
fn event_at(
    alloc: Global,
    players: &Players,
    events: &[Event],
    answers: &[EventAnswer],
    place: usize,
) -> Result<Tree, AllocError>
    ensures { IfOk result (λ tree. view tree ≡ event_at players.now events.now answers.now place) }
{
    match item_at(events, place) {
        Some(event) => event_tree(alloc, players, event, item_at(answers, place)),
        None => Ok(null_tree()),
    }
}

/// The events, each with the answer at its place.
#[tactic(auto, using(std::proofs::lemmas::Grind::common_steps, ref_play::proofs::Ranges::map_range_more))]
pub fn events_array(
    alloc: Global,
    players: &Players,
    events: &[Event],
    answers: &[EventAnswer],
) -> Result<Tree, AllocError>
    ensures { IfOk result (λ tree. view tree ≡ array_of (map (event_at players.now events.now answers.now) (range_with_len 0 (length events.now)))) }
{
    let mut trees = Vec::new(alloc);
    for place in 0..events.len() {
        trees.push(event_at(alloc, players, events, answers, place)?)?;
    }
    Ok(array(trees))
}
