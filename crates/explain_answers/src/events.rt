//! What explains an event of a record.
ghost use Rattle.std.specs.Prelude.{◌≡◌, ◌<◌, Some, IfOk, length, slice_get};
ghost use Rattle.game_turns.specs.Tallies.{is_play};
ghost use Rattle.game_walk.specs.Walks.{IsWalkOf};
ghost use Rattle.std.specs.Option.{option_copied};
ghost use Rattle.explain_answers.specs.Events.{IsPlayShown, IsShown, IsPicture, SayTheRacks, ExplainsEvent};

use crate::sheets::{Sheet, facts_at};
use engine_stages::GameFault;
use explain_clues::{ScoredPlay, ShownSquare, scored_play, shown_board};
use explain_facts::Fact;
use game_board::lay_plays;
use game_walk::Walk;
use gcg_read::{Event, EventKind, Record};
use lex_list::WordList;
use ref_board::Board;
use ref_tiles::Rules;
use std::alloc::{AllocError, Global};

/// The board before an event, and the words of its play.
#[derive(Drop)]
pub struct Shown {
    /// The words of the play, if the event is one that is legal on the board.
    pub play: Option<ScoredPlay>,
    /// Whether the event is a play, whose squares are marked.
    pub is_play: bool,
    /// The squares of the board, row by row from 1A.
    pub squares: Vec<ShownSquare>,
}

/// What is shown with the facts.
#[derive(Drop)]
pub enum Picture {
    /// The board before the event, and the words of its play.
    Shown(Shown),
    /// The board is not known, since an earlier play cannot be laid.
    Unknown {
        /// The line of that play.
        line: u32,
    },
}

/// What explains a record, or one of its lines.
#[derive(Drop)]
pub struct Explanation {
    /// The line of the event that is explained; none if it is the record as a whole.
    pub line: Option<u32>,
    /// What is said of it.
    pub facts: Vec<Fact>,
    /// The board before the event, and the words of its play, if an event is explained.
    pub picture: Option<Picture>,
}

/// The words of the play of an event, if it is one that is legal on a board.
fn play_shown(rules: &Rules, list: &WordList, board: &Board, kind: &EventKind) -> Option<ScoredPlay>
    ensures { IsPlayShown rules.now list.now board.now kind.now result }
{
    match kind {
        EventKind::Play { at, dir, word } => {
            scored_play(rules, list, board, *at, *dir, word.as_slice())
        }
        _ => None,
    }
}

/// Whether an event is a play.
fn is_play(kind: &EventKind) -> bool
    ensures { result ≡ is_play kind.now }
{
    matches!(kind, EventKind::Play { .. })
}

/// The board before an event, and the words of its play.
fn board_of(
    alloc: Global,
    rules: &Rules,
    list: &WordList,
    board: &Board,
    kind: &EventKind,
) -> Result<Shown, AllocError>
    ensures { IfOk result (IsShown rules.now list.now board.now kind.now) }
{
    let squares = shown_board(alloc, rules, board, kind)?;
    Ok(Shown {
        play: play_shown(rules, list, board, kind),
        is_play: is_play(kind),
        squares,
    })
}

/// The board before the event at a place and the words of its play, or why the board is not known.
#[tactic(auto, using(crate::proofs::Showing::not_laid, crate::proofs::Showing::shown_there, crate::proofs::Refusing::read_at))]
fn picture_at(
    alloc: Global,
    rules: &Rules,
    list: &WordList,
    events: &[Event],
    place: usize,
    event: &Event,
) -> Result<Picture, AllocError>
    requires within { place < length events.now }
    requires stands { slice_get events.now place ≡ Some event.now }
    ensures { IfOk result (λ picture. IsPicture rules.now list.now events.now place event.now.kind (Some picture)) }
{
    let laying = lay_plays(events, place);
    if laying.end < place {
        return Ok(Picture::Unknown {
            line: events[laying.end].line,
        });
    }
    let shown = board_of(alloc, rules, list, &laying.board, &event.kind)?;
    Ok(Picture::Shown(shown))
}

/// What explains the event at a place of a record, counted from 0, by the walk over the record. If the rules allow the event, `fault` says what is wrong with the racks up
/// to it, if that is known.
///
/// It fails only if memory runs out.
///
/// The first fact about an event that the rules refuse is that of the fault; an event after it has the fact that it was not judged, and no other; no
/// event is without a fact. If the rules allow every event, and its step is the first that exceeds the bound which `fault` names, a fact says so. That a proof
/// that there is no deal is found again, and that the facts are all that is to be said, is tested.
#[tactic(auto, using(crate::proofs::Refusing::read_at))]
pub fn explain_event(
    alloc: Global,
    rules: &Rules,
    list: &WordList,
    record: &Record,
    walk: &Walk,
    place: usize,
    fault: Option<&GameFault>,
) -> Result<Explanation, AllocError>
    requires walk { IsWalkOf rules.now list.now record.now.events walk.now }
    requires within { place < length record.now.events }
    ensures explained { IfOk result (ExplainsEvent rules.now list.now record.now.events place) }
    ensures racks { IfOk result (λ x. SayTheRacks rules.now list.now record.now.events place (option_copied fault.entry) x.facts.items) }
{
    let sheet = Sheet {
        rules,
        list,
        record,
        walk,
        fault,
    };
    let events = record.events.as_slice();
    let event = &events[place];
    let facts = facts_at(alloc, &sheet, event, place)?;
    let picture = picture_at(alloc, rules, list, events, place, event)?;
    Ok(Explanation {
        line: Some(event.line),
        facts,
        picture: Some(picture),
    })
}
