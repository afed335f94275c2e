//! What is found of a draft as a tree.
ghost use Rattle.std.specs.Prelude.{◌≡◌, IfOk, option_map};
ghost use Rattle.json_trees.specs.Trees.{fields_view, view};
ghost use Rattle.draft_json.specs.Fills.{fill_fields, fill_object, is_before, line_at, line_before, line_object, line_with, lines_value, put_in_line, put_in_object, stop_of};

use draft_answers::{FilledDraft, put_in};
use game_walk::Refusal;
use gcg_drafts::Missing;
use gcg_read::Event;
use gcg_unread::UnreadLine;
use json_base::item_at;
use json_trees::{
    Tree, array, bool_tree, count_tree, integer_tree, object, push_if, size_tree, with_field_if,
};
use sheet_json::audit_fields;
use std::alloc::{AllocError, Global};

/// How many numbers were put in.
fn put_in_tree(alloc: Global, filled: &FilledDraft) -> Result<Tree, AllocError>
    ensures { IfOk result (λ tree. view tree ≡ put_in_object filled.now) }
{
    let many = put_in(filled);
    let fields = vec![in alloc;
        ("scores", size_tree(many.scores)),
        ("totals", size_tree(many.totals)),
    ]?;
    Ok(object(fields))
}

/// The numbers of an event, some of which were put in.
fn line_tree(alloc: Global, event: &Event, score_put_in: bool) -> Result<Tree, AllocError>
    ensures { IfOk result (λ tree. view tree ≡ line_object event.now score_put_in) }
{
    let fields = vec![in alloc;
        ("line", count_tree(event.line)),
        ("score", integer_tree(event.score.value())),
        ("total", integer_tree(event.total.value())),
        ("score_put_in", bool_tree(score_put_in)),
    ]?;
    Ok(object(fields))
}

/// The numbers of an event, if one of them was put in.
fn put_in_line(alloc: Global, event: &Event, missing: Missing) -> Result<Option<Tree>, AllocError>
    ensures { IfOk result (λ tree. option_map view tree ≡ put_in_line event.now missing) }
{
    match missing {
        Missing::Nothing => Ok(None),
        Missing::Total => Ok(Some(line_tree(alloc, event, false)?)),
        Missing::Both => Ok(Some(line_tree(alloc, event, true)?)),
    }
}

/// The line that the rules refuse, if there is one.
fn stop_of(stopped: &Option<Refusal>) -> Option<u32>
    ensures { result ≡ stop_of stopped.now }
{
    match stopped {
        None => None,
        Some(refusal) => Some(refusal.line),
    }
}

/// Whether the line of an event is before another one.
fn is_before(event: &Event, stop: Option<u32>) -> bool
    ensures { result ≡ is_before event.now stop }
{
    match stop {
        None => true,
        Some(stop) => event.line < stop,
    }
}

/// The numbers of an event, if one of them was put in and the line is before another one.
fn line_before(
    alloc: Global,
    stop: Option<u32>,
    event: &Event,
    missing: Missing,
) -> Result<Option<Tree>, AllocError>
    ensures { IfOk result (λ tree. option_map view tree ≡ line_before stop event.now missing) }
{
    if is_before(event, stop) {
        put_in_line(alloc, event, missing)
    } else {
        Ok(None)
    }
}

/// The same with what the line at a place lacks.
fn line_with(
    alloc: Global,
    stop: Option<u32>,
    lacks: &[Missing],
    place: usize,
    event: &Event,
) -> Result<Option<Tree>, AllocError>
    ensures { IfOk result (λ tree. option_map view tree ≡ line_with stop lacks.now place event.now) }
{
    match item_at(lacks, place) {
        Some(missing) => line_before(alloc, stop, event, *missing),
        None => Ok(None),
    }
}

/// The numbers of the event at a place, if one of them was put in and its line is before another one.
#[tactic(auto, unfolding(crate::specs::Fills::line_at))]
fn line_at(
    alloc: Global,
    stop: Option<u32>,
    events: &[Event],
    lacks: &[Missing],
    place: usize,
) -> Result<Option<Tree>, AllocError>
    ensures { IfOk result (λ tree. option_map view tree ≡ line_at stop events.now lacks.now place) }
{
    match item_at(events, place) {
        Some(event) => line_with(alloc, stop, lacks, place, event),
        None => Ok(None),
    }
}

/// The numbers of the events into which some were put, up to the line that the rules refuse.
#[tactic(auto, using(std::proofs::lemmas::Grind::common_steps, repair_json::proofs::Ranges::filter_map_range_more))]
fn lines_array(
    alloc: Global,
    stop: Option<u32>,
    events: &[Event],
    lacks: &[Missing],
) -> Result<Tree, AllocError>
    ensures { IfOk result (λ tree. view tree ≡ lines_value stop events.now lacks.now) }
{
    let mut trees = Vec::new(alloc);
    for place in 0..events.len() {
        push_if(&mut trees, line_at(alloc, stop, events, lacks, place)?)?;
    }
    Ok(array(trees))
}

/// What is found of a draft, as the fields of an object.
fn fill_fields(
    alloc: Global,
    filled: &FilledDraft,
    unread: &[UnreadLine],
) -> Result<Vec<(&'static str, Tree)>, AllocError>
    ensures { IfOk result (λ fields. fields_view fields.items ≡ fill_fields filled.now unread.now) }
{
    let many = put_in_tree(alloc, filled)?;
    let stop = stop_of(&filled.stopped);
    let events = filled.answer.audit.entry.record.events.as_slice();
    let lines = lines_array(alloc, stop, events, filled.lacks.as_slice())?;
    let fields = audit_fields(alloc, &filled.answer, unread)?;
    let fields = with_field_if(fields, "put_in", Some(many))?;
    with_field_if(fields, "lines", Some(lines))
}

/// What is found of a draft: the object of `audit`, and after its members how many numbers were put in, and each line into which some were put.
///
/// It fails only if memory runs out.
pub fn fill_tree(
    alloc: Global,
    filled: &FilledDraft,
    unread: &[UnreadLine],
) -> Result<Tree, AllocError>
    ensures { IfOk result (λ tree. view tree ≡ fill_object filled.now unread.now) }
{
    Ok(object(fill_fields(alloc, filled, unread)?))
}
