//! Explanations as trees.
ghost use Rattle.std.specs.Prelude.{◌≡◌, IfOk, option_map};
ghost use Rattle.std.specs.Option.{option_copied};
ghost use Rattle.json_trees.specs.Trees.{view};
ghost use Rattle.json_trees.specs.Values.{or_null};
ghost use Rattle.explain_json.specs.Explained.{board_value, explained_object, play_value, reported_object, unknown_value};
ghost use Rattle.explain_json.specs.Words.{scored_object};

use crate::boards::board_tree;
use crate::facts::facts_array;
use crate::words::scored_tree;
use engine_stages::Verdict;
use explain_answers::{Explanation, Picture};
use explain_clues::ScoredPlay;
use gcg_unread::UnreadLine;
use json_base::{
    ending_tree, fault_line_tree, fault_tree, unread_array, verdict_name, verdict_tree,
};
use json_trees::{Tree, count_or_null, count_tree, name_tree, null_tree, object, text_or_null};
use std::alloc::{AllocError, Global};

/// The words of a play and what they add up to; null if there is no play.
fn scored_or_null(alloc: Global, play: &Option<ScoredPlay>) -> Result<Tree, AllocError>
    ensures { IfOk result (λ tree. view tree ≡ or_null (option_map scored_object play.now)) }
{
    match play {
        Some(play) => scored_tree(alloc, play),
        None => Ok(null_tree()),
    }
}

/// The words of the play that is shown with the facts; null if there is none.
fn play_tree(alloc: Global, picture: &Option<Picture>) -> Result<Tree, AllocError>
    ensures { IfOk result (λ tree. view tree ≡ play_value picture.now) }
{
    match picture {
        Some(Picture::Shown(shown)) => scored_or_null(alloc, &shown.play),
        Some(Picture::Unknown { .. }) | None => Ok(null_tree()),
    }
}

/// The board that is shown with the facts; null if it is not known.
fn picture_board(alloc: Global, picture: &Option<Picture>) -> Result<Tree, AllocError>
    ensures { IfOk result (λ tree. view tree ≡ board_value picture.now) }
{
    match picture {
        Some(Picture::Shown(shown)) => board_tree(alloc, shown.squares.as_slice()),
        Some(Picture::Unknown { .. }) | None => Ok(null_tree()),
    }
}

/// The line of the play that cannot be laid; null if the board is known, or none is shown.
fn unknown_tree(picture: &Option<Picture>) -> Tree
    ensures { view result ≡ unknown_value picture.now }
{
    match picture {
        Some(Picture::Unknown { line }) => count_tree(*line),
        Some(Picture::Shown(_)) | None => null_tree(),
    }
}

/// What explains a record or one of its lines.
fn reported_tree(
    alloc: Global,
    verdict: &Verdict,
    written: Option<&[u8]>,
    reported: &Explanation,
    likely: Tree,
    unread: &[UnreadLine],
) -> Result<Tree, AllocError>
    ensures { IfOk result (λ tree. view tree ≡ reported_object verdict.now (option_copied written.entry) reported.now (view likely) unread.now) }
{
    let fault = fault_tree(alloc, verdict)?;
    let written = text_or_null(alloc, written)?;
    let facts = facts_array(alloc, reported.facts.as_slice())?;
    let play = play_tree(alloc, &reported.picture)?;
    let board = picture_board(alloc, &reported.picture)?;
    let unread = unread_array(alloc, unread)?;
    let fields = vec![in alloc;
        ("verdict", name_tree(verdict_name(verdict))),
        ("line", fault_line_tree(verdict)),
        ("fault", fault),
        ("ending", ending_tree(verdict)),
        ("explained", count_or_null(reported.line)),
        ("text", written),
        ("facts", facts),
        ("play", play),
        ("board", board),
        ("unknown_since", unknown_tree(&reported.picture)),
        ("likely", likely),
        ("unread_lines", unread),
    ]?;
    Ok(object(fields))
}

/// What explains a record or one of its lines, by the verdict on the record and the line as it is in the file, with the object of the likely
/// repair of the record or null, and the lines that are not read; or that no event is on the line or after it.
pub fn explained_tree(
    alloc: Global,
    verdict: &Verdict,
    written: Option<&[u8]>,
    reported: Option<&Explanation>,
    likely: Tree,
    unread: &[UnreadLine],
) -> Result<Tree, AllocError>
    ensures { IfOk result (λ tree. view tree
        ≡ explained_object verdict.now (option_copied written.entry) (option_copied reported.entry) (view likely) unread.now) }
{
    match reported {
        Some(reported) => reported_tree(alloc, verdict, written, reported, likely, unread),
        None => verdict_tree(alloc, &Verdict::BadLine),
    }
}
