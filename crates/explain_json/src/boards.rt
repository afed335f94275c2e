//! The board before an event as a tree.
ghost use Rattle.std.specs.Prelude.{◌≡◌, ◌++◌, ◌<◌, IfOk, OnOk, map};
ghost use Rattle.std.specs.List.{range_with_len};
ghost use Rattle.std.specs.Option.{option_copied};
ghost use Rattle.json_trees.specs.Trees.{view};
ghost use Rattle.json_trees.specs.Values.{array_of};
ghost use Rattle.explain_json.specs.Words.{board_object, mark_at, mark_in, marked_rows, marked_to, name_at, name_if, row_value};

use crate::fact_parts::square_tree;
use explain_clues::ShownSquare;
use json_base::item_at;
use json_trees::{Tree, array, object, text_tree};
use ref_board::{Dir, SIDE, Square};
use std::alloc::{AllocError, Global};

/// Appends the mark of a square, if it is there.
fn push_mark(marks: &mut Vec<u8>, shown: Option<&ShownSquare>) -> Result<(), AllocError>
    ensures { OnOk result (marks.new.items ≡ marks.old.items ++ mark_in (option_copied shown.entry)) }
{
    if let Some(shown) = shown {
        marks.push(shown.mark)?;
    }
    Ok(())
}

/// Appends the mark of a square of a row.
#[tactic(auto, unfolding(crate::specs::Words::mark_at))]
fn push_mark_at(
    marks: &mut Vec<u8>,
    squares: &[ShownSquare],
    row: usize,
    column: usize,
) -> Result<(), AllocError>
    requires row { row < 15 }
    requires column { column < 15 }
    ensures { OnOk result (marks.new.items ≡ marks.old.items ++ mark_at squares.now row column) }
{
    let square = Square::on_line(Dir::Across, row, column);
    push_mark(marks, item_at(squares, square.number()))
}

/// The marks of a row as text.
#[tactic(auto, using(std::proofs::lemmas::Grind::common_steps, crate::proofs::Ranges::flat_map_range_more), unfolding(crate::specs::Words::marks_to))]
fn row_tree(alloc: Global, squares: &[ShownSquare], row: usize) -> Result<Tree, AllocError>
    requires { row < 15 }
    ensures { IfOk result (λ tree. view tree ≡ row_value squares.now row) }
{
    let mut marks = Vec::new(alloc);
    for column in 0..SIDE {
        push_mark_at(&mut marks, squares, row, column)?;
    }
    text_tree(alloc, marks.as_slice())
}

/// The rows of a board as texts.
#[tactic(auto, using(std::proofs::lemmas::Grind::common_steps, ref_play::proofs::Ranges::map_range_more))]
fn rows_array(alloc: Global, squares: &[ShownSquare]) -> Result<Tree, AllocError>
    ensures { IfOk result (λ tree. view tree ≡ array_of (map (row_value squares.now) (range_with_len 0 15))) }
{
    let mut trees = Vec::new(alloc);
    for row in 0..SIDE {
        trees.push(row_tree(alloc, squares, row)?)?;
    }
    Ok(array(trees))
}

/// Appends the name of a square, if it is marked.
fn push_name(
    alloc: Global,
    names: &mut Vec<Tree>,
    square: Square,
    shown: Option<&ShownSquare>,
) -> Result<(), AllocError>
    ensures { OnOk result (map view names.new.items ≡ map view names.old.items ++ name_if square (option_copied shown.entry)) }
{
    let Some(shown) = shown else {
        return Ok(());
    };
    if shown.is_marked {
        names.push(square_tree(alloc, square)?)?;
    }
    Ok(())
}

/// Appends the name of a square of a row, if it is marked.
#[tactic(auto, unfolding(crate::specs::Words::name_at))]
fn push_name_at(
    alloc: Global,
    names: &mut Vec<Tree>,
    squares: &[ShownSquare],
    row: usize,
    column: usize,
) -> Result<(), AllocError>
    requires row { row < 15 }
    requires column { column < 15 }
    ensures { OnOk result (map view names.new.items
        ≡ map view names.old.items ++ name_at squares.now row column) }
{
    let square = Square::on_line(Dir::Across, row, column);
    push_name(alloc, names, square, item_at(squares, square.number()))
}

/// Appends the names of the marked squares of a row.
#[tactic(auto, using(std::proofs::lemmas::Grind::common_steps, crate::proofs::Ranges::flat_map_range_more), unfolding(crate::specs::Words::marked_to))]
fn push_marked(
    alloc: Global,
    names: &mut Vec<Tree>,
    squares: &[ShownSquare],
    row: usize,
) -> Result<(), AllocError>
    requires { row < 15 }
    ensures { OnOk result (map view names.new.items ≡ map view names.old.items ++ marked_to squares.now row 15) }
{
    for column in 0..SIDE {
        push_name_at(alloc, names, squares, row, column)?;
    }
    Ok(())
}

/// The names of the marked squares of a board.
#[tactic(auto, using(std::proofs::lemmas::Grind::common_steps, crate::proofs::Ranges::flat_map_range_more), unfolding(crate::specs::Words::marked_rows))]
fn marked_array(alloc: Global, squares: &[ShownSquare]) -> Result<Tree, AllocError>
    ensures { IfOk result (λ tree. view tree ≡ array_of (marked_rows squares.now 15)) }
{
    let mut names = Vec::new(alloc);
    for row in 0..SIDE {
        push_marked(alloc, &mut names, squares, row)?;
    }
    Ok(array(names))
}

/// The rows of a board, and the squares that are marked.
pub fn board_tree(alloc: Global, squares: &[ShownSquare]) -> Result<Tree, AllocError>
    ensures { IfOk result (λ tree. view tree ≡ board_object squares.now) }
{
    let rows = rows_array(alloc, squares)?;
    let marked = marked_array(alloc, squares)?;
    let fields = vec![in alloc; ("rows", rows), ("marked", marked)]?;
    Ok(object(fields))
}
