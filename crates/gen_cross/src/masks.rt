//! The letters that make listed words across a play.
ghost use Rattle.std.specs.Prelude.{◌≡◌, ℕ, List, ◌∷◌, ◌++◌, ◌+◌, ◌<◌, ◌≤◌, false, length, slice_index_or, IfSome, IfNone};
ghost use Rattle.lex_list.specs.RotatedPaths.{StandsFor};
ghost use Rattle.lex_file.specs.Walking.{strings, IsOpen};
ghost use Rattle.ref_board.specs.Lines.{square_at, other_dir};
ghost use Rattle.gen_cross.specs.Values.{IsMask};
ghost use Rattle.gen_cross.specs.Paths.{label_on, labels_of};
ghost use Rattle.gen_cross.specs.CrossRuns.{IsRunWith};

use crate::stretches::Stretch;
use lex_file::{PathLex, Step, advance};
use ref_board::{Board, Dir, Square};
use ref_play::Run;

/// The number of letters.
pub const LETTERS: usize = 26;

/// The letters that make a listed word of the run through an empty square.
pub fn mask_of<L: PathLex>(board: &Board, lex: &L, square: Square, run: &Run) -> [bool; LETTERS]
    requires run { IsRunWith board.now square run.now }
    requires long { 2 ≤ run.now.len }
    ensures { (words : List (List ℕ)) (d : Dir) → StandsFor (L.language lex.now) words → run.now.dir ≡ other_dir d
        → IsMask words d board.now square result }
{
    let dir = run.dir;
    let line = square.line(dir);
    let place = square.place(dir);
    let first = run.start.place(dir);
    let before = Stretch {
        dir,
        line,
        first,
        end: place,
    };
    let following = Stretch {
        dir,
        line,
        first: place + 1,
        end: first + run.len,
    };
    letters_between(board, lex, &before, &following)
}

/// The letters that, put between two stretches, make a word of the lexicon. The word is read backwards, so the labels after the
/// letter are walked once.
fn letters_between<L: PathLex>(
    board: &Board,
    lex: &L,
    before: &Stretch,
    following: &Stretch,
) -> [bool; LETTERS]
    ensures { (letter : ℕ) → letter < 26
        → slice_index_or result letter false ≡ L.language lex.now (labels_of board.now following.now ++ ((letter + 1) ∷ labels_of board.now before.now)) }
{
    let mut letters = [false; LETTERS];
    let whole = Step {
        accepts: false,
        next: Some(lex.root()),
    };
    let Some(at) = walk_back(board, lex, whole, following) else {
        return letters;
    };
    for letter in 0..LETTERS {
        letters[letter] = spells(board, lex, at, letter as u8 + 1, before);
    }
    letters
}

/// Whether a label and then the labels of a stretch, read backwards, end a string.
fn spells<L: PathLex>(
    board: &Board,
    lex: &L,
    at: Step<L::Node>,
    label: u8,
    before: &Stretch,
) -> bool
    requires { IsOpen (L.is_node lex.now) at.next }
    ensures { result ≡ strings (L.tail lex.now) at (label ∷ labels_of board.now before.now) }
{
    let Some(next) = advance(lex, at, label) else {
        return false;
    };
    match walk_back(board, lex, next, before) {
        Some(last) => last.accepts,
        None => false,
    }
}

/// What the labels of a stretch, read backwards, lead to.
#[tactic(auto, using(crate::proofs::Steps::labels_more, crate::proofs::Steps::labels_none))]
fn walk_back<L: PathLex>(
    board: &Board,
    lex: &L,
    at: Step<L::Node>,
    stretch: &Stretch,
) -> Option<Step<L::Node>>
    requires { IsOpen (L.is_node lex.now) at.next }
    ensures none { IfNone result ((t : List ℕ) → strings (L.tail lex.now) at (labels_of board.now stretch.now ++ t) ≡ false) }
    ensures some { IfSome result (λ s. (t : List ℕ)
        → strings (L.tail lex.now) at (labels_of board.now stretch.now ++ t) ≡ strings (L.tail lex.now) s t) }
    ensures node { IfSome result (λ s. IsOpen (L.is_node lex.now) s.next) }
{
    let mut step = at;
    let mut place = stretch.end;
    while place > stretch.first {
        place -= 1;
        step = advance(
            lex,
            step,
            label_at(board, Square::on_line(stretch.dir, stretch.line, place)),
        )?;
    }
    Some(step)
}

/// The label of a square's tile; 0 if it has none.
fn label_at(board: &Board, square: Square) -> u8
    ensures { result ≡ label_on board.now square }
{
    match board.at(square) {
        None => 0,
        Some(tile) => tile.shown.index + 1,
    }
}
