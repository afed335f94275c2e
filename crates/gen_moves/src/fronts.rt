//! What the old tiles right after an anchor lead to, so that a walk can begin with them.
ghost use Rattle.std.specs.Prelude.{◌≡◌, ◌≤◌, ◌+◌, ℕ, List, ◌∷◌, false, drop, length, IfSome, IfNone};
ghost use Rattle.lex_file.specs.Walking.{strings, IsOpen};
ghost use Rattle.gen_line.specs.Moves.{back};
ghost use Rattle.gen_moves.specs.OldTiles.{olds};

use gen_line::Cell;
use lex_file::{PathLex, Step, advance};
use ref_board::SIDE;

/// What the old tiles from a place on, read backwards, lead to, or None if no string continues with them.
fn back_over<L: PathLex>(
    lex: &L,
    cells: &[Cell; SIDE],
    at: Step<L::Node>,
    place: usize,
) -> Option<Step<L::Node>>
    requires node { IsOpen (L.is_node lex.now) at.next }
    requires place { place ≤ SIDE }
    ensures none { IfNone result ((t : List ℕ) → strings (L.tail lex.now) at (back (olds (drop place cells.now)) t) ≡ false) }
    ensures some { IfSome result (λ s. (t : List ℕ)
        → strings (L.tail lex.now) at (back (olds (drop place cells.now)) t) ≡ strings (L.tail lex.now) s t) }
    ensures open { IfSome result (λ s. IsOpen (L.is_node lex.now) s.next) }
{
    if place == SIDE {
        return Some(at);
    }
    match &cells[place] {
        Cell::Old(label) => match back_over(lex, cells, at, place + 1) {
            Some(next) => advance(lex, next, *label),
            None => None,
        },
        Cell::Free(_) => Some(at),
    }
}

/// The first place from a place on that has no old tile.
pub fn after_olds(cells: &[Cell; SIDE], place: usize) -> usize
    requires { place ≤ SIDE }
    ensures place { result ≡ place + length (olds (drop place cells.now)) }
    ensures inside { result ≤ SIDE }
{
    if place == SIDE {
        return place;
    }
    match &cells[place] {
        Cell::Old(_) => after_olds(cells, place + 1),
        Cell::Free(_) => place,
    }
}

/// What the old tiles from a place on, read backwards, lead to from the root, or None if no word has them.
pub fn front_of<L: PathLex>(lex: &L, cells: &[Cell; SIDE], place: usize) -> Option<Step<L::Node>>
    requires { place ≤ SIDE }
    ensures none { IfNone result ((label : ℕ) (t : List ℕ) → L.language lex.now (back (olds (drop place cells.now)) (label ∷ t)) ≡ false) }
    ensures some { IfSome result (λ s. (label : ℕ) (t : List ℕ)
        → L.language lex.now (back (olds (drop place cells.now)) (label ∷ t)) ≡ strings (L.tail lex.now) s (label ∷ t)) }
    ensures open { IfSome result (λ s. IsOpen (L.is_node lex.now) s.next) }
{
    let whole = Step {
        accepts: false,
        next: Some(lex.root()),
    };
    back_over(lex, cells, whole, place)
}
