//! What follows a label and a front, kept for the next front that is turned over to the same label.
ghost use Rattle.std.specs.Prelude.{◌≡◌, ◌∷◌, [], ◌<◌, ◌≤◌, length, take};
ghost use Rattle.lex_file.specs.Files.{bytes_of};
ghost use Rattle.lex_agree.specs.Walks.{IsStepAt, AreTurned, IsKept};

use crate::firsts::common_letters;
use crate::steps::{after_label, follow};
use lex_file::{LexFile, Node, Step};

/// The maximum number of labels before a mark.
pub const MOST_LABELS: usize = 15;

/// The maximum number of labels before a mark, plus one.
const PLACES: usize = 16;

/// The last front that was turned over to a label, and the steps after that label and the first labels of the front.
#[derive(Clone, Copy)]
pub struct Kept {
    front: [u8; MOST_LABELS],
    known: usize,
    steps: [Step<Node>; PLACES],
}

/// No front turned over yet.
pub fn none_kept(none: Step<Node>) -> Kept
    ensures letters { length result.front ≡ 15 }
    ensures room { length result.steps ≡ 16 }
    ensures none { result.known ≡ 0 }
{
    Kept {
        front: [0; MOST_LABELS],
        known: 0,
        steps: [none; PLACES],
    }
}

/// What follows a label and a front: the walk continues from where the front differs from the one kept for that label.
#[tactic(auto, using(crate::proofs::Turned::turned_kept))]
pub fn walk_on(file: &LexFile<'_>, first: u8, front: &[u8], kept: &mut Kept) -> Step<Node>
    requires few { length front.now < 15 }
    requires kept { IsKept (bytes_of file.now) first kept.old }
    ensures step { IsStepAt (bytes_of file.now) (first ∷ front.now) result }
    ensures kept { IsKept (bytes_of file.now) first kept.new }
{
    let same = begin(file, first, front, kept);
    turn_more(file, first, front, same, kept);
    kept.known = front.len() + 1;
    kept.steps[front.len()]
}

/// The number of labels that a front has in common with the one that is kept. If none is kept, the step after only the label is put there.
#[tactic(auto, using(crate::proofs::Turned::turned_none, crate::proofs::Turned::turned_same))]
fn begin(file: &LexFile<'_>, first: u8, front: &[u8], kept: &mut Kept) -> usize
    requires { IsKept (bytes_of file.now) first kept.old }
    ensures letters { length kept.new.front ≡ 15 }
    ensures few { result ≤ length front.now }
    ensures front { take result kept.new.front ≡ take result front.now }
    ensures steps { AreTurned (bytes_of file.now) first front.now result kept.new.steps }
{
    if kept.known == 0 {
        kept.steps[0] = after_label(file, first);
        return 0;
    }
    common_letters(&kept.front[..kept.known - 1], front)
}

/// Adds the other labels of a front and their steps, after the first ones, which are known.
#[tactic(auto, using(crate::proofs::Turned::turned_more, crate::proofs::Turned::front_more))]
fn turn_more(file: &LexFile<'_>, first: u8, front: &[u8], same: usize, kept: &mut Kept)
    requires few { length front.now < 15 }
    requires same { same ≤ length front.now }
    requires letters { length kept.old.front ≡ 15 }
    requires front { take same kept.old.front ≡ take same front.now }
    requires steps { AreTurned (bytes_of file.now) first front.now same kept.old.steps }
    ensures letters { length kept.new.front ≡ 15 }
    ensures front { take (length front.now) kept.new.front ≡ front.now }
    ensures steps { AreTurned (bytes_of file.now) first front.now (length front.now) kept.new.steps }
{
    for split in same..front.len() {
        kept.front[split] = front[split];
        kept.steps[split + 1] = follow(file, kept.steps[split], front[split]);
    }
}
