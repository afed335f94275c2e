//! How the tails of two nodes compare at one label.
ghost use Rattle.std.specs.Prelude.{◌≡◌, ◌≤◌, ◌<◌, ◌+◌, length};
ghost use Rattle.lex_check.specs.Meetings.{MeetingGives, IsShort, IsEnded};
ghost use Rattle.lex_check.specs.Forks.{StandsAfter};

use crate::differences::{Difference, only, with_front};
use crate::forks::Fork;
use crate::least::{first_label, least_tail};
use lex_file::PathLex;

/// How the tails of two nodes that begin with one label compare.
#[derive(Drop)]
pub enum Meeting<M, N> {
    /// They are the same.
    Agree,
    /// The label alone is a tail of both nodes or of neither, and both continue after it, with these nodes.
    Deeper(M, N),
    /// They differ, first here.
    Differ(Difference),
}

/// The difference if a string ends with the label in only one of the two.
fn ended(label: u8, in_file: bool) -> Difference
    ensures { IsEnded label in_file result }
{
    if in_file {
        Difference::Extra(only(label))
    } else {
        Difference::Missing(only(label))
    }
}

/// Compares the tails of two nodes that begin with the label of a fork, as far as one step decides.
pub fn meet<A: PathLex, B: PathLex>(
    file: &A,
    list: &B,
    of_file: A::Node,
    of_list: B::Node,
    fork: Fork<A::Node, B::Node>,
) -> Meeting<A::Node, B::Node>
    requires file { A.is_node file.now of_file }
    requires list { B.is_node list.now of_list }
    requires low { B.height list.now of_list ≤ 16 }
    requires here { StandsAfter (A.is_node file.now) (A.tail file.now) (A.height file.now) of_file fork.label fork.here }
    requires listed { StandsAfter (B.is_node list.now) (B.tail list.now) (B.height list.now) of_list fork.label fork.listed }
    ensures gives { MeetingGives (A.is_node file.now) (A.tail file.now) (A.height file.now) of_file (B.is_node list.now) (B.tail list.now) (B.height list.now) of_list fork.label result }
    ensures short { IsShort (B.height list.now of_list + 1) result }
{
    let Fork {
        label,
        here,
        listed,
    } = fork;
    if here.accepts != listed.accepts {
        return Meeting::Differ(ended(label, here.accepts));
    }
    match (here.next, listed.next) {
        (None, None) => Meeting::Agree,
        (Some(next), Some(listed_next)) => Meeting::Deeper(next, listed_next),
        (None, Some(listed_next)) => {
            Meeting::Differ(Difference::Missing(with_front(label, least_tail(list, listed_next))))
        }
        (Some(next), None) if listed.accepts => {
            Meeting::Differ(Difference::Extra(with_front(label, only(first_label(file, next)))))
        }
        (Some(_), None) => Meeting::Differ(Difference::Extra(only(label))),
    }
}
