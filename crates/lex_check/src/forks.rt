//! The next label of two nodes at once.
ghost use Rattle.std.specs.Prelude.{◌≡◌, ◌≤◌, ◌<◌, IfNone, IfSome};
ghost use Rattle.lex_check.specs.Forks.{label_or_end, step_at, StandsAfter, AreSameBetween};

use lex_file::{Branch, LABELS, PathLex, Step};

/// A label with which a tail of one of two nodes begins, and what follows it in each.
#[derive(Clone, Copy)]
pub struct Fork<M, N> {
    pub label: u8,
    pub here: Step<M>,
    pub listed: Step<N>,
}

/// The label of a branch; if there is none, 27, which is above all labels.
fn label_or_end<N>(branch: &Option<Branch<N>>) -> u8
    ensures { result ≡ label_or_end branch.now }
{
    match branch {
        Some(branch) => branch.label,
        None => LABELS,
    }
}

/// What follows a label, given a branch that is the first from some label on, and not below this one.
fn step_at<N: Copy>(branch: Option<Branch<N>>, label: u8) -> Step<N>
    ensures { result ≡ step_at branch label }
{
    match branch {
        Some(branch) if branch.label == label => branch.step,
        _ => Step {
            accepts: false,
            next: None,
        },
    }
}

/// The first label from `from` on with which a tail of one of the nodes begins, and what follows it in each.
pub fn fork_from<A: PathLex, B: PathLex>(
    file: &A,
    list: &B,
    of_file: A::Node,
    of_list: B::Node,
    from: u8,
) -> Option<Fork<A::Node, B::Node>>
    requires file { A.is_node file.now of_file }
    requires list { B.is_node list.now of_list }
    ensures none { IfNone result (AreSameBetween (A.tail file.now of_file) (B.tail list.now of_list) from 27) }
    ensures same { IfSome result (λ fork. AreSameBetween (A.tail file.now of_file) (B.tail list.now of_list) from fork.label) }
    ensures reached { IfSome result (λ fork. from ≤ fork.label) }
    ensures low { IfSome result (λ fork. fork.label < 27) }
    ensures here { IfSome result (λ fork. StandsAfter (A.is_node file.now) (A.tail file.now) (A.height file.now) of_file fork.label fork.here) }
    ensures listed { IfSome result (λ fork. StandsAfter (B.is_node list.now) (B.tail list.now) (B.height list.now) of_list fork.label fork.listed) }
{
    let here = file.branch_from(of_file, from);
    let listed = list.branch_from(of_list, from);
    let label = label_or_end(&here).min(label_or_end(&listed));
    if label >= LABELS {
        return None;
    }
    Some(Fork {
        label,
        here: step_at(here, label),
        listed: step_at(listed, label),
    })
}
