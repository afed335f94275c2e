//! Two lexicons, walked side by side.
ghost use Rattle.std.specs.Prelude.{◌≡◌, ◌≤◌, ◌+◌, ℕ, List, OnOk, IfErr, length};
ghost use Rattle.lex_check.specs.Differences.{path_of, IsFirstDifference};

use crate::differences::{Difference, longer};
use crate::forks::fork_from;
use crate::meetings::{Meeting, meet};
use lex_file::PathLex;

/// Compares two lexicons string by string: they are the same, or this is the first difference. The second one has strings of at
/// most 16 labels, as its heights say.
pub fn check_paths<A: PathLex, B: PathLex>(file: &A, list: &B) -> Result<(), Difference>
    requires low { (node : B.Node) → B.is_node list.now node → B.height list.now node ≤ 16 }
    ensures same { OnOk result ((string : List ℕ) → A.language file.now string ≡ B.language list.now string) }
    ensures first { IfErr result (λ difference. IsFirstDifference (A.language file.now) (B.language list.now) difference) }
{
    compare(file, list, file.root(), list.root())
}

/// Compares the tails of two nodes.
fn compare<A: PathLex, B: PathLex>(
    file: &A,
    list: &B,
    of_file: A::Node,
    of_list: B::Node,
) -> Result<(), Difference>
    requires file { A.is_node file.now of_file }
    requires list { B.is_node list.now of_list }
    requires low { B.height list.now of_list ≤ 16 }
    ensures same { OnOk result ((string : List ℕ) → A.tail file.now of_file string ≡ B.tail list.now of_list string) }
    ensures first { IfErr result (λ difference. IsFirstDifference (A.tail file.now of_file) (B.tail list.now of_list) difference) }
    ensures short { IfErr result (λ difference. length (path_of difference) ≤ B.height list.now of_list + 1) }
{
    let mut from = 0;
    while let Some(fork) = fork_from(file, list, of_file, of_list, from) {
        let label = fork.label;
        match meet(file, list, of_file, of_list, fork) {
            Meeting::Agree => {}
            Meeting::Differ(difference) => return Err(difference),
            Meeting::Deeper(next, listed_next) => {
                match compare(file, list, next, listed_next) {
                    Ok(()) => {}
                    Err(difference) => return Err(longer(label, difference)),
                }
            }
        }
        from = label + 1;
    }
    Ok(())
}
