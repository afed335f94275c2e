//! The walk over a lexicon that writes its nodes.
ghost use Rattle.std.specs.Prelude.{◌≡◌, OnOk, MatchResult};
ghost use Rattle.lex_file.specs.FileWords.{body_of};
ghost use Rattle.lex_build.specs.Bodies.{IsKept};
ghost use Rattle.lex_build.specs.Walks.{IsWritten, IsUnwritten};

use crate::arcs::{Arcs, arc_word};
use crate::faults::BuildFault;
use crate::writing::Writer;
use lex_file::{Branch, PathLex};
use smallvec::SmallVec;
use std::alloc::Global;

/// Writes those nodes of a walk from a node on that are not yet written, and returns the number of the node with its tails: 0 if it
/// has none.
pub fn write_node<L: PathLex>(
    alloc: Global,
    writer: &mut Writer,
    lexicon: &L,
    node: L::Node,
) -> Result<u32, BuildFault>
    requires node { L.is_node lexicon.now node }
    requires kept { IsKept writer.old.bytes.items writer.old.nodes.entries }
    ensures kept { OnOk result (IsKept writer.new.bytes.items writer.new.nodes.entries) }
    ensures written { MatchResult result (λ n. IsWritten (body_of writer.old.bytes.items) (body_of writer.new.bytes.items) (L.tail lexicon.now node) n) (λ why. IsUnwritten (body_of writer.old.bytes.items) (L.tail lexicon.now node) why) }
{
    let mut arcs: Arcs = SmallVec::new(alloc);
    let mut from = 0;
    while let Some(Branch { label, step }) = lexicon.branch_from(node, from) {
        let target = match step.next {
            Some(next) => match write_node(alloc, writer, lexicon, next) {
                Ok(target) => target,
                Err(why) => return Err(why),
            },
            None => 0,
        };
        let Ok(()) = arcs.push(arc_word(label, step.accepts, target)) else {
            return Err(BuildFault::NoMemory);
        };
        from = label + 1;
    }
    if arcs.is_empty() {
        return Ok(0);
    }
    writer.place_node(arcs)
}
