//! Building the file of a word list.
ghost use Rattle.std.specs.Prelude.{[], MatchResult};
ghost use Rattle.lex_build.specs.Builds.{IsBuiltOf, IsUnbuilt};
ghost use Rattle.lex_build.specs.Headers.{IsFileOf};
ghost use Rattle.lex_build.specs.Walks.{IsUnwritten};

use crate::faults::BuildFault;
use crate::walks::write_node;
use crate::writing::Writer;
use lex_check::SortedPaths;
use lex_file::PathLex;
use lex_list::WordList;
use std::alloc::Global;

/// Writes the file of a lexicon, which states a number of words.
#[tactic(auto, using(crate::proofs::Headers::lexicon_fault))]
fn write_lexicon<L: PathLex>(alloc: Global, lexicon: &L, words: u32) -> Result<Vec<u8>, BuildFault>
    ensures { MatchResult result (λ bytes. IsFileOf (L.language lexicon.now) words bytes.items) (λ why. IsUnwritten [] (L.language lexicon.now) why) }
{
    let mut writer = match Writer::new(alloc) {
        Ok(writer) => writer,
        Err(_) => return Err(BuildFault::NoMemory),
    };
    match write_node(alloc, &mut writer, lexicon, lexicon.root()) {
        Ok(root) => Ok(writer.finish(root, words)),
        Err(why) => Err(why),
    }
}

/// Builds the compiled lexicon of a word list: the bytes of a GAD1 file whose strings are the rotated paths of the words.
///
/// The nodes are written in the order of a walk from the root that visits labels in rising order: a node is written when the walk
/// leaves it, after all its targets, unless one with the same arcs was written before. The contract says what the bytes mean; their
/// order, and that nodes are shared, is shown only by tests.
///
/// # Errors
///
/// `TooManyArcs` comes only if all rotated paths together have more than 33,554,431 labels, `NoMemory` if memory ran out.
#[tactic(auto, using(crate::proofs::Headers::built_file, crate::proofs::Headers::built_fault), unfolding(lex_list::specs::Words::most_words))]
pub fn build(alloc: Global, list: &WordList) -> Result<Vec<u8>, BuildFault>
    ensures { MatchResult result (λ bytes. IsBuiltOf list.now bytes.items) (λ why. IsUnbuilt list.now why) }
{
    let paths = match SortedPaths::new(alloc, list) {
        Ok(paths) => paths,
        Err(_) => return Err(BuildFault::NoMemory),
    };
    // From here on it is known that the paths are in order, each once.
    let _count = paths.len();
    match write_lexicon(alloc, &paths, list.len() as u32) {
        Ok(bytes) => Ok(bytes),
        Err(why) => Err(why),
    }
}
