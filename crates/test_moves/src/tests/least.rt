//! A lexicon and a sink that give what their traits require, and no more.
ghost use Rattle.std.specs.Prelude.{List, ℕ};

use arrayvec::ArrayVec;
use gen_moves::{NoMemory, Sink};
use lex_file::{PathLex, Step};
use ref_play::Play;

/// A lexicon that has only the root and the steps of another one.
#[derive(Drop)]
pub struct StepsAlone<'a, L> {
    pub of: &'a L,
}

impl<L: PathLex> PathLex for StepsAlone<'_, L> {
    type Node = L::Node;

    ghost language = { λ lex string. L.language lex.of.now string };

    ghost is_node = { λ lex node. L.is_node lex.of.now node };

    ghost tail = { λ lex node string. L.tail lex.of.now node string };

    ghost height = { λ lex node. L.height lex.of.now node };

    fn root(&self) -> L::Node {
        self.of.root()
    }

    fn step(&self, node: L::Node, label: u8) -> Option<Step<L::Node>> {
        self.of.step(node, label)
    }

    ghost nonempty = { λ lex node is. L.nonempty lex.of.now node is };

    ghost labels = { λ lex node string is tail. L.labels lex.of.now node string is tail };

    ghost bounded = { λ lex node string is tail. L.bounded lex.of.now node string is tail };
}

/// A sink that has the last play that it took.
#[derive(Drop)]
pub struct Last {
    kept: ArrayVec<(Play, i32), 1>,
}

impl Last {
    /// A sink without a play.
    pub fn new() -> Last {
        Last {
            kept: ArrayVec::new(),
        }
    }

    /// The last play with its score, if there is one.
    pub fn items(&self) -> &[(Play, i32)] {
        &self.kept
    }
}

impl Sink for Last {
    ghost use Rattle.std.specs.Prelude.{[], ◌∷◌, map};
    ghost use Rattle.gen_sinks.specs.Sinks.{seen_pair};

    ghost items = { λ sink. map seen_pair sink.kept.items };

    ghost add = { λ _ _ given. given ∷ [] };

    fn take(&mut self, play: &Play, score: i32) -> Result<(), NoMemory> {
        self.kept = ArrayVec::new();
        self.kept.push((play.copy(), score));
        Ok(())
    }
}
