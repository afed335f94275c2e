//! A sink that keeps every play.
ghost use Rattle.std.specs.Prelude.{◌≡◌, [], map};
ghost use Rattle.gen_sinks.specs.Sinks.{seen_pair};

use crate::sinks::{NoMemory, Sink};
use ref_play::Play;
use std::alloc::Global;

/// A sink that keeps all plays, in the order in which they come.
#[derive(Drop)]
pub struct All {
    kept: Vec<(Play, i32)>,
}

impl All {
    /// A sink without plays. It takes no memory.
    pub fn new(alloc: Global) -> All
        ensures { ⟦<All as Sink>⟧.items result ≡ [] }
    {
        All {
            kept: Vec::new(alloc),
        }
    }

    /// The plays with their scores.
    pub fn items(&self) -> &[(Play, i32)]
        ensures { map seen_pair result.now ≡ ⟦<All as Sink>⟧.items self.now }
    {
        &self.kept
    }
}

impl Sink for All {
    ghost use Rattle.std.specs.Prelude.{map};
    ghost use Rattle.gen_sinks.specs.Sinks.{seen_pair, add_last};

    ghost items = { λ sink. map seen_pair sink.kept.items };

    ghost add = { add_last };

    fn take(&mut self, play: &Play, score: i32) -> Result<(), NoMemory> {
        self.kept.push((play.copy(), score))?;
        Ok(())
    }
}
