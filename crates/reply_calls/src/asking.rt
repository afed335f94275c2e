//! What is asked, and how what is found is written.
ghost use Rattle.std.specs.Prelude.{◌≡◌, ℕ, List, Result, map, IfOk, IfErr};
ghost use Rattle.ref_tiles.specs.declared.rulebook.Rules.{Rules};
ghost use Rattle.lex_check.specs.Pairs.{list_in};
ghost use Rattle.engine_stages.specs.declared.decisions.Decision.{Decision};
ghost use Rattle.engine_stages.specs.declared.faults.RunFault.TheVariants.{NoMemory};
ghost use Rattle.game_exits.specs.Exits.{status_of};
ghost use Rattle.reply_calls.specs.declared.printed.Printed.{Printed};

use crate::printed::Printed;
use engine_stages::{Decision, Given, RunFault};
use game_exits::Exit;
use ref_tiles::Rules;
use std::alloc::{AllocError, Global};

/// What is asked of sheets once the rules, the words of a list and their lexicon are read.
pub trait Asking<S, W> {
    /// The type of its replies.
    type Reply: Drop;

    // What is a reply by rules and the words of a list, on the sheets with these bytes.
    ghost is_reply: { Self → Rules → List (List ℕ) → (texts : List (List ℕ)) → Self.Reply → Type 0 };

    /// The reply on sheets with these bytes.
    ///
    /// # Errors
    ///
    /// It fails only if memory is refused.
    fn reply(
        &self,
        alloc: Global,
        given: &Given<'_, S, W>,
        sheets: &[Vec<u8>],
    ) -> Result<Self::Reply, RunFault>
        ensures reply { IfOk result (is_reply self.now given.now.rules.now (list_in given.now.pair.now) (map (λ sheet. sheet.items) sheets.now)) }
        ensures memory { IfErr result (λ why. why ≡ NoMemory) };
}

/// What is asked of a sheet by rules alone.
pub trait AskingByRules {
    /// The type of its replies.
    type Reply: Drop;

    // What is a reply by rules, on the sheet with these bytes.
    ghost is_reply: { Self → Rules → (text : List ℕ) → Self.Reply → Type 0 };

    /// The reply on a sheet with these bytes.
    ///
    /// # Errors
    ///
    /// It fails only if memory is refused.
    fn reply(&self, alloc: Global, rules: &Rules, sheet: &[u8]) -> Result<Self::Reply, RunFault>
        ensures reply { IfOk result (is_reply self.now rules.now sheet.now) }
        ensures memory { IfErr result (λ why. why ≡ NoMemory) };
}

/// A way to write what was found: a reply, or the decision that an input that is read before the sheets is bad.
pub trait Rendering<A> {
    // What is written of what was found.
    ghost shows: { Self → Result A Decision → Printed → Type 0 };

    // The status of a reply.
    ghost status: { A → ℕ };

    /// What is written.
    ///
    /// # Errors
    ///
    /// It fails only if memory is refused.
    fn render(&self, alloc: Global, found: &Result<A, Decision>) -> Result<Printed, AllocError>
        ensures { IfOk result (shows self.now found.now) };

    /// How the program ends after a reply.
    fn exit(&self, reply: &A) -> Exit
        ensures { status_of result ≡ status reply.now };
}
