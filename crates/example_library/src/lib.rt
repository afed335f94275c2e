//! A caller of the crates as a library: whether the rules allow every event of a record.
#![tactic(auto)]

ghost use Rattle.std.specs.Prelude.{◌≡◌, ◌↔◌, ◌⊎◌, IsTrue, IsOk, OnOk, IfOk, IfErr, Err};
ghost use Rattle.gcg_read.specs.Faults.{no_memory};
ghost use Rattle.gcg_read.specs.Records.{record_of};
ghost use Rattle.game_turns.specs.Places.{AreAllowed};

use game_turns::play_through;
use gcg_read::{ReadFault, read};
use lex_list::WordList;
use ref_tiles::Rules;
use std::alloc::Global;

/// Whether rules allow every event of the record that a text states, by a word list.
///
/// # Errors
///
/// The first fault of the text, or that there was no memory.
pub fn allows(alloc: Global, rules: &Rules, list: &WordList, text: &[u8]) -> Result<bool, ReadFault>
    ensures stated { OnOk result (IsOk (record_of text.now)) }
    ensures allowed { IfOk result (λ yes. IfOk (record_of text.now) (λ game. IsTrue yes ↔ AreAllowed rules.now list.now game.events)) }
    ensures fault { IfErr result (λ fault. (fault ≡ no_memory) ⊎ (record_of text.now ≡ Err fault)) }
{
    let game = read(alloc, text)?;
    Ok(play_through(rules, &game, list).is_ok())
}
