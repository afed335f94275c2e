//! The words of a play that are not in the list.
ghost use Rattle.std.specs.Prelude.{◌≡◌, ◌++◌, IfOk, OnOk};
ghost use Rattle.ref_play.specs.Words.{items_of};
ghost use Rattle.game_turns.specs.Unlisted.{letters_in, unlisted_one, unlisted_of};

use lex_list::WordList;
use ref_play::Word;
use std::alloc::{AllocError, Global};

/// A word, by its letters: capitals A to Z.
#[derive(Drop)]
pub struct SpelledWord {
    /// The letters.
    pub letters: Vec<u8>,
}

/// Appends a word, if it is not in the list.
fn push_unlisted(
    alloc: Global,
    kept: &mut Vec<SpelledWord>,
    list: &WordList,
    word: &Word,
) -> Result<(), AllocError>
    ensures { OnOk result (letters_in kept.new.items ≡ letters_in kept.old.items ++ unlisted_one list.now word.now.items) }
{
    if list.has(word.as_slice()) {
        return Ok(());
    }
    let letters = Vec::from_slice(alloc, word.as_slice())?;
    kept.push(SpelledWord { letters })?;
    Ok(())
}

/// The words that are not in the list, in their order.
///
/// It fails only if memory runs out.
pub fn unlisted_of(
    alloc: Global,
    list: &WordList,
    words: &[Word],
) -> Result<Vec<SpelledWord>, AllocError>
    ensures { IfOk result (λ kept. letters_in kept.items ≡ unlisted_of list.now (items_of words.now)) }
{
    let mut kept = Vec::new(alloc);
    for word in words {
        push_unlisted(alloc, &mut kept, list, word)?;
    }
    Ok(kept)
}
