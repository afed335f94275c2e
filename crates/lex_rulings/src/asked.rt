//! Words that are asked about.
ghost use Rattle.std.specs.Prelude.{◌≡◌, ◌++◌, IfOk, OnOk, option_map};
ghost use Rattle.std.specs.Char.{is_ascii_alphabetic};
ghost use Rattle.std.specs.List.{list_all};
ghost use Rattle.lex_list.specs.Lists.{capitals};
ghost use Rattle.lex_rulings.specs.Asked.{is_word, asked_of, letters_of};

use std::alloc::{AllocError, Global};

/// A word that is asked about, in capitals.
#[derive(Drop)]
pub struct AskedWord {
    /// Its letters.
    pub letters: Vec<u8>,
}

fn has_letters_alone(text: &[u8]) -> bool
    ensures { result ≡ list_all is_ascii_alphabetic text.now }
{
    text.iter().all(u8::is_ascii_alphabetic)
}

/// Whether a text is one word of 2 to 15 letters.
pub fn is_word(text: &[u8]) -> bool
    ensures { result ≡ is_word text.now }
{
    has_letters_alone(text) && 2 <= text.len() && text.len() <= 15
}

/// Appends a text, its letters as capitals.
pub fn push_capitals(letters: &mut Vec<u8>, text: &[u8]) -> Result<(), AllocError>
    ensures { OnOk result (letters.new.items ≡ letters.old.items ++ capitals text.now) }
{
    for byte in text {
        letters.push(byte.to_ascii_uppercase())?;
    }
    Ok(())
}

impl AskedWord {
    /// The word of a text, whose letters may be lower case; none if it is not 2 to 15 letters.
    pub fn of(alloc: Global, text: &[u8]) -> Result<Option<AskedWord>, AllocError>
        ensures { IfOk result (λ asked. option_map letters_of asked ≡ asked_of text.now) }
    {
        if !is_word(text) {
            return Ok(None);
        }
        let mut letters = Vec::new(alloc);
        push_capitals(&mut letters, text)?;
        Ok(Some(AskedWord { letters }))
    }
}
