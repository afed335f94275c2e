//! The ruling on words that are named.
ghost use Rattle.std.specs.Prelude.{IfOk, option_map};
ghost use Rattle.reply_answers.specs.Words.{WordsOf, IsRuledOn};

use lex_list::WordList;
use lex_rulings::{AskedWord, Ruling, ruling_on};
use std::alloc::{AllocError, Global};

/// Words, with the ruling on them.
#[derive(Drop)]
pub struct Ruled {
    /// The words, in capitals.
    pub words: Vec<AskedWord>,
    /// The ruling.
    pub ruling: Ruling,
}

/// The words of texts; `None` if a text is not a word.
fn words_of(alloc: Global, texts: &[&str]) -> Result<Option<Vec<AskedWord>>, AllocError>
    ensures { IfOk result (λ words. WordsOf texts.now (option_map (λ w. w.items) words)) }
{
    let mut words = Vec::new(alloc);
    for text in texts {
        let Some(word) = AskedWord::of(alloc, text.as_bytes())? else {
            return Ok(None);
        };
        words.push(word)?;
    }
    Ok(Some(words))
}

/// The ruling on the words of texts: what `word` finds; `None` if a text is not a word.
pub fn rule_on_texts(
    alloc: Global,
    list: &WordList,
    texts: &[&str],
) -> Result<Option<Ruled>, AllocError>
    ensures { IfOk result (IsRuledOn list.now texts.now) }
{
    let Some(words) = words_of(alloc, texts)? else {
        return Ok(None);
    };
    let ruling = ruling_on(alloc, list, &words)?;
    Ok(Some(Ruled { words, ruling }))
}
