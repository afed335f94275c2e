//! The inputs that games are judged by: rules, a word list and its lexicon.
ghost use Rattle.std.specs.Prelude.{IfOk};
ghost use Rattle.io_devices.specs.Devices.{HasRoom};

use crate::digesting::Digesting;
use crate::files::{
    InputFile, STANDARD_ERROR, STANDARD_OUTPUT, open, used, used_rules, used_words, watched,
};
use crate::hints::Known;
use crate::reporting::give_hint;
use crate::sources::{Seen, Source, Words, open_words, seen_words, shown};
use crate::troubles::Trouble;
use cli_args::{PairFiles, STANDARD_OUTPUT_NAME, WordsFile};
use engine_stages::{Decision, Given, RulesInput, RulesSource};
use game_exits::Exit;
use io_devices::{FromRead, FromWrite, Input, write_whole};
use io_watch::{Reason, WatchedRead};
use ref_tiles::{MAX_RULES_BYTES, english_rules};
use std::alloc::AllocError;
use std::io::{self, Read};
use std::rt::Runtime;

/// How many bytes of a rules text are kept: all that a rules text may have.
const RULES_FRONT: usize = MAX_RULES_BYTES;

/// The English rules, or those of a text.
pub type RulesFile<F> = RulesInput<FromRead<Seen<F>>>;

/// A lexicon.
pub type LexiconFile<F> = FromRead<WatchedRead<F>>;

/// What was read of these inputs.
pub type GivenFiles<'a, F, S> = Given<'a, RulesFile<F>, FromRead<Words<S>>>;

/// How the program ends after a question that wrote its answer, or the decision that an input is bad.
pub type Reported<'a> = Result<Result<Exit, Trouble<'a>>, Decision>;

/// The open inputs that games are judged by.
#[derive(Drop)]
pub struct Inputs<F, S> {
    /// The rules.
    pub rules: RulesFile<F>,
    /// The word list.
    pub words: FromRead<Words<S>>,
    /// The lexicon of the words.
    pub lexicon: LexiconFile<F>,
}

impl<F: Read + Drop, S: Read + Drop> Inputs<F, S> {
    /// These inputs after a call, in the order in which they were read.
    pub fn used<'a>(&self, rules: Option<&'a str>, pair: PairFiles<'a>) -> [InputFile<'a>; 3] {
        [
            used_rules(rules, &self.rules.text),
            used_words(pair.words.name, &self.words),
            used(pair.lexicon, &self.lexicon),
        ]
    }
}

impl<F: Read + Drop, S: Read + Drop> Inputs<F, S> {
    /// What is known of these inputs after a call.
    pub fn known<'a>(&'a self, pair: PairFiles<'a>) -> Known<'a> {
        Known {
            lexicon: pair.lexicon,
            rules: rules_front(&self.rules),
            ..known_words(pair.words, &self.words)
        }
    }
}

/// The first bytes of a rules text, if there is one.
pub fn rules_front<F: Read + Drop>(rules: &RulesFile<F>) -> &[u8] {
    match &rules.text {
        Some(text) => text.inner().front().bytes(),
        None => b"",
    }
}

/// What is known of a word list after a call.
pub fn known_words<'a, S: Read + Drop>(
    words: WordsFile<'a>,
    list: &'a FromRead<Words<S>>,
) -> Known<'a> {
    Known {
        words: shown(words.name),
        words_front: seen_words(list).front().bytes(),
        ..Known::NOTHING
    }
}

/// Opens a rules text, if one is named.
pub fn open_rules<'a, R: Runtime + AllocGlobal>(
    rt: &R,
    name: Option<&'a str>,
    digests: bool,
) -> Result<RulesFile<R::File>, Trouble<'a>>
    ensures { IfOk result (λ rules. HasRoom (⟦<RulesFile<R::File> as RulesSource>⟧.text rules)) }
{
    let rules = english_rules();
    let Some(name) = name else {
        return Ok(RulesInput { rules, text: None });
    };
    let text = Digesting::new(open(rt, name)?, digests);
    let text = FromRead::new(WatchedRead::new(rt.alloc(), text, RULES_FRONT));
    Ok(RulesInput {
        rules,
        text: Some(text),
    })
}

/// Opens a lexicon.
pub fn open_lexicon<'a, R: Runtime + AllocGlobal>(
    rt: &R,
    name: &'a str,
) -> Result<LexiconFile<R::File>, Trouble<'a>>
    ensures { IfOk result (λ file. HasRoom (⟦<LexiconFile<R::File> as Input>⟧.device file)) }
{
    let file = WatchedRead::new(rt.alloc(), open(rt, name)?, 0);
    Ok(FromRead::new(file))
}

/// Opens the rules text if there is one, the word list and the lexicon, in this order. The bytes of the rules text and of the
/// word list are digested on request.
pub fn open_inputs<'a, R: Runtime + AllocGlobal>(
    rt: &R,
    rules: Option<&'a str>,
    pair: PairFiles<'a>,
    digests: bool,
) -> Result<Inputs<R::File, Source<R>>, Trouble<'a>>
    ensures rules { IfOk result (λ inputs. HasRoom (⟦<RulesFile<R::File> as RulesSource>⟧.text inputs.rules)) }
    ensures words { IfOk result (λ inputs. HasRoom (⟦<FromRead<Words<Source<R>>> as Input>⟧.device inputs.words)) }
    ensures lexicon { IfOk result (λ inputs. HasRoom (⟦<LexiconFile<R::File> as Input>⟧.device inputs.lexicon)) }
{
    Ok(Inputs {
        rules: open_rules(rt, rules, digests)?,
        words: FromRead::new(open_words(rt, pair.words, digests)?),
        lexicon: open_lexicon(rt, pair.lexicon)?,
    })
}

/// The SHA-256 of what games are judged by.
#[derive(Clone, Copy, Drop)]
pub struct Digests {
    /// That of the bytes of the word list.
    pub list: [u8; 32],
    /// That of the rules text, if there is one.
    pub rules: Option<[u8; 32]>,
}

/// The digests of these inputs, which must have been opened with digests.
pub fn digests_of<F: Read + Drop, S: Read + Drop>(
    given: &GivenFiles<'_, F, S>,
) -> Result<Digests, AllocError> {
    let rules = match &given.rules_source.text {
        None => None,
        Some(text) => text.inner().inner().digest()?,
    };
    let list = seen_words(given.words).inner().digest()?;
    Ok(Digests {
        list: list.unwrap_or([0; 32]),
        rules,
    })
}

/// Says that one of these inputs is bad, next to what goes to an output of this name, if there is one.
pub fn refuse<'a, R: Runtime + AllocGlobal>(
    rt: &R,
    out: Option<&str>,
    decision: &Decision,
    known: &Known<'_>,
) -> Result<Exit, Trouble<'a>> {
    let line = decision.report.as_slice();
    write_beside(rt, out, line)?;
    give_hint(rt, line, known);
    Ok(Exit::from(decision.verdict))
}

/// Writes bytes to standard output.
pub fn write<'a, R: Runtime + AllocGlobal>(rt: &R, bytes: &[u8]) -> Result<(), Trouble<'a>> {
    let mut out = FromWrite::new(watched(rt, io::writer(rt)));
    match write_whole(&mut out, bytes) {
        Ok(()) => Ok(()),
        Err(_) => Err(Trouble::WriteFailed(STANDARD_OUTPUT, out.into_inner().reason())),
    }
}

/// Writes bytes to standard output, or to standard error if a command writes to an output of this name that is standard output itself.
fn write_beside<'a, R: Runtime + AllocGlobal>(
    rt: &R,
    out: Option<&str>,
    bytes: &[u8],
) -> Result<(), Trouble<'a>> {
    if out != Some(STANDARD_OUTPUT_NAME) {
        return write(rt, bytes);
    }
    let Ok(text) = String::from_utf8_lossy(rt.alloc(), bytes) else {
        return Err(Trouble::NoMemory);
    };
    match rt.eprint(text.as_str()) {
        Ok(()) => Ok(()),
        Err(error) => Err(Trouble::WriteFailed(STANDARD_ERROR, Reason::of(&error))),
    }
}
