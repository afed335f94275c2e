//! The door: rules, a word list and its lexicon are read, in this order until one is bad, and then a question is asked.
ghost use Rattle.std.specs.Prelude.{◌∷◌, ◌++◌};
ghost use Rattle.io_devices.specs.Devices.{HasRoom};
ghost use Rattle.engine_stages.specs.Reading.{ReadsList, ReadsLexicon, ReadsPair};
ghost use Rattle.engine_stages.specs.Runs.{Gives};
ghost use Rattle.engine_stages.specs.Sources.{words_source, lexicon_source, pair_sources};

use crate::faults::RunFault;
use crate::lexicons::{pair_file, read_lexicon};
use crate::meanings::read_list;
use crate::questions::{Answer, Given, Question};
use crate::rules_sources::RulesSource;
use io_devices::Input;
use lex_list::WordList;
use ref_tiles::Rules;
use std::alloc::Global;

/// What was read before the lexicon.
#[derive(Drop)]
struct Listed<'a, S, W> {
    rules: &'a Rules,
    list: &'a WordList,
    rules_source: &'a S,
    words: &'a W,
}

/// Reads the lexicon of a word list, and then asks a question.
fn ask_by_list<S, W, L: Input, G, Q: Question<S, W, G>>(
    alloc: Global,
    question: &Q,
    listed: &Listed<'_, S, W>,
    lexicon: &mut L,
    more: &mut G,
) -> Result<Q::Answer, RunFault>
    requires lexicon { HasRoom (L.device lexicon.old) }
    requires more { Q.is_ready more.old }
    ensures { Gives Q.Answer.says (lexicon_source (L.device lexicon.old) (L.device lexicon.new) ∷ Q.sources more.old more.new)
        (λ x. ReadsLexicon listed.now.list.now (Q.is_answer question.now listed.now.rules.now listed.now.list.now x)) result }
{
    let bytes = read_lexicon(alloc, lexicon)?;
    match pair_file(alloc, listed.list, &bytes)? {
        Ok(pair) => {
            let given = Given {
                rules: listed.rules,
                pair: &pair,
                rules_source: listed.rules_source,
                words: listed.words,
            };
            question.answer(alloc, &given, more)
        }
        Err(decision) => Ok(Q::Answer::bad_input(decision)),
    }
}

/// Reads the words of a list, and then continues as [`ask_by_list`].
fn ask_by_rules<S, W: Input, L: Input, G, Q: Question<S, W, G>>(
    alloc: Global,
    question: &Q,
    rules: &Rules,
    rules_source: &S,
    words: &mut W,
    lexicon: &mut L,
    more: &mut G,
) -> Result<Q::Answer, RunFault>
    requires words { HasRoom (W.device words.old) }
    requires lexicon { HasRoom (L.device lexicon.old) }
    requires more { Q.is_ready more.old }
    ensures { Gives Q.Answer.says (words_source (W.device words.old) (W.device words.new)
        ∷ lexicon_source (L.device lexicon.old) (L.device lexicon.new) ∷ Q.sources more.old more.new)
        (λ x. ReadsList (λ list. ReadsLexicon list (Q.is_answer question.now rules.now list x))) result }
{
    match read_list(alloc, words) {
        Ok(Ok(list)) => {
            let listed = Listed {
                rules,
                list: &list,
                rules_source,
                words,
            };
            ask_by_list(alloc, question, &listed, lexicon, more)
        }
        Ok(Err(decision)) => Ok(Q::Answer::bad_input(decision)),
        Err(fault) => Err(fault),
    }
}

/// Reads the rules if they are not known, the words of a list and their lexicon, in this order until one is bad, and asks a
/// question. If one is bad, that is the answer, and nothing after it is read.
///
/// # Errors
///
/// If an input failed or memory was refused. `ReadFailed` comes only if the count of failures of one input rose and the others worked, and `NoMemory`
/// only if all worked.
pub fn ask<S: RulesSource, W: Input, L: Input, G, Q: Question<S, W, G>>(
    alloc: Global,
    question: &Q,
    rules: &mut S,
    words: &mut W,
    lexicon: &mut L,
    more: &mut G,
) -> Result<Q::Answer, RunFault>
    requires rules { HasRoom (S.text rules.old) }
    requires words { HasRoom (W.device words.old) }
    requires lexicon { HasRoom (L.device lexicon.old) }
    requires more { Q.is_ready more.old }
    ensures { Gives Q.Answer.says (pair_sources (S.known rules.old) (S.text rules.old) (S.text rules.new) (W.device words.old) (W.device words.new)
        (L.device lexicon.old) (L.device lexicon.new) (Q.sources more.old more.new))
        (λ x. ReadsPair (S.known rules.old) (λ stated list. Q.is_answer question.now stated list x)) result }
{
    match rules.read(alloc) {
        Ok(Ok(stated)) => ask_by_rules(alloc, question, &stated, rules, words, lexicon, more),
        Ok(Err(decision)) => Ok(Q::Answer::bad_input(decision)),
        Err(fault) => Err(fault),
    }
}
