//! A question about the game of a record, by the bytes of its inputs.
ghost use Rattle.std.specs.Prelude.{◌∷◌, []};
ghost use Rattle.io_devices.specs.Devices.{HasRoom};
ghost use Rattle.engine_stages.specs.Reading.{ReadsNoMore, ReadsRecord, ReadsPair};
ghost use Rattle.engine_stages.specs.Runs.{IsRun};
ghost use Rattle.engine_stages.specs.Sources.{game_source, pair_sources};

use engine_stages::{GameQuestion, RulesSource, RunFault, Verdict, ask, finish};
use io_devices::{Input, Output};
use std::alloc::Global;

/// Decides a question about the game of a record, and writes the report.
///
/// The rules are read if they are not known, then the words, the lexicon and the record, until one is bad. The report is made in
/// memory before the first write.
///
/// # Errors
///
/// `ReadFailed` and `WriteFailed` come only if that device failed, or a write took no byte; `NoMemory` if memory
/// was refused. After `WriteFailed` a prefix of the report was written, after the other two nothing.
pub fn run_question<S: RulesSource, W: Input, L: Input, G: Input, O: Output, Q: GameQuestion>(
    alloc: Global,
    question: &Q,
    rules: &mut S,
    words: &mut W,
    lexicon: &mut L,
    game: &mut G,
    out: &mut O,
) -> Result<Verdict, RunFault>
    requires rules { HasRoom (S.text rules.old) }
    requires words { HasRoom (W.device words.old) }
    requires lexicon { HasRoom (L.device lexicon.old) }
    requires game { HasRoom (G.device game.old) }
    requires out { HasRoom (O.device out.old) }
    ensures { IsRun (pair_sources (S.known rules.old) (S.text rules.old) (S.text rules.new) (W.device words.old) (W.device words.new)
        (L.device lexicon.old) (L.device lexicon.new) (game_source (G.device game.old) (G.device game.new) ∷ []))
        (ReadsPair (S.known rules.old) (λ stated list. ReadsRecord (λ r. ReadsNoMore (Q.is_decided question.now stated list r))))
        (O.device out.old) (O.device out.new) result }
{
    let decided = ask(alloc, question, rules, words, lexicon, game);
    finish(out, decided)
}
