//! Judging a game by the bytes of its inputs, by the deal of the rule or by a search. The contract of [`run`] is the theorem of the whole.
ghost use Rattle.std.specs.Prelude.{◌≡◌, ◌∷◌, [], Bool, IfOk};
ghost use Rattle.io_devices.specs.Devices.{HasRoom};
ghost use Rattle.engine_stages.specs.declared.verdicts.Verdict.TheVariants as verdict;
ghost use Rattle.engine.specs.Headlines.{IsLegalRun};
ghost use Rattle.engine.specs.Judging.{IsDecided, IsDecidedByText};
ghost use Rattle.engine_stages.specs.Runs.{IsRun};
ghost use Rattle.engine.specs.Settling.{IsSettledBy, IsSettledByText};
ghost use Rattle.engine_stages.specs.Sources.{rules_source, words_source, lexicon_source, game_source};

use crate::asking::run_question;
use crate::judging::Judging;
use crate::laws::{law_of_legal, law_of_settled_games};
use engine_stages::{KnownRules, RunFault, Verdict};
use io_devices::{Input, Output};
use ref_tiles::Rules;
use std::alloc::Global;

/// Judges a game from its record by the words of a list and their lexicon, and writes the report.
///
/// The words are read before the lexicon, and the lexicon before the record, each to its end, or to one byte past its
/// limit of 16 MiB, 268,435,468 bytes or 1 MiB and no further. If the words are not a list, the lexicon is not read, and
/// if the file is not the lexicon of the list, the record is not read. A lexicon over its limit has a wrong length,
/// whatever its bytes are. The report is made in memory before the first write.
///
/// # Errors
///
/// `ReadFailed` and `WriteFailed` come only if that device failed, or a write took no byte; `NoMemory` if memory
/// was refused. After `WriteFailed` a prefix of the report was written, after the other two nothing.
pub fn run<W: Input, L: Input, G: Input, O: Output>(
    alloc: Global,
    words: &mut W,
    lexicon: &mut L,
    game: &mut G,
    out: &mut O,
    rules: &Rules,
) -> Result<Verdict, RunFault>
    requires words { HasRoom (W.device words.old) }
    requires lexicon { HasRoom (L.device lexicon.old) }
    requires game { HasRoom (G.device game.old) }
    requires out { HasRoom (O.device out.old) }

    ensures run { IsRun (words_source (W.device words.old) (W.device words.new)
        ∷ lexicon_source (L.device lexicon.old) (L.device lexicon.new) ∷ game_source (G.device game.old) (G.device game.new) ∷ [])
        (IsDecided rules.now) (O.device out.old) (O.device out.new) result }

    // What the verdict legal means.
    ensures legal { IfOk result (λ v. (complete : Bool) → v ≡ verdict.Legal complete
        → IsLegalRun rules.now (words_source (W.device words.old) (W.device words.new)
        ∷ lexicon_source (L.device lexicon.old) (L.device lexicon.new) ∷ game_source (G.device game.old) (G.device game.new) ∷ [])
        complete (O.device out.old) (O.device out.new)) }
{
    law_of_legal();
    let mut known = KnownRules { rules };
    run_question(
        alloc,
        &Judging::ByRule,
        &mut known,
        words,
        lexicon,
        game,
        out,
    )
}

/// Judges a game from its record as [`run`] does, by the rules that a text states.
///
/// The rules text is read before all other inputs, to its end, or to one byte past its limit of 65,536 bytes and no further. If it gives no rules,
/// that is the verdict, and no other input is read. Otherwise all is as in `run`, with the rules of the text. A record without an exchange is never
/// `Unsettled` by these rules either.
///
/// # Errors
///
/// `ReadFailed` and `WriteFailed` come only if that device failed, or a write took no byte; `NoMemory` if memory
/// was refused. After `WriteFailed` a prefix of the report was written, after the other two nothing.
pub fn run_ruled<R: Input, W: Input, L: Input, G: Input, O: Output>(
    alloc: Global,
    rules_text: &mut R,
    words: &mut W,
    lexicon: &mut L,
    game: &mut G,
    out: &mut O,
) -> Result<Verdict, RunFault>
    requires rules_text { HasRoom (R.device rules_text.old) }
    requires words { HasRoom (W.device words.old) }
    requires lexicon { HasRoom (L.device lexicon.old) }
    requires game { HasRoom (G.device game.old) }
    requires out { HasRoom (O.device out.old) }
    ensures { IsRun (rules_source (R.device rules_text.old) (R.device rules_text.new) ∷ words_source (W.device words.old) (W.device words.new)
        ∷ lexicon_source (L.device lexicon.old) (L.device lexicon.new) ∷ game_source (G.device game.old) (G.device game.new) ∷ [])
        IsDecidedByText (O.device out.old) (O.device out.new) result }
{
    run_question(
        alloc,
        &Judging::ByRule,
        rules_text,
        words,
        lexicon,
        game,
        out,
    )
}

/// Judges a game as [`run`] does, but searches for a deal if `run` would say `Unsettled`.
///
/// A deal that fits makes the game legal. A proof that no racks fit the steps up to a line makes it illegal: the verdict is
/// `NoDeal` with that line, the first up to which the search finds a proof. The verdict is still `Unsettled` if the search
/// finds neither within its budget, which never happens for a record without an exchange.
///
/// If some racks fit the steps before that line (`Dealt`), it is the first up to which there is no deal; otherwise (`Unsettled`) that is not known.
///
/// # Errors
///
/// `ReadFailed` and `WriteFailed` come only if that device failed, or a write took no byte; `NoMemory` if memory
/// was refused. After `WriteFailed` a prefix of the report was written, after the other two nothing.
pub fn run_settled<W: Input, L: Input, G: Input, O: Output>(
    alloc: Global,
    words: &mut W,
    lexicon: &mut L,
    game: &mut G,
    out: &mut O,
    rules: &Rules,
) -> Result<Verdict, RunFault>
    requires words { HasRoom (W.device words.old) }
    requires lexicon { HasRoom (L.device lexicon.old) }
    requires game { HasRoom (G.device game.old) }
    requires out { HasRoom (O.device out.old) }

    ensures run { IsRun (words_source (W.device words.old) (W.device words.new)
        ∷ lexicon_source (L.device lexicon.old) (L.device lexicon.new) ∷ game_source (G.device game.old) (G.device game.new) ∷ [])
        (IsSettledBy rules.now) (O.device out.old) (O.device out.new) result }

    // What the verdict legal means.
    ensures legal { IfOk result (λ v. (complete : Bool) → v ≡ verdict.Legal complete
        → IsLegalRun rules.now (words_source (W.device words.old) (W.device words.new)
        ∷ lexicon_source (L.device lexicon.old) (L.device lexicon.new) ∷ game_source (G.device game.old) (G.device game.new) ∷ [])
        complete (O.device out.old) (O.device out.new)) }
{
    law_of_settled_games();
    let mut known = KnownRules { rules };
    run_question(
        alloc,
        &Judging::BySearch,
        &mut known,
        words,
        lexicon,
        game,
        out,
    )
}

/// Judges a game as [`run_settled`] does, by the rules that a text states.
///
/// The rules text is read before all other inputs, as [`run_ruled`] reads it.
///
/// # Errors
///
/// `ReadFailed` and `WriteFailed` come only if that device failed, or a write took no byte; `NoMemory` if memory
/// was refused. After `WriteFailed` a prefix of the report was written, after the other two nothing.
pub fn run_settled_ruled<R: Input, W: Input, L: Input, G: Input, O: Output>(
    alloc: Global,
    rules_text: &mut R,
    words: &mut W,
    lexicon: &mut L,
    game: &mut G,
    out: &mut O,
) -> Result<Verdict, RunFault>
    requires rules_text { HasRoom (R.device rules_text.old) }
    requires words { HasRoom (W.device words.old) }
    requires lexicon { HasRoom (L.device lexicon.old) }
    requires game { HasRoom (G.device game.old) }
    requires out { HasRoom (O.device out.old) }
    ensures { IsRun (rules_source (R.device rules_text.old) (R.device rules_text.new) ∷ words_source (W.device words.old) (W.device words.new)
        ∷ lexicon_source (L.device lexicon.old) (L.device lexicon.new) ∷ game_source (G.device game.old) (G.device game.new) ∷ [])
        IsSettledByText (O.device out.old) (O.device out.new) result }
{
    run_question(
        alloc,
        &Judging::BySearch,
        rules_text,
        words,
        lexicon,
        game,
        out,
    )
}
