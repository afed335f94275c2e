//! The ten best plays by a rack on the board after a record, by the bytes of its inputs.
ghost use Rattle.std.specs.Prelude.{◌≡◌, ◌∷◌, [], false, IfOk, IfErr};
ghost use Rattle.io_devices.specs.Devices.{HasRoom};
ghost use Rattle.gcg_read.specs.Racks.{is_rack};
ghost use Rattle.engine_stages.specs.declared.faults.RunFault.TheVariants.{NoMemory};
ghost use Rattle.engine_stages.specs.declared.verdicts.Verdict.TheVariants as verdict;
ghost use Rattle.engine_stages.specs.Reports as reports;
ghost use Rattle.engine_stages.specs.Runs.{IsRun};
ghost use Rattle.engine_stages.specs.Sources.{rules_source, words_source, lexicon_source, game_source, AreUntouched};
ghost use Rattle.engine_stages.specs.Reporting.{IsReported};
ghost use Rattle.engine.specs.Topping.{IsTopped, IsToppedByText, RefusesRack};

use crate::asking::run_question;
use crate::best_plays::BestPlays;
use engine_stages::{Decision, InputFault, KnownRules, RunFault, Verdict, finish};
use gcg_read::read_rack;
use io_devices::{Input, Output};
use ref_tiles::Rules;
use std::alloc::{AllocError, Global};

/// The verdict that the bytes are not a rack.
pub(crate) fn bad_rack(alloc: Global) -> Result<Decision, AllocError>
    ensures { IfOk result (λ d. IsReported verdict.BadRack reports.bad_rack_line d.verdict d.report.items) }
{
    Decision::refused(alloc, InputFault::Rack)
}

/// The same as the decision of a call.
fn decide_bad_rack(alloc: Global) -> Result<Decision, RunFault>
    ensures reported { IfOk result (λ d. IsReported verdict.BadRack reports.bad_rack_line d.verdict d.report.items) }
    ensures memory { IfErr result (λ fault. fault ≡ NoMemory) }
{
    Ok(bad_rack(alloc)?)
}

/// Writes the verdict that the bytes are not a rack.
pub(crate) fn refuse_rack<O: Output>(alloc: Global, out: &mut O) -> Result<Verdict, RunFault>
    requires { HasRoom (O.device out.old) }
    ensures { RefusesRack (O.device out.old) (O.device out.new) result }
{
    let refused = decide_bad_rack(alloc);
    finish(out, refused)
}

/// Writes the ten best plays by a rack on the board after a record, by the words of a list and their lexicon.
///
/// The rack is 1 to 7 of A to Z and `?`, in any order; if it is not, that is the verdict, and no input is read. Otherwise the
/// inputs are read as [`run`](crate::run) reads them, and a bad input or an event that the rules do not allow is reported as
/// `run` reports it. The racks of the record are not compared with each other, so deals do not matter. What is written is made
/// in memory before the first write: one line `NOTATION SCORE` for each play, the greatest score first, and plays of equal score
/// by their notations; `none` if there is no play.
///
/// # Errors
///
/// `ReadFailed` and `WriteFailed` come only if that device failed, or a write took no byte; `NoMemory` if memory
/// was refused. After `WriteFailed` a prefix of the text was written, after the other two nothing.
pub fn run_top<W: Input, L: Input, G: Input, O: Output>(
    alloc: Global,
    words: &mut W,
    lexicon: &mut L,
    game: &mut G,
    rack: &[u8],
    out: &mut O,
    rules: &Rules,
) -> Result<Verdict, RunFault>
    requires words { HasRoom (W.device words.old) }
    requires lexicon { HasRoom (L.device lexicon.old) }
    requires game { HasRoom (G.device game.old) }
    requires out { HasRoom (O.device out.old) }

    ensures run { IsRun (words_source (W.device words.old) (W.device words.new)
        ∷ lexicon_source (L.device lexicon.old) (L.device lexicon.new) ∷ game_source (G.device game.old) (G.device game.new) ∷ [])
        (IsTopped rules.now rack.now) (O.device out.old) (O.device out.new) result }

    // No input is read after bytes that are not a rack.
    ensures bad_rack { is_rack rack.now ≡ false → AreUntouched (words_source (W.device words.old) (W.device words.new)
        ∷ lexicon_source (L.device lexicon.old) (L.device lexicon.new) ∷ game_source (G.device game.old) (G.device game.new) ∷ []) }
{
    let Some(tiles) = read_rack(rack) else {
        return refuse_rack(alloc, out);
    };
    let question = BestPlays { rack: tiles };
    let mut known = KnownRules { rules };
    run_question(alloc, &question, &mut known, words, lexicon, game, out)
}

/// Writes the ten best plays by a rack as [`run_top`] does, by the rules that a text states.
///
/// If the bytes are not a rack, that is the verdict, and no input is read. Otherwise the rules text is read before all other
/// inputs, as [`run_ruled`](crate::run_ruled) reads it; if it gives no rules, that is the verdict, and no other input is read.
/// Otherwise all is as in `run_top`, with the rules of the text.
///
/// # Errors
///
/// `ReadFailed` and `WriteFailed` come only if that device failed, or a write took no byte; `NoMemory` if memory
/// was refused. After `WriteFailed` a prefix of the text was written, after the other two nothing.
pub fn run_top_ruled<R: Input, W: Input, L: Input, G: Input, O: Output>(
    alloc: Global,
    rules_text: &mut R,
    words: &mut W,
    lexicon: &mut L,
    game: &mut G,
    rack: &[u8],
    out: &mut O,
) -> Result<Verdict, RunFault>
    requires rules_text { HasRoom (R.device rules_text.old) }
    requires words { HasRoom (W.device words.old) }
    requires lexicon { HasRoom (L.device lexicon.old) }
    requires game { HasRoom (G.device game.old) }
    requires out { HasRoom (O.device out.old) }

    ensures run { IsRun (rules_source (R.device rules_text.old) (R.device rules_text.new) ∷ words_source (W.device words.old) (W.device words.new)
        ∷ lexicon_source (L.device lexicon.old) (L.device lexicon.new) ∷ game_source (G.device game.old) (G.device game.new) ∷ [])
        (IsToppedByText rack.now) (O.device out.old) (O.device out.new) result }

    // No input is read after bytes that are not a rack.
    ensures bad_rack { is_rack rack.now ≡ false → AreUntouched (rules_source (R.device rules_text.old) (R.device rules_text.new)
        ∷ words_source (W.device words.old) (W.device words.new)
        ∷ lexicon_source (L.device lexicon.old) (L.device lexicon.new) ∷ game_source (G.device game.old) (G.device game.new) ∷ []) }
{
    let Some(rack) = read_rack(rack) else {
        return refuse_rack(alloc, out);
    };
    let question = BestPlays { rack };
    run_question(alloc, &question, rules_text, words, lexicon, game, out)
}
