//! The best plays before a line of a record, by the bytes of its inputs.
ghost use Rattle.std.specs.Prelude.{◌≡◌, ◌≤◌, ◌∷◌, [], None};
ghost use Rattle.std.specs.Option.{option_copied};
ghost use Rattle.io_devices.specs.Devices.{HasRoom};
ghost use Rattle.engine_stages.specs.Runs.{IsRun};
ghost use Rattle.engine_stages.specs.Sources.{rules_source, words_source, lexicon_source, game_source, AreUntouched};
ghost use Rattle.engine.specs.TopBefore.{given_rack, AreTopped, AreToppedByText};

use crate::asking::run_question;
use crate::topping::refuse_rack;
use crate::turn_plays::turn_plays;
use engine_stages::{KnownRules, RunFault, Verdict};
use io_devices::{Input, Output};
use ref_tiles::Rules;
use std::alloc::Global;

/// Writes the first `number` of the best plays by a rack on the board before a line of a record, by the words of a list and their
/// lexicon; without a line, on the board after its last event.
///
/// Without the bytes of a rack, it is the one that the event on the line shows, or the first event after it. If the bytes are not 1 to 7 of A to Z
/// and `?`, the verdict is `BadRack`, and no input is read. Otherwise the inputs are read as [`run`](crate::run) reads them. If no event is on the
/// line or after it, the verdict is `BadLine`, and if no rack is given or shown, `BadRack`. The events before the line are judged as `run` judges
/// them; the event on it and those after it are not judged. What is written is as [`run_top`](crate::run_top) writes it, with up to `number` plays
/// instead of ten. That is exactly one line for each of these plays, or `none`.
///
/// # Errors
///
/// `ReadFailed` and `WriteFailed` come only if that device failed, or a write took no byte; `NoMemory` if memory
/// was refused. After `WriteFailed` a prefix of the text was written, after the other two nothing.
pub fn run_top_before<W: Input, L: Input, G: Input, O: Output>(
    alloc: Global,
    words: &mut W,
    lexicon: &mut L,
    game: &mut G,
    rack: Option<&[u8]>,
    number: usize,
    before: Option<u32>,
    out: &mut O,
    rules: &Rules,
) -> Result<Verdict, RunFault>
    requires number { number ≤ 100 }
    requires words { HasRoom (W.device words.old) }
    requires lexicon { HasRoom (L.device lexicon.old) }
    requires game { HasRoom (G.device game.old) }
    requires out { HasRoom (O.device out.old) }

    ensures run { IsRun (words_source (W.device words.old) (W.device words.new)
        ∷ lexicon_source (L.device lexicon.old) (L.device lexicon.new) ∷ game_source (G.device game.old) (G.device game.new) ∷ [])
        (AreTopped number before rules.now (option_copied rack.entry)) (O.device out.old) (O.device out.new) result }

    // No input is read after bytes that are not a rack.
    ensures bad_rack { given_rack (option_copied rack.entry) ≡ None → AreUntouched (words_source (W.device words.old) (W.device words.new)
        ∷ lexicon_source (L.device lexicon.old) (L.device lexicon.new) ∷ game_source (G.device game.old) (G.device game.new) ∷ []) }
{
    let Some(question) = turn_plays(rack, number, before) else {
        return refuse_rack(alloc, out);
    };
    let mut known = KnownRules { rules };
    run_question(alloc, &question, &mut known, words, lexicon, game, out)
}

/// Writes the best plays before a line as [`run_top_before`] does, by the rules that a text states.
///
/// If the bytes are not a rack, that is the verdict, and no input is read. Otherwise the rules text is read before all other
/// inputs, as [`run_ruled`](crate::run_ruled) reads it; if it gives no rules, that is the verdict, and no other input is
/// read.
///
/// # Errors
///
/// `ReadFailed` and `WriteFailed` come only if that device failed, or a write took no byte; `NoMemory` if memory
/// was refused. After `WriteFailed` a prefix of the text was written, after the other two nothing.
pub fn run_top_before_ruled<R: Input, W: Input, L: Input, G: Input, O: Output>(
    alloc: Global,
    rules_text: &mut R,
    words: &mut W,
    lexicon: &mut L,
    game: &mut G,
    rack: Option<&[u8]>,
    number: usize,
    before: Option<u32>,
    out: &mut O,
) -> Result<Verdict, RunFault>
    requires number { number ≤ 100 }
    requires rules_text { HasRoom (R.device rules_text.old) }
    requires words { HasRoom (W.device words.old) }
    requires lexicon { HasRoom (L.device lexicon.old) }
    requires game { HasRoom (G.device game.old) }
    requires out { HasRoom (O.device out.old) }

    ensures run { IsRun (rules_source (R.device rules_text.old) (R.device rules_text.new) ∷ words_source (W.device words.old) (W.device words.new)
        ∷ lexicon_source (L.device lexicon.old) (L.device lexicon.new) ∷ game_source (G.device game.old) (G.device game.new) ∷ [])
        (AreToppedByText number before (option_copied rack.entry)) (O.device out.old) (O.device out.new) result }

    // No input is read after bytes that are not a rack.
    ensures bad_rack { given_rack (option_copied rack.entry) ≡ None → AreUntouched (rules_source (R.device rules_text.old) (R.device rules_text.new)
        ∷ words_source (W.device words.old) (W.device words.new)
        ∷ lexicon_source (L.device lexicon.old) (L.device lexicon.new) ∷ game_source (G.device game.old) (G.device game.new) ∷ []) }
{
    let Some(question) = turn_plays(rack, number, before) else {
        return refuse_rack(alloc, out);
    };
    run_question(alloc, &question, rules_text, words, lexicon, game, out)
}
