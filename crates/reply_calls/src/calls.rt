//! The calls.
ghost use Rattle.std.specs.Prelude.{◌∷◌, ◌++◌, [], map};
ghost use Rattle.io_devices.specs.Devices.{HasRoom};
ghost use Rattle.engine_stages.specs.Reading.{ReadsPair, ReadsRulesBut};
ghost use Rattle.engine_stages.specs.Sources.{game_source, pair_sources, rules_sources};
ghost use Rattle.reply_calls.specs.Calls.{IsReplying};
ghost use Rattle.reply_calls.specs.Found.{IsFoundOn, IsFoundOnOne};
ghost use Rattle.reply_calls.specs.Sheets.{HaveRoom, sheet_sources};

use crate::asking::{Asking, AskingByRules, Rendering};
use crate::ended::Ended;
use crate::finding::find_by_rules;
use crate::outlets::Outlet;
use crate::questions::SheetsQuestion;
use crate::writing::write_found;
use engine_stages::{RulesSource, RunFault, ask};
use io_devices::{Input, Output};
use std::alloc::Global;

/// Reads the rules if they are not known, the words of a list, their lexicon and the sheets, in this order until one is bad, and writes what is found: the
/// reply to what is asked of the sheets, or that an input before them is bad. The text to be kept is kept before the report is written.
///
/// Exactly the report is written which shows what was found, by the rendering; the status is that of what was found. No input is read further than
/// one byte past its limit.
///
/// # Errors
///
/// If an input failed or memory was refused; then nothing is written to `out`. Or if an output failed: that of the text to be kept, and then nothing is
/// written to `out`; or `out` itself, and then a prefix of the report is.
#[tactic(auto, using(crate::proofs::Replying::replied, crate::proofs::Replying::stopped))]
pub fn answer_sheets<
    S: RulesSource,
    W: Input,
    L: Input,
    G: Input,
    Q: Asking<S, W>,
    T: Rendering<Q::Reply>,
    K: Outlet,
    O: Output,
>(
    alloc: Global,
    asking: &Q,
    rules: &mut S,
    words: &mut W,
    lexicon: &mut L,
    sheets: &mut Vec<G>,
    rendering: &T,
    kept: &mut K,
    out: &mut O,
) -> Result<Ended, RunFault>
    requires rules { HasRoom (S.text rules.old) }
    requires words { HasRoom (W.device words.old) }
    requires lexicon { HasRoom (L.device lexicon.old) }
    requires sheets { HaveRoom (map G.device sheets.old.items) }
    requires out { HasRoom (O.device out.old) }
    ensures { IsReplying (pair_sources (S.known rules.old) (S.text rules.old) (S.text rules.new) (W.device words.old) (W.device words.new)
        (L.device lexicon.old) (L.device lexicon.new) (sheet_sources (map G.device sheets.old.items) (map G.device sheets.new.items)))
        (λ found. ReadsPair (S.known rules.old) (λ stated list. IsFoundOn (Q.is_reply asking.now stated list) found))
        (T.shows rendering.now) T.status (K.holds kept.new) (K.has_failed kept.new) (O.device out.old) (O.device out.new) result }
{
    let question = SheetsQuestion { asking };
    match ask(alloc, &question, rules, words, lexicon, sheets) {
        Ok(found) => write_found(alloc, rendering, found, kept, out),
        Err(fault) => Err(fault),
    }
}

/// Reads the rules if they are not known and a sheet, in this order until one is bad, and writes what is found: the reply to what is asked of the sheet by
/// the rules, or that the rules are bad. No words are read.
///
/// Exactly the report is written which shows what was found, by the rendering; the status is that of what was found. No input is read further than
/// one byte past its limit.
///
/// # Errors
///
/// If an input failed or memory was refused; then nothing is written to `out`. Or if an output failed: that of the text to be kept, and then nothing is
/// written to `out`; or `out` itself, and then a prefix of the report is.
#[tactic(auto, using(crate::proofs::Replying::replied, crate::proofs::Replying::stopped))]
pub fn answer_by_rules<
    S: RulesSource,
    G: Input,
    Q: AskingByRules,
    T: Rendering<Q::Reply>,
    K: Outlet,
    O: Output,
>(
    alloc: Global,
    asking: &Q,
    rules: &mut S,
    sheet: &mut G,
    rendering: &T,
    kept: &mut K,
    out: &mut O,
) -> Result<Ended, RunFault>
    requires rules { HasRoom (S.text rules.old) }
    requires sheet { HasRoom (G.device sheet.old) }
    requires out { HasRoom (O.device out.old) }
    ensures { IsReplying (rules_sources (S.known rules.old) (S.text rules.old) (S.text rules.new) ++ game_source (G.device sheet.old) (G.device sheet.new) ∷ [])
        (λ found. ReadsRulesBut (S.known rules.old) (λ stated. IsFoundOnOne (Q.is_reply asking.now stated) found))
        (T.shows rendering.now) T.status (K.holds kept.new) (K.has_failed kept.new) (O.device out.old) (O.device out.new) result }
{
    match find_by_rules(alloc, asking, rules, sheet) {
        Ok(found) => write_found(alloc, rendering, found, kept, out),
        Err(fault) => Err(fault),
    }
}
