//! What is found of sheets that are read.
ghost use Rattle.std.specs.Prelude.{◌≡◌, ◌∷◌, ◌++◌, [], map};
ghost use Rattle.io_devices.specs.Devices.{HasRoom};
ghost use Rattle.gcg_read.specs.Records.{most_bytes};
ghost use Rattle.lex_check.specs.Pairs.{list_in};
ghost use Rattle.engine_stages.specs.Reading.{ReadsRulesBut};
ghost use Rattle.engine_stages.specs.Runs.{Gives, outcomes};
ghost use Rattle.engine_stages.specs.Sources.{game_source, rules_sources};
ghost use Rattle.engine_stages.specs.Stages.{IsRead};
ghost use Rattle.reply_calls.specs.Found.{IsFoundAfter, IsFoundOn, IsFoundOnOne};
ghost use Rattle.reply_calls.specs.Sheets.{HaveRoom, sheet_sources};

use crate::asking::{Asking, AskingByRules};
use engine_stages::{Decision, Given, RulesSource, RunFault, read_text};
use gcg_read::MAX_BYTES;
use io_devices::Input;
use ref_tiles::Rules;
use std::alloc::Global;

/// The bytes of a sheet, to their end or to one byte past 1 MiB.
#[tactic(auto, using(engine_stages::proofs::Readings::whole, engine_stages::proofs::Readings::failed))]
fn read_sheet<G: Input>(alloc: Global, sheet: &mut G) -> Result<Vec<u8>, RunFault>
    requires { HasRoom (G.device sheet.old) }
    ensures { IsRead most_bytes (G.device sheet.old) (G.device sheet.new) (λ text bytes. bytes.items ≡ text) result }
{
    match read_text(alloc, sheet, MAX_BYTES) {
        Ok(bytes) => Ok(bytes),
        Err(fault) => Err(fault),
    }
}

/// The reply to what is asked, on the sheets that were read.
#[tactic(auto, using(crate::proofs::SheetLaws::replied, crate::proofs::SheetLaws::not_replied))]
fn reply_on<S, W, Q: Asking<S, W>>(
    alloc: Global,
    given: &Given<'_, S, W>,
    asking: &Q,
    texts: &[Vec<u8>],
) -> Result<Result<Q::Reply, Decision>, RunFault>
    ensures { Gives outcomes [] (IsFoundAfter (Q.is_reply asking.now given.now.rules.now (list_in given.now.pair.now)) (map (λ text. text.items) texts.now)) result }
{
    match asking.reply(alloc, given, texts) {
        Ok(reply) => Ok(Ok(reply)),
        Err(fault) => Err(fault),
    }
}

/// Reads the sheets that are left, in their order, and finds what is asked of all.
#[tactic(auto, using(crate::proofs::SheetLaws::one_more, crate::proofs::SheetLaws::no_memory, crate::proofs::SheetLaws::no_sheet))]
fn find_after<S, W, G: Input, Q: Asking<S, W>>(
    alloc: Global,
    given: &Given<'_, S, W>,
    asking: &Q,
    texts: Vec<Vec<u8>>,
    sheets: &mut [G],
) -> Result<Result<Q::Reply, Decision>, RunFault>
    requires { HaveRoom (map G.device sheets.old) }
    ensures { Gives outcomes (sheet_sources (map G.device sheets.old) (map G.device sheets.new))
        (IsFoundAfter (Q.is_reply asking.now given.now.rules.now (list_in given.now.pair.now)) (map (λ text. text.items) texts.items)) result }
{
    let Some((first, rest)) = sheets.split_first_mut() else {
        return reply_on(alloc, given, asking, texts.as_slice());
    };
    match read_sheet(alloc, first) {
        Ok(text) => {
            let mut texts = texts;
            match texts.push(text) {
                Ok(()) => find_after(alloc, given, asking, texts, rest),
                Err(_) => Err(RunFault::NoMemory),
            }
        }
        Err(fault) => Err(fault),
    }
}

/// Reads sheets, in their order, and finds what is asked of them.
pub fn find_on<S, W, G: Input, Q: Asking<S, W>>(
    alloc: Global,
    given: &Given<'_, S, W>,
    asking: &Q,
    sheets: &mut Vec<G>,
) -> Result<Result<Q::Reply, Decision>, RunFault>
    requires { HaveRoom (map G.device sheets.old.items) }
    ensures { Gives outcomes (sheet_sources (map G.device sheets.old.items) (map G.device sheets.new.items))
        (IsFoundOn (Q.is_reply asking.now given.now.rules.now (list_in given.now.pair.now))) result }
{
    find_after(alloc, given, asking, Vec::new(alloc), sheets.as_mut_slice())
}

/// Reads a sheet, and finds what is asked of it by rules.
#[tactic(auto, using(crate::proofs::SheetLaws::on_one, crate::proofs::SheetLaws::not_on_one, crate::proofs::SheetLaws::no_one))]
fn find_one<G: Input, Q: AskingByRules>(
    alloc: Global,
    rules: &Rules,
    asking: &Q,
    sheet: &mut G,
) -> Result<Result<Q::Reply, Decision>, RunFault>
    requires { HasRoom (G.device sheet.old) }
    ensures { Gives outcomes (game_source (G.device sheet.old) (G.device sheet.new) ∷ []) (IsFoundOnOne (Q.is_reply asking.now rules.now)) result }
{
    match read_sheet(alloc, sheet) {
        Ok(text) => match asking.reply(alloc, rules, text.as_slice()) {
            Ok(reply) => Ok(Ok(reply)),
            Err(fault) => Err(fault),
        },
        Err(fault) => Err(fault),
    }
}

/// Reads the rules if they are not known, and then a sheet, and finds what is asked of it by the rules.
pub fn find_by_rules<S: RulesSource, G: Input, Q: AskingByRules>(
    alloc: Global,
    asking: &Q,
    rules: &mut S,
    sheet: &mut G,
) -> Result<Result<Q::Reply, Decision>, RunFault>
    requires rules { HasRoom (S.text rules.old) }
    requires sheet { HasRoom (G.device sheet.old) }
    ensures { Gives outcomes (rules_sources (S.known rules.old) (S.text rules.old) (S.text rules.new) ++ game_source (G.device sheet.old) (G.device sheet.new) ∷ [])
        (λ found. ReadsRulesBut (S.known rules.old) (λ stated. IsFoundOnOne (Q.is_reply asking.now stated) found)) result }
{
    match rules.read(alloc) {
        Ok(Ok(stated)) => find_one(alloc, &stated, asking, sheet),
        Ok(Err(decision)) => Ok(Err(decision)),
        Err(fault) => Err(fault),
    }
}
