//! The lines of reports, as bytes.
ghost use Rattle.std.specs.Prelude.{◌≡◌, ◌++◌, ◌∷◌, [], OnOk, IfOk, codes, decimal, map};
ghost use Rattle.std.specs.Fmt.{signed_decimal};
ghost use Rattle.ref_tiles.specs.Kinds.{kind_byte};
ghost use Rattle.lex_check.specs.Checks.{symbol_of};
ghost use Rattle.engine_stages.specs.Reports.{rule_text, fault_text, line_text, illegal_line, unsettled_line, bad_record_line, bad_rules_line, bad_list_line, lexicon_text, bad_file_line, too_many_arcs_line, bad_rack_line, bad_line_line, ok_line, legal_line};

use crate::lexicons::LexiconFault;
use crate::verdicts::GameFault;
use game_turns::RuleFault;
use gcg_read::ReadFault;
use lex_check::{Path, text_of};
use lex_list::ListFault;
use ref_tiles::{Kind, RulesFault};
use std::alloc::{AllocError, Global};
use text_decimals::push_number;

/// Appends a name and a number.
fn push_expected(text: &mut Vec<u8>, name: &[u8], expected: i32) -> Result<(), AllocError>
    ensures { OnOk result (text.new.items ≡ text.old.items ++ (name.now ++ signed_decimal expected)) }
{
    text.extend_from_slice(name)?;
    push_number(text, expected)?;
    Ok(())
}

/// Appends the name of a fault of the rules, and the number that was expected.
fn push_rule(text: &mut Vec<u8>, fault: &RuleFault) -> Result<(), AllocError>
    ensures { OnOk result (text.new.items ≡ text.old.items ++ rule_text fault.now) }
{
    match fault {
        RuleFault::NotYourTurn => text.extend_from_slice(b"NotYourTurn"),
        RuleFault::Play(why) => text.extend_from_slice(why.name().as_bytes()),
        RuleFault::WrongScore(expected) => push_expected(text, b"WrongScore ", *expected),
        RuleFault::WrongTotal(expected) => push_expected(text, b"WrongTotal ", *expected),
        RuleFault::NothingToWithdraw => text.extend_from_slice(b"NothingToWithdraw"),
        RuleFault::WithdrawnValid => text.extend_from_slice(b"WithdrawnValid"),
        RuleFault::BonusOnPhony => text.extend_from_slice(b"BonusOnPhony"),
        RuleFault::BadBonus => text.extend_from_slice(b"BadBonus"),
        RuleFault::ExchangeRefused => text.extend_from_slice(b"ExchangeRefused"),
        RuleFault::ExchangeSize => text.extend_from_slice(b"ExchangeSize"),
        RuleFault::GameOver => text.extend_from_slice(b"GameOver"),
        RuleFault::NotOver => text.extend_from_slice(b"NotOver"),
        RuleFault::LastRackSize => text.extend_from_slice(b"LastRackSize"),
        RuleFault::BadTime => text.extend_from_slice(b"BadTime"),
        RuleFault::TooManyUsed => text.extend_from_slice(b"TooManyUsed"),
    }
}

/// Appends the name of a fault and the kind that is short.
fn push_short(text: &mut Vec<u8>, kind: &Kind) -> Result<(), AllocError>
    ensures { OnOk result (text.new.items ≡ text.old.items ++ (codes "TilesShort " ++ kind_byte kind.now ∷ [])) }
{
    text.extend_from_slice(b"TilesShort ")?;
    text.push(kind.byte())?;
    Ok(())
}

/// Appends the name of a fault of a game.
fn push_fault(text: &mut Vec<u8>, fault: &GameFault) -> Result<(), AllocError>
    ensures { OnOk result (text.new.items ≡ text.old.items ++ fault_text fault.now) }
{
    match fault {
        GameFault::Rule(rule) => push_rule(text, rule),
        GameFault::RackTooBig => text.extend_from_slice(b"RackTooBig"),
        GameFault::TilesShort(kind) => push_short(text, kind),
        GameFault::NoDeal { .. } => text.extend_from_slice(b"NoDeal"),
    }
}

/// The text of a fault of a game, as a report has it: its name, and the number that was expected or the kind that is short.
pub fn fault_text(alloc: Global, fault: &GameFault) -> Result<Vec<u8>, AllocError>
    ensures { IfOk result (λ text. text.items ≡ fault_text fault.now) }
{
    let mut text = Vec::new(alloc);
    push_fault(&mut text, fault)?;
    Ok(text)
}

/// Appends ` line N`, or nothing if the line is 0.
fn push_line_number(text: &mut Vec<u8>, line: u32) -> Result<(), AllocError>
    ensures { OnOk result (text.new.items ≡ text.old.items ++ line_text line) }
{
    if line == 0 {
        return Ok(());
    }
    text.extend_from_slice(b" line ")?;
    push_number(text, line as usize)
}

/// `illegal line N: FAULT`.
#[tactic(auto, unfolding(crate::specs::Reports::illegal_line))]
pub fn illegal_line(alloc: Global, line: u32, fault: &GameFault) -> Result<Vec<u8>, AllocError>
    ensures { IfOk result (λ text. text.items ≡ illegal_line line fault.now) }
{
    let mut text = Vec::from_slice(alloc, b"illegal line ")?;
    push_number(&mut text, line as usize)?;
    text.extend_from_slice(b": ")?;
    push_fault(&mut text, fault)?;
    text.extend_from_slice(b"\n")?;
    Ok(text)
}

/// `unsettled`.
#[tactic(auto, unfolding(crate::specs::Reports::unsettled_line))]
pub fn unsettled_line(alloc: Global) -> Result<Vec<u8>, AllocError>
    ensures { IfOk result (λ text. text.items ≡ unsettled_line) }
{
    Vec::from_slice(alloc, b"unsettled\n")
}

/// What is bad, ` line N` or nothing if the fault is on no line, and `: WHY`.
fn bad_input_line(alloc: Global, what: &[u8], line: u32, why: &str) -> Result<Vec<u8>, AllocError>
    ensures { IfOk result (λ text. text.items ≡ what.now ++ line_text line ++ codes ": " ++ why.now ++ 10 ∷ []) }
{
    let mut text = Vec::from_slice(alloc, what)?;
    push_line_number(&mut text, line)?;
    text.extend_from_slice(b": ")?;
    text.extend_from_slice(why.as_bytes())?;
    text.extend_from_slice(b"\n")?;
    Ok(text)
}

/// `bad record line N: WHY`, without ` line N` if the fault is on no line.
#[tactic(auto, unfolding(crate::specs::Reports::bad_record_line))]
pub fn bad_record_line(alloc: Global, fault: &ReadFault) -> Result<Vec<u8>, AllocError>
    ensures { IfOk result (λ text. text.items ≡ bad_record_line fault.now) }
{
    bad_input_line(alloc, b"bad record", fault.line, fault.why.name())
}

/// `bad rules line N: WHY`, without ` line N` if the fault is on no line.
#[tactic(auto, unfolding(crate::specs::Reports::bad_rules_line))]
pub fn bad_rules_line(alloc: Global, fault: &RulesFault) -> Result<Vec<u8>, AllocError>
    ensures { IfOk result (λ text. text.items ≡ bad_rules_line fault.now) }
{
    bad_input_line(alloc, b"bad rules", fault.line, fault.why.name())
}

/// `bad word list line N: WHY`, without ` line N` if the fault is on no line.
#[tactic(auto, unfolding(crate::specs::Reports::bad_list_line))]
pub fn bad_list_line(alloc: Global, fault: &ListFault) -> Result<Vec<u8>, AllocError>
    ensures { IfOk result (λ text. text.items ≡ bad_list_line fault.now) }
{
    bad_input_line(alloc, b"bad word list", fault.line, fault.why.name())
}

/// Appends a name and a path.
fn push_path(text: &mut Vec<u8>, name: &[u8], path: &Path) -> Result<(), AllocError>
    ensures { OnOk result (text.new.items ≡ text.old.items ++ (name.now ++ map symbol_of path.now.items)) }
{
    let symbols = text_of(path);
    text.extend_from_slice(name)?;
    text.extend_from_slice(symbols.as_slice())?;
    Ok(())
}

/// Appends the name of a fault of a lexicon, and the path of a difference.
fn push_lexicon_fault(text: &mut Vec<u8>, fault: &LexiconFault) -> Result<(), AllocError>
    ensures { OnOk result (text.new.items ≡ text.old.items ++ lexicon_text fault.now) }
{
    match fault {
        LexiconFault::Form(first) => text.extend_from_slice(first.name().as_bytes()),
        LexiconFault::Missing(path) => push_path(text, b"Missing ", path),
        LexiconFault::Extra(path) => push_path(text, b"Extra ", path),
        LexiconFault::WordCount => text.extend_from_slice(b"WordCount"),
    }
}

/// `bad lexicon: FAULT`.
#[tactic(auto, unfolding(crate::specs::Reports::bad_file_line))]
pub fn bad_file_line(alloc: Global, fault: &LexiconFault) -> Result<Vec<u8>, AllocError>
    ensures { IfOk result (λ text. text.items ≡ bad_file_line fault.now) }
{
    let mut text = Vec::from_slice(alloc, b"bad lexicon: ")?;
    push_lexicon_fault(&mut text, fault)?;
    text.extend_from_slice(b"\n")?;
    Ok(text)
}

/// The line that says that a lexicon would have more arcs, or words, than its format can number.
#[tactic(auto, unfolding(crate::specs::Reports::too_many_arcs_line))]
pub fn too_many_arcs_line(alloc: Global) -> Result<Vec<u8>, AllocError>
    ensures { IfOk result (λ text. text.items ≡ too_many_arcs_line) }
{
    Vec::from_slice(alloc, b"bad lexicon: TooManyArcs\n")
}

/// `bad rack`.
#[tactic(auto, unfolding(crate::specs::Reports::bad_rack_line))]
pub fn bad_rack_line(alloc: Global) -> Result<Vec<u8>, AllocError>
    ensures { IfOk result (λ text. text.items ≡ bad_rack_line) }
{
    Vec::from_slice(alloc, b"bad rack\n")
}

/// The line that says that no event is on the given line or after it.
#[tactic(auto, unfolding(crate::specs::Reports::bad_line_line))]
pub fn bad_line_line(alloc: Global) -> Result<Vec<u8>, AllocError>
    ensures { IfOk result (λ text. text.items ≡ bad_line_line) }
{
    Vec::from_slice(alloc, b"bad line: no event is on it or after it\n")
}

/// `ok N`, the number of words.
#[tactic(auto, unfolding(crate::specs::Reports::ok_line))]
pub fn ok_line(alloc: Global, words: usize) -> Result<Vec<u8>, AllocError>
    ensures { IfOk result (λ text. text.items ≡ ok_line words) }
{
    let mut text = Vec::from_slice(alloc, b"ok ")?;
    push_number(&mut text, words)?;
    text.extend_from_slice(b"\n")?;
    Ok(text)
}

/// `legal complete` or `legal unfinished`.
pub fn legal_line(complete: bool) -> &'static [u8]
    ensures { result.now ≡ legal_line complete }
{
    if complete {
        b"legal complete\n"
    } else {
        b"legal unfinished\n"
    }
}
