//! The faults of a game by their names.
ghost use Rattle.std.specs.Prelude.{◌≡◌};
ghost use Rattle.engine_stages.specs.Reports.{rule_text, fault_text};
ghost use Rattle.engine_faults.specs.Named.{named_fault, named_rule, named_text};

use crate::named::NamedFault;
use crate::names::FaultName;
use engine_stages::GameFault;
use game_turns::RuleFault;

/// A fault of the rules by its name.
fn named_rule_fault(fault: &RuleFault) -> NamedFault
    ensures parts { result ≡ named_rule fault.now }
    ensures text { named_text result ≡ rule_text fault.now }
{
    match fault {
        RuleFault::NotYourTurn => NamedFault::bare(FaultName::NotYourTurn),
        RuleFault::Play(why) => NamedFault::bare(FaultName::Play(*why)),
        RuleFault::WrongScore(expected) => NamedFault::expecting(FaultName::WrongScore, *expected),
        RuleFault::WrongTotal(expected) => NamedFault::expecting(FaultName::WrongTotal, *expected),
        RuleFault::NothingToWithdraw => NamedFault::bare(FaultName::NothingToWithdraw),
        RuleFault::WithdrawnValid => NamedFault::bare(FaultName::WithdrawnValid),
        RuleFault::BonusOnPhony => NamedFault::bare(FaultName::BonusOnPhony),
        RuleFault::BadBonus => NamedFault::bare(FaultName::BadBonus),
        RuleFault::ExchangeRefused => NamedFault::bare(FaultName::ExchangeRefused),
        RuleFault::ExchangeSize => NamedFault::bare(FaultName::ExchangeSize),
        RuleFault::GameOver => NamedFault::bare(FaultName::GameOver),
        RuleFault::NotOver => NamedFault::bare(FaultName::NotOver),
        RuleFault::LastRackSize => NamedFault::bare(FaultName::LastRackSize),
        RuleFault::BadTime => NamedFault::bare(FaultName::BadTime),
        RuleFault::TooManyUsed => NamedFault::bare(FaultName::TooManyUsed),
    }
}

/// A fault of a game by its name, with the number that was expected or the kind of tile that is short: the parts from which a report makes
/// the text of the fault.
pub fn named_game_fault(fault: &GameFault) -> NamedFault
    ensures parts { result ≡ named_fault fault.now }
    ensures text { named_text result ≡ fault_text fault.now }
{
    match fault {
        GameFault::Rule(rule) => named_rule_fault(rule),
        GameFault::RackTooBig => NamedFault::bare(FaultName::RackTooBig),
        GameFault::TilesShort(kind) => NamedFault::short_of(FaultName::TilesShort, *kind),
        GameFault::NoDeal { .. } => NamedFault::bare(FaultName::NoDeal),
    }
}
