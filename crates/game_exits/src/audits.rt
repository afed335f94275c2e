//! How the program ends after an audit.
ghost use Rattle.std.specs.Prelude.{◌≡◌};
ghost use Rattle.game_exits.specs.Audits.{exit_of_finding, exit_of_numbers, audit_status};
ghost use Rattle.game_exits.specs.Exits.{status_of};

use crate::exits::Exit;
use game_case::{Audit, Finding};
use game_corrections::WrongNumber;

/// The exit by the finding only: a record without an event is not a game.
pub(crate) fn exit_of_finding(finding: &Finding) -> Exit
    ensures { result ≡ exit_of_finding finding.now }
{
    match finding {
        Finding::NoGame => Exit::BadInput,
        Finding::Legal { .. } => Exit::Fine,
        Finding::Illegal { .. } => Exit::Illegal,
        Finding::Unsettled => Exit::Unsettled,
    }
}

/// The exit after numbers that are wrong, or none.
fn exit_of_numbers(wrong: &[WrongNumber]) -> Exit
    ensures { result ≡ exit_of_numbers wrong.now }
{
    if wrong.is_empty() {
        Exit::Fine
    } else {
        Exit::Illegal
    }
}

/// How the program ends after an audit: 0 if no number is wrong and the game is legal, 1 if a number is wrong or the game is
/// illegal, 2 if the corrected game is unsettled, and 3 if the record has no event.
pub fn exit_of_audit(audit: &Audit) -> Exit
    ensures { status_of result ≡ audit_status audit.now.wrong.items audit.now.entry.finding }
{
    exit_of_numbers(audit.wrong.as_slice()).worse(exit_of_finding(&audit.entry.finding))
}
