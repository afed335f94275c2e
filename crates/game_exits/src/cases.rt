//! How the program ends after a case is explained.
ghost use Rattle.std.specs.Prelude.{◌≡◌};
ghost use Rattle.game_exits.specs.Cases.{exit_on, explain_exit};

use crate::audits::exit_of_finding;
use crate::exits::Exit;
use game_board::place_of_line;
use game_case::Case;
use gcg_read::Event;

/// The exit of a line that is named in a record, or of its verdict.
fn exit_on(verdict: Exit, events: &[Event], line: Option<u32>) -> Exit
    ensures { result ≡ exit_on verdict events.now line }
{
    let Some(line) = line else {
        return verdict;
    };
    match place_of_line(events, line) {
        None => Exit::BadInput,
        Some(_) => verdict,
    }
}

/// How the program ends after a case is explained, or one of its lines: as after its verdict; and 3 if the record is bad or has no
/// event, or every event of it is before the line.
pub fn exit_of_case(case: &Case, line: Option<u32>) -> Exit
    ensures { result ≡ explain_exit case.now.read line }
{
    match &case.read {
        Ok(entry) => exit_on(
            exit_of_finding(&entry.finding),
            entry.record.events.as_slice(),
            line,
        ),
        Err(_) => Exit::BadInput,
    }
}
