//! How a call ended.
ghost use Rattle.std.specs.Prelude.{◌≡◌};
ghost use Rattle.game_exits.specs.Exits.{status_of};
ghost use Rattle.reply_calls.specs.Endings.{status_of_found, refused_of};

use crate::asking::Rendering;
use engine_stages::Decision;
use game_exits::Exit;

/// How a call ended.
#[derive(Drop)]
pub struct Ended {
    /// How the program ends after it.
    pub exit: Exit,
    /// That an input that is read before the sheets is bad, if one is.
    pub refused: Option<Decision>,
}

/// How the program ends after what was found.
pub fn exit_of_found<A, T: Rendering<A>>(rendering: &T, found: &Result<A, Decision>) -> Exit
    ensures { status_of result ≡ status_of_found T.status found.now }
{
    match found {
        Ok(reply) => rendering.exit(reply),
        Err(decision) => Exit::from(decision.verdict),
    }
}

/// The decision that an input is bad, if that was found.
pub fn refused_of<A: Drop>(found: Result<A, Decision>) -> Option<Decision>
    ensures { result ≡ refused_of found }
{
    match found {
        Ok(_) => None,
        Err(decision) => Some(decision),
    }
}
