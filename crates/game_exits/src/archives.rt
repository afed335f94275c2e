//! How the program ends after the line of a game of an archive.
ghost use Rattle.std.specs.Prelude.{◌≡◌};
ghost use Rattle.game_exits.specs.Archives.{exit_of_answer};

use crate::exits::Exit;
use archive_lines::Answer;

/// How the program ends after a line with this answer, if no other game has a greater status.
pub fn exit_of_answer(answer: Answer) -> Exit
    ensures { result ≡ exit_of_answer answer }
{
    match answer {
        Answer::Legal => Exit::Fine,
        Answer::Illegal => Exit::Illegal,
        Answer::Unsettled => Exit::Unsettled,
        Answer::BadRecord | Answer::NoGame => Exit::BadInput,
        Answer::Unread => Exit::Broken,
    }
}
