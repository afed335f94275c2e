//! How the program ends after the line of a game.
ghost use Rattle.std.specs.Prelude.{◌≡◌};
ghost use Rattle.game_exits.specs.Exits.{status_of};
ghost use Rattle.archive_answers.specs.Exits.{exit_of_page, status_of_line};

use archive_lines::{Fields, PageField};
use game_exits::{Exit, exit_of_answer};

/// How the program ends after the page of a game, if nothing else has a greater status.
fn exit_of_page(page: &Option<PageField>) -> Exit
    ensures { result ≡ exit_of_page page.now }
{
    match page {
        None => Exit::Fine,
        Some(PageField::Missing) => Exit::Fine,
        Some(PageField::Written(_)) => Exit::Fine,
        Some(PageField::CannotWrite) => Exit::Broken,
        Some(PageField::NoMemory) => Exit::Broken,
    }
}

/// How the program ends after the line of a game, if no other game has a greater status.
pub(crate) fn exit_of_line(fields: &Fields<'_>) -> Exit
    ensures { status_of result ≡ status_of_line fields.now }
{
    exit_of_answer(fields.verdict).worse(exit_of_page(&fields.page))
}
