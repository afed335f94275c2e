//! The lines of a run over many games, and how it ends after them.
ghost use Rattle.std.specs.Prelude.{◌≡◌, [], OnOk, OnErr};
ghost use Rattle.archive_answers.specs.Runs.{IsLine};

use crate::asked::Asked;
use crate::exits::exit_of_line;
use crate::games::{ArchivedGame, lost_game};
use archive_lines::{Fields, push_json_line, push_tab_line};
use game_exits::Exit;
use std::alloc::{AllocError, Global};

/// Makes the line of these fields: a JSON object, or the fields with tabs between them.
fn put_line(
    alloc: Global,
    json: bool,
    line: &mut Vec<u8>,
    fields: &Fields<'_>,
) -> Result<(), AllocError>
    ensures { OnOk result (IsLine json fields.now line.new.items) }
{
    line.clear();
    if json {
        push_json_line(alloc, line, fields)
    } else {
        push_tab_line(line, fields)
    }
}

/// The line of the game that was told last, and how a run over many games ends after the lines so far. The games share the memory of their lines.
#[derive(Drop)]
pub struct RunLines {
    /// Whether lines are JSON objects.
    pub json: bool,
    /// The line.
    pub line: Vec<u8>,
    /// The exit with the greatest status.
    pub worst: Exit,
}

impl RunLines {
    ghost use Rattle.archive_answers.specs.Exits.{EndsAfter};
    ghost use Rattle.archive_answers.specs.Runs.{HasLine, HasLineOf};

    /// No game is told yet.
    pub fn new(alloc: Global, json: bool) -> RunLines
        ensures form { result.json ≡ json }
        ensures ends { EndsAfter [] result }
    {
        RunLines {
            json,
            line: Vec::new(alloc),
            worst: Exit::Fine,
        }
    }

    /// Makes the line of these fields, and counts its status. If memory runs out, how the run ends stays as it was.
    fn report(&mut self, alloc: Global, fields: &Fields<'_>) -> Result<(), AllocError>
        ensures reported { OnOk result (HasLine fields.now self.old self.new) }
        ensures form { self.new.json ≡ self.old.json }
        ensures ends { OnErr result (self.new.worst ≡ self.old.worst) }
    {
        put_line(alloc, self.json, &mut self.line, fields)?;
        self.worst = self.worst.worse(exit_of_line(fields));
        Ok(())
    }

    /// Makes the line of one more game, or that there was no memory for it, and counts its status.
    ///
    /// It fails only if memory runs out for either.
    ///
    /// The status after it is the greatest of those of the lines.
    pub fn add(
        &mut self,
        alloc: Global,
        asked: &Asked<'_>,
        game: &ArchivedGame<'_>,
    ) -> Result<(), AllocError>
        ensures { OnOk result (HasLineOf asked.now game.now self.old self.new) }
    {
        match self.report(alloc, &game.fields) {
            Ok(()) => Ok(()),
            Err(_) => {
                let lost = lost_game(asked, game.fields.name);
                self.report(alloc, &lost.fields)
            }
        }
    }
}
