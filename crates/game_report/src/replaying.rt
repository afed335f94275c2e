//! An event taken by the machine and by the board that follows the game.
ghost use Rattle.std.specs.Prelude.{◌<◌, ◌+◌, length};
ghost use Rattle.game_turns.specs.Passing.{rules_in, record_in};
ghost use Rattle.lex_check.specs.Pairs.{list_in};
ghost use Rattle.game_report.specs.Beside.{StandAt};

use game_notes::Follow;
use game_turns::{Machine, Passed, withdraws};
use lex_check::Checked;

/// Takes the event at a place of a record, from 0, on a machine that took those before it, and lays its play on the board
/// that follows, or takes back the play that it withdraws.
pub fn follow_event(
    passed: &Passed<'_>,
    pair: &Checked<'_>,
    machine: &mut Machine,
    follow: &mut Follow,
    place: usize,
)
    requires place { place < length (record_in passed.now).events }
    requires stand { StandAt (rules_in passed.now) (list_in pair.now) (record_in passed.now).events place machine.old follow.old }
    ensures { StandAt (rules_in passed.now) (list_in pair.now) (record_in passed.now).events (place + 1) machine.new follow.new }
{
    follow.board().law_of_squares();
    let event = &passed.record().events.as_slice()[place];
    passed.take_event(machine, place);
    let Some(play) = machine.last_play() else {
        return;
    };
    if withdraws(Some(event)) {
        follow.undo(passed.rules(), pair, play);
    } else {
        follow.apply(passed.rules(), pair, play);
    }
}
