//! The event that a line of a record means.
ghost use Rattle.std.specs.Prelude.{◌≡◌, ◌<◌, IfSome, length};
ghost use Rattle.game_board.specs.Places.{place_of_line};

use gcg_read::Event;

/// The place of the first event on a line or after it, counted from 0; none if every event comes before the line.
pub fn place_of_line(events: &[Event], line: u32) -> Option<usize>
    ensures place { result ≡ place_of_line events.now line }
    ensures within { IfSome result (λ place. place < length events.now) }
{
    events.iter().position(|event| event.line >= line)
}
