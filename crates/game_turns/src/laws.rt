//! A law of the definitions that the contracts of turns cite. The function does nothing: its contract is the law.
ghost use Rattle.game_turns.specs.Laws.{NextTallyIsAfter};

use ref_play::law_of_undoing;

/// The state that an allowed event leaves is the tally at the next place. The tally is read only from the list of the events, so
/// what the machine keeps event by event is what the whole record says.
pub fn law_of_tallies()
    ensures { NextTallyIsAfter }
{
    law_of_undoing();
}
