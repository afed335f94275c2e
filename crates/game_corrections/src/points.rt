//! The numbers of events are ones that a record can write.
ghost use Rattle.game_corrections.specs.Corrections.{HavePoints};

use gcg_read::Event;

/// Each score and each total is one that a record can write. The call changes nothing: its contract is the law.
pub fn law_of_points(events: &[Event])
    ensures { HavePoints events.now }
{
    for event in events {
        let _score = event.score.value();
        let _total = event.total.value();
    }
}
