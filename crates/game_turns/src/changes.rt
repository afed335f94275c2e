//! What each kind of event does to a state.
ghost use Rattle.std.specs.Prelude.{◌≡◌, ◌+◌, ◌==◌, ◌&&◌, ◌≤◌, min, true, false, length, Some, if◌then◌else◌};
ghost use Rattle.ref_play.specs.Legality.{IsLegal};
ghost use Rattle.game_turns.specs.Seats.{side_of};
ghost use Rattle.game_turns.specs.Checks.{total_after};
ghost use Rattle.game_turns.specs.Changes.{after_scored, longer_run, after_standing, after_waiting, after_idle, after_idle_pass, after_withdraw, after_time, after_last_rack};
ghost use Rattle.game_turns.specs.LatestEvents.{play_of, latest_of, IsAwaited};

use crate::latest::{Laid, LatestEvent};
use crate::machine::Machine;
use gcg_read::{Event, Seat};
use ref_play::{apply, undo};
use std::mem::replace;

/// Who is out after a play that leaves this bag and this rack.
fn out_after(player: Seat, before: Option<Seat>, bag: usize, rack: usize) -> Option<Seat>
    ensures { result ≡ (if bag == 0 && rack == 0 then Some player else before) }
{
    if bag == 0 && rack == 0 {
        Some(player)
    } else {
        before
    }
}

impl Machine {
    ghost use Rattle.game_turns.specs.Machines.{rules_of, state_of, Becomes};

    /// A play that stands.
    #[tactic(auto, unfolding(crate::specs::Changes::after_standing))]
    pub(crate) fn stand(&mut self, event: &Event, laid: Laid)
        requires stands { laid.stands ≡ true }
        requires legal { IsLegal self.old.board laid.play.tiles.items }
        requires fits { length laid.play.tiles.items ≤ (side_of self.old.sides event.now.player).rack }
        requires total { event.now.total ≡ total_after (state_of self.old) event.now }
        ensures { Becomes self.old self.new (after_standing (state_of self.old) event.now (play_of laid)) }
    {
        let used = laid.play.tiles.len();
        let drawn = used.min(self.bag);
        let rack = self.sides.of(event.player).rack - used + drawn;
        apply(&mut self.board, &laid.play);
        self.bag -= drawn;
        self.sides.set_total(event.player, event.total);
        self.sides.set_rack(event.player, rack);
        self.mover = Some(event.player.other());
        self.zero_run = 0;
        self.out = out_after(event.player, self.out, self.bag, rack);
        self.latest = LatestEvent::Played(laid);
    }

    /// A play that awaits its withdrawal.
    #[tactic(auto, unfolding(crate::specs::Changes::after_waiting))]
    pub(crate) fn wait(&mut self, event: &Event, laid: Laid)
        requires waits { laid.stands ≡ false }
        requires player { laid.player ≡ event.now.player }
        requires legal { IsLegal self.old.board laid.play.tiles.items }
        requires fits { length laid.play.tiles.items ≤ (side_of self.old.sides event.now.player).rack }
        requires total { event.now.total ≡ total_after (state_of self.old) event.now }
        ensures { Becomes self.old self.new (after_waiting (state_of self.old) event.now (play_of laid)) }
    {
        let rack = self.sides.of(event.player).rack - laid.play.tiles.len();
        apply(&mut self.board, &laid.play);
        self.sides.set_total(event.player, event.total);
        self.sides.set_rack(event.player, rack);
        self.latest = LatestEvent::Played(laid);
    }

    /// One more turn in the zero run.
    fn longer_run(&self) -> u8
        ensures { result ≡ longer_run (rules_of self.now) (state_of self.now) }
    {
        let run = self.zero_run as usize + 1;
        run.min(self.rules.zero_limit as usize) as u8
    }

    /// An event that is neither a play nor a withdrawal: its score goes into its player's total.
    pub(crate) fn add_score(&mut self, event: &Event)
        requires { event.now.total ≡ total_after (state_of self.old) event.now }
        ensures { Becomes self.old self.new (after_scored (state_of self.old) event.now) }
    {
        self.sides.set_total(event.player, event.total);
        self.latest = LatestEvent::Other;
    }

    /// An exchange, or a pass that is a turn.
    #[tactic(auto, unfolding(crate::specs::Changes::after_idle))]
    pub(crate) fn idle(&mut self, event: &Event)
        requires { event.now.total ≡ total_after (state_of self.old) event.now }
        ensures { Becomes self.old self.new (after_idle (rules_of self.old) (state_of self.old) event.now) }
    {
        self.zero_run = self.longer_run();
        self.add_score(event);
        self.mover = Some(event.player.other());
    }

    /// A pass after the other player is out.
    #[tactic(auto, unfolding(crate::specs::Changes::after_idle_pass))]
    pub(crate) fn idle_out(&mut self, event: &Event)
        requires { event.now.total ≡ total_after (state_of self.old) event.now }
        ensures { Becomes self.old self.new (after_idle_pass (state_of self.old) event.now) }
    {
        self.add_score(event);
        self.idle_pass = true;
    }

    /// A time penalty.
    #[tactic(auto, unfolding(crate::specs::Changes::after_time))]
    pub(crate) fn penalize(&mut self, event: &Event)
        requires { event.now.total ≡ total_after (state_of self.old) event.now }
        ensures { Becomes self.old self.new (after_time (state_of self.old) event.now) }
    {
        self.add_score(event);
        self.sides.set_timed(event.player);
    }

    /// A last rack.
    #[tactic(auto, unfolding(crate::specs::Changes::after_last_rack))]
    pub(crate) fn end(&mut self, event: &Event)
        requires { event.now.total ≡ total_after (state_of self.old) event.now }
        ensures { Becomes self.old self.new (after_last_rack (state_of self.old) event.now) }
    {
        self.complete = self.out.is_some()
            || self.sides.first.ended
            || self.sides.second.ended
            || self.complete;
        self.add_score(event);
        self.sides.set_ended(event.player);
    }

    /// A withdrawal of the latest play.
    #[tactic(auto, unfolding(crate::specs::Changes::after_withdraw))]
    pub(crate) fn take_back(&mut self, event: &Event)
        requires awaits { IsAwaited self.old.latest event.now.player }
        requires total { event.now.total ≡ total_after (state_of self.old) event.now }
        ensures { Becomes self.old self.new (after_withdraw (rules_of self.old) (state_of self.old) event.now (latest_of self.old.latest)) }
    {
        let LatestEvent::Played(laid) = replace(&mut self.latest, LatestEvent::Other) else {
            unreachable!()
        };
        let rack = self.sides.of(event.player).rack + laid.play.tiles.len();
        undo(&mut self.board, &laid.play);
        self.zero_run = self.longer_run();
        self.sides.set_total(event.player, event.total);
        self.sides.set_rack(event.player, rack);
        self.mover = Some(event.player.other());
        self.latest = LatestEvent::TakenBack(laid.play);
    }
}
