//! A step of the machine: the checks of an event, and then its change.
ghost use Rattle.std.specs.Prelude.{◌≡◌, not, sum, IfOk, OnOk, OnErr};
ghost use Rattle.std.specs.Option.{option_copied};
ghost use Rattle.game_turns.specs.Answers.{Reports, Takes};
ghost use Rattle.game_turns.specs.Tallies.{withdraws, latest_play};
ghost use Rattle.game_turns.specs.Checks.{check_play, check_pass, check_exchange, check_withdraw, check_challenge, check_time, check_last_rack, check_kind, interrupts, fault_in};
ghost use Rattle.game_turns.specs.Changes.{after_play, after_pass, after_idle, after_withdraw, after_challenge, after_time, after_last_rack, after_kind, after, turn_of};
ghost use Rattle.game_turns.specs.LatestEvents.{latest_of};

use crate::faults::RuleFault;
use crate::kinds::{is_play, is_turn, is_withdraw, withdraws};
use crate::latest::LatestEvent;
use crate::machine::Machine;
use crate::turns::Turn;
use gcg_read::{Event, EventKind, same_seat};
use lex_list::WordList;
use ref_board::{Dir, Square};
use ref_tiles::{Counts, Symbol};

impl Machine {
    ghost use Rattle.game_turns.specs.Machines.{rules_of, state_of};

    /// A play, which stands unless a withdrawal is the next event.
    fn take_play(
        &mut self,
        event: &Event,
        at: Square,
        dir: Dir,
        word: &[Symbol],
        withdrawn: bool,
    ) -> Result<(), RuleFault>
        ensures { Takes result self.old self.new
            (check_play (rules_of self.old) (state_of self.old) event.now dir at word.now)
            (after_play (state_of self.old) event.now (latest_play (rules_of self.old) (state_of self.old).board event.now.player dir at word.now (not withdrawn)) withdrawn) }
    {
        let laid = self.allowed_play(event, at, dir, word, !withdrawn)?;
        if withdrawn {
            self.wait(event, laid);
        } else {
            self.stand(event, laid);
        }
        Ok(())
    }

    /// A pass.
    fn take_pass(&mut self, event: &Event) -> Result<(), RuleFault>
        ensures { Takes result self.old self.new
            (check_pass (state_of self.old) event.now)
            (after_pass (rules_of self.old) (state_of self.old) event.now (state_of self.old).out) }
    {
        self.check_pass(event)?;
        match self.out {
            None => self.idle(event),
            Some(_) => self.idle_out(event),
        }
        Ok(())
    }

    /// An exchange of this number of tiles.
    fn take_exchange(&mut self, event: &Event, size: usize) -> Result<(), RuleFault>
        ensures { Takes result self.old self.new
            (check_exchange (rules_of self.old) (state_of self.old) event.now size)
            (after_idle (rules_of self.old) (state_of self.old) event.now) }
    {
        self.check_exchange(event, size)?;
        self.idle(event);
        Ok(())
    }

    /// A withdrawal.
    fn take_withdraw(&mut self, event: &Event, list: &WordList) -> Result<(), RuleFault>
        ensures { Takes result self.old self.new
            (check_withdraw list.now (state_of self.old) event.now (state_of self.old).latest)
            (after_withdraw (rules_of self.old) (state_of self.old) event.now (state_of self.old).latest) }
    {
        self.check_withdraw(event, list)?;
        self.take_back(event);
        Ok(())
    }

    /// The bonus of an unsuccessful challenge.
    #[tactic(auto, unfolding(crate::specs::Changes::after_challenge))]
    fn take_challenge(&mut self, event: &Event, list: &WordList) -> Result<(), RuleFault>
        ensures { Takes result self.old self.new
            (check_challenge (rules_of self.old) list.now (state_of self.old) event.now (state_of self.old).latest)
            (after_challenge (state_of self.old) event.now) }
    {
        self.check_challenge(event, list)?;
        self.add_score(event);
        Ok(())
    }

    /// A time penalty.
    fn take_time(&mut self, event: &Event) -> Result<(), RuleFault>
        ensures { Takes result self.old self.new
            (check_time (rules_of self.old) (state_of self.old) event.now)
            (after_time (state_of self.old) event.now) }
    {
        self.check_time(event)?;
        self.penalize(event);
        Ok(())
    }

    /// A last rack.
    fn take_last_rack(&mut self, event: &Event, tiles: &Counts) -> Result<(), RuleFault>
        ensures { Takes result self.old self.new
            (check_last_rack (rules_of self.old) (state_of self.old) event.now tiles.now)
            (after_last_rack (state_of self.old) event.now) }
    {
        self.check_last_rack(event, tiles)?;
        self.end(event);
        Ok(())
    }

    /// Whether a play awaits its withdrawal, and the event is not that withdrawal.
    fn is_interrupted(&self, event: &Event) -> bool
        ensures { result ≡ interrupts (state_of self.now).latest event.now.player event.now.kind }
    {
        match &self.latest {
            LatestEvent::Played(laid) => {
                !laid.stands && !(is_withdraw(&event.kind) && same_seat(laid.player, event.player))
            }
            LatestEvent::TakenBack(_) | LatestEvent::Other => false,
        }
    }

    /// Takes an event if the rules allow it. `withdrawn` says whether a withdrawal comes after it.
    fn take(&mut self, event: &Event, withdrawn: bool, list: &WordList) -> Result<(), RuleFault>
        ensures { Takes result self.old self.new
            (check_kind (rules_of self.old) list.now (state_of self.old) event.now event.now.kind)
            (after_kind (rules_of self.old) (state_of self.old) event.now event.now.kind withdrawn) }
    {
        match &event.kind {
            EventKind::Play { at, dir, word } => {
                self.take_play(event, *at, *dir, word.as_slice(), withdrawn)
            }
            EventKind::Pass => self.take_pass(event),
            EventKind::Exchange(tiles) => self.take_exchange(event, tiles.total()),
            EventKind::ExchangeUnknown(size) => self.take_exchange(event, *size as usize),
            EventKind::Withdraw => self.take_withdraw(event, list),
            EventKind::Challenge => self.take_challenge(event, list),
            EventKind::Time => self.take_time(event),
            EventKind::LastRack(tiles) => self.take_last_rack(event, tiles),
        }
    }

    /// What an event is, before it is taken.
    #[tactic(auto, unfolding(crate::specs::Changes::turn_of))]
    fn turn_of(&self, event: &Event, withdrawn: bool) -> Turn
        ensures { result ≡ turn_of (state_of self.now) event.now withdrawn }
    {
        Turn {
            counted: is_turn(&event.kind, self.out, withdrawn),
            rack_size: self.sides.of(event.player).rack,
            stands: is_play(&event.kind) && !withdrawn,
        }
    }

    /// Judges the next event of a game, and takes it if the rules allow it. A play stands unless `next`, the
    /// event directly after it, is a withdrawal. The list says which words are valid; it matters for withdrawals
    /// and for the bonus of a challenge.
    ///
    /// The fault is the first check that fails. A refused event leaves the machine as it was.
    #[tactic(auto, unfolding(crate::specs::Checks::fault_in, crate::specs::Changes::after))]
    pub fn step(
        &mut self,
        event: &Event,
        next: Option<&Event>,
        list: &WordList,
    ) -> Result<Turn, RuleFault>
        ensures reported { Reports result (fault_in (rules_of self.old) list.now (state_of self.old) event.now) }
        ensures turn { IfOk result (λ turn.
            turn ≡ turn_of (state_of self.old) event.now (withdraws (option_copied next.entry))) }
        ensures state { OnOk result (state_of self.new
            ≡ after (rules_of self.old) (state_of self.old) event.now (withdraws (option_copied next.entry))) }
        ensures rules { rules_of self.new ≡ rules_of self.old }
        ensures refused { OnErr result (self.new ≡ self.old) }
    {
        if self.is_interrupted(event) {
            return Err(RuleFault::NothingToWithdraw);
        }
        let withdrawn = withdraws(next);
        let turn = self.turn_of(event, withdrawn);
        self.take(event, withdrawn, list)?;
        Ok(turn)
    }
}
