//! The checks of each kind of event, in order.
ghost use Rattle.std.specs.Prelude.{◌≡◌, ◌≤◌, ◌≤ℤ◌, ◌*◌, neg_ℤ, pos, true, false, length, sum, Some, IfOk, IfErr, OnOk};
ghost use Rattle.ref_play.specs.Legality.{IsLegal};
ghost use Rattle.ref_play.specs.Texts.{placement_of};
ghost use Rattle.game_turns.specs.Answers.{Reports};
ghost use Rattle.game_turns.specs.Seats.{side_of, same_seat};
ghost use Rattle.game_turns.specs.Tallies.{latest_play};
ghost use Rattle.game_turns.specs.Checks.{most_points, is_over, may_idle, play_fault, total_after, check_score, check_total, check_turn, check_play, check_pass, check_exchange, check_time, check_withdraw, check_challenge, check_other_rack, check_own_rack, check_last_rack, is_stale};
ghost use Rattle.game_turns.specs.LatestEvents.{play_of, latest_of, IsAwaited};

use crate::amounts::{is_bonus, is_penalty, points_in};
use crate::faults::RuleFault;
use crate::latest::{Laid, LatestEvent};
use crate::listing::{all_listed, any_listed, listed_in};
use crate::machine::Machine;
use crate::seats::may_move;
use gcg_read::{Event, Points, Seat, same_seat};
use lex_list::WordList;
use ref_board::{Board, Dir, Square};
use ref_play::{Play, PlayFault, from_text, judge, score, words};
use ref_tiles::{Counts, Symbol};

/// The play that a text names, if it is legal.
#[tactic(auto, unfolding(crate::specs::Checks::play_fault))]
pub fn legal_play(board: &Board, at: Square, dir: Dir, word: &[Symbol]) -> Result<Play, PlayFault>
    ensures fault { IfErr result (λ why. play_fault board.now dir at word.now ≡ Some why) }
    ensures none { OnOk result (play_fault board.now dir at word.now ≡ None) }
    ensures legal { IfOk result (λ play. IsLegal board.now play.tiles.items) }
    ensures tiles { IfOk result (λ play.
        (play.dir ≡ dir) × (play.tiles.items ≡ placement_of board.now dir at word.now)) }
{
    let play = from_text(board, at, dir, word)?;
    judge(board, &play)?;
    Ok(play)
}

/// Checks that a score is the expected one.
fn check_score(points: Points, expected: i32) -> Result<(), RuleFault>
    ensures { Reports result (check_score points expected) }
{
    if points.value() != expected {
        return Err(RuleFault::WrongScore(expected));
    }
    Ok(())
}

impl Machine {
    ghost use Rattle.game_turns.specs.Machines.{state_of};

    /// Whether the turns are over.
    fn is_over(&self) -> bool
        ensures { result ≡ is_over (state_of self.now) }
    {
        self.out.is_some() || self.sides.first.ended || self.sides.second.ended || self.complete
    }

    /// Whether a pass by this player is the one that is accepted after the other player is out.
    fn may_idle(&self, player: Seat) -> bool
        ensures { result ≡ may_idle (state_of self.now) player }
    {
        match self.out {
            None => false,
            Some(out) => !same_seat(out, player) && !self.idle_pass && !self.complete,
        }
    }

    /// Checks that it is the player's turn.
    fn check_turn(&self, event: &Event) -> Result<(), RuleFault>
        ensures { Reports result (check_turn (state_of self.now) event.now) }
    {
        if !may_move(self.mover, event.player) {
            return Err(RuleFault::NotYourTurn);
        }
        Ok(())
    }

    /// The total of the event's player after it.
    fn total_after(&self, event: &Event) -> i32
        ensures { result ≡ total_after (state_of self.now) event.now }
    {
        self.sides.of(event.player).total.value() + event.score.value()
    }

    /// Checks that the total is what the player had plus the event's score.
    fn check_total(&self, event: &Event) -> Result<(), RuleFault>
        ensures reported { Reports result (check_total (state_of self.now) event.now) }
        ensures total { OnOk result (event.now.total ≡ total_after (state_of self.now) event.now) }
    {
        let total = self.total_after(event);
        if event.total.value() != total {
            return Err(RuleFault::WrongTotal(total));
        }
        Ok(())
    }

    /// The play of an event that the rules allow.
    #[tactic(auto, unfolding(crate::specs::Checks::check_play, crate::specs::Checks::text_score))]
    pub(crate) fn allowed_play(
        &self,
        event: &Event,
        at: Square,
        dir: Dir,
        word: &[Symbol],
        stands: bool,
    ) -> Result<Laid, RuleFault>
        ensures reported { Reports result (check_play self.now.rules (state_of self.now) event.now dir at word.now) }
        ensures laid { IfOk result (λ laid.
            play_of laid ≡ latest_play self.now.rules self.now.board event.now.player dir at word.now stands) }
        ensures legal { IfOk result (λ laid. IsLegal self.now.board laid.play.tiles.items) }
        ensures fits { IfOk result (λ laid.
            length laid.play.tiles.items ≤ (side_of self.now.sides event.now.player).rack) }
        ensures total { OnOk result (event.now.total ≡ total_after (state_of self.now) event.now) }
    {
        if self.is_over() {
            return Err(RuleFault::GameOver);
        }
        self.check_turn(event)?;
        let play = match legal_play(&self.board, at, dir, word) {
            Ok(play) => play,
            Err(why) => return Err(RuleFault::Play(why)),
        };
        if play.tiles.len() > self.sides.of(event.player).rack {
            return Err(RuleFault::TooManyUsed);
        }
        let score = score(&self.rules, &self.board, &play);
        check_score(event.score, score)?;
        self.check_total(event)?;
        let words = words(&self.board, &play);
        Ok(Laid {
            player: event.player,
            play,
            words,
            score,
            stands,
        })
    }

    /// Checks a pass.
    #[tactic(auto, unfolding(crate::specs::Checks::check_pass))]
    pub(crate) fn check_pass(&self, event: &Event) -> Result<(), RuleFault>
        ensures reported { Reports result (check_pass (state_of self.now) event.now) }
        ensures total { OnOk result (event.now.total ≡ total_after (state_of self.now) event.now) }
    {
        if self.is_over() && !self.may_idle(event.player) {
            return Err(RuleFault::GameOver);
        }
        self.check_turn(event)?;
        check_score(event.score, 0)?;
        self.check_total(event)
    }

    /// Checks an exchange of this number of tiles.
    #[tactic(auto, unfolding(crate::specs::Checks::check_exchange))]
    pub(crate) fn check_exchange(&self, event: &Event, size: usize) -> Result<(), RuleFault>
        ensures reported { Reports result (check_exchange self.now.rules (state_of self.now) event.now size) }
        ensures total { OnOk result (event.now.total ≡ total_after (state_of self.now) event.now) }
    {
        if self.is_over() {
            return Err(RuleFault::GameOver);
        }
        self.check_turn(event)?;
        if self.bag < self.rules.exchange_min as usize {
            return Err(RuleFault::ExchangeRefused);
        }
        if size > self.sides.of(event.player).rack || size > self.bag {
            return Err(RuleFault::ExchangeSize);
        }
        check_score(event.score, 0)?;
        self.check_total(event)
    }

    /// Checks a time penalty.
    #[tactic(auto, unfolding(crate::specs::Checks::check_time))]
    pub(crate) fn check_time(&self, event: &Event) -> Result<(), RuleFault>
        ensures reported { Reports result (check_time self.now.rules (state_of self.now) event.now) }
        ensures total { OnOk result (event.now.total ≡ total_after (state_of self.now) event.now) }
    {
        let is_penalty = is_penalty(self.rules.time_step, event.score.value());
        if !is_penalty || self.sides.of(event.player).timed {
            return Err(RuleFault::BadTime);
        }
        self.check_total(event)
    }

    /// Whether the zero run has reached its limit, or a penalty of it stands.
    fn is_stale(&self) -> bool
        ensures { result ≡ is_stale self.now.rules (state_of self.now) }
    {
        self.zero_run >= self.rules.zero_limit || self.sides.first.ended || self.sides.second.ended
    }

    /// Checks a withdrawal: the latest event is a play of this player that awaits it, with a word that is not
    /// listed.
    #[tactic(auto, unfolding(crate::specs::Checks::check_withdraw))]
    pub(crate) fn check_withdraw(&self, event: &Event, list: &WordList) -> Result<(), RuleFault>
        ensures reported { Reports result
            (check_withdraw list.now (state_of self.now) event.now (latest_of self.now.latest)) }
        ensures awaits { OnOk result (IsAwaited self.now.latest event.now.player) }
        ensures total { OnOk result (event.now.total ≡ total_after (state_of self.now) event.now) }
    {
        let LatestEvent::Played(laid) = &self.latest else {
            return Err(RuleFault::NothingToWithdraw);
        };
        if laid.stands || !same_seat(laid.player, event.player) {
            return Err(RuleFault::NothingToWithdraw);
        }
        if all_listed(list, &laid.words) {
            return Err(RuleFault::WithdrawnValid);
        }
        check_score(event.score, negated(laid.score))?;
        self.check_total(event)
    }

    /// Checks the bonus of an unsuccessful challenge: the latest event is a play of this player that stands, and
    /// the bonus is for one of its listed words or more.
    #[tactic(auto, unfolding(crate::specs::Checks::check_challenge))]
    pub(crate) fn check_challenge(&self, event: &Event, list: &WordList) -> Result<(), RuleFault>
        ensures reported { Reports result
            (check_challenge self.now.rules list.now (state_of self.now) event.now (latest_of self.now.latest)) }
        ensures total { OnOk result (event.now.total ≡ total_after (state_of self.now) event.now) }
    {
        let LatestEvent::Played(laid) = &self.latest else {
            return Err(RuleFault::BadBonus);
        };
        if !laid.stands || !same_seat(laid.player, event.player) {
            return Err(RuleFault::BadBonus);
        }
        if !any_listed(list, &laid.words) {
            return Err(RuleFault::BonusOnPhony);
        }
        let listed = listed_in(list, &laid.words);
        if !is_bonus(self.rules.challenge_unit, listed, event.score.value()) {
            return Err(RuleFault::BadBonus);
        }
        self.check_total(event)
    }

    /// Checks the last rack of the other player, if a player is out.
    #[tactic(auto, unfolding(crate::specs::Checks::check_other_rack))]
    fn check_other_rack(&self, event: &Event, tiles: &Counts, out: Seat) -> Result<(), RuleFault>
        ensures reported { Reports result
            (check_other_rack self.now.rules (state_of self.now) event.now tiles.now out) }
        ensures total { OnOk result (event.now.total ≡ total_after (state_of self.now) event.now) }
    {
        if !same_seat(out, event.player) {
            return Err(RuleFault::NotYourTurn);
        }
        if tiles.total() != self.sides.of(out.other()).rack {
            return Err(RuleFault::LastRackSize);
        }
        check_score(event.score, doubled(points_in(&self.rules, tiles)))?;
        self.check_total(event)
    }

    /// Checks the player's own last rack, after the zero run.
    #[tactic(auto, unfolding(crate::specs::Checks::check_own_rack))]
    fn check_own_rack(&self, event: &Event, tiles: &Counts) -> Result<(), RuleFault>
        ensures reported { Reports result (check_own_rack self.now.rules (state_of self.now) event.now tiles.now) }
        ensures total { OnOk result (event.now.total ≡ total_after (state_of self.now) event.now) }
    {
        if self.sides.of(event.player).ended {
            return Err(RuleFault::GameOver);
        }
        if tiles.total() != self.sides.of(event.player).rack {
            return Err(RuleFault::LastRackSize);
        }
        check_score(event.score, lost(points_in(&self.rules, tiles)))?;
        self.check_total(event)
    }

    /// Checks a last rack.
    #[tactic(auto, unfolding(crate::specs::Checks::check_last_rack))]
    pub(crate) fn check_last_rack(&self, event: &Event, tiles: &Counts) -> Result<(), RuleFault>
        ensures reported { Reports result (check_last_rack self.now.rules (state_of self.now) event.now tiles.now) }
        ensures total { OnOk result (event.now.total ≡ total_after (state_of self.now) event.now) }
    {
        if self.complete {
            return Err(RuleFault::GameOver);
        }
        match self.out {
            Some(out) => self.check_other_rack(event, tiles, out),
            None => {
                if !self.is_stale() {
                    return Err(RuleFault::NotOver);
                }
                self.check_own_rack(event, tiles)
            }
        }
    }
}

/// What the other player's last rack gives.
fn doubled(points: u32) -> i32
    requires { points ≤ most_points }
    ensures { result ≡ pos (2 * points) }
{
    (2 * points) as i32
}

/// What the player's own last rack costs.
fn lost(points: u32) -> i32
    requires { points ≤ most_points }
    ensures { result ≡ neg_ℤ (pos points) }
{
    -(points as i32)
}

/// What a withdrawal takes away again.
fn negated(score: i32) -> i32
    requires { pos 0 ≤ℤ score }
    ensures { result ≡ neg_ℤ score }
{
    -score
}
