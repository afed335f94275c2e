//! Copies of a machine, which keep a game as it is at a place.
ghost use Rattle.std.specs.Prelude.{◌≡◌, ◌≤◌, length};
ghost use Rattle.ref_play.specs.Words.{items_of};
ghost use Rattle.game_turns.specs.LatestEvents.{play_of, latest_of};

use crate::latest::{Laid, LatestEvent};
use crate::machine::Machine;
use arrayvec::ArrayVec;
use ref_play::{Word, Words};

/// A word with the same letters.
fn same_word(letters: &[u8]) -> Word
    requires { length letters.now ≤ 15 }
    ensures { result.items ≡ letters.now }
{
    let mut word = ArrayVec::new();
    for letter in letters {
        word.push(*letter);
    }
    word
}

/// The same words.
fn same_words(words: &[Word]) -> Words
    requires { length words.now ≤ 8 }
    ensures { items_of result.items ≡ items_of words.now }
{
    let mut same = ArrayVec::new();
    for word in words {
        same.push(same_word(word));
    }
    same
}

impl Laid {
    /// A copy of the play.
    fn copy(&self) -> Laid
        ensures { play_of result ≡ play_of self.now }
    {
        Laid {
            player: self.player,
            play: self.play.copy(),
            words: same_words(&self.words),
            score: self.score,
            stands: self.stands,
        }
    }
}

impl LatestEvent {
    /// A copy of the latest event.
    fn copy(&self) -> LatestEvent
        ensures { latest_of result ≡ latest_of self.now }
    {
        match self {
            LatestEvent::Played(laid) => LatestEvent::Played(laid.copy()),
            LatestEvent::TakenBack(play) => LatestEvent::TakenBack(play.copy()),
            LatestEvent::Other => LatestEvent::Other,
        }
    }
}

impl Machine {
    ghost use Rattle.game_turns.specs.Machines.{rules_of, state_of};

    /// A machine with the same rules, in the same state.
    pub fn copy(&self) -> Machine
        ensures rules { rules_of result ≡ rules_of self.now }
        ensures state { state_of result ≡ state_of self.now }
    {
        Machine {
            rules: self.rules,
            board: self.board,
            sides: self.sides,
            bag: self.bag,
            mover: self.mover,
            zero_run: self.zero_run,
            out: self.out,
            idle_pass: self.idle_pass,
            complete: self.complete,
            latest: self.latest.copy(),
        }
    }
}
