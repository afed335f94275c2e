//! The progress of a run over many games.

use std::rt::Runtime;

/// How many games are done between two reports of the progress.
const STEP: u64 = 100;

/// How many games are done, and whether that is shown on standard error.
#[derive(Clone, Copy)]
pub struct Progress {
    shown: bool,
    games: u64,
}

impl Progress {
    /// No game is done yet.
    pub fn new(shown: bool) -> Progress {
        Progress { shown, games: 0 }
    }

    /// One more game is done.
    pub fn count<R: Runtime>(&mut self, rt: &R) {
        self.games = self.games.saturating_add(1);
        if self.games % STEP == 0 {
            self.report(rt);
        }
    }

    /// All games are done.
    pub fn end<R: Runtime>(&self, rt: &R) {
        if self.games == 0 || self.games % STEP != 0 {
            self.report(rt);
        }
    }

    /// Writes to standard error how many games are done, if that is shown.
    fn report<R: Runtime>(&self, rt: &R) {
        if self.shown {
            let games = self.games;
            let _ = rt.eprintln(format_args!("games done: {games}"));
        }
    }
}
