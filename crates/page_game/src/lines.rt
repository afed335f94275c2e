//! A line of a sheet.

use game_bests::{BestPlay, TurnBest};
use game_turns::SpelledWord;
use gcg_about::Encoding;
use gcg_read::{Event, EventKind, Player};
use sheet_scores::{LaidPlay, Picture, Position, SheetRow};

/// An event of a sheet, and what the sheet says of it.
#[derive(Clone, Copy)]
pub struct Line<'a> {
    /// How names are read.
    pub encoding: Encoding,
    /// The player.
    pub player: &'a Player,
    /// The event as it is written.
    pub event: &'a Event,
    /// What the sheet says of it.
    pub row: &'a SheetRow,
    /// The board after it, if the plays up to it can be laid.
    pub picture: Option<&'a Picture>,
    /// What is said of that board.
    pub position: Option<&'a Position>,
    /// Whether it is the faulty line.
    pub is_faulty: bool,
}

impl<'a> Line<'a> {
    /// The words that are not in the list.
    pub fn unlisted(&self) -> &'a [SpelledWord] {
        self.row.unlisted.as_slice()
    }

    /// Its play as it lies on the board, if it does.
    pub fn laid(&self) -> Option<&'a LaidPlay> {
        self.position?.play.as_ref()
    }

    /// Whether it puts down seven tiles.
    pub fn is_full(&self) -> bool {
        match self.laid() {
            Some(play) => play.is_full,
            None => false,
        }
    }

    /// Whether it is a play.
    pub fn is_play(&self) -> bool {
        matches!(self.event.kind, EventKind::Play { .. })
    }

    /// Its best play, if there is one.
    pub fn best(&self) -> Option<&'a BestPlay> {
        match &self.row.best {
            Some(TurnBest::Best(best)) => Some(best),
            _ => None,
        }
    }
}
