//! Facts about deals.

use gcg_read::Seat;
use ref_tiles::Counts;

/// Some tiles that a line shows of a rack.
#[derive(Drop)]
pub struct ClashLine {
    /// The line.
    pub line: u32,
    /// The player whose rack it shows.
    pub player: Seat,
    /// The tiles.
    pub tiles: Counts,
}

/// An exchange.
#[derive(Drop)]
pub struct ExchangeLine {
    /// The line.
    pub line: u32,
    /// The player who exchanges.
    pub player: Seat,
    /// The number of tiles.
    pub tiles: usize,
}

/// Up to where a deal gives the racks that are shown, and what cannot be dealt.
#[derive(Drop)]
pub enum DealFact {
    /// A deal of the tiles gives the players the racks that the lines up to this one show.
    DealtTo {
        /// The line.
        line: u32,
    },
    /// No deal of the tiles gives the players the racks that the lines show.
    NoDeal {
        /// What already cannot be together: lines, and tiles that they show, such that no deal would give these even if no other
        /// tile of a rack were shown. It has no line if the plays and the exchanges by themselves already have no deal, and it is none if
        /// no proof was found.
        clash: Option<Vec<ClashLine>>,
        /// The exchanges up to the line.
        exchanges: Vec<ExchangeLine>,
    },
}
