//! Facts about turns.

use gcg_read::Seat;

/// What is said about turns: whose it is, and whether there are any more.
#[derive(Drop)]
pub enum TurnFact {
    /// It is the other player's turn.
    OthersTurn {
        /// The player of the event.
        player: Seat,
        /// The other player.
        other: Seat,
    },
    /// A player is out, so the last rack must be on a line of that player.
    OthersLine {
        /// The player of the event.
        player: Seat,
        /// The player who is out.
        out: Seat,
    },
    /// The game is complete: the last racks are in.
    Complete,
    /// A player is out, so there are no more turns; the other player's last rack is missing.
    Out {
        /// The player who is out.
        out: Seat,
        /// The other player.
        holder: Seat,
    },
    /// A player has lost the points of a rack, so there are no more turns; the other player's last rack is missing.
    RackLost {
        /// The player whose points are lost.
        player: Seat,
        /// The other player.
        holder: Seat,
    },
    /// No last rack is due: no player is out, and there were fewer turns without a play that stands than end a game.
    NoRackDue {
        /// The number of such turns in a row that end a game.
        limit: usize,
        /// The number of them before the event.
        turns: usize,
    },
}
