//! What is said about a record or one of its events: facts, each with its numbers, squares, tiles, players and lines, by families.

mod challenges;
mod deals;
mod games;
mod orders;
mod plays;
mod racks;
mod readings;
mod rulings;
mod scores;
mod tiles;
mod totals;
mod turns;

pub use challenges::ChallengeFact;
pub use deals::{ClashLine, DealFact, ExchangeLine};
pub use games::{GameFact, RackPart, UnlistedPlay};
pub use orders::OrderFact;
pub use plays::PlayFact;
pub use racks::{KindLine, Leaving, RackFact, RackLine};
pub use readings::ReadingFact;
pub use rulings::RulingFact;
pub use scores::ScoreFact;
pub use tiles::TileFact;
pub use totals::TotalFact;
pub use turns::TurnFact;

/// What is said about a record as a whole, or about one event: a sentence each, by what it is about.
#[derive(Drop)]
pub enum Fact {
    /// The record as a whole.
    Game(GameFact),
    /// Whether the rules allow the event.
    Ruling(RulingFact),
    /// Whose turn it is, and whether there are any more.
    Turn(TurnFact),
    /// The order of the lines.
    Order(OrderFact),
    /// The text or the placement of the play.
    Play(PlayFact),
    /// The score.
    Score(ScoreFact),
    /// The play with another tile in one place.
    Reading(ReadingFact),
    /// The total, or a penalty for time.
    Total(TotalFact),
    /// A play that is taken back or challenged.
    Challenge(ChallengeFact),
    /// The number of tiles.
    Tile(TileFact),
    /// What the lines show of a rack or of a kind of tile.
    Rack(RackFact),
    /// Deals that give the racks.
    Deal(DealFact),
}
