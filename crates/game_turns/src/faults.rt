//! The faults of an event.
use ref_play::PlayFault;

/// Why the rules do not allow an event.
#[derive(Clone, Copy, Debug, PartialEq, Eq)]
pub enum RuleFault {
    /// The turn is the other player's.
    NotYourTurn,
    /// The text does not name a play, or the play is not legal.
    Play(PlayFault),
    /// The score is not this one.
    WrongScore(i32),
    /// The running total is not this one.
    WrongTotal(i32),
    /// There is no play of this player to take back; or there is one, and the event is something else.
    NothingToWithdraw,
    /// The play that is taken back forms only listed words.
    WithdrawnValid,
    /// The challenged play does not form a listed word: it is a phony.
    BonusOnPhony,
    /// There is no play of this player to challenge, or its listed words do not give this bonus.
    BadBonus,
    /// The bag has too few tiles for an exchange.
    ExchangeRefused,
    /// The exchange is of more tiles than the rack or the bag has.
    ExchangeSize,
    /// The turns are over, or the game is.
    GameOver,
    /// No last rack is due yet.
    NotOver,
    /// The last rack has more or fewer tiles than the rack that it should be.
    LastRackSize,
    /// The penalty is not a multiple of the step, or it is the player's second.
    BadTime,
    /// The play has more tiles than the rack.
    TooManyUsed,
}
