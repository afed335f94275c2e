//! Faults in a few words, for the index.

use engine_faults::FaultName;
use gcg_read::Why;
use ref_play::PlayFault;

/// A fault of a play in a few words.
fn play_words(why: &PlayFault) -> &'static str {
    match why {
        PlayFault::OffBoard => "the play leaves the board",
        PlayFault::Mismatch => "the play does not agree with the board",
        PlayFault::NoNewTile => "the play has no new tile",
        PlayFault::TooManyTiles => "the play has more than seven new tiles",
        PlayFault::NotWhole => "the play is not the whole word",
        PlayFault::MissesCentre => "the first play misses the centre",
        PlayFault::TooShort => "the play makes no word",
        PlayFault::Apart => "the play touches no tile",
    }
}

/// Why a text is not a record in a few words; none if memory ran out, which its name says.
fn record_words(why: &Why) -> Option<&'static str> {
    match why {
        Why::TooLong => Some("the file is too long"),
        Why::TooManyEvents => Some("there are more than 1,000 events"),
        Why::NoColon => Some("there is no colon after the nickname"),
        Why::ThirdPlayer => Some("there is a third nickname"),
        Why::Fields => Some("the line has too few or too many fields"),
        Why::Rack => Some("the rack is not 1 to 7 tiles"),
        Why::Position => Some("the position is not a row and a column"),
        Why::Word => Some("the word is not 1 to 15 letters and dots"),
        Why::Code => Some("the code is not known"),
        Why::Number => Some("the score or the total is not a number"),
        Why::NoMemory => None,
    }
}

/// A fault in a few words, by its name; none if the name says it.
fn name_words(name: &FaultName) -> Option<&'static str> {
    match name {
        FaultName::Play(why) => Some(play_words(why)),
        FaultName::NotYourTurn => Some("it is the other player's turn"),
        FaultName::WrongScore => Some("the score is wrong"),
        FaultName::WrongTotal => Some("the total is wrong"),
        FaultName::NothingToWithdraw => Some("there is no play to take back"),
        FaultName::WithdrawnValid => Some("the play that is taken back is valid"),
        FaultName::BonusOnPhony => Some("the challenged play is not valid"),
        FaultName::BadBonus => Some("the bonus of the challenge is wrong"),
        FaultName::ExchangeRefused => Some("the bag has too few tiles for an exchange"),
        FaultName::ExchangeSize => Some("more tiles are exchanged than there are"),
        FaultName::GameOver => Some("there are no more turns"),
        FaultName::NotOver => Some("the game does not end here"),
        FaultName::LastRackSize => Some("the last rack has the wrong number of tiles"),
        FaultName::BadTime => Some("the time penalty is wrong"),
        FaultName::TooManyUsed => Some("the play has more tiles than the player holds"),
        FaultName::RackTooBig => Some("the player has shown too many tiles"),
        FaultName::TilesShort => Some("more tiles of a kind are shown than there are"),
        FaultName::NoDeal => Some("no deal gives the racks"),
        FaultName::Record(why) => record_words(why),
    }
}

/// The name of a fault: its text up to the first blank.
fn name_in(fault: &str) -> &str {
    match fault.split_once(' ') {
        Some((name, _)) => name,
        None => fault,
    }
}

/// A fault in a few words, by its text; none if it is not one that has a name, or if the name says it.
pub fn fault_words(fault: &str) -> Option<&'static str> {
    match FaultName::of(name_in(fault)) {
        Some(name) => name_words(&name),
        None => None,
    }
}
