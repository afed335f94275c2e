//! The names of faults.
ghost use Rattle.std.specs.Prelude.{◌≡◌, ◌<◌, IfSome};
ghost use Rattle.std.specs.List.{position};
ghost use Rattle.engine_faults.specs.Names.{all_names, has_text};

use gcg_read::Why;
use ref_play::PlayFault;

/// The name of a fault of a game or of a record, as reports print it.
#[derive(Clone, Copy, Debug, PartialEq, Eq)]
pub enum FaultName {
    /// Why a text is not a play, or why the play is not legal.
    Play(PlayFault),
    /// It is the other player's turn.
    NotYourTurn,
    /// The score is not the one that the rules give.
    WrongScore,
    /// The total is not the one that the rules give.
    WrongTotal,
    /// There is no play to take back.
    NothingToWithdraw,
    /// The play that is taken back has only words of the list.
    WithdrawnValid,
    /// The play that was challenged has a word that is not in the list.
    BonusOnPhony,
    /// The bonus of a challenge is not one that the rules allow.
    BadBonus,
    /// The bag has too few tiles for an exchange.
    ExchangeRefused,
    /// More tiles are exchanged than the player holds.
    ExchangeSize,
    /// There are no more turns.
    GameOver,
    /// The game does not end here.
    NotOver,
    /// The last rack does not have as many tiles as the player holds.
    LastRackSize,
    /// The time penalty is not one that the rules allow.
    BadTime,
    /// The play has more new tiles than the player holds.
    TooManyUsed,
    /// A player has shown more tiles than have come to the rack.
    RackTooBig,
    /// More tiles of a kind are shown than the game has.
    TilesShort,
    /// No deal of the tiles gives the racks.
    NoDeal,
    /// Why a text is not a record.
    Record(Why),
}

/// All names.
const ALL: [FaultName; 36] = [
    FaultName::Play(PlayFault::OffBoard),
    FaultName::Play(PlayFault::Mismatch),
    FaultName::Play(PlayFault::NoNewTile),
    FaultName::Play(PlayFault::TooManyTiles),
    FaultName::Play(PlayFault::NotWhole),
    FaultName::Play(PlayFault::MissesCentre),
    FaultName::Play(PlayFault::TooShort),
    FaultName::Play(PlayFault::Apart),
    FaultName::NotYourTurn,
    FaultName::WrongScore,
    FaultName::WrongTotal,
    FaultName::NothingToWithdraw,
    FaultName::WithdrawnValid,
    FaultName::BonusOnPhony,
    FaultName::BadBonus,
    FaultName::ExchangeRefused,
    FaultName::ExchangeSize,
    FaultName::GameOver,
    FaultName::NotOver,
    FaultName::LastRackSize,
    FaultName::BadTime,
    FaultName::TooManyUsed,
    FaultName::RackTooBig,
    FaultName::TilesShort,
    FaultName::NoDeal,
    FaultName::Record(Why::TooLong),
    FaultName::Record(Why::TooManyEvents),
    FaultName::Record(Why::NoColon),
    FaultName::Record(Why::ThirdPlayer),
    FaultName::Record(Why::Fields),
    FaultName::Record(Why::Rack),
    FaultName::Record(Why::Position),
    FaultName::Record(Why::Word),
    FaultName::Record(Why::Number),
    FaultName::Record(Why::Code),
    FaultName::Record(Why::NoMemory),
];

impl FaultName {
    ghost use Rattle.engine_faults.specs.Names.{name_text, named};

    /// The name as reports print it.
    pub fn text(&self) -> &'static str
        ensures { result.now ≡ name_text self.now }
    {
        match self {
            FaultName::Play(why) => why.name(),
            FaultName::NotYourTurn => "NotYourTurn",
            FaultName::WrongScore => "WrongScore",
            FaultName::WrongTotal => "WrongTotal",
            FaultName::NothingToWithdraw => "NothingToWithdraw",
            FaultName::WithdrawnValid => "WithdrawnValid",
            FaultName::BonusOnPhony => "BonusOnPhony",
            FaultName::BadBonus => "BadBonus",
            FaultName::ExchangeRefused => "ExchangeRefused",
            FaultName::ExchangeSize => "ExchangeSize",
            FaultName::GameOver => "GameOver",
            FaultName::NotOver => "NotOver",
            FaultName::LastRackSize => "LastRackSize",
            FaultName::BadTime => "BadTime",
            FaultName::TooManyUsed => "TooManyUsed",
            FaultName::RackTooBig => "RackTooBig",
            FaultName::TilesShort => "TilesShort",
            FaultName::NoDeal => "NoDeal",
            FaultName::Record(why) => why.name(),
        }
    }

    /// The name with this text, if there is one.
    #[tactic(auto, using(crate::proofs::ReadBack::no_name))]
    pub fn of(text: &str) -> Option<FaultName>
        ensures { result ≡ named text.now }
    {
        match place_of(text) {
            Some(place) => Some(ALL[place]),
            None => None,
        }
    }
}

/// The place of the name with this text among all names.
fn place_of(text: &str) -> Option<usize>
    ensures place { result ≡ position (has_text text.now) all_names }
    ensures within { IfSome result (λ place. place < 36) }
{
    ALL.iter().position(|name| name.text() == text)
}
