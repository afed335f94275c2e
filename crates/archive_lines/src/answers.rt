//! What a line answers about a game.
ghost use Rattle.std.specs.Prelude.{◌≡◌};
ghost use Rattle.archive_lines.specs.Answers.{answer_of, ending_in};

use game_case::Finding;

/// What a line answers about a game.
#[derive(Clone, Copy)]
pub enum Answer {
    /// The game is legal.
    Legal,
    /// The game is illegal.
    Illegal,
    /// Whether the game is legal was not settled.
    Unsettled,
    /// The file is not a record.
    BadRecord,
    /// The record has no event.
    NoGame,
    /// The file was not opened or not read to its end, or memory was refused.
    Unread,
}

impl Answer {
    ghost use Rattle.archive_lines.specs.Answers.{answer_text};

    /// The answer as a line has it.
    pub fn name(self) -> &'static str
        ensures { result.now ≡ answer_text self }
    {
        match self {
            Answer::Legal => "legal",
            Answer::Illegal => "illegal",
            Answer::Unsettled => "unsettled",
            Answer::BadRecord => "bad record",
            Answer::NoGame => "no game",
            Answer::Unread => "unread",
        }
    }

    /// The answer whose name this is.
    pub fn of_name(name: &str) -> Option<Answer> {
        match name {
            "legal" => Some(Answer::Legal),
            "illegal" => Some(Answer::Illegal),
            "unsettled" => Some(Answer::Unsettled),
            "bad record" => Some(Answer::BadRecord),
            "no game" => Some(Answer::NoGame),
            "unread" => Some(Answer::Unread),
            _ => None,
        }
    }
}

/// Whether a legal game has ended.
#[derive(Clone, Copy)]
pub enum Ending {
    /// It has.
    Complete,
    /// It has not.
    Unfinished,
}

impl Ending {
    ghost use Rattle.archive_lines.specs.Answers.{ending_text};

    /// The ending as a line has it.
    pub fn name(self) -> &'static str
        ensures { result.now ≡ ending_text self }
    {
        match self {
            Ending::Complete => "complete",
            Ending::Unfinished => "unfinished",
        }
    }
}

/// Why a game is unread.
#[derive(Clone, Copy)]
pub enum Unread {
    /// The file could not be opened.
    CannotOpen,
    /// It is a folder.
    IsFolder,
    /// The file could not be read to its end.
    ReadFailed,
    /// Memory was refused.
    NoMemory,
}

impl Unread {
    ghost use Rattle.archive_lines.specs.Answers.{unread_text};

    /// The reason as a line has it.
    pub fn name(self) -> &'static str
        ensures { result.now ≡ unread_text self }
    {
        match self {
            Unread::CannotOpen => "cannot open",
            Unread::IsFolder => "is a folder",
            Unread::ReadFailed => "read failed",
            Unread::NoMemory => "no memory",
        }
    }
}

/// The answer of a finding.
pub fn answer_of(finding: Finding) -> Answer
    ensures { result ≡ answer_of finding }
{
    match finding {
        Finding::NoGame => Answer::NoGame,
        Finding::Legal { .. } => Answer::Legal,
        Finding::Illegal { .. } => Answer::Illegal,
        Finding::Unsettled => Answer::Unsettled,
    }
}

/// Whether the game of a finding has ended, if it is legal.
pub fn ending_in(finding: Finding) -> Option<Ending>
    ensures { result ≡ ending_in finding }
{
    match finding {
        Finding::Legal { complete } => Some(if complete {
            Ending::Complete
        } else {
            Ending::Unfinished
        }),
        Finding::NoGame | Finding::Illegal { .. } | Finding::Unsettled => None,
    }
}
