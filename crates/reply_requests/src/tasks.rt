//! What is asked of one game, before its text is there.
ghost use Rattle.std.specs.Prelude.{◌≡◌};
ghost use Rattle.reply_requests.specs.Tasks.{request_of};

use crate::requests::Request;

/// What is asked of one game: a request without the text of the record.
#[derive(Clone, Copy)]
pub enum Task<'a> {
    /// [`Request::Judge`].
    Judge {
        settle: bool,
        best: bool,
    },
    /// [`Request::Explain`].
    Explain {
        line: Option<u32>,
        likely: bool,
        lead: bool,
        draft: bool,
    },
    /// [`Request::Audit`].
    Audit {
        corrected: bool,
    },
    /// [`Request::Top`].
    Top {
        line: Option<u32>,
        rack: Option<&'a str>,
        number: Option<u32>,
    },
    /// [`Request::Page`].
    Page {
        likely: bool,
    },
    /// [`Request::Repair`].
    Repair {
        number: Option<u32>,
        repaired: bool,
        draft: bool,
    },
    /// [`Request::Annotate`].
    Annotate {
        number: Option<u32>,
    },
    /// [`Request::Fill`], of which the game is the draft.
    Fill {
        filled: bool,
    },
    /// [`Request::Next`], of which the game is the draft.
    Next,
}

impl<'a> Task<'a> {
    /// The request that asks this of a game.
    pub fn of_game(self, game: &'a [u8]) -> Request<'a>
        ensures { result ≡ request_of self.entry game.entry }
    {
        match self {
            Task::Judge { settle, best } => Request::Judge { game, settle, best },
            Task::Explain {
                line,
                likely,
                lead,
                draft,
            } => Request::Explain {
                game,
                line,
                likely,
                lead,
                draft,
            },
            Task::Audit { corrected } => Request::Audit { game, corrected },
            Task::Top { line, rack, number } => Request::Top {
                game,
                line,
                rack,
                number,
            },
            Task::Page { likely } => Request::Page { game, likely },
            Task::Repair {
                number,
                repaired,
                draft,
            } => Request::Repair {
                game,
                number,
                repaired,
                draft,
            },
            Task::Annotate { number } => Request::Annotate { game, number },
            Task::Fill { filled } => Request::Fill {
                draft: game,
                filled,
            },
            Task::Next => Request::Next { draft: game },
        }
    }
}
