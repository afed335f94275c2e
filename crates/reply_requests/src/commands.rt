//! The commands that a request may name, and what each of them has.
ghost use Rattle.std.specs.Prelude.{◌≡◌, true, false, IfNone, IfSome};
ghost use Rattle.reply_requests.specs.Asked.{name_of, keys_of, IsAmong, MayHave};
ghost use Rattle.reply_requests.specs.Reasons.{IsNoName};

/// A command.
#[derive(Clone, Copy, Debug, PartialEq, Eq)]
pub enum Command {
    /// To judge a game.
    Judge,
    /// To explain the verdict on a game, or one of its lines.
    Explain,
    /// To audit a sheet.
    Audit,
    /// To show a board.
    Board,
    /// To find the best plays.
    Top,
    /// To rule on words.
    Word,
    /// To say how many words the list has.
    Check,
    /// To write the normal form of a record.
    Tidy,
    /// To write the page of a game.
    Page,
    /// To find what repairs a record.
    Repair,
    /// To compare two sheets of one game.
    Compare,
    /// To write a sheet with notes.
    Annotate,
    /// To fill a draft.
    Fill,
    /// To say what the next line of a draft is about.
    Next,
}

impl Command {
    /// The command of this name.
    pub fn of_name(name: &str) -> Option<Command>
        ensures named { IfSome result (λ command. name_of command ≡ name.now) }
        ensures none { IfNone result (IsNoName name.now) }
    {
        match name {
            "judge" => Some(Command::Judge),
            "explain" => Some(Command::Explain),
            "audit" => Some(Command::Audit),
            "board" => Some(Command::Board),
            "top" => Some(Command::Top),
            "word" => Some(Command::Word),
            "check" => Some(Command::Check),
            "tidy" => Some(Command::Tidy),
            "page" => Some(Command::Page),
            "repair" => Some(Command::Repair),
            "compare" => Some(Command::Compare),
            "annotate" => Some(Command::Annotate),
            "fill" => Some(Command::Fill),
            "next" => Some(Command::Next),
            _ => None,
        }
    }

    /// Its name.
    pub fn name(self) -> &'static str
        ensures { result.now ≡ name_of self }
    {
        match self {
            Command::Judge => "judge",
            Command::Explain => "explain",
            Command::Audit => "audit",
            Command::Board => "board",
            Command::Top => "top",
            Command::Word => "word",
            Command::Check => "check",
            Command::Tidy => "tidy",
            Command::Page => "page",
            Command::Repair => "repair",
            Command::Compare => "compare",
            Command::Annotate => "annotate",
            Command::Fill => "fill",
            Command::Next => "next",
        }
    }

    /// Whether a request for it may have a member with this key besides `id` and `do`.
    fn has(self, key: &str) -> bool
        ensures key { result ≡ true → IsAmong (keys_of self) key.now }
        ensures none { result ≡ false → IsAmong (keys_of self) key.now → ⊥ }
    {
        match self {
            Command::Judge => matches!(key, "game" | "settle" | "best"),
            Command::Explain => matches!(key, "game" | "line" | "likely" | "draft"),
            Command::Audit => matches!(key, "game" | "corrected"),
            Command::Board => matches!(key, "game" | "line" | "draft"),
            Command::Top => matches!(key, "game" | "line" | "rack" | "number"),
            Command::Word => key == "words",
            Command::Check => false,
            Command::Tidy => key == "game",
            Command::Page => matches!(key, "game" | "likely"),
            Command::Repair => matches!(key, "game" | "number" | "repaired" | "draft"),
            Command::Compare => matches!(key, "first" | "second" | "merged" | "draft"),
            Command::Annotate => matches!(key, "game" | "number"),
            Command::Fill => matches!(key, "draft" | "filled"),
            Command::Next => key == "draft",
        }
    }

    /// Whether a request for it may have a member with this key.
    pub fn may_have(self, key: &str) -> bool
        ensures key { result ≡ true → MayHave self key.now }
        ensures none { result ≡ false → MayHave self key.now → ⊥ }
    {
        match key {
            "id" | "do" => true,
            _ => self.has(key),
        }
    }
}
