//! What a line says of the page of a game.
ghost use Rattle.std.specs.Prelude.{◌≡◌, option_map};

/// What a line says of the page of a game, if pages are made.
#[derive(Drop)]
pub enum PageField {
    /// There is none, as for a file that is not a record.
    Missing,
    /// The page is written, to the file of this name in the folder of the pages.
    Written(String),
    /// The file could not be opened or written.
    CannotWrite,
    /// Memory was refused.
    NoMemory,
}

impl PageField {
    ghost use Rattle.archive_lines.specs.Pages.{page_text};

    /// The field as a line has it: a name with `.html` at its end, why there is none, or nothing if there is nothing to be shown.
    pub fn text(&self) -> Option<&str>
        ensures { option_map (λ text. text.now) result ≡ page_text self.now }
    {
        match self {
            PageField::Missing => None,
            PageField::Written(name) => Some(name.as_str()),
            PageField::CannotWrite => Some("cannot write"),
            PageField::NoMemory => Some("no memory"),
        }
    }

    /// The name of the page, if it is written.
    pub fn name(&self) -> Option<&str> {
        match self {
            PageField::Written(name) => Some(name.as_str()),
            PageField::Missing | PageField::CannotWrite | PageField::NoMemory => None,
        }
    }
}
