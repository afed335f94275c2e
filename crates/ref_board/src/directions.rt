//! Across and down.
ghost use Rattle.std.specs.Prelude.{◌≡◌};

/// The direction of a play or of a run.
#[derive(Clone, Copy, Debug, PartialEq, Eq, PartialOrd, Ord, Hash)]
pub enum Dir {
    /// From left to right, in a row.
    Across,
    /// From top to bottom, in a column.
    Down,
}

impl Dir {
    ghost use Rattle.ref_board.specs.Lines.{other_dir};

    /// The other direction.
    pub fn other(&self) -> Dir
        ensures { result ≡ other_dir self.now }
    {
        match self {
            Dir::Across => Dir::Down,
            Dir::Down => Dir::Across,
        }
    }
}
