//! Successive places of a line.
ghost use Rattle.std.specs.Prelude.{◌<◌, ◌≤◌};
ghost use Rattle.ref_tiles.specs.declared.rulebook.TheConstants.{SIDE};

use ref_board::Dir;

/// Successive places of a line, from `first` up to just before `end`.
#[derive(Clone, Copy)]
pub struct Stretch {
    pub dir: Dir,
    pub line: usize,
    pub first: usize,
    pub end: usize,
    pub ghost on_board: { line < SIDE },
    pub ghost order: { first ≤ end },
    pub ghost inside: { end ≤ SIDE },
}
