//! Tiles of a rack as they are laid: letters, and blanks as letters.
ghost use Rattle.std.specs.Prelude.{◌≡◌, ◌<◌, slice_index, slice_set};
ghost use Rattle.gen_line.specs.Entries.{letter_of_entry, kind_of_entry};
ghost use Rattle.gen_line.specs.Model.{may, shows, less};

use crate::cells::Open;
use crate::takers::ENTRIES;
use lex_file::LABELS;
use ref_board::SIDE;
use ref_tiles::KINDS;

/// The kind of blanks.
const BLANK: u8 = KINDS as u8 - 1;

/// The tiles of a walk. [`crate::Taker`] says what an entry means.
#[derive(Clone, Copy)]
pub struct Tiles {
    /// The new tiles on the places of the line.
    pub fresh: [u8; SIDE],
    /// The number of tiles of each kind left on the rack: A to Z, and then blanks.
    pub rack: [u8; KINDS],
}

/// The letter that a new tile shows, 0 for A to 25 for Z.
#[inline(always)]
fn letter(entry: u8) -> u8
    requires { 0 < entry }
    ensures { result ≡ letter_of_entry entry }
{
    (entry - 1) / 2
}

/// The kind of a new tile.
#[inline(always)]
fn kind(entry: u8) -> u8
    requires { 0 < entry }
    ensures { result ≡ kind_of_entry entry }
{
    if (entry - 1) % 2 == 1 {
        BLANK
    } else {
        letter(entry)
    }
}

impl Tiles {
    /// Whether a square and the rack allow a new tile.
    #[inline(always)]
    pub fn allow(&self, free: &Open, entry: u8) -> bool
        requires low { 0 < entry }
        requires high { entry < ENTRIES }
        ensures { result ≡ may free.now self.now.rack entry }
    {
        self.rack[usize::from(kind(entry))] > 0 && free.mask[usize::from(letter(entry))]
    }

    /// Whether a square and the rack allow some new tile that shows the letter of a label.
    #[inline(always)]
    pub fn allow_label(&self, free: &Open, label: u8) -> bool
        requires low { 0 < label }
        requires high { label < LABELS }
        ensures { result ≡ shows free.now self.now.rack label }
    {
        let letter = usize::from(label) - 1;
        free.mask[letter] && (self.rack[letter] > 0 || self.rack[usize::from(BLANK)] > 0)
    }

    /// Puts a new tile on a place.
    #[inline(always)]
    pub fn put(&mut self, place: usize, entry: u8)
        requires place { place < SIDE }
        requires low { 0 < entry }
        requires high { entry < ENTRIES }
        requires left { 0 < slice_index self.old.rack (kind_of_entry entry) }
        ensures fresh { self.new.fresh ≡ slice_set self.old.fresh place entry }
        ensures rack { self.new.rack ≡ less self.old.rack entry }
    {
        self.fresh[place] = entry;
        self.rack[usize::from(kind(entry))] -= 1;
    }
}
