//! Rules: tiles, points, premiums and parameters.
ghost use Rattle.std.specs.Prelude.{◌≡◌, ◌<◌, ◌≤◌, IsTrue};
ghost use Rattle.ref_tiles.specs.Limits.{is_tile_set, are_points, is_bonus, is_parameter};

use crate::counting::Counts;
use crate::kinds::Kind;
use crate::premiums::Premium;

/// The number of places of a line of the board: 15 rows of 15 columns.
pub const SIDE: usize = 15;

/// The number of squares of the board.
pub const SQUARES: usize = SIDE * SIDE;

/// The rules that vary between tournaments: the tile set, its points, the board and five numbers.
///
/// Only [`ENGLISH`](crate::ENGLISH) and [`Rules::checked`] make one: the limits are part of the type.
#[derive(Clone, Copy, Debug, PartialEq, Eq)]
pub struct Rules {
    /// The number of tiles of each kind, 14 to 200 together.
    pub counts: Counts,
    /// The points of A to Z, 0 to 99. A blank has none.
    pub points: [u8; 26],
    /// The premiums of the squares, row by row from 1A.
    pub premiums: [Premium; SQUARES],
    /// The bonus for a play of seven tiles, 0 to 999.
    pub bonus: u16,
    /// The number of tiles that the bag must have for an exchange, 1 to 99.
    pub exchange_min: u8,
    /// The number of successive turns without a play on the board after which the game may end, 1 to 99.
    pub zero_limit: u8,
    /// The points that an unsuccessful challenge gives for each word that it names, 1 to 99.
    pub challenge_unit: u8,
    /// The number of which each time penalty is a multiple, 1 to 99.
    pub time_step: u8,
    pub ghost tiles_in_limits: { IsTrue (is_tile_set counts) },
    pub ghost points_in_limits: { IsTrue (are_points points) },
    pub ghost bonus_in_limits: { IsTrue (is_bonus bonus) },
    pub ghost exchange_in_limits: { IsTrue (is_parameter exchange_min) },
    pub ghost zero_in_limits: { IsTrue (is_parameter zero_limit) },
    pub ghost challenge_in_limits: { IsTrue (is_parameter challenge_unit) },
    pub ghost time_in_limits: { IsTrue (is_parameter time_step) },
}

impl Rules {
    ghost use Rattle.ref_tiles.specs.Rulebook.{points_of, premium_at};

    /// The points of a kind of tile; a blank has none, whatever it stands for.
    pub fn points_of(&self, kind: Kind) -> u8
        ensures points { result ≡ points_of self.now kind }
        ensures limit { result ≤ 99 }
    {
        match kind {
            Kind::Letter(letter) => self.points[letter.index as usize],
            Kind::Blank => 0,
        }
    }

    /// The premium of the square with this number, 15 times the row and the column, both from 0.
    pub fn premium(&self, square: usize) -> Premium
        requires { square < 225 }
        ensures { result ≡ premium_at self.now square }
    {
        self.premiums[square]
    }
}
