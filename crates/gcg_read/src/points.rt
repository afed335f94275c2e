//! Scores and totals, and reading them.
ghost use Rattle.std.specs.Prelude.{◌≡◌, ◌↔◌, IsSome, IfSome, pos, neg_ℤ, option_map};
ghost use Rattle.gcg_read.specs.Numerals.{IsPoints, numeral, points_of};

use std::marker::Model;
use text_lines::numeral;

/// A number of a record, from -999,999 to 999,999: the score of an event or a running total.
#[derive(Clone, Copy, Debug, PartialEq, Eq)]
pub struct Points {
    value: i32,
}

impl Model for Points {
    ghost use Rattle.std.specs.Prelude.{ℤ};
    ghost use Rattle.gcg_read.specs.Numerals.{IsPoints};

    ghost Value = { ℤ };

    ghost view = { λ p. p.value };

    ghost invariant = { λ p. IsPoints p.value };

    ghost inverse = { λ n. record { value = n } };
}

impl Points {
    /// The number; none if it is not from -999,999 to 999,999.
    pub fn new(value: i32) -> Option<Points>
        ensures there { IsSome result ↔ IsPoints value }
        ensures value { IfSome result (λ p. p ≡ value) }
    {
        if -999_999 <= value && value <= 999_999 {
            Some(Points { value })
        } else {
            None
        }
    }

    /// The number itself.
    pub fn value(&self) -> i32
        ensures value { result ≡ self.now }
        ensures in_range { IsPoints self.now }
    {
        self.value
    }

    /// The number that the bytes write, an optional sign and then 1 to 6 digits; none for any other bytes.
    pub fn of_bytes(bytes: &[u8]) -> Option<Points>
        ensures { result ≡ points_of bytes.now }
    {
        match bytes {
            [b'+', digits @ ..] => Points::above(digits),
            [b'-', digits @ ..] => Points::below(digits),
            digits => Points::above(digits),
        }
    }

    fn above(digits: &[u8]) -> Option<Points>
        ensures { result ≡ option_map pos (numeral 6 digits.now) }
    {
        let value = numeral(6, digits)?;
        Some(Points {
            value: value as i32,
        })
    }

    fn below(digits: &[u8]) -> Option<Points>
        ensures { result ≡ option_map (λ n. neg_ℤ (pos n)) (numeral 6 digits.now) }
    {
        let value = numeral(6, digits)?;
        Some(Points {
            value: -(value as i32),
        })
    }
}
