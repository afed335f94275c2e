//! Tiles by kind, in numbers that may fall below 0 while the search runs.
use ref_tiles::{Counts, KINDS};

/// A number of tiles of each kind.
pub type Pile = [i32; KINDS];

/// The pile of some tiles.
pub fn pile_of(tiles: &Counts) -> Pile {
    let numbers = tiles.numbers();
    let mut pile = [0; KINDS];
    for kind in 0..KINDS {
        pile[kind] = i32::from(numbers[kind]);
    }
    pile
}

/// The tiles of a pile, if no number is below 0.
pub fn counts_of(pile: &Pile) -> Counts {
    let mut numbers = [0; KINDS];
    for kind in 0..KINDS {
        numbers[kind] = u8::try_from(pile[kind]).unwrap_or(0);
    }
    Counts::of(numbers)
}

/// The number of tiles of a kind.
pub fn number_of(pile: &Pile, kind: usize) -> i32 {
    match pile.get(kind) {
        Some(number) => *number,
        None => 0,
    }
}

/// The number of tiles.
pub fn sum_of(pile: &Pile) -> i32 {
    let mut sum = 0i32;
    for number in pile {
        sum = sum.wrapping_add(*number);
    }
    sum
}

/// Both piles together.
pub fn plus(pile: &Pile, more: &Pile) -> Pile {
    let mut sums = *pile;
    for kind in 0..KINDS {
        sums[kind] = sums[kind].wrapping_add(more[kind]);
    }
    sums
}

/// The first pile without the second.
pub fn minus(pile: &Pile, less: &Pile) -> Pile {
    let mut rest = *pile;
    for kind in 0..KINDS {
        rest[kind] = rest[kind].wrapping_sub(less[kind]);
    }
    rest
}

/// The kind of which there are most; if several tie, the first of them.
pub fn most_of(pile: &Pile) -> usize {
    let mut most = 0;
    for kind in 0..KINDS {
        if number_of(pile, most) < pile[kind] {
            most = kind;
        }
    }
    most
}
