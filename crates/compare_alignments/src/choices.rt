//! Choices between two sheets: the items that are varied, and what a choice takes for each.
ghost use Rattle.std.specs.Prelude.{◌≡◌, ◌<◌, ◌≤◌, ◌+◌, length, if◌then◌else◌};
ghost use Rattle.compare_alignments.specs.Merging.{is_chosen, chosen_side, next_item, next_rack, keeper, items_of, rack_items, count_varied, count_choices, count_with_own_racks, count_other_racks};

use crate::pairs::{Pair, Side};
use gcg_read::Seat;

/// The maximum number of items that are varied.
pub const MOST_ITEMS: usize = 12;

/// Whether a choice takes the second line, or the rack that is not of the player's own sheet, for the item with a number.
pub fn is_chosen(choice: usize, number: usize) -> bool
    ensures { result ≡ is_chosen choice number }
{
    number < MOST_ITEMS && (choice >> number) % 2 == 1
}

/// Which side a choice takes for the item with a number.
pub fn chosen_side(choice: usize, number: usize) -> Side
    ensures { result ≡ chosen_side choice number }
{
    if is_chosen(choice, number) {
        Side::Second
    } else {
        Side::First
    }
}

/// The number of the item after a pair.
pub(crate) fn next_item(number: usize, pair: &Pair) -> usize
    requires { number < 18446744073709551615 }
    ensures { result ≡ next_item number pair.now }
{
    if pair.agrees { number } else { number + 1 }
}

/// The number of the next racks after a pair.
pub(crate) fn next_rack(rack: usize, pair: &Pair) -> usize
    requires { rack < 18446744073709551615 }
    ensures { result ≡ next_rack rack pair.now }
{
    if pair.other_racks { rack + 1 } else { rack }
}

/// The player whose sheet the first one counts as for the rack of a pair, if its racks have this number as an item.
pub(crate) fn keeper(owner: Seat, choice: usize, rack: usize, pair: &Pair) -> Seat
    ensures { result ≡ keeper owner choice rack pair.now }
{
    if pair.other_racks && is_chosen(choice, rack) {
        owner.other()
    } else {
        owner
    }
}

/// The number of pairs that differ.
pub fn count_items(pairs: &[Pair]) -> usize
    ensures many { result ≡ length (items_of pairs.now) }
    ensures few { result ≤ length pairs.now }
{
    let mut many = 0;
    for pair in pairs {
        many = next_item(many, pair);
    }
    many
}

/// The number of pairs with other racks.
pub fn count_racks(pairs: &[Pair]) -> usize
    ensures many { result ≡ length (rack_items pairs.now) }
    ensures few { result ≤ length pairs.now }
{
    let mut many = 0;
    for pair in pairs {
        many = next_rack(many, pair);
    }
    many
}

/// The number of items that are varied.
pub fn count_varied(pairs: &[Pair]) -> usize
    ensures { result ≡ count_varied pairs.now }
{
    let items = count_items(pairs) + count_racks(pairs);
    items.min(MOST_ITEMS)
}

/// The number of choices.
pub fn count_choices(pairs: &[Pair]) -> usize
    ensures { result ≡ count_choices pairs.now }
{
    1 << count_varied(pairs)
}

/// The number of the choices that take each rack from the player's own sheet. They come first.
pub fn count_with_own_racks(pairs: &[Pair]) -> usize
    ensures { result ≡ count_with_own_racks pairs.now }
{
    let items = count_items(pairs).min(MOST_ITEMS);
    1 << items
}

/// How many items are chosen, with one more.
fn more_chosen(many: usize, choice: usize, number: usize) -> usize
    requires { many < 18446744073709551615 }
    ensures { result ≡ (if is_chosen choice number then many + 1 else many) }
{
    if is_chosen(choice, number) {
        many + 1
    } else {
        many
    }
}

/// How many racks a choice takes that are not of the player's own sheet.
pub fn count_other_racks(choice: usize, pairs: &[Pair]) -> usize
    ensures many { result ≡ count_other_racks choice pairs.now }
{
    let items = count_items(pairs);
    let end = items + count_racks(pairs);
    let mut many = 0;
    for number in items..end {
        many = more_chosen(many, choice, number);
    }
    many
}
