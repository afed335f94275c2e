//! What is at a place of a list.
ghost use Rattle.std.specs.Prelude.{◌≡◌, slice_get};
ghost use Rattle.std.specs.Option.{option_copied};

/// What is at a place of a list, counted from 0, if it has such a place.
#[tactic(auto, using(crate::proofs::LookUps::looked_up))]
pub fn item_at<T>(items: &[T], place: usize) -> Option<&T>
    ensures { option_copied result ≡ slice_get items.now place }
{
    items.get(place)
}
