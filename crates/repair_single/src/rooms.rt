//! How many numbers and words may still be wrong, if there is a number that they must stay below: a room. Without such a number there is no
//! limit.
ghost use Rattle.std.specs.Prelude.{◌≡◌, ◌↔◌, Some, IsTrue};
ghost use Rattle.repair_single.specs.Counting.{less};

/// How many more may be wrong if `many` are.
pub(crate) fn less(room: Option<usize>, many: usize) -> Option<usize>
    ensures { result ≡ less room many }
{
    match room {
        Some(room) => Some(room.saturating_sub(many)),
        None => None,
    }
}

/// Whether there is no room: as many are wrong as may be, or more.
pub(crate) fn is_full(room: Option<usize>) -> bool
    ensures { IsTrue result ↔ (room ≡ Some 0) }
{
    match room {
        Some(room) => room == 0,
        None => false,
    }
}
