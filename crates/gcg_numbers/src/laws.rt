//! The law of a sheet with other numbers. The function does nothing: its contract is the law.
ghost use Rattle.gcg_numbers.specs.Laws.{IsReadWithNumbers};

/// A sheet with the numbers of other events reads as the record with those events.
pub fn law_of_numbers()
    ensures { IsReadWithNumbers }
{}
