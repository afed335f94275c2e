//! Laws of the normal form, stated as the contracts of calls that do nothing.

ghost use Rattle.gcg_write.specs.Rounds.{IsReadAgain, IsReadWithPoints, IsRescoredReadAgain};

/// The normal form of a record that was read is a record again. Reading it gives the same players and the same events, and the
/// numbers of the lines are then those of the normal form. This requires that the normal form has no more than 1,048,576 bytes,
/// which is the most that a record may have, and that no nickname and no full name ends in CR, which would be read as the end of
/// the line.
pub fn law_of_round_trip()
    ensures { IsReadAgain }
{}

/// The scores and totals of a record that was read are from -999,999 to 999,999. If a record that was read then gets other scores
/// and totals in that range, its normal form is a record again: reading it gives the same players and the same events, with the new
/// scores and totals, and the numbers of the lines are then those of the normal form. The requirements on the length and the names
/// are those of [`law_of_round_trip`].
pub fn law_of_other_points()
    ensures points { IsReadWithPoints }
    ensures again { IsRescoredReadAgain }
{}
