//! Laws about repairs. Each function does nothing: its contract is the law.
ghost use Rattle.repair_single.specs.Laws.{NoneAfterStop, NoneAfterRacks, CommonestAreTried, CommonestAreAnswered, WholeIsRecord};

use deal_cuts::law_of_fronts;

/// After the event at which the correction of a record stops no change helps.
#[tactic(auto, using(crate::proofs::Stops::none_after_stop))]
pub fn law_of_stops()
    ensures { NoneAfterStop }
{}

/// If no racks fit the steps of a correction up to an event, no change after the next event helps.
#[tactic(auto, using(crate::proofs::RackStops::none_after_racks))]
pub fn law_of_rack_stops()
    ensures { NoneAfterRacks }
{
    law_of_fronts();
}

/// Each record that differs from the sheet in one letter of one play, in one square's shift of one play, in one line that is left out or in
/// two neighbouring lines that are exchanged is tried. If it is a game once its numbers are corrected, and the sheet is not, it is among the
/// first repairs, unless its deal is left open or enough others cost less.
pub fn law_of_commonest()
    ensures tried { CommonestAreTried }
    ensures answered { CommonestAreAnswered }
{}

/// A record is the draft in which nothing is missing: the same numbers stay wrong with a change, unless the change is that a line is missing.
#[tactic(auto, using(crate::proofs::Whole::whole_is_record))]
pub fn law_of_whole_repairs()
    ensures { WholeIsRecord }
{}
