//! Laws of drafts. The function does nothing: its contract is the law.
ghost use Rattle.gcg_drafts.specs.Laws.{OwnDraft, LacksAreReported, OneReading};

/// Every record is a draft that means itself: nothing is put into it, and it lacks nothing. No line of a draft has two readings: whatever numbers
/// make its fields those of an event, there are as many of them, [`lacks_in`](crate::lacks_in) says how many, and the event is the same but for its
/// numbers.
#[tactic(auto, using(crate::proofs::Own::own_draft, crate::proofs::Reported::lacks_are_reported, crate::proofs::Readings::one_reading))]
pub fn law_of_drafts()
    ensures own { OwnDraft }
    ensures reported { LacksAreReported }
    ensures one { OneReading }
{}
