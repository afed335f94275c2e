//! The laws of a sheet with notes. The function does nothing: its contract states the laws.
ghost use Rattle.gcg_notes.specs.Laws.{IsReadWithNotes, IsOnlyNoted};

/// A sheet with notes gives the same record, and except for the lines of the notes it is the sheet as it was.
pub fn law_of_notes()
    ensures reads { IsReadWithNotes }
    ensures rest { IsOnlyNoted }
{}
