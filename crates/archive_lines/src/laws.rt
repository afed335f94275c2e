//! The law of a line. The function does nothing: its contract is the law.
ghost use Rattle.archive_lines.specs.Laws.{IsReadBack, HasSoMany, IsOneLine};

/// A reader that cuts a line at its tabs and undoes the escapes has the fields that the line says; these are 12, one more if pages are made, and two
/// more if repairs are looked for; and the LF at the end of the line is its only one.
#[tactic(auto, using(crate::proofs::ReadBack::read_again, crate::proofs::ReadBack::so_many, crate::proofs::ReadBack::no_feed))]
pub fn law_of_tab_lines()
    ensures read_back { IsReadBack }
    ensures many { HasSoMany }
    ensures one_line { IsOneLine }
{}
