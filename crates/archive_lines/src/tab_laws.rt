//! The law of a line. The function does nothing: its contract is the law.
ghost use Rattle.archive_lines.specs.TabLaws.{IsReadBack, IsOneLine};

/// A reader that cuts a line at its tabs and undoes the escapes gets back exactly the fields that were written; and no field ends the line.
pub fn law_of_lines()
    ensures read_back { IsReadBack }
    ensures one_line { IsOneLine }
{}
