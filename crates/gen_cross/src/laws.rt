//! Laws of the definitions that the contracts of cross-sets cite. Each function does nothing: its contract states the laws.
ghost use Rattle.gen_cross.specs.Laws.{MasksGiveWords, SidesGiveScores};
ghost use Rattle.gen_cross.specs.Following.{RightAreSame, KeptAreSame};

/// What a cross-set says about any tile put on an empty square, a blank or not: the mask has the letter that it shows exactly when
/// the words that it makes across a play are listed; and if it makes a run of two tiles or more, these words score the side score
/// plus the tile's points times the letter premium, together times the word premium.
pub fn law_of_crosses()
    ensures words { MasksGiveWords }
    ensures score { SidesGiveScores }
{}

/// Cross-sets that are right for one board are equal. So if boards follow one another by puts, lifts and plays, each followed by
/// its call, cross-sets that are right for the first board become those that `Cross::scratch` computes for the last, in all 450
/// values.
pub fn law_of_renewing()
    ensures one { RightAreSame }
    ensures kept { KeptAreSame }
{}
