//! The headline, and what conversion keeps. The functions do nothing: their contracts are the laws.
ghost use Rattle.engine.specs.Findings.{FindingsDecide};
ghost use Rattle.engine.specs.Converting.{StaysLexicon};
ghost use Rattle.engine.specs.Settling.{SettledLegalMeansLegal, SettledIllegalMeansNoGame, LegalStaysLegal};
ghost use Rattle.engine.specs.Headlines.{LegalMeansLegal, LegalMeansLegalByText, IllegalMeansNoGame, PlainGamesAreDecided};

use deal_cuts::law_of_fronts;
use lex_check::law_of_lexicons;

/// What the verdict legal of [`run`](crate::run) means, by the bytes that its inputs gave and the report that it wrote: the
/// lexicon file accepts exactly the rotated paths of the list's words; some deal of the tile set yields every rack of the
/// record; every play, exchange, withdrawal, bonus and running total is what the rules give; and on each turn with a full
/// rack no legal, valid play scores more than the printed best, which is itself legal and valid.
pub fn law_of_legal()
    ensures { LegalMeansLegal }
{
    law_of_lexicons();
}

/// What [`run_convert`](crate::run_convert) makes of the lexicon of a word list is the lexicon of that list.
pub fn law_of_conversions()
    ensures { StaysLexicon }
{}

/// What the verdict legal of [`run_ruled`](crate::run_ruled) means, by the bytes that its inputs gave and the report that it
/// wrote: the rules text states rules, and by these the game is legal, as [`law_of_legal`] says it.
pub fn law_of_ruled_games()
    ensures { LegalMeansLegalByText }
{
    law_of_lexicons();
}

/// What the verdict illegal of [`run`](crate::run) means: the record is not a game by the words of the list. Some event of it is not
/// allowed, or no deal of the tile set yields every rack.
pub fn law_of_illegal()
    ensures { IllegalMeansNoGame }
{}

/// For a record without an exchange the verdict of [`run`](crate::run) is legal exactly if it is a game, provided that the
/// words are a list, the file is its lexicon, and the text is a record.
pub fn law_of_plain_games()
    ensures { PlainGamesAreDecided }
{}

/// What the verdict legal of [`run_settled`](crate::run_settled) means: the same as that of [`run`](crate::run), whichever deal
/// was found.
pub fn law_of_settled_games()
    ensures { SettledLegalMeansLegal }
{
    law_of_lexicons();
}

/// What the verdict illegal of [`run_settled`](crate::run_settled) means: the record is not a game by the words of the list.
pub fn law_of_undealt_games()
    ensures { SettledIllegalMeansNoGame }
{
    law_of_fronts();
}

/// What [`run`](crate::run) finds legal, [`run_settled`](crate::run_settled) finds legal too: a search never loses the deal of the
/// rule of completion.
pub fn law_of_legal_games()
    ensures { LegalStaysLegal }
{
    law_of_fronts();
}

/// What an entry of an archive means if it says illegal: the record is not a game by the words of the list. For a record without
/// an exchange it never says unsettled; and for a record with an event that [`run`](crate::run) finds legal, the entry says legal
/// too.
#[tactic(auto, using(crate::proofs::FoundGames::findings_decide))]
pub fn law_of_findings()
    ensures { FindingsDecide }
{
    law_of_fronts();
}
