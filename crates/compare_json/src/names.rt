//! Names of what is found.
ghost use Rattle.std.specs.Prelude.{◌≡◌};
ghost use Rattle.compare_json.specs.Names.{lines_name, other_name, own_rack_name, racks_name, side_name, verdict_name, why_name};

use compare_alignments::Side;
use compare_answers::{Agreement, LinesAnswer, OtherLine, OwnRack, RacksAnswer, WhyNotMerged};

/// The name of a sheet.
pub(crate) fn side_name(side: Side) -> &'static str
    ensures { result.now ≡ side_name side }
{
    match side {
        Side::First => "first",
        Side::Second => "second",
    }
}

/// The verdict on two sheets.
pub(crate) fn verdict_name(agreement: Agreement) -> &'static str
    ensures { result.now ≡ verdict_name agreement }
{
    match agreement {
        Agreement::Agree => "agree",
        Agreement::Differ => "differ",
        Agreement::Unsettled => "unsettled",
    }
}

/// The name of what is said of two lines.
pub(crate) fn lines_name(lines: LinesAnswer) -> &'static str
    ensures { result.now ≡ lines_name lines }
{
    match lines {
        LinesAnswer::Agree => "agree",
        LinesAnswer::OtherScores { .. } => "other scores",
        LinesAnswer::Differ | LinesAnswer::Taken { .. } => "differ",
    }
}

/// The name of what comes of the line that is not taken.
pub(crate) fn other_name(other: OtherLine) -> &'static str
    ensures { result.now ≡ other_name other }
{
    match other {
        OtherLine::NotVaried => "not varied",
        OtherLine::AsGood => "as good",
        OtherLine::Refused { .. } => "refused",
        OtherLine::NoDeal => "no deal",
        OtherLine::NoDealFound => "no deal found",
        OtherLine::OtherScore { .. } => "other score",
        OtherLine::MoreWrong => "more wrong",
    }
}

/// The name of what is said of two racks.
pub(crate) fn racks_name(racks: RacksAnswer) -> &'static str
    ensures { result.now ≡ racks_name racks }
{
    match racks {
        RacksAnswer::Same => "same",
        RacksAnswer::Differ => "differ",
        RacksAnswer::Own { .. } => "own",
        RacksAnswer::Other { .. } => "other",
    }
}

/// The name of why a player's own rack is not taken.
pub(crate) fn own_rack_name(why: OwnRack) -> &'static str
    ensures { result.now ≡ own_rack_name why }
{
    match why {
        OwnRack::NoGame => "no game",
        OwnRack::NoDeal => "no deal",
        OwnRack::NoDealFound => "no deal found",
        OwnRack::MoreWrong => "more wrong",
    }
}

/// The name of why there is no merged record.
pub(crate) fn why_name(why: WhyNotMerged) -> &'static str
    ensures { result.now ≡ why_name why }
{
    match why {
        WhyNotMerged::OtherChoice => "other choice",
        WhyNotMerged::ChoiceRemainsOpen => "choice left open",
        WhyNotMerged::NoGame => "no game",
        WhyNotMerged::OtherChange => "other change",
        WhyNotMerged::ChangeRemainsOpen => "change left open",
        WhyNotMerged::NoNickname => "no nickname",
    }
}
