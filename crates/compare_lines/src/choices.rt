//! Whether the merged record is written, and why not.

use compare_answers::{ComparisonAnswer, WhyNotMerged};
use explain_parts::say;
use std::alloc::AllocError;

/// Why the merged record is not written.
fn words_for(why: WhyNotMerged) -> &'static str {
    match why {
        WhyNotMerged::OtherChoice => "another choice of the lines would stand as well",
        WhyNotMerged::ChoiceRemainsOpen => "it is not known whether another choice is a game",
        WhyNotMerged::NoGame => "no choice of the lines is known to be a game",
        WhyNotMerged::OtherChange => "another change would make a game as well",
        WhyNotMerged::ChangeRemainsOpen => "it is not known whether another change makes a game",
        WhyNotMerged::NoNickname => "a player of the merged record has no nickname",
    }
}

/// Appends that the merged record is written, or why it is not.
///
/// It fails only if memory runs out.
pub fn push_choice(text: &mut Vec<u8>, answer: &ComparisonAnswer) -> Result<(), AllocError> {
    match &answer.merged {
        Ok(_) => say!(text; "written: the merged record\n"),
        Err(why) => say!(text; "not written: ", words_for(*why), "\n"),
    }
}
