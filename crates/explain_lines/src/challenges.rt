//! Plays that are taken back or challenged, and their words.

use crate::names::nick;
use crate::spelling::push_words;
use explain_facts::ChallengeFact;
use explain_parts::say;
use game_turns::SpelledWord;
use gcg_read::Players;
use std::alloc::AllocError;

/// Appends what the word list says of the play before, and the words of that play.
fn push_ruled(
    text: &mut Vec<u8>,
    front: &'static str,
    line: u32,
    rule: &'static str,
    words: &[SpelledWord],
) -> Result<(), AllocError> {
    say!(text; front, line, rule)?;
    push_words(text, words)?;
    say!(text; ".\nPerhaps the game was played with another word list.\n")
}

/// Appends that no play comes directly before the event, so that there is none to be taken back or challenged.
fn push_no_play(text: &mut Vec<u8>, is_first: bool, act: &'static str) -> Result<(), AllocError> {
    let why = if is_first {
        "This is the first event"
    } else {
        "The event before this one is not a play"
    };
    say!(text; why, ", so there is nothing to ", act, ".\n")
}

/// Appends the amounts of a bonus.
fn push_amounts(text: &mut Vec<u8>, amounts: &[usize]) -> Result<(), AllocError> {
    for (k, amount) in amounts.iter().enumerate() {
        let front = if k == 0 {
            ""
        } else if k.saturating_add(1) == amounts.len() {
            " or "
        } else {
            ", "
        };
        say!(text; front, *amount)?;
    }
    Ok(())
}

/// Appends how many words of a play are in the word list, which bonus a challenge gives, and which one is written.
fn push_bonus(
    text: &mut Vec<u8>,
    unit: usize,
    listed: usize,
    amounts: &[usize],
    written: i32,
) -> Result<(), AllocError> {
    let are = if listed == 1 {
        " word of the play is"
    } else {
        " words of the play are"
    };
    say!(text; "A bonus is ", unit, " points for each challenged word that is in the word list. ", listed, are, ", so the bonus can be ")?;
    push_amounts(text, amounts)?;
    say!(text; ", but ", written, " is written.\n")
}

/// Appends a fact about a play that is taken back or challenged.
pub fn push_challenge_fact(
    text: &mut Vec<u8>,
    players: &Players,
    fact: &ChallengeFact,
) -> Result<(), AllocError> {
    match fact {
        ChallengeFact::PlayStands { line, words } => {
            let rule = " stands, since each of its words is in the word list: ";
            push_ruled(text, "The play on line ", *line, rule, words.as_slice())
        }
        ChallengeFact::NoWordListed { line, words } => {
            let rule = " succeeds, since none of its words is in the word list: ";
            push_ruled(
                text,
                "The challenge of the play on line ",
                *line,
                rule,
                words.as_slice(),
            )
        }
        ChallengeFact::OthersPlay {
            line,
            player,
            other,
        } =>
            say!(text; "The play on line ", *line, " is ", nick(players, *other), "'s, so ", nick(players, *player), " cannot take it back.\n"),
        ChallengeFact::OthersBonus {
            line,
            player,
            other,
        } =>
            say!(text; "The play on line ", *line, " is ", nick(players, *other), "'s, so its bonus cannot go to ", nick(players, *player), ".\n"),
        ChallengeFact::NothingToTakeBack { is_first } => push_no_play(text, *is_first, "take back"),
        ChallengeFact::NothingToChallenge { is_first } => push_no_play(
            text,
            *is_first,
            "challenge",
        ),
        ChallengeFact::Bonus {
            unit,
            listed,
            amounts,
            written,
        } => push_bonus(text, *unit, *listed, amounts.as_slice(), *written),
    }
}
