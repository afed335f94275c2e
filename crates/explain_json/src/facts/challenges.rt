//! Facts about a play that is taken back or challenged, as trees.
ghost use Rattle.std.specs.Prelude.{◌≡◌, IfOk};
ghost use Rattle.json_trees.specs.Trees.{view};
ghost use Rattle.explain_json.specs.Scores.{bonus_object, challenge_object, no_play_object, others_object, play_words_object};

use crate::fact_parts::{numbers_tree, words_tree};
use explain_facts::ChallengeFact;
use game_turns::SpelledWord;
use gcg_read::Seat;
use json_base::number_of;
use json_trees::{Tree, bool_tree, count_tree, integer_tree, name_tree, object, size_tree};
use std::alloc::{AllocError, Global};

/// A fact of this name about the words of the play on a line.
fn play_words(
    alloc: Global,
    name: &'static str,
    line: u32,
    words: &[SpelledWord],
) -> Result<Tree, AllocError>
    ensures { IfOk result (λ tree. view tree ≡ play_words_object name.now line words.now) }
{
    let words = words_tree(alloc, words)?;
    let fields = vec![in alloc;
        ("name", name_tree(name)),
        ("line", count_tree(line)),
        ("words", words),
    ]?;
    Ok(object(fields))
}

/// A fact of this name about the other player's play on a line.
fn others_fact(
    alloc: Global,
    name: &'static str,
    line: u32,
    player: Seat,
    other: Seat,
) -> Result<Tree, AllocError>
    ensures { IfOk result (λ tree. view tree ≡ others_object name.now line player other) }
{
    let fields = vec![in alloc;
        ("name", name_tree(name)),
        ("line", count_tree(line)),
        ("player", count_tree(number_of(player))),
        ("other", count_tree(number_of(other))),
    ]?;
    Ok(object(fields))
}

/// A fact of this name: that there is no play before the event.
fn no_play(alloc: Global, name: &'static str, is_first: bool) -> Result<Tree, AllocError>
    ensures { IfOk result (λ tree. view tree ≡ no_play_object name.now is_first) }
{
    let fields = vec![in alloc;
        ("name", name_tree(name)),
        ("first_event", bool_tree(is_first)),
    ]?;
    Ok(object(fields))
}

/// Which bonus a challenge gives.
fn bonus(
    alloc: Global,
    unit: usize,
    listed: usize,
    amounts: &[usize],
    written: i32,
) -> Result<Tree, AllocError>
    ensures { IfOk result (λ tree. view tree ≡ bonus_object unit listed amounts.now written) }
{
    let amounts = numbers_tree(alloc, amounts)?;
    let fields = vec![in alloc;
        ("name", name_tree("Bonus")),
        ("written", integer_tree(written)),
        ("limit", size_tree(unit)),
        ("listed", size_tree(listed)),
        ("amounts", amounts),
    ]?;
    Ok(object(fields))
}

/// A fact.
pub fn challenge_tree(alloc: Global, fact: &ChallengeFact) -> Result<Tree, AllocError>
    ensures { IfOk result (λ tree. view tree ≡ challenge_object fact.now) }
{
    match fact {
        ChallengeFact::PlayStands { line, words } => {
            play_words(alloc, "PlayStands", *line, words.as_slice())
        }
        ChallengeFact::NoWordListed { line, words } => {
            play_words(alloc, "NoWordListed", *line, words.as_slice())
        }
        ChallengeFact::OthersPlay {
            line,
            player,
            other,
        } => others_fact(alloc, "OthersPlay", *line, *player, *other),
        ChallengeFact::OthersBonus {
            line,
            player,
            other,
        } => others_fact(alloc, "OthersBonus", *line, *player, *other),
        ChallengeFact::NothingToTakeBack { is_first } => {
            no_play(alloc, "NothingToTakeBack", *is_first)
        }
        ChallengeFact::NothingToChallenge { is_first } => {
            no_play(alloc, "NothingToChallenge", *is_first)
        }
        ChallengeFact::Bonus {
            unit,
            listed,
            amounts,
            written,
        } => bonus(alloc, *unit, *listed, amounts.as_slice(), *written),
    }
}
