//! Plays that are taken back or challenged, and their words.
ghost use Rattle.std.specs.Prelude.{◌≡◌, ◌≤◌, ◌*◌, true, Some, length, map, IfOk, IfSome, All, OnOk, option_map};
ghost use Rattle.std.specs.List.{range_with_len, list_any};
ghost use Rattle.game_turns.specs.Checks.{listed_in};
ghost use Rattle.ref_play.specs.Words.{items_of};
ghost use Rattle.game_turns.specs.declared.faults.RuleFault.TheVariants as fault;
ghost use Rattle.explain_facts.specs.Moments.{moment_of, IsRefusedFor};
ghost use Rattle.game_turns.specs.Unlisted.{letters_in};
ghost use Rattle.explain_facts.specs.Kinds.{is_withdrawal};
ghost use Rattle.explain_facts.specs.Challenges.{play_before, is_amount};
ghost use Rattle.gcg_read.specs.Players.{same_seat};
ghost use Rattle.explain_facts.specs.Facts.{IsTrue};
ghost use Rattle.explain_facts.specs.FaultFacts.{says, IsTallied};

use crate::facts::{ChallengeFact, Fact};
use crate::scenes::Scene;
use game_turns::SpelledWord;
use gcg_read::{Event, EventKind, same_seat};
use lex_list::WordList;
use ref_play::Word;
use std::alloc::{AllocError, Global};

/// The letters of words.
pub(crate) fn spelled(alloc: Global, words: &[Word]) -> Result<Vec<SpelledWord>, AllocError>
    ensures { IfOk result (λ kept. letters_in kept.items ≡ items_of words.now) }
{
    let mut kept = Vec::new(alloc);
    for word in words {
        let letters = Vec::from_slice(alloc, word.as_slice())?;
        kept.push(SpelledWord { letters })?;
    }
    Ok(kept)
}

/// The event directly before an event, if that is a play.
fn play_before<'a>(scene: &Scene<'a>) -> Option<&'a Event>
    ensures { option_map (λ e. e.now) result ≡ play_before scene.now.past.now }
{
    match scene.past.last() {
        Some(event) if matches!(event.kind, EventKind::Play { .. }) => Some(event),
        _ => None,
    }
}

/// That the words of the play before are all in the list, so that it cannot be taken back.
#[tactic(auto, using(crate::proofs::Because::is_withdrawal_of, crate::proofs::Because::words_listed))]
pub(crate) fn valid(alloc: Global, scene: &Scene<'_>) -> Result<Option<Fact>, AllocError>
    requires fails { IsRefusedFor (moment_of scene.now) fault.WithdrawnValid }
    ensures reported { IfOk result (λ fact. IfSome fact (IsTrue (moment_of scene.now))) }
    ensures named { IfOk result (λ fact. IsTallied (moment_of scene.now) → says fault.WithdrawnValid fact ≡ true) }
{
    let Some(event) = play_before(scene) else {
        return Ok(None);
    };
    let words = spelled(alloc, scene.machine.latest_words())?;
    if words.is_empty() {
        return Ok(None);
    }
    Ok(Some(Fact::Challenge(ChallengeFact::PlayStands {
        line: event.line,
        words,
    })))
}

/// That no word of the challenged play is in the list.
#[tactic(auto, using(crate::proofs::Because::is_challenge_of, crate::proofs::Because::words_unlisted))]
pub(crate) fn phony(alloc: Global, scene: &Scene<'_>) -> Result<Option<Fact>, AllocError>
    requires fails { IsRefusedFor (moment_of scene.now) fault.BonusOnPhony }
    ensures reported { IfOk result (λ fact. IfSome fact (IsTrue (moment_of scene.now))) }
    ensures named { IfOk result (λ fact. IsTallied (moment_of scene.now) → says fault.BonusOnPhony fact ≡ true) }
{
    let Some(play) = play_before(scene) else {
        return Ok(None);
    };
    let words = spelled(alloc, scene.machine.latest_words())?;
    if words.is_empty() {
        return Ok(None);
    }
    Ok(Some(Fact::Challenge(ChallengeFact::NoWordListed {
        line: play.line,
        words,
    })))
}

/// That the play before is the other player's, so that it cannot be taken back.
fn others_play(scene: &Scene<'_>, play: &Event) -> Option<Fact>
    requires before { play_before scene.now.past.now ≡ Some play.now }
    requires takes_back { is_withdrawal scene.now.event.now.kind ≡ true }
    requires fails { IsRefusedFor (moment_of scene.now) fault.NothingToWithdraw }
    ensures reported { IfSome result (IsTrue (moment_of scene.now)) }
    ensures named { IsTallied (moment_of scene.now) → says fault.NothingToWithdraw result ≡ true }
{
    if same_seat(play.player, scene.event.player) {
        return None;
    }
    Some(Fact::Challenge(ChallengeFact::OthersPlay {
        line: play.line,
        player: scene.event.player,
        other: play.player,
    }))
}

/// Whether an event takes a play back.
fn is_withdrawal(kind: &EventKind) -> bool
    ensures { result ≡ is_withdrawal kind.now }
{
    matches!(kind, EventKind::Withdraw)
}

/// Why there is no play to take back.
pub(crate) fn nothing_to_withdraw(scene: &Scene<'_>) -> Option<Fact>
    requires fails { IsRefusedFor (moment_of scene.now) fault.NothingToWithdraw }
    ensures reported { IfSome result (IsTrue (moment_of scene.now)) }
    ensures named { IsTallied (moment_of scene.now) → says fault.NothingToWithdraw result ≡ true }
{
    if !is_withdrawal(&scene.event.kind) {
        return None;
    }
    match play_before(scene) {
        Some(play) => others_play(scene, play),
        None => Some(Fact::Challenge(ChallengeFact::NothingToTakeBack {
            is_first: scene.past.is_empty(),
        })),
    }
}

/// Which bonus a challenge gives, or that there is no play to challenge.
#[tactic(auto, using(crate::proofs::Because::bonus_of_challenge))]
pub(crate) fn wrong_bonus(alloc: Global, scene: &Scene<'_>) -> Result<Option<Fact>, AllocError>
    requires fails { IsRefusedFor (moment_of scene.now) fault.BadBonus }
    ensures reported { IfOk result (λ fact. IfSome fact (IsTrue (moment_of scene.now))) }
    ensures named { IfOk result (λ fact. IsTallied (moment_of scene.now) → says fault.BadBonus fact ≡ true) }
{
    match play_before(scene) {
        Some(play) if same_seat(play.player, scene.event.player) => bonus(alloc, scene, play),
        Some(play) => Ok(Some(Fact::Challenge(ChallengeFact::OthersBonus {
            line: play.line,
            player: scene.event.player,
            other: play.player,
        }))),
        None => Ok(Some(Fact::Challenge(ChallengeFact::NothingToChallenge {
            is_first: scene.past.is_empty(),
        }))),
    }
}

/// The number of the words that are in the list.
fn listed_in(list: &WordList, words: &[Word]) -> usize
    ensures { result ≡ listed_in list.now (items_of words.now) }
{
    words
        .iter()
        .filter(|word| list.has(word.as_slice()))
        .count()
}

/// Whether a number of points is an amount.
fn is_amount(points: i32, amount: usize) -> bool
    ensures { result ≡ is_amount points amount }
{
    points >= 0 && points as u32 as usize == amount
}

/// Whether a number of points is one of some amounts.
fn is_among(amounts: &[usize], points: i32) -> bool
    ensures { result ≡ list_any (is_amount points) amounts.now }
{
    for amount in amounts {
        if is_amount(points, *amount) {
            return true;
        }
    }
    false
}

/// Which bonus is allowed for the challenge of a play.
#[tactic(auto, using(crate::proofs::Because::bonus_of_challenge))]
fn bonus(alloc: Global, scene: &Scene<'_>, play: &Event) -> Result<Option<Fact>, AllocError>
    requires before { play_before scene.now.past.now ≡ Some play.now }
    requires own { same_seat play.now.player scene.now.event.now.player ≡ true }
    requires fails { IsRefusedFor (moment_of scene.now) fault.BadBonus }
    ensures reported { IfOk result (λ fact. IfSome fact (IsTrue (moment_of scene.now))) }
    ensures named { IfOk result (λ fact. IsTallied (moment_of scene.now) → says fault.BadBonus fact ≡ true) }
{
    let _ = play;
    let listed = listed_in(scene.list, scene.machine.latest_words());
    let unit = scene.rules.challenge_unit as usize;
    let amounts = amounts_of(alloc, unit, listed)?;
    let written = scene.event.score.value();
    if amounts.is_empty() || is_among(amounts.as_slice(), written) {
        return Ok(None);
    }
    Ok(Some(Fact::Challenge(ChallengeFact::Bonus {
        unit,
        listed,
        amounts,
        written,
    })))
}

/// The amounts of a bonus for one word, for two, up to a number of words.
///
/// It fails if memory runs out, or if an amount overflows; there is no memory for that many words either.
fn amounts_of(alloc: Global, unit: usize, words: usize) -> Result<Vec<usize>, AllocError>
    ensures { IfOk result (λ amounts. amounts.items ≡ map (λ n. unit * n) (range_with_len 1 words)) }
{
    let mut amounts = Vec::new(alloc);
    let mut amount = 0usize;
    for k in 0..words {
        let _ = k;
        let Some(next) = amount.checked_add(unit) else {
            return Err(AllocError);
        };
        amount = next;
        amounts.push(amount)?;
    }
    Ok(amounts)
}
