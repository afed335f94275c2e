//! Racks that would have to hold too much or too little, and kinds of tiles of which there are too few.
ghost use Rattle.std.specs.Prelude.{◌≡◌, ◌<◌, ◌++◌, [], ℕ, true, IfOk, IfSome, OnOk, Some, sum, take, reverse, slice_get, if◌then◌else◌};
ghost use Rattle.std.specs.List.{list_any};
ghost use Rattle.ref_tiles.specs.Counting.{no_tiles, count_of};
ghost use Rattle.deal_steps.specs.Knowing.{IsShownAt};
ghost use Rattle.deal_steps.specs.Steps.{needed, ends_epoch, size_of};
ghost use Rattle.explain_facts.specs.Racks.{holder_of, remaining_by, leaving, rack_line, rack_lines, together, remaining_after, leaving_by, laid_in_kind, shown_in_kind, kind_line, kind_lines};
ghost use Rattle.deal_steps.specs.declared.faults.DealBound.TheVariants as bound;
ghost use Rattle.explain_facts.specs.Facts.{IsTrueOfRacks};
ghost use Rattle.explain_facts.specs.FaultFacts.{IsFirstBoundAt, says_bound};

use crate::facts::{Fact, KindLine, Leaving, RackFact, RackLine};
use deal_steps::{Act, Known, Motion, Step, greater, shown_at, used_by, without};
use gcg_read::{Seat, same_seat};
use ref_tiles::{Counts, KINDS, Kind, Rules};
use std::alloc::{AllocError, Global};

/// The player whose rack a step shows: the one who moves, or the holder of a last rack.
pub(crate) fn holder_of(step: &Step) -> Seat
    ensures { result ≡ holder_of step.now }
{
    match &step.act {
        Act::Ends { holder, .. } => *holder,
        Act::Turns { .. } | Act::TakesBack(_) | Act::Rests => step.player,
    }
}

/// The tiles of a player that a step shows: those that its line states, and those that it uses.
fn tiles_of(step: &Step, player: Seat) -> Option<Counts>
    ensures { result ≡ needed player step.now }
{
    match &step.act {
        Act::Turns { shown, motion } if same_seat(step.player, player) => {
            Some(greater(shown, &used_by(motion)))
        }
        Act::Ends { holder, tiles } if same_seat(*holder, player) => Some(*tiles),
        _ => None,
    }
}

/// Whether a step is an exchange of unknown tiles by a player.
fn ends_epoch(step: &Step, player: Seat) -> bool
    ensures { result ≡ ends_epoch player step.now }
{
    match &step.act {
        Act::Turns { motion, .. } => {
            same_seat(step.player, player) && matches!(motion, Motion::ThrowsUnknown(_))
        }
        Act::TakesBack(_) | Act::Ends { .. } | Act::Rests => false,
    }
}

/// The tiles that leave a rack.
fn leaving(act: &Act) -> Leaving
    ensures { result ≡ leaving act.now }
{
    match act {
        Act::Turns { motion, .. } => leaving_by(motion),
        Act::TakesBack(_) | Act::Ends { .. } | Act::Rests => Leaving::Nothing,
    }
}

/// The tiles that a turn takes off a rack.
fn leaving_by(motion: &Motion) -> Leaving
    ensures { result ≡ leaving_by motion.now }
{
    match motion {
        Motion::Lays { used, .. } => Leaving::Plays(*used),
        Motion::Throws(tiles) => Leaving::Exchanges(*tiles),
        Motion::Keeps | Motion::Tries(_) | Motion::ThrowsUnknown(_) => Leaving::Nothing,
    }
}

// ---- a rack that is too big

/// Adds what a step shows of a player's rack.
fn push_rack_line(lines: &mut Vec<RackLine>, step: &Step, player: Seat) -> Result<(), AllocError>
    ensures { OnOk result (lines.new.items ≡ lines.old.items ++ rack_line player step.now) }
{
    let Some(shown) = tiles_of(step, player) else {
        return Ok(());
    };
    if shown.total() == 0 {
        return Ok(());
    }
    lines.push(RackLine {
        line: step.line,
        shown,
        leaves: leaving(&step.act),
    })?;
    Ok(())
}

/// Continues with a step: after an exchange of unknown tiles, nothing that was shown before counts any more.
fn next_rack_line(lines: &mut Vec<RackLine>, step: &Step, player: Seat) -> Result<(), AllocError>
    ensures { OnOk result (lines.new.items ≡ if ends_epoch player step.now then [] else lines.old.items ++ rack_line player step.now) }
{
    if ends_epoch(step, player) {
        lines.clear();
        return Ok(());
    }
    push_rack_line(lines, step, player)
}

/// What steps show of a player's rack, as far as it still counts after them.
fn rack_lines(alloc: Global, past: &[Step], player: Seat) -> Result<Vec<RackLine>, AllocError>
    ensures { IfOk result (λ lines. lines.items ≡ rack_lines player (reverse past.now)) }
{
    let mut lines = Vec::new(alloc);
    for step in past {
        next_rack_line(&mut lines, step, player)?;
    }
    Ok(lines)
}

/// The tiles that leave.
fn remaining_by(leaves: &Leaving) -> Counts
    ensures { result ≡ remaining_by leaves.now }
{
    match leaves {
        Leaving::Nothing => Counts::new(),
        Leaving::Plays(tiles) | Leaving::Exchanges(tiles) => *tiles,
    }
}

/// What lines leave on a rack after the last of them.
fn remaining_after(lines: &[RackLine]) -> Counts
    ensures { result ≡ remaining_after no_tiles lines.now }
{
    let mut known = Counts::new();
    for k in 0..lines.len() {
        let line = &lines[k];
        known = without(&greater(&known, &line.shown), &remaining_by(&line.leaves));
    }
    known
}

/// What a rack has to hold at a step, by what the lines before it leave and what its own line shows.
fn together(known: &Counts, step: &Step, player: Seat) -> Counts
    ensures { result ≡ together known.now (rack_line player step.now) }
{
    match tiles_of(step, player) {
        Some(shown) if shown.total() != 0 => greater(known, &shown),
        _ => *known,
    }
}

/// That a rack would have to hold more tiles at a step than its player has; none if the lines up to it do not show that.
///
/// The fact is true (`IsTrue`), and it is found if the step exceeds that bound.
pub fn rack_too_big(
    alloc: Global,
    rules: &Rules,
    steps: &[Step],
    place: usize,
) -> Result<Option<Fact>, AllocError>
    ensures reported { IfOk result (λ fact. IfSome fact (IsTrueOfRacks rules.now steps.now place)) }
    ensures found { IfOk result (λ fact. (line : ℕ) → IsFirstBoundAt rules.now steps.now place (bound.RackTooBig line) → says_bound (bound.RackTooBig line) fact ≡ true) }
{
    let Some(step) = steps.get(place) else {
        return Ok(None);
    };
    too_big(alloc, rules, steps, place, step)
}

/// That a rack would have to hold more tiles at a step than its player has.
#[tactic(auto, using(crate::proofs::RackLaws::within))]
fn too_big(
    alloc: Global,
    rules: &Rules,
    steps: &[Step],
    place: usize,
    step: &Step,
) -> Result<Option<Fact>, AllocError>
    requires there { slice_get steps.now place ≡ Some step.now }
    ensures reported { IfOk result (λ fact. IfSome fact (IsTrueOfRacks rules.now steps.now place)) }
    ensures found { IfOk result (λ fact. (line : ℕ) → IsFirstBoundAt rules.now steps.now place (bound.RackTooBig line) → says_bound (bound.RackTooBig line) fact ≡ true) }
{
    let _ = rules;
    let player = holder_of(step);
    let past = &steps[..place];
    let mut lines = rack_lines(alloc, past, player)?;
    let remaining = remaining_after(lines.as_slice());
    let needed = together(&remaining, step, player);
    let size = step.size_of(player);
    if needed.total() <= size {
        return Ok(None);
    }
    push_rack_line(&mut lines, step, player)?;
    Ok(Some(Fact::Rack(RackFact::TooBig {
        player,
        size,
        needed,
        lines,
    })))
}

// ---- tiles that are left over

/// The first kind of which some tiles have fewer than others.
fn first_fewer(tiles: &Counts, others: &Counts) -> Option<Kind>
    ensures { IfSome result (λ kind. count_of tiles.now kind < count_of others.now kind) }
{
    for number in 0..KINDS {
        let kind = Kind::at(number);
        if tiles.count(kind) < others.count(kind) {
            return Some(kind);
        }
    }
    None
}

/// The tiles that lines leave over, by what the step shows.
fn remaining_by_lines(
    rules: &Rules,
    steps: &[Step],
    place: usize,
    step: &Step,
    player: Seat,
    lines: &[RackLine],
    shown: &Counts,
) -> Option<Fact>
    requires there { slice_get steps.now place ≡ Some step.now }
    requires of { player ≡ holder_of step.now }
    requires lines { lines.now ≡ rack_lines player (reverse (take place steps.now)) }
    requires shows { needed player step.now ≡ Some shown.now }
    requires whole { sum shown.now ≡ size_of step.now player }
    ensures { IfSome result (IsTrueOfRacks rules.now steps.now place) }
{
    let _ = rules;
    let _ = steps;
    let _ = place;
    let latest = lines.last()?;
    let remaining = remaining_after(lines);
    let kind = first_fewer(shown, &remaining)?;
    Some(Fact::Rack(RackFact::LeftOver {
        player,
        before: latest.line,
        remaining,
        after: step.line,
        kind,
        has: shown.count(kind) as usize,
        had: remaining.count(kind) as usize,
    }))
}

/// That a step shows a whole rack, and fewer tiles of a kind than the lines before it leave there; none if it does not.
///
/// It fails only if memory runs out.
#[tactic(auto, using(crate::proofs::RackLaws::within))]
pub fn left_over(
    alloc: Global,
    rules: &Rules,
    steps: &[Step],
    place: usize,
) -> Result<Option<Fact>, AllocError>
    ensures { IfOk result (λ fact. IfSome fact (IsTrueOfRacks rules.now steps.now place)) }
{
    let Some(step) = steps.get(place) else {
        return Ok(None);
    };
    let player = holder_of(step);
    let Some(shown) = tiles_of(step, player) else {
        return Ok(None);
    };
    if shown.total() != step.size_of(player) {
        return Ok(None);
    }
    let past = &steps[..place];
    let lines = rack_lines(alloc, past, player)?;
    Ok(remaining_by_lines(rules, steps, place, step, player, lines.as_slice(), &shown))
}

// ---- tiles that are short

/// The number of tiles of a kind that a step puts on the board for good.
fn laid_in_kind(step: &Step, kind: Kind) -> usize
    ensures { result ≡ laid_in_kind kind step.now }
{
    match leaving(&step.act) {
        Leaving::Plays(tiles) => tiles.count(kind) as usize,
        Leaving::Nothing | Leaving::Exchanges(_) => 0,
    }
}

/// The number of tiles of a kind that a step shows on its holder's rack.
fn shown_in_kind(step: &Step, kind: Kind) -> usize
    ensures { result ≡ shown_in_kind kind step.now }
{
    match tiles_of(step, holder_of(step)) {
        None => 0,
        Some(tiles) => tiles.count(kind) as usize,
    }
}

/// Adds what a step shows of a kind, if that counts or is played.
fn push_kind_line(
    lines: &mut Vec<KindLine>,
    step: &Step,
    kind: Kind,
    counts: bool,
) -> Result<(), AllocError>
    ensures { OnOk result (lines.new.items ≡ lines.old.items ++ kind_line kind counts step.now) }
{
    let shown = shown_in_kind(step, kind);
    let played = laid_in_kind(step, kind);
    if shown == 0 || (!counts && played == 0) {
        return Ok(());
    }
    lines.push(KindLine {
        line: step.line,
        player: holder_of(step),
        shown,
        played,
    })?;
    Ok(())
}

/// Whether one of some steps is an exchange of unknown tiles by a player.
fn any_ends_epoch(steps: &[Step], player: Seat) -> bool
    ensures { result ≡ list_any (ends_epoch player) steps.now }
{
    for step in steps {
        if ends_epoch(step, player) {
            return true;
        }
    }
    false
}

/// The lines among some steps that show a kind of tile, as far as they still count after them.
fn kind_lines(alloc: Global, past: &[Step], kind: Kind) -> Result<Vec<KindLine>, AllocError>
    ensures { IfOk result (λ lines. lines.items ≡ kind_lines kind past.now) }
{
    let mut lines = Vec::new(alloc);
    for k in 0..past.len() {
        let step = &past[k];
        let hidden = any_ends_epoch(&past[k..], holder_of(step));
        push_kind_line(&mut lines, step, kind, !hidden)?;
    }
    Ok(lines)
}

/// That there would have to be more tiles of a kind at a step than the game has; none if the lines up to it do not show that.
///
/// The fact is true (`IsTrue`), and it is found if the step is the first that exceeds that bound.
pub fn tiles_short(
    alloc: Global,
    rules: &Rules,
    steps: &[Step],
    place: usize,
    kind: Kind,
) -> Result<Option<Fact>, AllocError>
    ensures reported { IfOk result (λ fact. IfSome fact (IsTrueOfRacks rules.now steps.now place)) }
    ensures found { IfOk result (λ fact. (line : ℕ) → IsFirstBoundAt rules.now steps.now place (bound.TilesShort line kind) → says_bound (bound.TilesShort line kind) fact ≡ true) }
{
    let Some(step) = steps.get(place) else {
        return Ok(None);
    };
    match shown_at(rules, steps, place) {
        None => Ok(None),
        Some(known) => short(alloc, rules, steps, place, step, kind, &known),
    }
}

/// That there would have to be more tiles of a kind at a step than the game has, by what is shown there.
#[tactic(auto, using(crate::proofs::RackLaws::within))]
fn short(
    alloc: Global,
    rules: &Rules,
    steps: &[Step],
    place: usize,
    step: &Step,
    kind: Kind,
    known: &Known,
) -> Result<Option<Fact>, AllocError>
    requires there { slice_get steps.now place ≡ Some step.now }
    requires shown { IsShownAt steps.now place known.now }
    ensures reported { IfOk result (λ fact. IfSome fact (IsTrueOfRacks rules.now steps.now place)) }
    ensures found { IfOk result (λ fact. (line : ℕ) → IsFirstBoundAt rules.now steps.now place (bound.TilesShort line kind) → says_bound (bound.TilesShort line kind) fact ≡ true) }
{
    let laid = known.laid.count(kind) as usize;
    let first = known.first.count(kind) as usize;
    let second = known.second.count(kind) as usize;
    let all = rules.counts.count(kind) as usize;
    let past = &steps[..place];
    let mut lines = kind_lines(alloc, past, kind)?;
    push_kind_line(&mut lines, step, kind, true)?;
    if laid + first + second <= all {
        return Ok(None);
    }
    Ok(Some(Fact::Rack(RackFact::TilesShort {
        kind,
        all,
        needed: laid + first + second,
        laid,
        first,
        second,
        lines,
    })))
}
