//! Which tiles and lines cannot be together if no deal gives the racks.
//!
//! The search finds a cut, which shows that there is no deal. What it does not count is left out of what the lines show, and then
//! each line that can be left out with the same cut. How this is chosen is not trusted: the cut is checked once more for what is
//! left.
ghost use Rattle.std.specs.Prelude.{◌≡◌, ◌++◌, ◌+◌, ◌<◌, take, length, IfOk, IfSome, OnOk};
ghost use Rattle.ref_tiles.specs.Counting.{IsContainedIn};
ghost use Rattle.deal_cuts.specs.Cutting.{HasNoDeal};
ghost use Rattle.explain_facts.specs.Deals.{reported_by, ReportsPart, IsPartOf, ArePartsOf, clash_line, clash_lines, IsClash};

use crate::facts::ClashLine;
use crate::racks::holder_of;
use deal_cuts::{Cut, Places, rules_out};
use deal_search::{Settling, settle};
use deal_steps::{Act, Step, without};
use gcg_read::Seat;
use ref_tiles::{Counts, KINDS, Rules};
use std::alloc::{AllocError, Global};

// ---- what lines say about racks

/// What a line says about a rack.
fn reported_by(act: &Act) -> Counts
    ensures { result ≡ reported_by act.now }
{
    match act {
        Act::Turns { shown, .. } => *shown,
        Act::Ends { tiles, .. } => *tiles,
        Act::TakesBack(_) | Act::Rests => Counts::new(),
    }
}

/// Adds what a step says about a rack, if it says something.
fn push_clash_line(lines: &mut Vec<ClashLine>, step: &Step) -> Result<(), AllocError>
    ensures { OnOk result (lines.new.items ≡ lines.old.items ++ clash_line step.now) }
{
    let tiles = reported_by(&step.act);
    if tiles.total() == 0 {
        return Ok(());
    }
    lines.push(ClashLine {
        line: step.line,
        player: holder_of(step),
        tiles,
    })?;
    Ok(())
}

/// What steps say about racks.
fn clash_lines(alloc: Global, steps: &[Step]) -> Result<Vec<ClashLine>, AllocError>
    ensures { IfOk result (λ lines. lines.items ≡ clash_lines steps.now) }
{
    let mut lines = Vec::new(alloc);
    for step in steps {
        push_clash_line(&mut lines, step)?;
    }
    Ok(lines)
}

// ---- less of it

/// The greatest number of tiles of each kind except the chosen ones, or of only these.
fn all_but(kinds: &[bool; KINDS], chosen: bool) -> Counts {
    let mut numbers = [0; KINDS];
    for kind in 0..KINDS {
        if kinds[kind] != chosen {
            numbers[kind] = u8::MAX;
        }
    }
    Counts::of(numbers)
}

/// An act that shows only those tiles of a turn that are not among some others.
#[tactic(auto, using(crate::proofs::ClashLaws::turn_without))]
fn act_without(act: &Act, others: &Counts) -> Act
    ensures { ReportsPart result act.now }
{
    match act {
        Act::Turns { shown, motion } => Act::Turns {
            shown: without(shown, others),
            motion: *motion,
        },
        Act::TakesBack(_) | Act::Ends { .. } | Act::Rests => *act,
    }
}

/// An act that says nothing about a rack.
fn silent(act: &Act) -> Act
    ensures { ReportsPart result act.now }
{
    match act {
        Act::Turns { motion, .. } => Act::Turns {
            shown: Counts::new(),
            motion: *motion,
        },
        Act::Ends { .. } => Act::Rests,
        Act::TakesBack(_) | Act::Rests => *act,
    }
}

/// Whether a player's rack is one of some places.
fn is_among(places: &Places, player: Seat) -> bool {
    match player {
        Seat::First => places.first,
        Seat::Second => places.second,
    }
}

/// The part of what a step shows that counts for a cut: the tiles of its kinds, and of the others if the rack is one of its places.
fn counted_by(cut: &Cut, places: &Places, step: &Step) -> Act
    ensures { ReportsPart result step.now.act }
{
    let chosen = !is_among(places, holder_of(step));
    act_without(&step.act, &all_but(&cut.kinds, chosen))
}

/// What the step at a place says if its line is kept: what counts for a cut. Otherwise it says nothing.
fn act_reported(step: &Step, cut: &Cut, place: usize, kept: &[bool]) -> Act
    ensures { ReportsPart result step.now.act }
{
    match (cut.places.get(place), kept.get(place)) {
        (Some(places), Some(true)) => counted_by(cut, places, step),
        _ => silent(&step.act),
    }
}

/// A step that says something else.
fn reporting(step: &Step, act: &Act) -> Step
    requires { ReportsPart act.now step.now.act }
    ensures { IsPartOf result step.now }
{
    Step { act: *act, ..*step }
}

/// The steps with what counts for a cut if their lines are kept, and with nothing otherwise.
fn reported(
    alloc: Global,
    steps: &[Step],
    cut: &Cut,
    kept: &[bool],
) -> Result<Vec<Step>, AllocError>
    ensures { IfOk result (λ less. ArePartsOf less.items steps.now) }
{
    let mut less = Vec::new(alloc);
    for place in 0..steps.len() {
        let step = &steps[place];
        let act = act_reported(step, cut, place, kept);
        less.push(reporting(step, &act))?;
    }
    Ok(less)
}

// ---- which lines are kept

/// The proof by a cut that no racks fit some steps.
#[derive(Clone, Copy)]
struct Proof<'a> {
    rules: &'a Rules,
    steps: &'a [Step],
    cut: &'a Cut,
}

/// Keeps lines from one place to before another, or leaves them out.
fn mark(kept: &mut Vec<bool>, from: usize, to: usize, keeps: bool) {
    for place in from..to {
        if let Some(line) = kept.get_mut(place) {
            *line = keeps;
        }
    }
}

impl Proof<'_> {
    /// Leaves out lines from one place to before another, if the cut still shows that there is no deal.
    fn leave_out(
        &self,
        alloc: Global,
        kept: &mut Vec<bool>,
        from: usize,
        to: usize,
    ) -> Result<(), AllocError> {
        mark(kept, from, to, false);
        let less = reported(alloc, self.steps, self.cut, kept.as_slice())?;
        if !rules_out(self.rules, less.as_slice(), self.cut) {
            mark(kept, from, to, true);
        }
        Ok(())
    }

    /// Leaves out what it can, a number of lines at a time.
    fn leave_out_by(
        &self,
        alloc: Global,
        kept: &mut Vec<bool>,
        many: usize,
    ) -> Result<(), AllocError> {
        for place in 0..self.steps.len() {
            let begins = place.checked_rem(many) == Some(0);
            if begins && matches!(kept.get(place), Some(true)) {
                self.leave_out(alloc, kept, place, place.saturating_add(many))?;
            }
        }
        Ok(())
    }

    /// The lines that are kept: many are left out at once first, then few, then one by one.
    fn kept_lines(&self, alloc: Global) -> Result<Vec<bool>, AllocError> {
        let mut kept = Vec::new(alloc);
        for _ in self.steps {
            kept.push(true)?;
        }
        self.leave_out_by(alloc, &mut kept, 64)?;
        self.leave_out_by(alloc, &mut kept, 8)?;
        self.leave_out_by(alloc, &mut kept, 1)?;
        Ok(kept)
    }
}

/// What already cannot be together among what steps show, by a cut; none if the cut does not show it.
fn clash_by(
    alloc: Global,
    rules: &Rules,
    steps: &[Step],
    cut: &Cut,
) -> Result<Option<Vec<ClashLine>>, AllocError>
    ensures { IfOk result (λ clash. IfSome clash (λ lines. IsClash rules.now steps.now lines.items)) }
{
    let proof = Proof { rules, steps, cut };
    let kept = proof.kept_lines(alloc)?;
    let less = reported(alloc, steps, cut, kept.as_slice())?;
    if !rules_out(rules, less.as_slice(), cut) {
        return Ok(None);
    }
    let lines = clash_lines(alloc, less.as_slice())?;
    Ok(Some(lines))
}

/// What already cannot be together among what some steps show, if no deal gives it.
#[derive(Drop)]
pub(crate) struct Clash {
    /// The lines, and the tiles that they show; none if the cut does not show that these cannot be together.
    pub lines: Option<Vec<ClashLine>>,
}

/// What already cannot be together among what steps show, by a cut; none if the cut does not show that there is no deal.
fn clash_in(
    alloc: Global,
    rules: &Rules,
    steps: &[Step],
    cut: &Cut,
) -> Result<Option<Clash>, AllocError>
    ensures none { IfOk result (λ clash. IfSome clash (λ c. HasNoDeal rules.now steps.now)) }
    ensures clash { IfOk result (λ clash. IfSome clash (λ c. IfSome c.lines (λ lines. IsClash rules.now steps.now lines.items))) }
{
    if !rules_out(rules, steps, cut) {
        return Ok(None);
    }
    let lines = clash_by(alloc, rules, steps, cut)?;
    Ok(Some(Clash { lines }))
}

/// What already cannot be together among what the steps up to and including a place show; none if no proof is found that no deal gives
/// it.
pub(crate) fn clash_at(
    alloc: Global,
    rules: &Rules,
    steps: &[Step],
    place: usize,
) -> Result<Option<Clash>, AllocError>
    requires { place < length steps.now }
    ensures none { IfOk result (λ clash. IfSome clash (λ c. HasNoDeal rules.now (take (place + 1) steps.now))) }
    ensures clash { IfOk result (λ clash. IfSome clash (λ c. IfSome c.lines (λ lines. IsClash rules.now (take (place + 1) steps.now) lines.items))) }
{
    match settle(alloc, rules, steps)? {
        Settling::NoDeal { cut, .. } => clash_in(alloc, rules, &steps[..place + 1], &cut),
        Settling::Dealt(_) | Settling::Unknown => Ok(None),
    }
}
