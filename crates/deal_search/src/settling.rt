//! Whether racks fit the steps of a game.
ghost use Rattle.std.specs.Prelude.{◌≡◌, ◌+◌, ◌<◌, ◌≤◌, ◌==◌, true, length, vec_len, IfOk, OnOk, if◌then◌else◌};
ghost use Rattle.deal_cuts.specs.declared.earlier.Earlier.TheVariants as known;
ghost use Rattle.deal_search.specs.declared.settling.Settling.TheVariants as settling;
ghost use Rattle.deal_search.specs.Settling.{EndsDeals, IsKnownOf, IsSettled};

use crate::handing::deal_of;
use crate::mending::{Mended, mend};
use crate::nets::Net;
use deal_cuts::{Cut, Earlier, rules_out};
use deal_steps::{Deal, Step, fits};
use ref_tiles::Rules;
use std::alloc::{AllocError, Global};

/// What is known about the deals of a game.
#[derive(Debug, Drop)]
pub enum Settling {
    /// This deal fits.
    Dealt(Deal),
    /// No racks fit the steps for which the cut has places, so there is no deal for the game.
    NoDeal {
        /// The proof.
        cut: Cut,
        /// What is known about these steps without the last one.
        earlier: Earlier,
    },
    /// Neither was found within the budget.
    Unknown,
}

/// The number of visits of arcs that is enough for a number of steps, measured on games that were really dealt and on small ones
/// that were not.
fn budget_for(steps: usize) -> usize {
    let moves = steps.saturating_add(2);
    let square = moves.saturating_mul(moves);
    moves
        .saturating_mul(40_000)
        .saturating_add(square.saturating_mul(30))
}

/// Whether a cut has places before at most `count` steps, and shows that no racks fit them.
fn is_shown(rules: &Rules, steps: &[Step], cut: &Cut) -> bool
    ensures { result ≡ true → EndsDeals rules.now steps.now (vec_len cut.now.places) }
{
    let count = cut.places.len();
    0 < count && count <= steps.len() && rules_out(rules, steps, cut)
}

/// Seeks a deal, or a cut that shows that there is none.
fn seek(alloc: Global, rules: &Rules, steps: &[Step], budget: usize) -> Result<Settling, AllocError>
    ensures { IfOk result (IsSettled rules.now steps.now) }
{
    let mut net = Net::new(alloc, rules, steps)?;
    match mend(alloc, rules, steps, &mut net, budget)? {
        Mended::Whole => {
            let deal = deal_of(alloc, &net, steps)?;
            if fits(rules, steps, deal.as_slice()) {
                return Ok(Settling::Dealt(deal));
            }
            Ok(Settling::Unknown)
        }
        Mended::Cut(cut) if is_shown(rules, steps, &cut) => Ok(Settling::NoDeal {
            cut,
            earlier: Earlier::Unsettled,
        }),
        Mended::Cut(_) | Mended::Open => Ok(Settling::Unknown),
    }
}

/// What is known about the fronts of some steps: no racks fit as many first steps as the cut has places, and this is known about a
/// smaller number of them.
#[derive(Drop)]
struct Fronts {
    cut: Cut,
    low: usize,
    earlier: Earlier,
}

impl Fronts {
    /// Looks for a deal of a number of first steps, or for a cut.
    #[tactic(auto, using(crate::proofs::Fronts::ends_in_front, crate::proofs::Fronts::deals_in_front))]
    fn look(
        &mut self,
        alloc: Global,
        rules: &Rules,
        steps: &[Step],
        count: usize,
        budget: usize,
    ) -> Result<(), AllocError>
        requires within { count ≤ length steps.now }
        requires ends { EndsDeals rules.now steps.now (vec_len self.old.cut.places) }
        requires earlier { IsKnownOf rules.now steps.now self.old.low self.old.earlier }
        ensures ends { OnOk result (EndsDeals rules.now steps.now (vec_len self.new.cut.places)) }
        ensures earlier { OnOk result (IsKnownOf rules.now steps.now self.new.low self.new.earlier) }
    {
        let (front, _) = steps.split_at(count);
        match seek(alloc, rules, front, budget)? {
            Settling::NoDeal { cut, .. } => self.cut = cut,
            Settling::Dealt(_) => self.keep(count, Earlier::Dealt),
            Settling::Unknown => self.keep(count, Earlier::Unsettled),
        }
        Ok(())
    }

    /// Keeps what is known about a number of first steps.
    fn keep(&mut self, count: usize, earlier: Earlier)
        ensures { self.new ≡ record self.old { low = count; earlier = earlier } }
    {
        self.low = count;
        self.earlier = earlier;
    }

    /// The answer: if all but the last of the steps without a deal were tried, it says what is known about them.
    fn answer(self) -> Settling
        requires ends { 0 < vec_len self.cut.places }
        ensures { result ≡ settling.NoDeal self.cut (if vec_len self.cut.places == self.low + 1 then self.earlier else known.Unsettled) }
    {
        let earlier = if self.cut.places.len() - 1 == self.low {
            self.earlier
        } else {
            Earlier::Unsettled
        };
        Settling::NoDeal {
            cut: self.cut,
            earlier,
        }
    }
}

/// The first steps for which a cut is found, if one was found for all. They are found by binary search.
fn first_cut(
    alloc: Global,
    rules: &Rules,
    steps: &[Step],
    whole: Cut,
    budget: usize,
) -> Result<Settling, AllocError>
    requires { EndsDeals rules.now steps.now (vec_len whole.places) }
    ensures { IfOk result (IsSettled rules.now steps.now) }
{
    let mut fronts = Fronts {
        cut: whole,
        low: 0,
        earlier: Earlier::Dealt,
    };
    for _ in 0..usize::BITS {
        let shown = fronts.cut.places.len();
        if shown <= fronts.low.saturating_add(1) || shown > steps.len() {
            return Ok(fronts.answer());
        }
        let middle = fronts.low + (shown - fronts.low) / 2;
        fronts.look(alloc, rules, steps, middle, budget)?;
    }
    Ok(fronts.answer())
}

/// Settles whether racks fit the steps of a game, within a budget of visits for each search.
///
/// If they do not, the cut is for the first steps for which one is found, and the answer says whether racks fit the steps before
/// the last of them. It fails only if memory runs out.
pub fn settle_within(
    alloc: Global,
    rules: &Rules,
    steps: &[Step],
    budget: usize,
) -> Result<Settling, AllocError>
    ensures { IfOk result (IsSettled rules.now steps.now) }
{
    match seek(alloc, rules, steps, budget)? {
        Settling::NoDeal { cut, .. } => first_cut(alloc, rules, steps, cut, budget),
        Settling::Dealt(deal) => Ok(Settling::Dealt(deal)),
        Settling::Unknown => Ok(Settling::Unknown),
    }
}

/// Settles whether racks fit the steps of a game. It fails only if memory runs out.
pub fn settle(alloc: Global, rules: &Rules, steps: &[Step]) -> Result<Settling, AllocError>
    ensures { IfOk result (IsSettled rules.now steps.now) }
{
    settle_within(alloc, rules, steps, budget_for(steps.len()))
}
