//! An event in its place, and what is said about it.
ghost use Rattle.std.specs.Prelude.{◌≡◌, ◌++◌, ◌∷◌, [], All, IfOk, IfSome, OnOk};
ghost use Rattle.explain_facts.specs.Moments.{moment_of};
ghost use Rattle.explain_facts.specs.Facts.{IsTrue};
ghost use Rattle.explain_facts.specs.FaultFacts.{listed};

use crate::facts::Fact;
use game_turns::Machine;
use gcg_read::Event;
use lex_list::WordList;
use ref_tiles::Rules;
use std::alloc::{AllocError, Global};

/// An event in its place, with the game before it.
#[derive(Clone, Copy)]
pub struct Scene<'a> {
    /// The rules.
    pub rules: &'a Rules,
    /// The word list.
    pub list: &'a WordList,
    /// The events before it.
    pub past: &'a [Event],
    /// The event.
    pub event: &'a Event,
    /// The events after it.
    pub later: &'a [Event],
    /// The game before it.
    pub machine: &'a Machine,
}

/// Adds a fact that is true of an event.
#[tactic(auto, using(crate::proofs::Reporting::one_more))]
pub(crate) fn report(facts: &mut Vec<Fact>, scene: &Scene<'_>, fact: Fact) -> Result<(), AllocError>
    requires reported { All (IsTrue (moment_of scene.now)) facts.old.items }
    requires holds { IsTrue (moment_of scene.now) fact }
    ensures reported { OnOk result (All (IsTrue (moment_of scene.now)) facts.new.items) }
    ensures added { OnOk result (facts.new.items ≡ facts.old.items ++ fact ∷ []) }
{
    let _ = scene;
    facts.push(fact)?;
    Ok(())
}

/// Adds a fact if there is one.
pub(crate) fn report_some(
    facts: &mut Vec<Fact>,
    scene: &Scene<'_>,
    fact: Option<Fact>,
) -> Result<(), AllocError>
    requires reported { All (IsTrue (moment_of scene.now)) facts.old.items }
    requires holds { IfSome fact (IsTrue (moment_of scene.now)) }
    ensures reported { OnOk result (All (IsTrue (moment_of scene.now)) facts.new.items) }
    ensures added { OnOk result (facts.new.items ≡ facts.old.items ++ listed fact) }
{
    match fact {
        None => Ok(()),
        Some(fact) => report(facts, scene, fact),
    }
}

/// The list of a fact, if there is one.
pub(crate) fn listed(
    alloc: Global,
    scene: &Scene<'_>,
    fact: Option<Fact>,
) -> Result<Vec<Fact>, AllocError>
    requires { IfSome fact (IsTrue (moment_of scene.now)) }
    ensures reported { IfOk result (λ facts. All (IsTrue (moment_of scene.now)) facts.items) }
    ensures are { IfOk result (λ facts. facts.items ≡ listed fact) }
{
    let mut facts = Vec::new(alloc);
    report_some(&mut facts, scene, fact)?;
    Ok(facts)
}

/// Adds facts that are true of an event.
#[tactic(auto, using(crate::proofs::Reporting::more_after))]
pub(crate) fn report_all(
    facts: &mut Vec<Fact>,
    scene: &Scene<'_>,
    more: &mut Vec<Fact>,
) -> Result<(), AllocError>
    requires reported { All (IsTrue (moment_of scene.now)) facts.old.items }
    requires hold { All (IsTrue (moment_of scene.now)) more.old.items }
    ensures reported { OnOk result (All (IsTrue (moment_of scene.now)) facts.new.items) }
    ensures added { OnOk result (facts.new.items ≡ facts.old.items ++ more.old.items) }
{
    let _ = scene;
    facts.append(more)?;
    Ok(())
}
