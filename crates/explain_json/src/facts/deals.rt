//! Facts about deals, as trees.
ghost use Rattle.std.specs.Prelude.{◌≡◌, IfOk, List, option_map};
ghost use Rattle.json_trees.specs.Trees.{view};
ghost use Rattle.explain_json.specs.Lines.{clash_value};
ghost use Rattle.explain_json.specs.Racks.{deal_object, no_deal_object};

use crate::fact_lines::{clash_lines, exchange_lines};
use crate::facts::rulings::line_fact;
use explain_facts::{ClashLine, DealFact, ExchangeLine};
use json_trees::{Tree, name_tree, object, with_field_if};
use std::alloc::{AllocError, Global};

/// The tiles that cannot be together, if a proof was found.
fn clash_tree(alloc: Global, clash: &Option<Vec<ClashLine>>) -> Result<Option<Tree>, AllocError>
    ensures { IfOk result (λ tree. option_map view tree ≡ option_map clash_value (option_map (λ lines. lines.items) clash.now)) }
{
    match clash {
        Some(lines) => Ok(Some(clash_lines(alloc, lines.as_slice())?)),
        None => Ok(None),
    }
}

/// That no deal gives the racks.
fn no_deal(
    alloc: Global,
    clash: &Option<Vec<ClashLine>>,
    exchanges: &[ExchangeLine],
) -> Result<Tree, AllocError>
    ensures { IfOk result (λ tree. view tree ≡ no_deal_object (option_map (λ lines. lines.items) clash.now) exchanges.now) }
{
    let clash = clash_tree(alloc, clash)?;
    let exchanges = exchange_lines(alloc, exchanges)?;
    let fields = vec![in alloc; ("name", name_tree("NoDeal"))]?;
    let fields = with_field_if(fields, "clash", clash)?;
    let fields = with_field_if(fields, "lines", Some(exchanges))?;
    Ok(object(fields))
}

/// A fact.
pub fn deal_tree(alloc: Global, fact: &DealFact) -> Result<Tree, AllocError>
    ensures { IfOk result (λ tree. view tree ≡ deal_object fact.now) }
{
    match fact {
        DealFact::DealtTo { line } => line_fact(alloc, "DealtTo", *line),
        DealFact::NoDeal { clash, exchanges } => no_deal(alloc, clash, exchanges.as_slice()),
    }
}
