//! Deals of the tiles, and racks that no deal gives.

use crate::names::nick;
use explain_facts::{ClashLine, DealFact, ExchangeLine};
use explain_parts::say;
use gcg_read::Players;
use std::alloc::AllocError;

/// Appends which tiles and lines already cannot be together.
fn push_clash(
    text: &mut Vec<u8>,
    players: &Players,
    lines: &[ClashLine],
) -> Result<(), AllocError> {
    if lines.is_empty() {
        return say!(text; "Even if no rack were shown, no deal would give the plays and the exchanges.\n");
    }
    say!(text; "Even if only these tiles were shown, no deal would give them:\n")?;
    for line in lines {
        say!(text; "  line ", line.line, " shows ", &line.tiles, " on ", nick(players, line.player), "'s rack\n")?;
    }
    Ok(())
}

/// Appends where tiles were exchanged.
fn push_exchanges(
    text: &mut Vec<u8>,
    players: &Players,
    exchanges: &[ExchangeLine],
) -> Result<(), AllocError> {
    say!(text; "Compare the racks with the exchanges:\n")?;
    for exchange in exchanges {
        say!(text; "  line ", exchange.line, ": ", nick(players, exchange.player), " exchanges ", (exchange.tiles, "tile"), "\n")?;
    }
    Ok(())
}

/// Appends that no deal gives the racks, what already cannot be together, and where tiles were exchanged.
fn push_no_deal(
    text: &mut Vec<u8>,
    players: &Players,
    clash: Option<&[ClashLine]>,
    exchanges: &[ExchangeLine],
) -> Result<(), AllocError> {
    say!(text; "No deal of the tiles gives the players the racks that the lines up to this one show, though no single line shows too much.\n")?;
    if let Some(lines) = clash {
        push_clash(text, players, lines)?;
    }
    push_exchanges(text, players, exchanges)
}

/// Appends a fact about deals.
pub fn push_deal_fact(
    text: &mut Vec<u8>,
    players: &Players,
    fact: &DealFact,
) -> Result<(), AllocError> {
    match fact {
        DealFact::DealtTo { line } =>
            say!(text; "Up to line ", *line, " a deal of the tiles gives the players every rack that is shown.\n"),
        DealFact::NoDeal { clash, exchanges } => {
            let lines = clash.as_ref().map(|lines| lines.as_slice());
            push_no_deal(text, players, lines, exchanges.as_slice())
        }
    }
}
