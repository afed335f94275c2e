//! What happened in an event, as records have it.
ghost use Rattle.std.specs.Prelude.{◌≡◌, ◌++◌, ◌∷◌, [], OnOk, decimal};
ghost use Rattle.gcg_write.specs.Fields.{kind_text, tiles_text};

use gcg_read::EventKind;
use gcg_write::{play_text, tiles_text};
use ref_tiles::Counts;
use std::alloc::AllocError;
use text_decimals::push_number;

/// Appends what happened: position and word of a play, or a code.
#[tactic(auto, unfolding(gcg_write::specs::Fields::kind_text))]
pub fn push_kind(text: &mut Vec<u8>, kind: &EventKind) -> Result<(), AllocError>
    ensures { OnOk result (text.new.items ≡ text.old.items ++ kind_text kind.now) }
{
    match kind {
        EventKind::Play { at, dir, word } => play_text(*at, *dir, word.as_slice(), text),
        EventKind::Pass => text.extend_from_slice(b"-"),
        EventKind::Exchange(tiles) => push_exchange(text, tiles),
        EventKind::ExchangeUnknown(number) => push_unknown(text, *number),
        EventKind::Withdraw => text.extend_from_slice(b"--"),
        EventKind::Challenge => text.extend_from_slice(b"(challenge)"),
        EventKind::Time => text.extend_from_slice(b"(time)"),
        EventKind::LastRack(tiles) => push_last_rack(text, tiles),
    }
}

/// Appends the code of an exchange of known tiles.
fn push_exchange(text: &mut Vec<u8>, tiles: &Counts) -> Result<(), AllocError>
    ensures { OnOk result (text.new.items ≡ text.old.items ++ 45 ∷ tiles_text tiles.now) }
{
    text.push(b'-')?;
    tiles_text(tiles, text)
}

/// Appends the code of an exchange of `number` unknown tiles.
fn push_unknown(text: &mut Vec<u8>, number: u8) -> Result<(), AllocError>
    ensures { OnOk result (text.new.items ≡ text.old.items ++ 45 ∷ decimal number) }
{
    text.push(b'-')?;
    push_number(text, number)
}

/// Appends the code of a last rack, its tiles in round brackets.
fn push_last_rack(text: &mut Vec<u8>, tiles: &Counts) -> Result<(), AllocError>
    ensures { OnOk result (text.new.items ≡ text.old.items ++ (40 ∷ tiles_text tiles.now ++ 41 ∷ [])) }
{
    text.push(b'(')?;
    tiles_text(tiles, text)?;
    text.extend_from_slice(b")")
}
