//! The codes of events that are not plays.
ghost use Rattle.std.specs.Prelude.{◌≡◌};
ghost use Rattle.gcg_read.specs.Codes.{unknown_of, dashed_of, bracketed_of, code_of};

use crate::events::EventKind;
use crate::racks::{MAX_TILES, read_rack};
use text_lines::numeral;

/// What the code of an event that is not a play says; none for bytes that are not a code.
///
/// A `-` is a pass and `--` a withdrawal. A `-` followed by tiles, or by one digit from 1 to 7, is an exchange of these tiles or of
/// that number of tiles. `(challenge)` is a bonus, `(time)` a penalty, and tiles in round brackets are a last rack.
pub fn read_code(code: &[u8]) -> Option<EventKind>
    ensures { result ≡ code_of code.now }
{
    match code {
        [b'-', rest @ ..] => read_dashed(rest),
        [b'(', inner @ .., b')'] => read_bracketed(inner),
        _ => None,
    }
}

/// What follows the `-` of a code.
#[tactic(auto, unfolding(crate::specs::Codes::dashed_of))]
fn read_dashed(bytes: &[u8]) -> Option<EventKind>
    ensures { result ≡ dashed_of bytes.now }
{
    if let Some(tiles) = read_rack(bytes) {
        return Some(EventKind::Exchange(tiles));
    }
    if let Some(number) = read_number(bytes) {
        return Some(EventKind::ExchangeUnknown(number));
    }
    match bytes {
        [] => Some(EventKind::Pass),
        [b'-'] => Some(EventKind::Withdraw),
        _ => None,
    }
}

/// What is in the round brackets of a code.
#[tactic(auto, unfolding(crate::specs::Codes::bracketed_of))]
fn read_bracketed(bytes: &[u8]) -> Option<EventKind>
    ensures { result ≡ bracketed_of bytes.now }
{
    if let Some(tiles) = read_rack(bytes) {
        return Some(EventKind::LastRack(tiles));
    }
    if bytes == b"challenge".as_slice() {
        Some(EventKind::Challenge)
    } else if bytes == b"time".as_slice() {
        Some(EventKind::Time)
    } else {
        None
    }
}

/// The number of exchanged tiles that one digit gives, 1 to 7; none for any other bytes.
fn read_number(digit: &[u8]) -> Option<u8>
    ensures { result ≡ unknown_of digit.now }
{
    let number = numeral(1, digit)? as usize;
    if 1 <= number && number <= MAX_TILES {
        Some(number as u8)
    } else {
        None
    }
}
