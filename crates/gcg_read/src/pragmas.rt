//! Lines that name a player.
ghost use Rattle.std.specs.Prelude.{◌≡◌};
ghost use Rattle.std.specs.List.{before_first, after_first, list_any};
ghost use Rattle.gcg_read.specs.Cutting.{is_blank, is_colon};
ghost use Rattle.gcg_read.specs.Pragmas.{front_trimmed, end_trimmed, trimmed, is_nick, seat_named, names_of, naming_of, naming_in};

use crate::events::Seat;
use bstr::ByteSlice;
use text_lines::{find_blank, find_filled};

/// The names that a pragma gives a player.
#[derive(Clone, Copy)]
pub struct Naming<'a> {
    /// The player.
    pub seat: Seat,
    /// The nickname, which has a byte, no blank and no colon.
    pub nick: &'a [u8],
    /// The full name, empty if there is none.
    pub full: &'a [u8],
}

/// A text that is cut at its first blank.
#[derive(Clone, Copy)]
struct Halves<'a> {
    front: &'a [u8],
    after: &'a [u8],
}

/// The names that a pragma gives a player, from the text after its `#`: the word `player1` or `player2`, a blank, a nickname, and
/// after a blank the full name, which is the rest of the line and may be missing. None if the pragma is another one, or has no
/// nickname or one with a colon.
#[tactic(auto, unfolding(crate::specs::Pragmas::naming_of))]
pub fn read_naming(text: &[u8]) -> Option<Naming<'_>>
    ensures { naming_of text.now ≡ naming_in result }
{
    let halves = cut_at_blank(text);
    let seat = seat_named(halves.front)?;
    read_names(without_front_blanks(halves.after), seat)
}

/// The names of a player: a nickname, and after a blank the full name.
#[tactic(auto, unfolding(crate::specs::Pragmas::names_of))]
fn read_names(text: &[u8], seat: Seat) -> Option<Naming<'_>>
    ensures { names_of text.now seat ≡ naming_in result }
{
    let halves = cut_at_blank(text);
    if !is_nick(halves.front) {
        return None;
    }
    Some(Naming {
        seat,
        nick: halves.front,
        full: without_blanks(halves.after),
    })
}

/// The player that the word after `#` names.
fn seat_named(word: &[u8]) -> Option<Seat>
    ensures { result ≡ seat_named word.now }
{
    if word == b"player1".as_slice() {
        Some(Seat::First)
    } else if word == b"player2".as_slice() {
        Some(Seat::Second)
    } else {
        None
    }
}

/// Whether the bytes are a nickname: they are not empty and have no colon.
fn is_nick(bytes: &[u8]) -> bool
    ensures { result ≡ is_nick bytes.now }
{
    !bytes.is_empty() && !has_colon(bytes)
}

fn has_colon(bytes: &[u8]) -> bool
    ensures { result ≡ list_any is_colon bytes.now }
{
    bytes.iter().any(|byte| *byte == b':')
}

/// Cuts a text at its first blank, which neither half has.
fn cut_at_blank(text: &[u8]) -> Halves<'_>
    ensures front { result.front.now ≡ before_first is_blank text.now }
    ensures after { result.after.now ≡ after_first is_blank text.now }
{
    match find_blank(text) {
        None => Halves {
            front: text,
            after: &[],
        },
        Some(at) => Halves {
            front: &text[..at],
            after: &text[at + 1..],
        },
    }
}

/// The text without the blanks at its ends.
fn without_blanks(text: &[u8]) -> &[u8]
    ensures { result.now ≡ trimmed text.now }
{
    without_end_blanks(without_front_blanks(text))
}

fn without_front_blanks(text: &[u8]) -> &[u8]
    ensures { result.now ≡ front_trimmed text.now }
{
    match find_filled(text) {
        None => &[],
        Some(start) => &text[start..],
    }
}

#[tactic(auto, using(crate::proofs::Cuts::end_none, crate::proofs::Cuts::end_some))]
fn without_end_blanks(text: &[u8]) -> &[u8]
    ensures { result.now ≡ end_trimmed text.now }
{
    match text.rfind_not_byteset(b" \t") {
        None => &[],
        Some(last) => &text[..last + 1],
    }
}
