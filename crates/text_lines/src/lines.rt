//! Lines of a text, and a mark at its front.
ghost use Rattle.std.specs.Prelude.{◌≡◌, ◌<◌, ◌≤◌, ◌+◌, ◌∷◌, IfSome, length};
ghost use Rattle.std.specs.Iterator.{YieldsFirstRef, item_count};
ghost use Rattle.std.specs.List.{position};
ghost use Rattle.text_lines.specs.Lines.{without_mark, without_return, is_feed, lines_in, lines_after, lines_remaining};

use bstr::ByteSlice;

/// The first line of a text, without its end.
#[derive(Clone, Copy)]
pub struct Cut<'a> {
    /// The line.
    pub line: &'a [u8],
    /// The text after its LF, if it has one.
    pub after: Option<&'a [u8]>,
}

/// The text without a byte order mark at its front.
pub fn without_mark(text: &[u8]) -> &[u8]
    ensures { result.now ≡ without_mark text.now }
{
    match text {
        [0xef, 0xbb, 0xbf, rest @ ..] => rest,
        _ => text,
    }
}

/// The line without a CR at its end.
fn without_return(line: &[u8]) -> &[u8]
    ensures { result.now ≡ without_return line.now }
{
    match line {
        [front @ .., b'\r'] => front,
        _ => line,
    }
}

#[tactic(auto, using(crate::proofs::Cuts::first_byte))]
fn find_feed(text: &[u8]) -> Option<usize>
    ensures { result ≡ position is_feed text.now }
{
    text.find_byte(b'\n')
}

/// Cuts the first line off a text. A line ends at LF or at the end of the text, and one CR at its end is
/// dropped.
#[tactic(auto, using(crate::proofs::LineCuts::lines_end))]
pub fn cut_line(text: &[u8]) -> Cut<'_>
    ensures lines { lines_in text.now ≡ result.line.now ∷ lines_after result.after }
    ensures shorter { IfSome result.after (λ after. length after.now < length text.now) }
{
    match find_feed(text) {
        None => Cut {
            line: without_return(text),
            after: None,
        },
        Some(end) => Cut {
            line: without_return(&text[..end]),
            after: Some(&text[end + 1..]),
        },
    }
}

/// The lines of a text, one after another.
#[derive(Drop)]
pub struct Lines<'a> {
    unread: Option<&'a [u8]>,
}

impl<'a> Lines<'a> {
    /// All lines of a text.
    #[tactic(auto, using(crate::proofs::LineCuts::few_lines))]
    pub fn of(text: &'a [u8]) -> Lines<'a>
        ensures lines { lines_remaining result ≡ lines_in text.now }
        ensures few { length (lines_in text.now) ≤ length text.now + 1 }
    {
        Lines { unread: Some(text) }
    }
}

impl<'a> Iterator for Lines<'a> {
    type Item = &'a [u8];

    ghost next_gives = { YieldsFirstRef lines_remaining };

    ghost remaining = { item_count lines_remaining };

    fn next(&mut self) -> Option<&'a [u8]> {
        let cut = cut_line(self.unread?);
        self.unread = cut.after;
        Some(cut.line)
    }
}
