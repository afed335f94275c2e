//! A line that is read byte by byte, and what it is.
ghost use Rattle.std.specs.Prelude.{◌≡◌, ◌<◌, ◌∷◌, ◌++◌, [], false, true, is_ok, if◌then◌else◌, OnOk, OnErr, length};
ghost use Rattle.std.specs.Char.{is_ascii_alphabetic};
ghost use Rattle.std.specs.List.{list_all};
ghost use Rattle.text_lines.specs.Lines.{without_return};
ghost use Rattle.lex_words.specs.Lines.{is_word, bare_line, is_kept, kept_of};
ghost use Rattle.lex_words.specs.Reading.{held_with};

use std::alloc::{AllocError, Global};
use std::mem;
use text_lines::without_mark;

/// How many bytes of a line are held back: a line with that many is not a word, whatever follows.
const MOST_HELD: usize = 20;

fn has_letters_alone(line: &[u8]) -> bool
    ensures { result ≡ list_all is_ascii_alphabetic line.now }
{
    line.iter().all(u8::is_ascii_alphabetic)
}

/// Whether a line is a word of a list.
fn is_word(line: &[u8]) -> bool
    ensures { result ≡ is_word line.now }
{
    has_letters_alone(line) && 2 <= line.len() && line.len() <= 15
}

/// A line without a CR at its end.
fn without_return(line: &[u8]) -> &[u8]
    ensures { result.now ≡ without_return line.now }
{
    match line {
        [front @ .., b'\r'] => front,
        _ => line,
    }
}

/// What a word list reads from a line, which may be the first of its text.
fn bare_line(line: &[u8], is_first: bool) -> &[u8]
    ensures { result.now ≡ bare_line is_first line.now }
{
    if is_first {
        without_return(without_mark(line))
    } else {
        without_return(line)
    }
}

/// The lines of a text that are neither words nor empty.
#[derive(Drop)]
pub struct Others {
    /// How many there are.
    pub count: u64,
    /// The number of the first, counted from 1.
    pub line: u64,
    /// The first bytes of that line.
    pub text: Vec<u8>,
}

/// The line that is being read.
#[derive(Drop)]
pub struct Line {
    /// Its first bytes.
    pub held: Vec<u8>,
    /// Whether it is the first of its text.
    pub is_first: bool,
    /// Its number, counted from 1.
    number: u64,
    /// The lines before it that are not words.
    others: Others,
}

impl Line {
    /// The first line of a text, before anything is read.
    pub fn first(alloc: Global) -> Line
        ensures held { result.held.items ≡ [] }
        ensures first { result.is_first ≡ true }
    {
        Line {
            held: Vec::new(alloc),
            is_first: true,
            number: 1,
            others: Others {
                count: 0,
                line: 0,
                text: Vec::new(alloc),
            },
        }
    }

    /// The lines before it that are not words.
    pub fn others(&self) -> &Others {
        &self.others
    }

    /// Takes a byte that does not end the line.
    pub fn push(&mut self, byte: u8) -> Result<(), AllocError>
        ensures held { OnOk result (self.new.held.items ≡ held_with self.old.held.items byte) }
        ensures first { self.new.is_first ≡ self.old.is_first }
        ensures refused { OnErr result (self.new.held.items ≡ self.old.held.items) }
    {
        if self.held.len() < MOST_HELD {
            self.held.push(byte)?;
        }
        Ok(())
    }

    /// Whether the line is a word; if it is not one, it is counted.
    fn is_kept(&mut self) -> bool
        ensures kept { result ≡ is_kept self.old.is_first self.old.held.items }
        ensures held { self.new.held ≡ self.old.held }
        ensures first { self.new.is_first ≡ self.old.is_first }
    {
        let bare = bare_line(&self.held, self.is_first);
        let kept = is_word(bare);
        if !kept && !bare.is_empty() {
            self.others.see(self.number, bare);
        }
        kept
    }

    /// Moves to the next line.
    fn advance(&mut self)
        ensures held { self.new.held.items ≡ [] }
        ensures first { self.new.is_first ≡ false }
    {
        self.held.clear();
        self.is_first = false;
        self.number = self.number.saturating_add(1);
    }

    /// Ends the line at the end of the text, and replaces what a buffer has by what is kept of the line.
    #[tactic(auto, unfolding(crate::specs::Lines::kept_of))]
    pub fn end_text(&mut self, ready: &mut Vec<u8>)
        ensures kept { ready.new.items ≡ kept_of self.old.is_first self.old.held.items }
        ensures held { self.new.held.items ≡ [] }
        ensures first { self.new.is_first ≡ false }
    {
        if self.is_kept() {
            mem::swap(&mut self.held, ready);
        } else {
            ready.clear();
        }
        self.advance();
    }

    /// Ends the line with an LF, and replaces what a buffer has by what is kept of both.
    #[tactic(auto, unfolding(crate::specs::Lines::kept_of))]
    pub fn end_line(&mut self, ready: &mut Vec<u8>) -> Result<(), AllocError>
        ensures kept { OnOk result (ready.new.items ≡ kept_of self.old.is_first self.old.held.items ++ 10 ∷ []) }
        ensures held { OnOk result (self.new.held.items ≡ []) }
        ensures first { self.new.is_first ≡ (if is_ok result then false else self.old.is_first) }
        ensures refused { OnErr result (self.new.held.items ≡ self.old.held.items) }
        ensures cleared { OnErr result (ready.new.items ≡ []) }
    {
        ready.clear();
        let kept = self.is_kept();
        self.held.push(b'\n')?;
        if !kept {
            blank(&mut self.held);
        }
        mem::swap(&mut self.held, ready);
        self.advance();
        Ok(())
    }
}

/// Leaves only an LF of a line that is not empty.
fn blank(line: &mut Vec<u8>)
    requires { 0 < length line.old.items }
    ensures { line.new.items ≡ 10 ∷ [] }
{
    line[0] = b'\n';
    line.truncate(1);
}

impl Others {
    /// Takes note of one more line, with this number.
    fn see(&mut self, number: u64, line: &[u8]) {
        if self.count == 0 {
            self.line = number;
            if self.text.extend_from_slice(line).is_err() {
                self.text.clear();
            }
        }
        self.count = self.count.saturating_add(1);
    }
}
