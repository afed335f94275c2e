//! The walk over one line from one of its anchors, or from the old tiles after it: to the left, and then to the right.
ghost use Rattle.std.specs.Prelude.{◌≡◌, ◌<◌, ◌≤◌, ◌+◌, ◌&&◌, ℕ, List, false, IsOk, drop, length};
ghost use Rattle.ref_tiles.specs.declared.rulebook.TheConstants.{SIDE};
ghost use Rattle.gen_line.specs.Model.{starts_free};
ghost use Rattle.lex_file.specs.Walking.{IsOpen, strings};
ghost use Rattle.gen_line.specs.Walk.{MayGive, Gave, gives_leaf, gives_right, gives_tries_right, gives_letter_right, gives_try_right, gives_turn, gives_left, gives_tries_left, gives_letter_left, gives_try_left, gives_after, after_moves};

use crate::branches::{next_letter, pass_mark};
use crate::cells::{Cell, Open};
use crate::takers::{ENTRIES, Taker};
use crate::tiles::Tiles;
use lex_file::{Branch, LABELS, PathLex, Step, advance};
use ref_board::SIDE;
use ref_tiles::KINDS;
use std::alloc::AllocError as NoMemory;

/// A walk over a line from one of its anchors: to the left, and then, after the mark, to the right.
#[derive(Drop)]
pub struct LineWalk<'a, L, T> {
    pub lex: &'a L,
    pub line: &'a [Cell; SIDE],
    /// The place with which the left part ends: the anchor, or the last of the old tiles right after it.
    pub last: usize,
    pub taker: &'a T,
    ghost size: { length line.now ≡ SIDE },
}

/// Whether what a lexicon accepts may end before a place: no old tile lies there.
fn ends_at(line: &[Cell; SIDE], place: usize, accepts: bool) -> bool
    ensures { result ≡ (starts_free (drop place line.now) && accepts) }
{
    match line.get(place) {
        Some(Cell::Old(_)) => false,
        _ => accepts,
    }
}

impl<L: PathLex, T> LineWalk<'_, L, T> {
    /// Gives the sink the tiles that lie on the line, if they are a move.
    #[inline(always)]
    fn offer<S>(&self, is_move: bool, tiles: &Tiles, sink: &mut S) -> Result<(), NoMemory>
    where
        T: Taker<S>,
        requires can { MayGive (T.can_take self.now.taker.now) T.made_for sink.old (gives_leaf is_move tiles.now.fresh) }
        ensures made_for { T.made_for sink.new ≡ T.made_for sink.old }
        ensures took { Gave (T.report self.now.taker.now) T.made_for T.items sink.old
            (gives_leaf is_move tiles.now.fresh) sink.new result }
        ensures steady { T.grows ≡ false → IsOk result }
    {
        if is_move {
            return self.taker.take(&tiles.fresh, sink);
        }
        Ok(())
    }

    /// Gives the moves that continue to the right.
    #[cycle(right)]
    fn right<S>(
        &self,
        at: Step<L::Node>,
        place: usize,
        tiles: &Tiles,
        sink: &mut S,
    ) -> Result<(), NoMemory>
    where
        T: Taker<S>,
        requires node { IsOpen (L.is_node self.now.lex.now) at.next }
        requires place { place ≤ SIDE }
        requires can { MayGive (T.can_take self.now.taker.now) T.made_for sink.old
            (gives_right (strings (L.tail self.now.lex.now) at) self.now.line.now place tiles.now) }
        ensures made_for { T.made_for sink.new ≡ T.made_for sink.old }
        ensures took { Gave (T.report self.now.taker.now) T.made_for T.items sink.old
            (gives_right (strings (L.tail self.now.lex.now) at) self.now.line.now place tiles.now) sink.new result }
        ensures steady { T.grows ≡ false → IsOk result }
    {
        if place == self.line.len() {
            return self.offer(at.accepts, tiles, sink);
        }
        match &self.line[place] {
            Cell::Old(label) => match advance(self.lex, at, *label) {
                Some(next) => self.right(next, place + 1, tiles, sink),
                None => Ok(()),
            },
            Cell::Free(free) => {
                self.offer(at.accepts, tiles, sink)?;
                self.tries_right(at, place, free, tiles, sink)
            }
        }
    }

    /// Gives the moves with a new tile here.
    #[cycle(right)]
    #[inline(always)]
    fn tries_right<S>(
        &self,
        at: Step<L::Node>,
        place: usize,
        free: &Open,
        tiles: &Tiles,
        sink: &mut S,
    ) -> Result<(), NoMemory>
    where
        T: Taker<S>,
        requires node { IsOpen (L.is_node self.now.lex.now) at.next }
        requires place { place < SIDE }
        requires can { MayGive (T.can_take self.now.taker.now) T.made_for sink.old
            (gives_tries_right (strings (L.tail self.now.lex.now) at) self.now.line.now place free.now tiles.now) }
        ensures made_for { T.made_for sink.new ≡ T.made_for sink.old }
        ensures took { Gave (T.report self.now.taker.now) T.made_for T.items sink.old
            (gives_tries_right (strings (L.tail self.now.lex.now) at) self.now.line.now place free.now tiles.now) sink.new result }
        ensures steady { T.grows ≡ false → IsOk result }
    {
        let Some(node) = at.next else {
            return Ok(());
        };
        let mut from = 1;
        let mut rest = node;
        while let Some(on) = next_letter(self.lex, node, from, rest, free, tiles) {
            let Branch { label, step } = on.branch;
            self.letter_right(step, place, free, label, tiles, sink)?;
            from = label + 1;
            rest = on.rest;
        }
        Ok(())
    }

    /// Gives the moves with a tile here that shows the letter of a label, if the lexicon continues with it: a tile of the letter
    /// and then a blank.
    #[cycle(right)]
    #[inline(always)]
    fn letter_right<S>(
        &self,
        next: Step<L::Node>,
        place: usize,
        free: &Open,
        label: u8,
        tiles: &Tiles,
        sink: &mut S,
    ) -> Result<(), NoMemory>
    where
        T: Taker<S>,
        requires node { IsOpen (L.is_node self.now.lex.now) next.next }
        requires place { place < SIDE }
        requires low { 0 < label }
        requires high { label < LABELS }
        requires can { MayGive (T.can_take self.now.taker.now) T.made_for sink.old
            (gives_letter_right (strings (L.tail self.now.lex.now) next) self.now.line.now place free.now tiles.now label) }
        ensures made_for { T.made_for sink.new ≡ T.made_for sink.old }
        ensures took { Gave (T.report self.now.taker.now) T.made_for T.items sink.old
            (gives_letter_right (strings (L.tail self.now.lex.now) next) self.now.line.now place free.now tiles.now label) sink.new result }
        ensures steady { T.grows ≡ false → IsOk result }
    {
        self.one_right(next, place, free, 2 * label - 1, tiles, sink)?;
        self.one_right(next, place, free, 2 * label, tiles, sink)
    }

    /// Gives the moves with this new tile here, after which the lexicon continues, if the square and the rack allow it.
    #[cycle(right)]
    #[inline(always)]
    fn one_right<S>(
        &self,
        next: Step<L::Node>,
        place: usize,
        free: &Open,
        entry: u8,
        tiles: &Tiles,
        sink: &mut S,
    ) -> Result<(), NoMemory>
    where
        T: Taker<S>,
        requires node { IsOpen (L.is_node self.now.lex.now) next.next }
        requires place { place < SIDE }
        requires low { 0 < entry }
        requires high { entry < ENTRIES }
        requires can { MayGive (T.can_take self.now.taker.now) T.made_for sink.old
            (gives_try_right (strings (L.tail self.now.lex.now) next) self.now.line.now place free.now tiles.now entry) }
        ensures made_for { T.made_for sink.new ≡ T.made_for sink.old }
        ensures took { Gave (T.report self.now.taker.now) T.made_for T.items sink.old
            (gives_try_right (strings (L.tail self.now.lex.now) next) self.now.line.now place free.now tiles.now entry) sink.new result }
        ensures steady { T.grows ≡ false → IsOk result }
    {
        if tiles.allow(free, entry) {
            let mut laid = *tiles;
            laid.put(place, entry);
            return self.right(next, place + 1, &laid, sink);
        }
        Ok(())
    }

    /// Gives the moves that begin at the left end of what was walked: those that end at the anchor, and those that continue after the mark.
    #[inline(always)]
    fn turn<S>(&self, at: Step<L::Node>, tiles: &Tiles, sink: &mut S) -> Result<(), NoMemory>
    where
        T: Taker<S>,
        requires node { IsOpen (L.is_node self.now.lex.now) at.next }
        requires last { self.now.last < SIDE }
        requires can { MayGive (T.can_take self.now.taker.now) T.made_for sink.old
            (gives_turn (strings (L.tail self.now.lex.now) at) self.now.line.now self.now.last tiles.now) }
        ensures made_for { T.made_for sink.new ≡ T.made_for sink.old }
        ensures took { Gave (T.report self.now.taker.now) T.made_for T.items sink.old
            (gives_turn (strings (L.tail self.now.lex.now) at) self.now.line.now self.now.last tiles.now) sink.new result }
        ensures steady { T.grows ≡ false → IsOk result }
    {
        self.offer(ends_at(self.line, self.last + 1, at.accepts), tiles, sink)?;
        match pass_mark(self.lex, at) {
            Some(following) => {
                let onward = Step {
                    accepts: false,
                    next: following.next,
                };
                self.right(onward, self.last + 1, tiles, sink)
            }
            None => Ok(()),
        }
    }

    /// Gives the moves that continue to the left, if there are enough places before what was walked.
    #[cycle(left)]
    fn left<S>(
        &self,
        at: Step<L::Node>,
        places: usize,
        tiles: &Tiles,
        sink: &mut S,
    ) -> Result<(), NoMemory>
    where
        T: Taker<S>,
        requires node { IsOpen (L.is_node self.now.lex.now) at.next }
        requires last { self.now.last < SIDE }
        requires places { places ≤ self.now.last }
        requires can { MayGive (T.can_take self.now.taker.now) T.made_for sink.old
            (gives_left (strings (L.tail self.now.lex.now) at) self.now.line.now self.now.last places tiles.now) }
        ensures made_for { T.made_for sink.new ≡ T.made_for sink.old }
        ensures took { Gave (T.report self.now.taker.now) T.made_for T.items sink.old
            (gives_left (strings (L.tail self.now.lex.now) at) self.now.line.now self.now.last places tiles.now) sink.new result }
        ensures steady { T.grows ≡ false → IsOk result }
    {
        if places == 0 {
            return self.turn(at, tiles, sink);
        }
        match &self.line[places - 1] {
            Cell::Old(label) => match advance(self.lex, at, *label) {
                Some(next) => self.left(next, places - 1, tiles, sink),
                None => Ok(()),
            },
            Cell::Free(free) => {
                self.turn(at, tiles, sink)?;
                if free.anchor {
                    return Ok(());
                }
                self.tries_left(at, places - 1, free, tiles, sink)
            }
        }
    }

    /// Gives the moves with a new tile here.
    #[cycle(left)]
    #[inline(always)]
    fn tries_left<S>(
        &self,
        at: Step<L::Node>,
        place: usize,
        free: &Open,
        tiles: &Tiles,
        sink: &mut S,
    ) -> Result<(), NoMemory>
    where
        T: Taker<S>,
        requires node { IsOpen (L.is_node self.now.lex.now) at.next }
        requires last { self.now.last < SIDE }
        requires place { place ≤ self.now.last }
        requires can { MayGive (T.can_take self.now.taker.now) T.made_for sink.old
            (gives_tries_left (strings (L.tail self.now.lex.now) at) self.now.line.now self.now.last place free.now tiles.now) }
        ensures made_for { T.made_for sink.new ≡ T.made_for sink.old }
        ensures took { Gave (T.report self.now.taker.now) T.made_for T.items sink.old
            (gives_tries_left (strings (L.tail self.now.lex.now) at) self.now.line.now self.now.last place free.now tiles.now)
            sink.new result }
        ensures steady { T.grows ≡ false → IsOk result }
    {
        let Some(node) = at.next else {
            return Ok(());
        };
        let mut from = 1;
        let mut rest = node;
        while let Some(on) = next_letter(self.lex, node, from, rest, free, tiles) {
            let Branch { label, step } = on.branch;
            self.letter_left(step, place, free, label, tiles, sink)?;
            from = label + 1;
            rest = on.rest;
        }
        Ok(())
    }

    /// Gives the moves with a tile here that shows the letter of a label, if the lexicon continues with it: a tile of the letter
    /// and then a blank.
    #[cycle(left)]
    #[inline(always)]
    fn letter_left<S>(
        &self,
        next: Step<L::Node>,
        place: usize,
        free: &Open,
        label: u8,
        tiles: &Tiles,
        sink: &mut S,
    ) -> Result<(), NoMemory>
    where
        T: Taker<S>,
        requires node { IsOpen (L.is_node self.now.lex.now) next.next }
        requires last { self.now.last < SIDE }
        requires place { place ≤ self.now.last }
        requires low { 0 < label }
        requires high { label < LABELS }
        requires can { MayGive (T.can_take self.now.taker.now) T.made_for sink.old
            (gives_letter_left (strings (L.tail self.now.lex.now) next) self.now.line.now self.now.last place free.now tiles.now label) }
        ensures made_for { T.made_for sink.new ≡ T.made_for sink.old }
        ensures took { Gave (T.report self.now.taker.now) T.made_for T.items sink.old
            (gives_letter_left (strings (L.tail self.now.lex.now) next) self.now.line.now self.now.last place free.now tiles.now label)
            sink.new result }
        ensures steady { T.grows ≡ false → IsOk result }
    {
        self.one_left(next, place, free, 2 * label - 1, tiles, sink)?;
        self.one_left(next, place, free, 2 * label, tiles, sink)
    }

    /// Gives the moves with this new tile here, after which the lexicon continues, if the square and the rack allow it.
    #[cycle(left)]
    #[inline(always)]
    fn one_left<S>(
        &self,
        next: Step<L::Node>,
        place: usize,
        free: &Open,
        entry: u8,
        tiles: &Tiles,
        sink: &mut S,
    ) -> Result<(), NoMemory>
    where
        T: Taker<S>,
        requires node { IsOpen (L.is_node self.now.lex.now) next.next }
        requires last { self.now.last < SIDE }
        requires place { place ≤ self.now.last }
        requires low { 0 < entry }
        requires high { entry < ENTRIES }
        requires can { MayGive (T.can_take self.now.taker.now) T.made_for sink.old
            (gives_try_left (strings (L.tail self.now.lex.now) next) self.now.line.now self.now.last place free.now tiles.now entry) }
        ensures made_for { T.made_for sink.new ≡ T.made_for sink.old }
        ensures took { Gave (T.report self.now.taker.now) T.made_for T.items sink.old
            (gives_try_left (strings (L.tail self.now.lex.now) next) self.now.line.now self.now.last place free.now tiles.now entry)
            sink.new result }
        ensures steady { T.grows ≡ false → IsOk result }
    {
        if tiles.allow(free, entry) {
            let mut laid = *tiles;
            laid.put(place, entry);
            return self.left(next, place, &laid, sink);
        }
        Ok(())
    }

    /// Gives the moves whose first covered anchor is a place, if it is an anchor. The lexicon continues after the old tiles from
    /// there to the last place of the left part.
    fn from_anchor<S>(
        &self,
        at: Step<L::Node>,
        anchor: usize,
        tiles: &Tiles,
        sink: &mut S,
    ) -> Result<(), NoMemory>
    where
        T: Taker<S>,
        requires node { IsOpen (L.is_node self.now.lex.now) at.next }
        requires last { self.now.last < SIDE }
        requires anchor { anchor ≤ self.now.last }
        requires can { MayGive (T.can_take self.now.taker.now) T.made_for sink.old
            (gives_after (strings (L.tail self.now.lex.now) at) self.now.line.now self.now.last tiles.now anchor) }
        ensures made_for { T.made_for sink.new ≡ T.made_for sink.old }
        ensures took { Gave (T.report self.now.taker.now) T.made_for T.items sink.old
            (gives_after (strings (L.tail self.now.lex.now) at) self.now.line.now self.now.last tiles.now anchor) sink.new result }
        ensures steady { T.grows ≡ false → IsOk result }
    {
        match &self.line[anchor] {
            Cell::Old(_) => Ok(()),
            Cell::Free(free) => {
                if !free.anchor {
                    return Ok(());
                }
                self.tries_left(at, anchor, free, tiles, sink)
            }
        }
    }
}

/// Gives a sink the moves of a line whose first covered anchor is a place, each once, if the place is an anchor: the new tiles lie
/// on free places that allow them, in one whole stretch that spells a word of the lexicon; the rack has them.
///
/// If old tiles lie right after the place, the walk begins with them, so it does not lay tiles before them that no word has there:
/// `last` is the place of the last of them, and the lexicon continues with `at` after them, read backwards. If there are none,
/// `last` is the place itself, and `at` is the root.
///
/// A rack has a number for each kind of tile: A to Z, and then blanks.
///
/// # Errors
///
/// Memory ran out in the sink. It then has a front of the moves.
pub fn walk_anchor<L: PathLex, S, T: Taker<S>>(
    lex: &L,
    at: Step<L::Node>,
    line: &[Cell; SIDE],
    anchor: usize,
    last: usize,
    rack: &[u8; KINDS],
    taker: &T,
    sink: &mut S,
) -> Result<(), NoMemory>
    requires node { IsOpen (L.is_node lex.now) at.next }
    requires last { last < SIDE }
    requires anchor { anchor ≤ last }
    requires can { MayGive (T.can_take taker.now) T.made_for sink.old
        (after_moves (strings (L.tail lex.now) at) line.now last rack.now anchor) }
    ensures made_for { T.made_for sink.new ≡ T.made_for sink.old }
    ensures took { Gave (T.report taker.now) T.made_for T.items sink.old
        (after_moves (strings (L.tail lex.now) at) line.now last rack.now anchor) sink.new result }
    ensures steady { T.grows ≡ false → IsOk result }
{
    let tiles = Tiles {
        fresh: [0; SIDE],
        rack: *rack,
    };
    let walk = LineWalk {
        lex,
        line,
        last,
        taker,
    };
    walk.from_anchor(at, anchor, &tiles, sink)
}
