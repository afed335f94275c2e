//! A play with another tile in one place: tiles that are not on the rack, one tile that was read as another, and a blank as a letter.
ghost use Rattle.std.specs.Prelude.{◌≡◌, ◌<◌, true, slice_get, All, OnOk, IfOk, IfSome, Some};
ghost use Rattle.ref_play.specs.Candidates.{used};
ghost use Rattle.ref_play.specs.Texts.{placement_of};
ghost use Rattle.gcg_read.specs.declared.events.EventKind.TheVariants as kind;
ghost use Rattle.game_turns.specs.Machines.{state_of};
ghost use Rattle.explain_facts.specs.Moments.{moment_of};
ghost use Rattle.explain_facts.specs.Facts.{IsTrue};
ghost use Rattle.explain_facts.specs.Readings.{swapped, is_dot, AreTwoTiles, with_symbol, IsOnRack};

use crate::challenges::spelled;
use crate::facts::{Fact, ReadingFact};
use crate::scenes::{Scene, report_some};
use game_turns::{all_listed, legal_play};
use gcg_read::EventKind;
use ref_board::{Dir, SIDE, Square};
use ref_play::{Placed, along, score, words};
use ref_tiles::{Counts, KINDS, Kind, Symbol};
use std::alloc::{AllocError, Global};

/// The maximum number of readings that are named.
const NAMED: usize = 3;

/// The number of the tiles that are of the kind with this number.
fn count_used(tiles: &[Placed], number: usize) -> usize
    ensures { result ≡ used tiles.now number }
{
    tiles
        .iter()
        .filter(|placed| placed.tile.kind.number() == number)
        .count()
}

/// Whether all tiles are on a rack.
fn is_on_rack(rack: &Counts, tiles: &[Placed]) -> bool
    ensures { result ≡ true → IsOnRack rack.now tiles.now }
{
    let has = rack.numbers();
    for number in 0..KINDS {
        if count_used(tiles, number) > has[number] as usize {
            return false;
        }
    }
    true
}

/// The number of the tiles that are not on a rack.
fn count_missing(rack: &Counts, tiles: &[Placed]) -> usize {
    let has = rack.numbers();
    let mut many = 0usize;
    for number in 0..KINDS {
        let missing = count_used(tiles, number).saturating_sub(has[number] as usize);
        many = many.saturating_add(missing);
    }
    many
}

/// The same letter as a blank if it is not one, and as a letter if it is a blank.
fn swapped(symbol: Symbol) -> Symbol
    ensures { result ≡ swapped symbol }
{
    match symbol {
        Symbol::Dot => Symbol::Dot,
        Symbol::Letter(letter) => Symbol::Blank(letter),
        Symbol::Blank(letter) => Symbol::Letter(letter),
    }
}

/// A symbol with a tile of a kind in its place: a blank shows the same letter.
fn with_kind(symbol: Symbol, kind: Kind) -> Symbol {
    let letter = match symbol {
        Symbol::Dot => return Symbol::Dot,
        Symbol::Letter(letter) => letter,
        Symbol::Blank(letter) => letter,
    };
    match kind {
        Kind::Letter(other) => Symbol::Letter(other),
        Kind::Blank => Symbol::Blank(letter),
    }
}

/// Whether a symbol is a dot.
fn is_dot(symbol: Symbol) -> bool
    ensures { result ≡ is_dot symbol }
{
    matches!(symbol, Symbol::Dot)
}

/// Whether two symbols differ, and neither is a dot.
fn are_two_tiles(symbol: Symbol, other: Symbol) -> bool
    ensures { result ≡ true → AreTwoTiles symbol other }
{
    if is_dot(symbol) || is_dot(other) {
        return false;
    }
    symbol.byte() != other.byte()
}

/// A text with another symbol at a place.
fn with_symbol(
    alloc: Global,
    word: &[Symbol],
    place: usize,
    other: Symbol,
) -> Result<Vec<Symbol>, AllocError>
    ensures { IfOk result (λ text. text.items ≡ with_symbol word.now place other) }
{
    let mut text = Vec::from_slice(alloc, word)?;
    if let Some(symbol) = text.get_mut(place) {
        *symbol = other;
    }
    Ok(text)
}

/// That a play has the written score with the letter at a place as a blank, or the blank there as a letter, if it has.
#[tactic(auto, using(crate::proofs::Plays::of_play))]
fn as_blank(
    alloc: Global,
    scene: &Scene<'_>,
    at: Square,
    dir: Dir,
    word: &[Symbol],
    place: usize,
) -> Result<Option<Fact>, AllocError>
    requires { scene.now.event.now.kind ≡ kind.Play at dir word.now }
    ensures { IfOk result (λ fact. IfSome fact (IsTrue (moment_of scene.now))) }
{
    let Some(symbol) = word.get(place) else {
        return Ok(None);
    };
    if at.place(dir) + place >= SIDE {
        return Ok(None);
    }
    let other = swapped(*symbol);
    if !are_two_tiles(*symbol, other) {
        return Ok(None);
    }
    let text = with_symbol(alloc, word, place, other)?;
    let board = scene.machine.board();
    let Ok(play) = legal_play(board, at, dir, text.as_slice()) else {
        return Ok(None);
    };
    let score = score(scene.rules, board, &play);
    if score != scene.event.score.value() || shows_too_much(scene, &play.tiles) {
        return Ok(None);
    }
    Ok(Some(Fact::Reading(ReadingFact::AsBlank {
        square: along(at, dir, place),
        letter: symbol.byte(),
        read: other.byte(),
        score,
    })))
}

/// Whether the rack that a line shows and the tiles of a play are together more than the player has.
fn shows_too_much(scene: &Scene<'_>, tiles: &[Placed]) -> bool {
    match &scene.event.rack {
        None => false,
        Some(rack) => {
            let missing = count_missing(rack, tiles);
            rack.total().saturating_add(missing) > scene.machine.rack_size(scene.event.player)
        }
    }
}

/// Adds each letter of a play that may be a blank, and each blank that may be a letter, judged by the written score.
fn report_blanks(
    alloc: Global,
    facts: &mut Vec<Fact>,
    scene: &Scene<'_>,
    at: Square,
    dir: Dir,
    word: &[Symbol],
) -> Result<(), AllocError>
    requires reported { All (IsTrue (moment_of scene.now)) facts.old.items }
    requires play { scene.now.event.now.kind ≡ kind.Play at dir word.now }
    ensures { OnOk result (All (IsTrue (moment_of scene.now)) facts.new.items) }
{
    for place in 0..word.len() {
        let fact = as_blank(alloc, scene, at, dir, word, place)?;
        report_some(facts, scene, fact)?;
    }
    Ok(())
}

/// That a play uses more tiles of a kind than the line shows on the rack, if it does.
#[tactic(auto, using(crate::proofs::Plays::of_play))]
fn not_on_rack(
    scene: &Scene<'_>,
    at: Square,
    dir: Dir,
    word: &[Symbol],
    tiles: &[Placed],
    rack: &Counts,
    which: Kind,
) -> Option<Fact>
    requires play { scene.now.event.now.kind ≡ kind.Play at dir word.now }
    requires shown { scene.now.event.now.rack ≡ Some rack.now }
    requires tiles { tiles.now ≡ placement_of (state_of scene.now.machine.now).board dir at word.now }
    ensures { IfSome result (IsTrue (moment_of scene.now)) }
{
    let _ = scene;
    let _ = at;
    let _ = dir;
    let _ = word;
    let played = count_used(tiles, which.number());
    let has = rack.count(which) as usize;
    if played <= has {
        return None;
    }
    Some(Fact::Reading(ReadingFact::NotOnRack {
        kind: which,
        played,
        has,
        rack: *rack,
    }))
}

/// Adds which tiles of a play are not on the rack that its line shows.
fn report_missing(
    facts: &mut Vec<Fact>,
    scene: &Scene<'_>,
    at: Square,
    dir: Dir,
    word: &[Symbol],
    tiles: &[Placed],
    rack: &Counts,
) -> Result<(), AllocError>
    requires reported { All (IsTrue (moment_of scene.now)) facts.old.items }
    requires play { scene.now.event.now.kind ≡ kind.Play at dir word.now }
    requires shown { scene.now.event.now.rack ≡ Some rack.now }
    requires tiles { tiles.now ≡ placement_of (state_of scene.now.machine.now).board dir at word.now }
    ensures { OnOk result (All (IsTrue (moment_of scene.now)) facts.new.items) }
{
    for number in 0..KINDS {
        let fact = not_on_rack(scene, at, dir, word, tiles, rack, Kind::at(number));
        report_some(facts, scene, fact)?;
    }
    Ok(())
}

/// The play of a text with another symbol at a place, if that is legal, uses only tiles of the rack and forms only words of the list.
#[tactic(auto, using(crate::proofs::Plays::of_play))]
fn misread(
    alloc: Global,
    scene: &Scene<'_>,
    at: Square,
    dir: Dir,
    word: &[Symbol],
    place: usize,
    other: Symbol,
) -> Result<Option<Fact>, AllocError>
    requires { scene.now.event.now.kind ≡ kind.Play at dir word.now }
    ensures { IfOk result (λ fact. IfSome fact (IsTrue (moment_of scene.now))) }
{
    let Some(symbol) = word.get(place) else {
        return Ok(None);
    };
    let Some(rack) = &scene.event.rack else {
        return Ok(None);
    };
    if !are_two_tiles(*symbol, other) {
        return Ok(None);
    }
    if at.place(dir) + place >= SIDE {
        return Ok(None);
    }
    let text = with_symbol(alloc, word, place, other)?;
    let board = scene.machine.board();
    let Ok(play) = legal_play(board, at, dir, text.as_slice()) else {
        return Ok(None);
    };
    let formed = words(board, &play);
    if !is_on_rack(rack, &play.tiles) || !all_listed(scene.list, &formed) {
        return Ok(None);
    }
    Ok(Some(Fact::Reading(ReadingFact::Misread {
        square: along(at, dir, place),
        letter: symbol.byte(),
        read: other.byte(),
        words: spelled(alloc, &formed)?,
        score: score(scene.rules, board, &play),
        written: scene.event.score.value(),
    })))
}

/// Whether a fact is a reading with the score that is written.
fn is_as_written(fact: &Option<Fact>) -> bool {
    matches!(fact, Some(Fact::Reading(ReadingFact::Misread { score, written, .. })) if score == written)
}

/// Which readings are named: those with the written score, or all; and the maximum number of facts.
#[derive(Clone, Copy)]
struct Wanted {
    /// Whether the score must be the written one.
    as_written: bool,
    /// The maximum number of facts.
    most: usize,
}

/// Adds which tiles may have been read as the one at a place.
fn report_readings_at(
    alloc: Global,
    facts: &mut Vec<Fact>,
    scene: &Scene<'_>,
    at: Square,
    dir: Dir,
    word: &[Symbol],
    place: usize,
    wanted: Wanted,
) -> Result<(), AllocError>
    requires reported { All (IsTrue (moment_of scene.now)) facts.old.items }
    requires play { scene.now.event.now.kind ≡ kind.Play at dir word.now }
    ensures { OnOk result (All (IsTrue (moment_of scene.now)) facts.new.items) }
{
    let Some(symbol) = word.get(place) else {
        return Ok(());
    };
    for number in 0..KINDS {
        let other = with_kind(*symbol, Kind::at(number));
        let fact = misread(alloc, scene, at, dir, word, place, other)?;
        if facts.len() < wanted.most && (!wanted.as_written || is_as_written(&fact)) {
            report_some(facts, scene, fact)?;
        }
    }
    Ok(())
}

/// Adds which tile may have been read as another one.
fn report_readings(
    alloc: Global,
    facts: &mut Vec<Fact>,
    scene: &Scene<'_>,
    at: Square,
    dir: Dir,
    word: &[Symbol],
    as_written: bool,
) -> Result<(), AllocError>
    requires reported { All (IsTrue (moment_of scene.now)) facts.old.items }
    requires play { scene.now.event.now.kind ≡ kind.Play at dir word.now }
    ensures { OnOk result (All (IsTrue (moment_of scene.now)) facts.new.items) }
{
    let wanted = Wanted {
        as_written,
        most: facts.len().saturating_add(NAMED),
    };
    for place in 0..word.len() {
        report_readings_at(alloc, facts, scene, at, dir, word, place, wanted)?;
    }
    Ok(())
}

/// Adds which tiles of a play are not on its rack, and which may have been misread: first those that give the written score.
fn report_misread(
    alloc: Global,
    facts: &mut Vec<Fact>,
    scene: &Scene<'_>,
    at: Square,
    dir: Dir,
    word: &[Symbol],
    tiles: &[Placed],
) -> Result<(), AllocError>
    requires reported { All (IsTrue (moment_of scene.now)) facts.old.items }
    requires play { scene.now.event.now.kind ≡ kind.Play at dir word.now }
    requires tiles { tiles.now ≡ placement_of (state_of scene.now.machine.now).board dir at word.now }
    ensures { OnOk result (All (IsTrue (moment_of scene.now)) facts.new.items) }
{
    let Some(rack) = &scene.event.rack else {
        return Ok(());
    };
    report_missing(facts, scene, at, dir, word, tiles, rack)?;
    let many = facts.len();
    report_readings(alloc, facts, scene, at, dir, word, true)?;
    if facts.len() == many {
        report_readings(alloc, facts, scene, at, dir, word, false)?;
    }
    Ok(())
}

/// Adds which tiles of a play are not on the rack that its line shows, if together they are more than the player has; and, if the
/// score is wrong, which letter may be a blank.
pub(crate) fn report_slips(
    alloc: Global,
    facts: &mut Vec<Fact>,
    scene: &Scene<'_>,
    at: Square,
    dir: Dir,
    word: &[Symbol],
    is_wrong: bool,
) -> Result<(), AllocError>
    requires reported { All (IsTrue (moment_of scene.now)) facts.old.items }
    requires play { scene.now.event.now.kind ≡ kind.Play at dir word.now }
    ensures { OnOk result (All (IsTrue (moment_of scene.now)) facts.new.items) }
{
    let Ok(play) = legal_play(scene.machine.board(), at, dir, word) else {
        return Ok(());
    };
    if shows_too_much(scene, &play.tiles) {
        return report_misread(alloc, facts, scene, at, dir, word, &play.tiles);
    }
    if is_wrong {
        return report_blanks(alloc, facts, scene, at, dir, word);
    }
    Ok(())
}

/// Adds which tiles of a play are not on the rack that its line shows, if together they are more than the player has, and which
/// tile may have been read as another one.
///
/// It fails only if memory runs out.
pub fn report_rack_slip(
    alloc: Global,
    facts: &mut Vec<Fact>,
    scene: &Scene<'_>,
) -> Result<(), AllocError>
    requires { All (IsTrue (moment_of scene.now)) facts.old.items }
    ensures { OnOk result (All (IsTrue (moment_of scene.now)) facts.new.items) }
{
    match &scene.event.kind {
        EventKind::Play { at, dir, word } => {
            report_slips(alloc, facts, scene, *at, *dir, word.as_slice(), false)
        }
        _ => Ok(()),
    }
}
