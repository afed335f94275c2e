//! What is wrong with the text or the placement of a play.
ghost use Rattle.std.specs.Prelude.{◌≡◌, true, All, IfOk, IfSome, Some};
ghost use Rattle.ref_play.specs.declared.faults.PlayFault.TheVariants as fault;
ghost use Rattle.game_turns.specs.declared.faults.RuleFault.TheVariants as rule_fault;
ghost use Rattle.gcg_read.specs.declared.events.EventKind.TheVariants as kind;
ghost use Rattle.game_turns.specs.Checks.{play_fault};
ghost use Rattle.game_turns.specs.Machines.{state_of};
ghost use Rattle.explain_facts.specs.Moments.{moment_of};
ghost use Rattle.explain_facts.specs.Facts.{IsTrue};
ghost use Rattle.explain_facts.specs.FaultFacts.{says, names_end_tile, begin_with};

use crate::facts::{Fact, PlayFact};
use crate::scenes::{Scene, listed, report, report_some};
use explain_clues::{first_misfit, new_tiles};
use ref_board::{Dir, SIDE, Square};
use ref_play::{PlayFault, along};
use ref_tiles::Symbol;
use std::alloc::{AllocError, Global};

/// That a text leaves the board.
#[tactic(auto, using(crate::proofs::Plays::of_play))]
fn off_board(scene: &Scene<'_>, at: Square, dir: Dir, word: &[Symbol]) -> Option<Fact>
    requires play { scene.now.event.now.kind ≡ kind.Play at dir word.now }
    requires fails { play_fault (state_of scene.now.machine.now).board dir at word.now ≡ Some fault.OffBoard }
    ensures reported { IfSome result (IsTrue (moment_of scene.now)) }
    ensures named { says (rule_fault.Play fault.OffBoard) result ≡ true }
{
    let room = SIDE - at.place(dir);
    let squares = word.len();
    if squares <= room {
        return None;
    }
    Some(Fact::Play(PlayFact::LeavesBoard {
        at,
        dir,
        squares,
        room,
    }))
}

/// The first square on which a text does not agree with the board.
#[tactic(auto, using(crate::proofs::Plays::of_play))]
fn mismatch(scene: &Scene<'_>, at: Square, dir: Dir, word: &[Symbol]) -> Option<Fact>
    requires play { scene.now.event.now.kind ≡ kind.Play at dir word.now }
    requires fails { play_fault (state_of scene.now.machine.now).board dir at word.now ≡ Some fault.Mismatch }
    ensures reported { IfSome result (IsTrue (moment_of scene.now)) }
    ensures named { says (rule_fault.Play fault.Mismatch) result ≡ true }
{
    let board = scene.machine.board();
    let k = first_misfit(board, at, dir, word)?;
    let symbol = word.get(k)?;
    let end = at.place(dir) + k;
    if end >= SIDE {
        return None;
    }
    let square = along(at, dir, k);
    match board.at(square) {
        None => match symbol {
            Symbol::Dot => Some(Fact::Play(PlayFact::DotOnEmpty { square })),
            _ => None,
        },
        Some(tile) => Some(Fact::Play(PlayFact::OtherLetter {
            square,
            written: symbol.byte(),
            shown: tile.shown.capital(),
        })),
    }
}

/// The number of tiles that a play puts down.
#[tactic(auto, using(crate::proofs::Plays::of_play, crate::proofs::Because::more_than_seven))]
fn too_many(scene: &Scene<'_>, at: Square, dir: Dir, word: &[Symbol]) -> Option<Fact>
    requires play { scene.now.event.now.kind ≡ kind.Play at dir word.now }
    requires fails { play_fault (state_of scene.now.machine.now).board dir at word.now ≡ Some fault.TooManyTiles }
    ensures reported { IfSome result (IsTrue (moment_of scene.now)) }
    ensures named { says (rule_fault.Play fault.TooManyTiles) result ≡ true }
{
    let tiles = new_tiles(scene.machine.board(), at, dir, word)?;
    Some(Fact::Play(PlayFact::ManyTiles { tiles }))
}

/// The tile that lies directly before a text.
#[tactic(auto, using(crate::proofs::Plays::of_play))]
fn tile_before(scene: &Scene<'_>, at: Square, dir: Dir, word: &[Symbol]) -> Option<Fact>
    requires { scene.now.event.now.kind ≡ kind.Play at dir word.now }
    ensures reported { IfSome result (IsTrue (moment_of scene.now)) }
    ensures at_end { names_end_tile result ≡ true }
{
    let _ = word;
    let place = at.place(dir);
    if place == 0 {
        return None;
    }
    let square = Square::on_line(dir, at.line(dir), place - 1);
    let tile = scene.machine.board().at(square)?;
    Some(Fact::Play(PlayFact::TileBefore {
        square,
        letter: tile.shown.capital(),
    }))
}

/// The tile that lies directly after a text.
#[tactic(auto, using(crate::proofs::Plays::of_play))]
fn tile_after(scene: &Scene<'_>, at: Square, dir: Dir, word: &[Symbol]) -> Option<Fact>
    requires { scene.now.event.now.kind ≡ kind.Play at dir word.now }
    ensures reported { IfSome result (IsTrue (moment_of scene.now)) }
    ensures at_end { names_end_tile result ≡ true }
{
    let place = at.place(dir);
    if word.len() >= SIDE - place {
        return None;
    }
    let square = Square::on_line(dir, at.line(dir), place + word.len());
    let tile = scene.machine.board().at(square)?;
    Some(Fact::Play(PlayFact::TileAfter {
        square,
        letter: tile.shown.capital(),
    }))
}

/// Which tiles lie directly before and after a text, and that its line must name the whole word.
#[tactic(auto, using(crate::proofs::Plays::of_play, crate::proofs::Beginnings::begins_after))]
fn whole_facts(
    alloc: Global,
    scene: &Scene<'_>,
    at: Square,
    dir: Dir,
    word: &[Symbol],
) -> Result<Vec<Fact>, AllocError>
    requires play { scene.now.event.now.kind ≡ kind.Play at dir word.now }
    requires fails { play_fault (state_of scene.now.machine.now).board dir at word.now ≡ Some fault.NotWhole }
    ensures reported { IfOk result (λ facts. All (IsTrue (moment_of scene.now)) facts.items) }
    ensures first { IfOk result (λ facts. begin_with (rule_fault.Play fault.NotWhole) facts.items ≡ true) }
{
    let mut facts = Vec::new(alloc);
    report_some(&mut facts, scene, tile_before(scene, at, dir, word))?;
    report_some(&mut facts, scene, tile_after(scene, at, dir, word))?;
    report(&mut facts, scene, Fact::Play(PlayFact::NotWhole))?;
    Ok(facts)
}

/// The list of a fact that says the fault of a play.
fn only(
    alloc: Global,
    scene: &Scene<'_>,
    why: PlayFault,
    fact: Option<Fact>,
) -> Result<Vec<Fact>, AllocError>
    requires reported { IfSome fact (IsTrue (moment_of scene.now)) }
    requires named { says (rule_fault.Play why) fact ≡ true }
    ensures reported { IfOk result (λ facts. All (IsTrue (moment_of scene.now)) facts.items) }
    ensures first { IfOk result (λ facts. begin_with (rule_fault.Play why) facts.items ≡ true) }
{
    let _ = why;
    let facts = listed(alloc, scene, fact)?;
    Ok(facts)
}

/// What is wrong with the text or the placement of a play on the board before it.
#[tactic(auto, using(crate::proofs::Plays::of_play))]
pub(crate) fn play_fault_facts(
    alloc: Global,
    scene: &Scene<'_>,
    at: Square,
    dir: Dir,
    word: &[Symbol],
    fault: PlayFault,
) -> Result<Vec<Fact>, AllocError>
    requires play { scene.now.event.now.kind ≡ kind.Play at dir word.now }
    requires fails { play_fault (state_of scene.now.machine.now).board dir at word.now ≡ Some fault }
    ensures reported { IfOk result (λ facts. All (IsTrue (moment_of scene.now)) facts.items) }
    ensures first { IfOk result (λ facts. begin_with (rule_fault.Play fault) facts.items ≡ true) }
{
    match fault {
        PlayFault::OffBoard => only(alloc, scene, fault, off_board(scene, at, dir, word)),
        PlayFault::Mismatch => only(alloc, scene, fault, mismatch(scene, at, dir, word)),
        PlayFault::NoNewTile => only(alloc, scene, fault, Some(Fact::Play(PlayFact::NoNewTile))),
        PlayFault::TooManyTiles => only(alloc, scene, fault, too_many(scene, at, dir, word)),
        PlayFault::NotWhole => whole_facts(alloc, scene, at, dir, word),
        PlayFault::MissesCentre => only(
            alloc,
            scene,
            fault,
            Some(Fact::Play(PlayFact::MissesCentre)),
        ),
        PlayFault::TooShort => only(alloc, scene, fault, Some(Fact::Play(PlayFact::TooShort))),
        PlayFault::Apart => only(alloc, scene, fault, Some(Fact::Play(PlayFact::Apart))),
    }
}
