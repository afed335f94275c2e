//! The step of an event, from the machine that took those before it.
ghost use Rattle.std.specs.Prelude.{◌≡◌, ◌≤◌, None, length, is_some, if◌then◌else◌};
ghost use Rattle.ref_play.specs.Texts.{placement_of, text_fault};
ghost use Rattle.game_turns.specs.Machines.{state_of};
ghost use Rattle.game_turns.specs.LatestEvents.{latest_tiles};
ghost use Rattle.deal_steps.specs.declared.steps.Motion.TheVariants as motion;
ghost use Rattle.deal_steps.specs.declared.steps.Act.TheVariants as act;
ghost use Rattle.game_deal.specs.Recorded.{on_board, placed_tiles, play_motion, turn_of, taken_back_act, last_holder, act_of, step_in, IsNamed};

use deal_steps::{Act, Motion, Step};
use game_turns::{Machine, is_turn};
use gcg_read::{Event, EventKind, Seat};
use ref_board::{Board, Dir, Square};
use ref_play::{Placed, from_text};
use ref_tiles::{Counts, Symbol};

/// The tiles on a board.
fn on_board(board: &Board) -> Counts
    ensures { result ≡ on_board board.now }
{
    let mut tiles = Counts::new();
    for cell in board.cells() {
        if let Some(tile) = cell {
            tiles.add(tile.kind);
        }
    }
    tiles
}

/// The tiles of a placement.
fn placed_tiles(placed: &[Placed]) -> Counts
    requires { length placed.now ≤ 7 }
    ensures { result ≡ placed_tiles placed.now }
{
    let mut tiles = Counts::new();
    for new in placed {
        tiles.add(new.tile.kind);
    }
    tiles
}

/// What a play means for the racks.
fn play_motion(bag: usize, placed: &[Placed], withdrawn: bool) -> Motion
    requires { length placed.now ≤ 7 }
    ensures { result ≡ play_motion bag placed.now withdrawn }
{
    let used = placed_tiles(placed);
    if withdrawn {
        Motion::Tries(used)
    } else {
        Motion::Lays {
            used,
            drawn: placed.len().min(bag),
        }
    }
}

/// The act of a turn.
fn turn_of(event: &Event, motion: Motion) -> Act
    ensures { result ≡ turn_of event.now motion }
{
    match event.rack {
        Some(shown) => Act::Turns { shown, motion },
        None => Act::Turns {
            shown: Counts::new(),
            motion,
        },
    }
}

/// Whose rack a last rack is: the other player's once the player is out, otherwise the player's own.
fn last_holder(out: Option<Seat>, player: Seat) -> Seat
    ensures { result ≡ last_holder out player }
{
    match out {
        Some(out) => out.other(),
        None => player,
    }
}

/// The act of the play of a text.
fn play_act(
    machine: &Machine,
    event: &Event,
    at: Square,
    dir: Dir,
    word: &[Symbol],
    withdrawn: bool,
) -> Act
    requires { text_fault (state_of machine.now).board dir at word.now ≡ None }
    ensures { result ≡ turn_of event.now (play_motion (state_of machine.now).bag
        (placement_of (state_of machine.now).board dir at word.now) withdrawn) }
{
    let Ok(play) = from_text(machine.board(), at, dir, word) else {
        unreachable!()
    };
    let motion = play_motion(machine.bag_size(), &play.tiles, withdrawn);
    turn_of(event, motion)
}

/// The act of a pass: after a player is out it says nothing.
fn pass_act(machine: &Machine, event: &Event) -> Act
    ensures { result ≡ (if is_some (state_of machine.now).out then act.Rests else turn_of event.now motion.Keeps) }
{
    match machine.out() {
        Some(_) => Act::Rests,
        None => turn_of(event, Motion::Keeps),
    }
}

/// The act of a withdrawal.
fn withdraw_act(machine: &Machine) -> Act
    ensures { result ≡ taken_back_act (latest_tiles (state_of machine.now).latest) }
{
    match machine.last_play() {
        Some(play) => Act::TakesBack(placed_tiles(&play.tiles)),
        None => Act::Rests,
    }
}

/// What an event means for the racks.
fn act_of(machine: &Machine, event: &Event, withdrawn: bool) -> Act
    requires { IsNamed (state_of machine.now).board event.now.kind }
    ensures { result ≡ act_of (state_of machine.now) event.now event.now.kind withdrawn }
{
    match &event.kind {
        EventKind::Play { at, dir, word } => {
            play_act(machine, event, *at, *dir, word.as_slice(), withdrawn)
        }
        EventKind::Pass => pass_act(machine, event),
        EventKind::Exchange(tiles) => turn_of(event, Motion::Throws(*tiles)),
        EventKind::ExchangeUnknown(size) => turn_of(event, Motion::ThrowsUnknown(*size as usize)),
        EventKind::Withdraw => withdraw_act(machine),
        EventKind::Challenge | EventKind::Time => Act::Rests,
        EventKind::LastRack(tiles) => Act::Ends {
            holder: last_holder(machine.out(), event.player),
            tiles: *tiles,
        },
    }
}

/// The step of an event, from the machine that took those before it: what the event means for the racks, and the tiles of the board
/// and the sizes of racks and bag before it. `withdrawn` says whether the next event takes this one back. The text of a play must
/// name a placement.
#[tactic(auto, unfolding(crate::specs::Recorded::step_in))]
pub fn next_step(machine: &Machine, event: &Event, withdrawn: bool) -> Step
    requires { IsNamed (state_of machine.now).board event.now.kind }
    ensures { result ≡ step_in (state_of machine.now) event.now withdrawn }
{
    Step {
        line: event.line,
        player: event.player,
        counted: is_turn(&event.kind, machine.out(), withdrawn),
        act: act_of(machine, event, withdrawn),
        board: on_board(machine.board()),
        first: machine.rack_size(Seat::First),
        second: machine.rack_size(Seat::Second),
        bag: machine.bag_size(),
    }
}
