//! What is said of the best play of one turn, by what is said of another turn.
ghost use Rattle.std.specs.Prelude.{◌≡◌, ◌+ℤ◌, ◌≤◌, length, pos};
ghost use Rattle.ref_play.specs.Notations.{written};
ghost use Rattle.game_known.specs.Copying.{IsSamePlay, IsSameBest};

use arrayvec::ArrayVec;
use game_bests::{BestPlay, TurnBest};
use ref_board::SIDE;
use ref_play::Notation;
use ref_tiles::Symbol;

/// The same symbols in room for a line.
fn copy_word(word: &[Symbol]) -> ArrayVec<Symbol, SIDE>
    requires { length word.now ≤ 15 }
    ensures { result.items ≡ word.now }
{
    let mut copy = ArrayVec::new();
    for symbol in word {
        copy.push(*symbol);
    }
    copy
}

/// An equal notation.
fn copy_notation(own: &Notation) -> Notation
    ensures { written result ≡ written own.now }
{
    Notation {
        dir: own.dir,
        at: own.at,
        word: copy_word(&own.word),
    }
}

/// The same best play, for a turn that gave `gave` points.
fn play_of_turn(play: &BestPlay, gave: i32) -> BestPlay
    ensures { IsSamePlay gave play.now result }
{
    BestPlay {
        written: copy_notation(&play.written),
        score: play.score,
        more: play.score as i64 - gave as i64,
    }
}

/// What is said of the best play of a turn that gave `gave` points, by what is said of one that gave nothing.
pub(crate) fn of_turn(best: &TurnBest, gave: i32) -> TurnBest
    ensures { IsSameBest gave best.now result }
{
    match best {
        TurnBest::NoTurn => TurnBest::NoTurn,
        TurnBest::NotShown => TurnBest::NotShown,
        TurnBest::NoPlay => TurnBest::NoPlay,
        TurnBest::Best(play) => TurnBest::Best(play_of_turn(play, gave)),
    }
}
