//! One board and its cross-sets that follow a game.
ghost use Rattle.std.specs.Prelude.{IfSome};
ghost use Rattle.lex_check.specs.Pairs.{list_in};
ghost use Rattle.ref_play.specs.Placements.{HasTiles};
ghost use Rattle.game_notes.specs.Following.{board_of, Follows};

use super::best_plays::tiles;
use super::notations::assert_written;
use super::plays::{AT, Text, WORD, after, judged};
use game_notes::{Follow, cross_sets};
use lex_build::build;
use lex_check::{Checked, pair};
use lex_file::LexFile;
use lex_list::WordList;
use ref_board::{Dir, SIDE, Square};
use ref_play::{Play, notation};
use ref_tiles::{Rules, english_rules};
use std::alloc::Global;
use std::process::Abort;

/// Asserts that the board is the one after plays, and that all values are those of cross-sets computed anew.
fn assert_board(
    rt: &impl Abort,
    alloc: Global,
    rules: &Rules,
    pair: &Checked<'_>,
    follow: &Follow,
    plays: &[Text],
) {
    assert!(rt; *follow.board() == after(rt, alloc, plays), "{:?}", plays);
    let cross = cross_sets(rules, pair, follow.board());
    for number in 0..SIDE * SIDE {
        let square = Square::on_line(Dir::Across, number / SIDE, number % SIDE);
        for dir in [Dir::Across, Dir::Down] {
            let followed = (follow.mask(dir, square), follow.side(dir, square));
            let afresh = (cross.mask(dir, square), cross.side(dir, square));
            assert_eq!(rt; followed, afresh, "{:?}", square);
        }
    }
}

/// Applies a legal play, and gives it.
fn applied(
    rt: &impl Abort,
    alloc: Global,
    rules: &Rules,
    pair: &Checked<'_>,
    follow: &mut Follow,
    text: Text,
) -> Option<Play>
    requires { Follows rules.now (list_in pair.now) follow.old }
    ensures follows { Follows rules.now (list_in pair.now) follow.new }
    ensures there { IfSome result (λ play. HasTiles (board_of follow.new) play.tiles.items) }
{
    match judged(rt, alloc, follow.board(), text) {
        Ok(play) => {
            follow.apply(rules, pair, &play);
            Some(play)
        }
        Err(fault) => {
            assert!(rt; false, "{fault:?}");
            None
        }
    }
}

/// Applies 9G AT beside 8E WORD, and takes it back.
fn try_at(rt: &impl Abort, alloc: Global, rules: &Rules, pair: &Checked<'_>, follow: &mut Follow)
    requires { Follows rules.now (list_in pair.now) follow.old }
    ensures { Follows rules.now (list_in pair.now) follow.new }
{
    let Some(play) = applied(rt, alloc, rules, pair, follow, AT) else {
        return;
    };
    assert_board(rt, alloc, rules, pair, follow, &[WORD, AT]);
    follow.undo(rules, pair, &play);
}

/// A rack, its best play as it is written, the score of that play, and how many plays the ten best are.
type Best = (&'static [u8], Text, i32, usize);

fn assert_best(rt: &impl Abort, rules: &Rules, pair: &Checked<'_>, follow: &Follow, best: Best)
    requires { Follows rules.now (list_in pair.now) follow.now }
{
    let (rack, written, points, many) = best;
    let rack = tiles(rt, rack);
    match follow.annotate(rules, pair, &rack) {
        Some((play, score)) => {
            assert_eq!(rt; score, points, "{:?}", written);
            assert_written(rt, &notation(follow.board(), &play), written);
            let tops = follow.top(rules, pair, &rack);
            assert_first(rt, tops.items(), many, &play, points);
        }
        None => assert!(rt; false, "{:?}", written),
    }
}

/// Asserts that there are `many` best plays, and that this play with its score is the first of them.
fn assert_first(rt: &impl Abort, tops: &[(Play, i32)], many: usize, play: &Play, points: i32) {
    let first = tops.first().expect(rt, "a best play");
    assert_eq!(rt; (tops.len(), first.1), (many, points));
    assert!(rt; first.0.tiles.as_slice() == play.tiles.as_slice());
}

/// Words, and the best plays of a rack by them before 8E WORD and after 9G AT.
const GAMES: [(&[u8], Option<Best>, Option<Best>); 2] = [
    (b"WORD\nAT\nRA", Some((b"DORWAAE", WORD, 16, 10)), None),
    // The one play that an E allows beside both.
    (b"WORD\nAT\nRA\nEAT\nOE", None, Some((b"E", "9F E..", 5, 1))),
];

/// Follows a game of 8E WORD and 9G AT, which is taken back and made again by the other player.
fn assert_game(
    rt: &impl Abort,
    alloc: Global,
    words: &[u8],
    first: Option<Best>,
    last: Option<Best>,
) {
    let rules = english_rules();
    let list = WordList::read(alloc, words).expect(rt, "a word list");
    let bytes = build(alloc, &list).expect(rt, "a lexicon");
    let file = LexFile::open(bytes.as_slice()).expect(rt, "a file");
    let pair = pair(alloc, &list, file).expect(rt, "a pair");
    let mut follow = Follow::new(&rules, &pair);
    assert_board(rt, alloc, &rules, &pair, &follow, &[]);
    if let Some(best) = first {
        assert_best(rt, &rules, &pair, &follow, best);
    }
    applied(rt, alloc, &rules, &pair, &mut follow, WORD);
    assert_board(rt, alloc, &rules, &pair, &follow, &[WORD]);
    try_at(rt, alloc, &rules, &pair, &mut follow);
    assert_board(rt, alloc, &rules, &pair, &follow, &[WORD]);
    applied(rt, alloc, &rules, &pair, &mut follow, AT);
    assert_board(rt, alloc, &rules, &pair, &follow, &[WORD, AT]);
    if let Some(best) = last {
        assert_best(rt, &rules, &pair, &follow, best);
    }
}

#[test]
fn followed_games(rt: HostRuntime) {
    for (words, first, last) in GAMES {
        assert_game(&rt, rt.alloc(), words, first, last);
    }
}
