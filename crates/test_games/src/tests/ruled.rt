//! Games that are judged, and best plays that are found, by the rules of a text.
use super::deals::WHOLE_SETS;
use super::games::{Row, lexicon_of, report_all};
use super::inputs::{BAD_LISTS, BAD_RECORDS};
use super::pieces::{reported_in_pieces, reported_of};
use super::plays::PLACES;
use super::topping::assert_bad_rack;
use super::turns::OUT;
use bstr::ByteSlice;
use engine_stages::Verdict;
use io_devices::FromWrite;
use ref_tiles::{ENGLISH_TEXT, MAX_RULES_BYTES};
use std::alloc::Global;
use std::process::Abort;
use test_calls::{Call, GameRules, Inputs, Reads, ask};

/// The tiles of a game with 14 of them, as both racks have them at the start.
const SHORT_TILES: &[u8] = b"tile A 2 1\ntile B 0 3\ntile C 0 3\ntile D 1 2\ntile E 2 1\n\
tile F 0 4\ntile G 0 2\ntile H 0 4\ntile I 1 1\ntile J 0 8\ntile K 0 5\ntile L 0 1\n\
tile M 0 3\ntile N 1 1\ntile O 1 1\ntile P 0 3\ntile Q 0 10\ntile R 2 1\ntile S 1 1\n\
tile T 2 1\ntile U 0 1\ntile V 0 4\ntile W 1 4\ntile X 0 8\ntile Y 0 4\ntile Z 0 10\ntile ? 0 0\n";

/// The English rules as a text.
const ENGLISH: GameRules<'static> = GameRules::Text(ENGLISH_TEXT);

/// A text of two parts.
fn joined(rt: &impl Abort, alloc: Global, front: &[u8], back: &[u8]) -> Vec<u8> {
    let mut text = Vec::from_slice(alloc, front).expect(rt, "memory");
    text.extend_from_slice(back).expect(rt, "memory");
    text
}

/// The English text with these tiles in place of its own.
fn text_with(rt: &impl Abort, alloc: Global, tiles: &[u8]) -> Vec<u8> {
    let rows = ENGLISH_TEXT.find(b"row 1 ").expect(rt, "rows");
    joined(rt, alloc, tiles, &ENGLISH_TEXT[rows..])
}

/// With 14 tiles the player who laid seven is out, and the other rack is what is left.
#[test]
fn a_game_of_14_tiles(rt: HostRuntime) {
    let text = text_with(&rt, rt.alloc(), SHORT_TILES);
    report_all(
        &rt,
        rt.alloc(),
        GameRules::Text(&text),
        &[&OUT, &WHOLE_SETS],
    );
}

/// A game with three blanks.
const BLANKS: [Row; 1] = [Row {
    words: "AT",
    game: ">A: ?? - +0 0\n>B: ? - +0 0\n",
    report: "illegal line 2: TilesShort ?\n",
}];

/// By good rules the other inputs are judged as ever.
#[test]
fn bad_inputs(rt: HostRuntime) {
    report_all(
        &rt,
        rt.alloc(),
        ENGLISH,
        &[&BAD_LISTS, &BAD_RECORDS, &PLACES],
    );
    let inputs = Inputs {
        rules: ENGLISH,
        words: b"AT",
        lexicon: b"no lexicon, and no header",
        game: b">A",
    };
    let (verdict, report) = reported_in_pieces(&rt, rt.alloc(), Call::Judge, &inputs, 7);
    assert_eq!(rt; verdict, Verdict::BadFile);
    assert_eq!(rt; report.as_slice(), b"bad lexicon: Magic\n".as_slice());
}

/// Asserts that a text that ends in four bytes after its limit and one more is too long, and that none of the four is read.
fn assert_long(rt: &impl Abort, alloc: Global, text: &[u8], piece: usize) {
    let inputs = Inputs {
        rules: GameRules::Text(text),
        words: b"A1",
        lexicon: b"no lexicon",
        game: b">",
    };
    let mut out = FromWrite::new(Vec::new(alloc));
    let asked = ask(
        alloc,
        Call::Judge,
        &inputs,
        &Reads::working(piece),
        &mut out,
    );
    assert_eq!(rt; asked.answer, Ok(Verdict::BadRules));
    assert_eq!(rt;
        out.into_inner().as_slice(),
        b"bad rules: TooLong\n".as_slice()
    );
    assert_eq!(rt; asked.text.rest, b"more".as_slice());
    let remaining = (
        asked.words.rest.len(),
        asked.lexicon.rest.len(),
        asked.game.rest.len(),
    );
    assert_eq!(rt; remaining, (2, 10, 1));
}

/// A text of 65,536 bytes is read. For a longer one the byte after them is read, and no further one, and no byte of the
/// other inputs.
#[test]
fn long_texts(rt: HostRuntime) {
    let mut text = joined(&rt, rt.alloc(), ENGLISH_TEXT, b"");
    for _ in text.len()..MAX_RULES_BYTES {
        text.push(b'\n').expect(&rt, "memory");
    }
    report_all(&rt, rt.alloc(), GameRules::Text(&text), &[&BLANKS]);
    text.extend_from_slice(b"\nmore").expect(&rt, "memory");
    for piece in [1, 7, usize::MAX] {
        assert_long(&rt, rt.alloc(), &text, piece);
    }
}

/// Asserts what is reported of the best plays on an empty board by a rules text, the list AT and the rack `?A`, however few bytes a
/// read gives.
fn assert_topped(
    rt: &impl Abort,
    alloc: Global,
    rules: &[u8],
    lexicon: &[u8],
    want: Verdict,
    reported: &str,
) {
    let inputs = Inputs {
        rules: GameRules::Text(rules),
        words: b"AT",
        lexicon,
        game: b"",
    };
    let (verdict, text) = reported_of(rt, alloc, Call::Top(b"?A"), &inputs);
    assert_eq!(rt; verdict, want);
    assert_eq!(rt; text.as_slice(), reported.as_bytes());
}

/// The best plays by the English text are those by the English rules; if a text has a fault, that is reported.
#[test]
fn best_plays(rt: HostRuntime) {
    let file = lexicon_of(&rt, rt.alloc(), b"AT");
    let four = "8G At 2\n8H At 2\nH7 At 2\nH8 At 2\n";
    assert_topped(&rt, rt.alloc(), ENGLISH_TEXT, &file, Verdict::Done, four);
    let fault = "bad rules line 1: Unknown\n";
    assert_topped(
        &rt,
        rt.alloc(),
        b"tiles A 9 1",
        &file,
        Verdict::BadRules,
        fault,
    );
}

/// After bytes that are not a rack no input is read, nor is the rules text: what the inputs hold is still there.
#[test]
fn bad_racks(rt: HostRuntime) {
    for rack in ["", "A1", "AAAAAAAA"] {
        assert_bad_rack(&rt, rt.alloc(), GameRules::Text(b"no rules"), rack);
    }
}
