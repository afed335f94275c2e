//! Rules texts: what they state, and their faults.
use bstr::ByteSlice;
use ref_tiles::{
    ENGLISH_TEXT, MAX_RULES_BYTES, Premium, Rules, RulesFault, RulesWhy, english_rules,
};
use std::alloc::Global;
use std::process::Abort;

/// Faults, and the texts whose first fault each is, with its line.
const FAULTS: [(RulesWhy, &[(&[u8], u32)]); 6] = [
    (
        RulesWhy::Unknown,
        &[(b"tiles A 9 1", 1), (b"Bonus 50", 1), (b" # a remark", 1)],
    ),
    (
        RulesWhy::Fields,
        &[
            (b"tile", 1),
            (b"tile A 9", 1),
            (b"tile A 9 1 1", 1),
            (b"row 1", 1),
            (b"row 1 ............... .", 1),
            (b"bonus", 1),
            (b"bonus 5 0", 1),
            (b"bonus 50\n\nzero_limit 6 6\nbonus 50", 3),
        ],
    ),
    (
        RulesWhy::Name,
        &[
            (b"tile a 9 1", 1),
            (b"tile AB 9 1", 1),
            (b"tile @ 1000 1", 1),
            (b"row 0 ...............", 1),
            (b"row 16 ...............", 1),
            (b"row 001 ...............", 1),
            (b"row 1 ..............", 1),
            (b"row 1 ................", 1),
            (b"row 1 ..............W", 1),
        ],
    ),
    (
        RulesWhy::Number,
        &[
            (b"tile ? 2 1", 1),
            (b"tile A 1000 1", 1),
            (b"tile A 9 +1", 1),
            (b"bonus 0050", 1),
            (b"bonus 5O", 1),
            (b"bonus 50\nbonus x", 2),
            (b"tile ? 2 0\ntile ? 2 1\ntile", 2),
        ],
    ),
    (
        RulesWhy::Twice,
        &[
            (b"bonus 50\nbonus 50", 2),
            (b"row 7 ...............\nrow 07 TTTTTTTTTTTTTTT", 2),
            (b"\xef\xbb\xbf# a\r\n\t \r\n\ntime_step 5\r\ntime_step 6", 5),
        ],
    ),
    (
        RulesWhy::Missing,
        &[(b"", 0), (b"#", 0), (b"bonus 999\nzero_limit 0\n", 0)],
    ),
];

/// The answer for a text with this fault.
fn fault(line: u32, why: RulesWhy) -> Option<RulesFault> {
    Some(RulesFault { line, why })
}

/// Asserts that a fault is the first of texts, each on its line.
fn assert_faults(rt: &impl Abort, why: RulesWhy, rows: &[(&[u8], u32)]) {
    for (text, line) in rows {
        let expected = fault(*line, why);
        assert_eq!(rt; Rules::read(text).err(), expected, "{:?}", text);
    }
}

#[test]
fn faults_of_lines(rt: HostRuntime) {
    for (why, rows) in &FAULTS {
        assert_faults(&rt, *why, rows);
    }
}

/// The English text with other bytes in place of some.
fn changed(rt: &impl Abort, alloc: Global, from: &[u8], to: &[u8]) -> Vec<u8> {
    ENGLISH_TEXT.replace(alloc, from, to).expect(rt, "memory")
}

/// Changes of the English text that do not change its meaning.
const SAME: [(&[u8], &[u8]); 6] = [
    (b"tile A 9 1\n", b"\xef\xbb\xbftile A 9 1\n"),
    (b"\n", b" \t\r\n"),
    (b"tile A 9 1\n", b"# A\n \n\ttile\t\tA  009 001 \n"),
    (b"tile ? 2 0", b"tile ? 2 000"),
    (b"row 8 ", b"row 08 "),
    (b"tile A 9 1\ntile B 2 3\n", b"tile B 2 3\ntile A 9 1\n"),
];

/// A text means the rules of the English game.
fn assert_english(rt: &impl Abort, text: &[u8]) {
    let english = english_rules();
    let read = Rules::read(text).ok();
    assert_eq!(rt; read.as_ref(), Some(&english), "{:?}", text);
}

#[test]
fn english_text(rt: HostRuntime) {
    assert_english(&rt, ENGLISH_TEXT);
    for (from, to) in &SAME {
        let text = changed(&rt, rt.alloc(), from, to);
        assert_english(&rt, &text);
    }
}

/// Changes of the English text, and the fault that it then has.
const DAMAGED: [(&[u8], &[u8], u32, RulesWhy); 10] = [
    (b"row 8 T..d...D...d..T\n", b"", 0, RulesWhy::Missing),
    (
        b"tile A 9 1\n",
        b"tile ? 2 1\ntile A 9 1\n",
        1,
        RulesWhy::Number,
    ),
    (
        b"time_step 5\n",
        b"time_step 5\nbonus 50",
        48,
        RulesWhy::Twice,
    ),
    (b"tile A 9 1", b"tile A 999 1", 0, RulesWhy::Limits),
    (b"tile A 9 1", b"tile A 110 1", 0, RulesWhy::Limits),
    (b"tile Z 1 10", b"tile Z 1 100", 0, RulesWhy::Limits),
    (b"tile Z 1 10", b"tile Z 1 999", 0, RulesWhy::Limits),
    (b"time_step 5", b"time_step 0", 0, RulesWhy::Limits),
    (b"zero_limit 6", b"zero_limit 100", 0, RulesWhy::Limits),
    (
        b"challenge_unit 5",
        b"challenge_unit 256",
        0,
        RulesWhy::Limits,
    ),
];

#[test]
fn damaged_texts(rt: HostRuntime) {
    for (from, to, line, why) in &DAMAGED {
        let text = changed(&rt, rt.alloc(), from, to);
        assert_eq!(rt; Rules::read(&text).err(), fault(*line, *why), "{:?}", to);
    }
}

/// The tiles of two English sets.
const TWO_SETS: &[u8] = b"tile A 18 1\ntile B 4 3\ntile C 4 3\ntile D 8 2\ntile E 24 1\n\
tile F 4 4\ntile G 6 2\ntile H 4 4\ntile I 18 1\ntile J 2 8\ntile K 2 5\ntile L 8 1\n\
tile M 4 3\ntile N 12 1\ntile O 16 1\ntile P 4 3\ntile Q 2 10\ntile R 12 1\ntile S 8 1\n\
tile T 12 1\ntile U 8 1\ntile V 4 4\ntile W 4 4\ntile X 2 8\ntile Y 4 4\ntile Z 2 10\ntile ? 4 0\n";

/// The lines of the English text after those of its tiles.
fn other_lines(rt: &impl Abort) -> &'static [u8] {
    let tiles = ENGLISH_TEXT.find(b"row 1 ").expect(rt, "rows");
    &ENGLISH_TEXT[tiles..]
}

/// The text of rules with two English sets.
fn two_sets_text(rt: &impl Abort, alloc: Global) -> Vec<u8> {
    let mut text = Vec::from_slice(alloc, TWO_SETS).expect(rt, "memory");
    text.extend_from_slice(other_lines(rt)).expect(rt, "memory");
    text
}

/// Rules have 200 tiles, and the points and premiums of the English game.
fn assert_two_sets(rt: &impl Abort, rules: &Rules) {
    assert_eq!(rt; rules.counts.total(), 200);
    let english = english_rules();
    let (points, same_points) = (&rules.points, &english.points);
    assert_eq!(rt; points, same_points);
    let (premiums, same_premiums) = (&rules.premiums, &english.premiums);
    assert_eq!(rt; premiums, same_premiums);
}

#[test]
fn two_sets(rt: HostRuntime) {
    let text = two_sets_text(&rt, rt.alloc());
    let rules = Rules::read(&text).expect(&rt, "200 tiles");
    assert_two_sets(&rt, &rules);
}

#[test]
fn one_tile_too_many(rt: HostRuntime) {
    let text = two_sets_text(&rt, rt.alloc());
    let over = text
        .as_slice()
        .replace(rt.alloc(), b"tile A 18 1", b"tile A 19 1")
        .expect(&rt, "memory");
    assert_eq!(rt; Rules::read(&over).err(), fault(0, RulesWhy::Limits));
}

#[test]
fn another_bonus(rt: HostRuntime) {
    let text = changed(&rt, rt.alloc(), b"bonus 50\n", b"bonus 999\n");
    let rules = Rules::read(&text).expect(&rt, "rules");
    assert_eq!(rt; rules.bonus, 999);
}

#[test]
fn another_row(rt: HostRuntime) {
    let codes = changed(
        &rt,
        rt.alloc(),
        b"row 9 ..d...d.d...d..",
        b"row 9 TDtd...........",
    );
    let rules = Rules::read(&codes).expect(&rt, "rules");
    let expected = [
        Premium::TripleWord,
        Premium::DoubleWord,
        Premium::TripleLetter,
        Premium::DoubleLetter,
        Premium::Plain,
    ];
    for (place, premium) in expected.into_iter().enumerate() {
        assert_eq!(rt; rules.premium(120 + place), premium);
    }
}

#[test]
fn long_texts(rt: HostRuntime) {
    let mut text = Vec::new(rt.alloc());
    for _ in 0..MAX_RULES_BYTES {
        text.push(b'\n').expect(&rt, "memory");
    }
    assert_eq!(rt; Rules::read(&text).err(), fault(0, RulesWhy::Missing));
    text.push(b'\n').expect(&rt, "memory");
    assert_eq!(rt; Rules::read(&text).err(), fault(0, RulesWhy::TooLong));
}
