//! Tiles, counts, symbols and the English rules.
use ref_tiles::{
    Counts, Kind, Letter, Premium, Rules, SQUARES, Symbol, Tile, english_rules, law_of_symbols,
};
use std::process::Abort;

/// What the tables of the English game say of A to Z: how many tiles there are, and their points.
const ENGLISH_LETTERS: [(u8, u8, u8); 26] = [
    (b'A', 9, 1),
    (b'B', 2, 3),
    (b'C', 2, 3),
    (b'D', 4, 2),
    (b'E', 12, 1),
    (b'F', 2, 4),
    (b'G', 3, 2),
    (b'H', 2, 4),
    (b'I', 9, 1),
    (b'J', 1, 8),
    (b'K', 1, 5),
    (b'L', 4, 1),
    (b'M', 2, 3),
    (b'N', 6, 1),
    (b'O', 8, 1),
    (b'P', 2, 3),
    (b'Q', 1, 10),
    (b'R', 6, 1),
    (b'S', 4, 1),
    (b'T', 6, 1),
    (b'U', 4, 1),
    (b'V', 2, 4),
    (b'W', 2, 4),
    (b'X', 1, 8),
    (b'Y', 2, 4),
    (b'Z', 1, 10),
];

/// How many squares have a premium.
fn premiums(rules: &Rules, premium: Premium) -> usize {
    let mut squares: usize = 0;
    for other in &rules.premiums {
        if *other == premium {
            squares = squares.wrapping_add(1);
        }
    }
    squares
}

/// The tiles and the points of a letter by its byte.
fn letter_row(rt: &impl Abort, rules: &Rules, byte: u8) -> (usize, u8, u8) {
    let letter = Letter::counted_from(b'A', byte).expect(rt, "a letter");
    assert_eq!(rt; letter.capital(), byte);
    let kind = Kind::Letter(letter);
    (
        kind.number(),
        rules.counts.count(kind),
        rules.points_of(kind),
    )
}

#[test]
fn english_tiles(rt: HostRuntime) {
    let rules = english_rules();
    for (place, (byte, count, points)) in ENGLISH_LETTERS.iter().enumerate() {
        assert_eq!(rt;
            letter_row(&rt, &rules, *byte),
            (place, *count, *points),
            "{byte}"
        );
    }
    assert_eq!(rt; Kind::Blank.number(), 26);
    assert_eq!(rt; rules.counts.count(Kind::Blank), 2);
    assert_eq!(rt; rules.points_of(Kind::Blank), 0);
    assert_eq!(rt; rules.counts.total(), 100);
}

#[test]
fn english_premiums(rt: HostRuntime) {
    let rules = english_rules();
    for (premium, count) in [
        (Premium::TripleWord, 8),
        (Premium::DoubleWord, 17),
        (Premium::TripleLetter, 12),
        (Premium::DoubleLetter, 24),
        (Premium::Plain, 164),
    ] {
        assert_eq!(rt; premiums(&rules, premium), count, "squares of {premium:?}");
    }
    let rows = [
        (0, 0, Premium::TripleWord),
        (0, 3, Premium::DoubleLetter),
        (1, 1, Premium::DoubleWord),
        (1, 5, Premium::TripleLetter),
        (2, 6, Premium::DoubleLetter),
        (7, 0, Premium::TripleWord),
        (7, 7, Premium::DoubleWord),
        (7, 8, Premium::Plain),
        (14, 14, Premium::TripleWord),
    ];
    for (row, column, premium) in rows {
        let square: usize = 15 * row + column;
        assert!(rt; square < SQUARES);
        assert_eq!(rt; rules.premium(square), premium, "square {square}");
    }
}

#[test]
fn counts(rt: HostRuntime) {
    let mut rack = Counts::new();
    assert_eq!(rt; rack.total(), 0);
    let e = Kind::Letter(Letter::new(4).expect(&rt, "E"));
    assert_eq!(rt; rack.take(e), None, "no tile to take");
    assert_eq!(rt; rack, Counts::new());
    for kind in [e, Kind::Blank, e] {
        assert!(rt; rack.count(kind) < 255);
        rack.add(kind);
    }
    assert_eq!(rt;
        (rack.count(e), rack.count(Kind::Blank), rack.total()),
        (2, 1, 3)
    );
    assert!(rt; rack.fits(&Counts::ENGLISH));
    assert!(rt; !Counts::ENGLISH.fits(&rack));
    assert_takes(&rt, rack, e);
}

/// Takes one of two tiles of a kind from a rack of three.
fn assert_takes(rt: &impl Abort, earlier: Counts, kind: Kind) {
    let mut rack = earlier;
    assert_eq!(rt; rack.take(kind), Some(()));
    assert_eq!(rt; (rack.count(kind), rack.total()), (1, 2));
    assert!(rt; rack.fits(&earlier) && rack.fits(&rack) && !earlier.fits(&rack));
}

#[test]
fn symbols(rt: HostRuntime) {
    let mut of_kinds = [0u32; 4];
    for byte in 0..=255u8 {
        let symbol = Symbol::of_byte(byte);
        let kind = match symbol {
            None => 0,
            Some(Symbol::Dot) => 1,
            Some(Symbol::Letter(_)) => 2,
            Some(Symbol::Blank(_)) => 3,
        };
        of_kinds[kind] = of_kinds[kind].wrapping_add(1);
        if let Some(symbol) = symbol {
            assert_eq!(rt; symbol.byte(), byte);
        }
    }
    assert_eq!(rt; of_kinds, [203, 1, 26, 26]);
    let q = Letter::new(16).expect(&rt, "Q");
    assert_eq!(rt; Symbol::of_byte(b'.'), Some(Symbol::Dot));
    assert_eq!(rt; Symbol::of_byte(b'Q'), Some(Symbol::Letter(q)));
    assert_eq!(rt; Symbol::of_byte(b'q'), Some(Symbol::Blank(q)));
    law_of_symbols();
}

/// `total` blanks.
fn blanks(rt: &impl Abort, total: usize) -> Counts {
    let mut counts = Counts::new();
    for _ in 0..total {
        assert!(rt; counts.count(Kind::Blank) < 255);
        counts.add(Kind::Blank);
    }
    counts
}

#[test]
fn limits_of_tiles(rt: HostRuntime) {
    for (total, taken) in [(13, false), (14, true), (200, true), (201, false)] {
        let mut parts = english_rules().parts();
        parts.counts = blanks(&rt, total);
        assert_eq!(rt; Rules::checked(parts).is_some(), taken, "{total} tiles");
    }
}

#[test]
fn checked_parts_stay(rt: HostRuntime) {
    let mut parts = english_rules().parts();
    parts.points[16] = 98;
    parts.bonus = 60;
    parts.zero_limit = 4;
    let rules = Rules::checked(parts).expect(&rt, "within the limits");
    let letter = Letter::new(16).expect(&rt, "Q");
    assert_eq!(rt; rules.points_of(Kind::Letter(letter)), 98);
    assert_eq!(rt;
        (rules.bonus, rules.exchange_min, rules.zero_limit),
        (60, 7, 4)
    );
    assert_eq!(rt; (rules.challenge_unit, rules.time_step), (5, 5));
    assert_eq!(rt; rules.counts.total(), 100);
}
