//! The reader of records: faults, plays, codes and names.
use super::plays::text_of;
use Code::{Challenge, Exchange, LastRack, Pass, Time, Unknown, Withdraw};
use gcg_read::Seat::{First, Second};
use gcg_read::{
    Event, EventKind, Events, Name, Player, Players, Points, ReadFault, Record, Seat, Text, Why,
    law_of_faults, law_of_lines, read,
};
use ref_tiles::{Counts, Symbol};
use std::alloc::Global;
use std::process::Abort;
use test_samples::tiles_of;

/// The faults of records: texts, with the line of the fault.
const FAULTS: [(Why, &[(&[u8], u32)]); 8] = [
    (
        Why::NoColon,
        &[
            (b">A 8E WORD +16 16", 1),
            (b">A B: 8E WORD +16 16", 1),
            (b">: 8E WORD +16 16", 1),
            (b"> \t : 8E WORD +16 16", 1),
            (b">", 1),
            (b"\n#note\r\n>A", 3),
        ],
    ),
    (
        Why::ThirdPlayer,
        &[
            (b">A: 8E WORD +16 16\n>B: 9G AT +9 9\n>C: x", 3),
            (
                b">A: 8E WORD +16 16\n\n>B: 9G AT +9 9\n>a: 8E WORD +16 16",
                4,
            ),
            (b">A: - +0 0\n>B: - +0 0\n>C: - +0 0", 3),
            (b"#player1 A\n#player2 A", 2),
            (b"#player2 B Bo\n\n#player1\tB\tAnn\r\n", 3),
            (b"#player1 A\n#player2 B\n>C: - +0 0", 3),
            (b">A: - +0 0\n>B: - +0 0\n#player2 C\n>C: - +0 0", 4),
        ],
    ),
    (
        Why::Fields,
        &[
            (b">A:", 1),
            (b">A: 8E", 1),
            (b">A: 8E WORD", 1),
            (b">A: A 8E WORD +16 16 16", 1),
        ],
    ),
    (
        Why::Code,
        &[
            (b">A: 8E WORD +16", 1),
            (b">A: -8 +0 0", 1),
            (b">A: -0 +0 0", 1),
            (b">A: -11 +0 0", 1),
            (b">A: -a +0 0", 1),
            (b">A: -AAAAAAAA +0 0", 1),
            (b">A: --- +0 0", 1),
            (b">A: -\x00 +0 0", 1),
            (b">A: + +0 0", 1),
            (b">A: AEI (AB +4 4", 1),
            (b">A: AEI AB) +4 4", 1),
            (b">A: ( +4 4", 1),
            (b">A: () +4 4", 1),
            (b">A: (AB)) +4 4", 1),
            (b">A: (Time) -5 0", 1),
            (b">A: (challenge +5 5", 1),
            (b">A: AEI (A1) x 4", 1),
        ],
    ),
    (
        Why::Rack,
        &[
            (b">A: AAAAAAAA - +0 0", 1),
            (b">A: abc - x 0", 1),
            (b">A: A1 8E WORD +16 16", 1),
            (b">A: AAAAAAAA 16A A- x 0", 1),
            (b">B:: 8E WORD +16 16", 1),
            (b">A: aei -8 x 0", 1),
        ],
    ),
    (
        Why::Position,
        &[
            (b">A: 16A AT +4 4", 1),
            (b">A: 0A AT +4 4", 1),
            (b">A: A0 AT +4 4", 1),
            (b">A: 8P AT +4 4", 1),
            (b">A: 008A AT +4 4", 1),
            (b">A: 88 AT +4 4", 1),
            (b">A: 8 A- x 4", 1),
            (b">A: A HH AT +4 4", 1),
        ],
    ),
    (
        Why::Word,
        &[
            (b">A: 8E W0RD +16 16", 1),
            (b">A: 8A ABCDEFGHIJKLMNOP x 4", 1),
            (b">A: 8A () +4 4", 1),
            (b">A: 8E WORD\r +16 16", 1),
            (b">A: A1 - +0 0", 1),
        ],
    ),
    (
        Why::Number,
        &[
            (b">A: 8E WORD +x 16", 1),
            (b">A: 8E WORD + 16", 1),
            (b">A: 8E WORD +16 1000000", 1),
            (b">A: 8E WORD +-16 16", 1),
            (b">A: 8E WORD +16 16\r\n>A: 8E WORD 1.5 16", 2),
            (b">A: - +1234567 0", 1),
            (b">A: AEI -7 +0 zero", 1),
        ],
    ),
];

fn fault(line: u32, why: Why) -> ReadFault {
    ReadFault { line, why }
}

fn assert_faults(rt: &impl Abort, alloc: Global, why: Why, rows: &[(&[u8], u32)]) {
    for (text, line) in rows {
        let expected = Err(fault(*line, why));
        assert_eq!(rt; events_in(alloc, text), expected, "{:?}", text);
    }
}

#[test]
fn faults(rt: HostRuntime) {
    for (why, rows) in &FAULTS {
        assert_faults(&rt, rt.alloc(), *why, rows);
    }
}

/// A record, and its last event: the line and the player, the play as records write it, the score and the total.
type Row = (&'static [u8], (u32, Seat), &'static str, (i32, i32));

const PLAYS: [Row; 12] = [
    (
        b"\xef\xbb\xbf#player1 A  Ann Lee\r\n#note x\n>A:\tDORWAAE  8e WORD 16 16\r\n",
        (3, First),
        "8E WORD",
        (16, 16),
    ),
    (b">A: E 9F E(AT) +5 21", (1, First), "9F EAT", (5, 21)),
    (
        b">A: DORWAAE 8E WORD +16 16",
        (1, First),
        "8E WORD",
        (16, 16),
    ),
    (
        b"\xef\xbb\xbf> A :\t8e WOrD  16 16 \t\r\n",
        (1, First),
        "8E WOrD",
        (16, 16),
    ),
    (
        b"#player1 X\r\n\n >C: x\n>A: E8 W(O).(rd) -000007 -0\r",
        (4, Second),
        "E8 WO.rd",
        (-7, 0),
    ),
    (
        b">A: 8E WORD +16 16\n>B: AT 9G AT +9 9",
        (2, Second),
        "9G AT",
        (9, 9),
    ),
    (
        b">A: 8E WORD +16 16\n>B: AT 9G AT +9 9\n>A: 01A A -999999 +999999\n",
        (3, First),
        "1A A",
        (-999_999, 999_999),
    ),
    (
        b">A: 8E WORD +16 16\n>B: AT 9G AT +9 9\n>B: ? o15 ............... 0 0",
        (3, Second),
        "O15 ...............",
        (0, 0),
    ),
    (
        b">A\r: 8E WORD +16 16\n>A: 15a z +1 1\n",
        (2, Second),
        "15A z",
        (1, 1),
    ),
    (
        b">A\t: 08A (A)BCDEFGHIJKLMN +0 -0\r",
        (1, First),
        "8A ABCDEFGHIJKLMN",
        (0, 0),
    ),
    (
        b"#player2 A\n>B: - +0 0\n>A: AEI h08 AT +4 4",
        (3, Second),
        "H8 AT",
        (4, 4),
    ),
    (
        b"#player1 A\n\n>A: 1O .......(........)) -0 +7\r\n",
        (3, First),
        "1O ...............",
        (0, 7),
    ),
];

fn assert_word(rt: &impl Abort, word: &Text, bytes: &[u8]) {
    let symbols = word.as_slice();
    assert_eq!(rt; symbols.len(), bytes.len());
    for (symbol, byte) in symbols.iter().zip(bytes) {
        assert_eq!(rt; symbol.byte(), *byte);
    }
}

fn last_event<'a>(rt: &impl Abort, record: &'a Record) -> &'a Event {
    record.events.as_slice().last().expect(rt, "an event")
}

#[test]
fn plays(rt: HostRuntime) {
    for row in &PLAYS {
        let record = read(rt.alloc(), row.0).expect(&rt, "a record");
        assert_event(&rt, *row, last_event(&rt, &record));
    }
}

fn assert_event(rt: &impl Abort, row: Row, event: &Event) {
    let (text, (line, player), play, numbers) = row;
    let play = text_of(rt, play);
    assert_eq!(rt; event.line, line, "{:?}", text);
    assert!(rt; event.player == player, "{:?}", text);
    match &event.kind {
        EventKind::Play { at, dir, word } => {
            assert_eq!(rt; *at, play.at, "{:?}", text);
            assert!(rt; *dir == play.dir, "{:?}", text);
            assert_word(rt, word, play.symbols);
        }
        _ => assert!(rt; false, "no play"),
    }
    assert_eq!(rt;
        (event.score.value(), event.total.value()),
        numbers,
        "{:?}",
        text
    );
}

/// What a code is read as, with the tiles that it has.
enum Code {
    Pass,
    Withdraw,
    Unknown(u8),
    Exchange(&'static [u8]),
    Challenge,
    Time,
    LastRack(&'static [u8]),
}

/// A record, and its last event: the line, the tiles of the rack (empty if there is none), what happened, and the score and the
/// total.
type CodeRow = (&'static [u8], u32, &'static [u8], Code, (i32, i32));

const CODES: [CodeRow; 13] = [
    (
        b">A: - +0 0\n>B: - +0 0\n>A: AEINRST (AEINRST) -7 -7\n>B: AEINRST (AEINRST) -7 -7",
        4,
        b"AEINRST",
        LastRack(b"AEINRST"),
        (-7, -7),
    ),
    (b">A: - +0 0", 1, b"", Pass, (0, 0)),
    (b">A: DORWAAE - +0 -0\r", 1, b"DORWAAE", Pass, (0, 0)),
    (
        b">A: 8E WORD +16 16\n>A: EAA -- -16 0",
        2,
        b"EAA",
        Withdraw,
        (-16, 0),
    ),
    (b">A: AEI -7 +0 0", 1, b"AEI", Unknown(7), (0, 0)),
    (b">A: -1 0 000000", 1, b"", Unknown(1), (0, 0)),
    (
        b">A: AEINRS? -?EA? +0 12",
        1,
        b"AEINRS?",
        Exchange(b"AE??"),
        (0, 12),
    ),
    (b">A: -Q 0 0", 1, b"", Exchange(b"Q"), (0, 0)),
    (
        b">A: 8E WORD +16 16\n\n>A\t: (challenge)\t+5  21 \t",
        3,
        b"",
        Challenge,
        (5, 21),
    ),
    (b"> A: (time) -10 6\n", 1, b"", Time, (-10, 6)),
    (b">A: (AB?) +4 4", 1, b"", LastRack(b"AB?"), (4, 4)),
    (b">A: (TIME) +12 12", 1, b"", LastRack(b"TIME"), (12, 12)),
    (
        b">A\x00: ZA?ZAZA (ZA?ZAZA) -33 -999999\n",
        1,
        b"ZA?ZAZA",
        LastRack(b"AAAZZZ?"),
        (-33, -999_999),
    ),
];

fn has_tiles(rack: &Counts, tiles: &[u8]) -> bool {
    match tiles_of(tiles) {
        Some(counts) => counts == *rack,
        None => false,
    }
}

fn is_code(kind: &EventKind, code: &Code) -> bool {
    match code {
        Code::Pass => matches!(kind, EventKind::Pass),
        Code::Withdraw => matches!(kind, EventKind::Withdraw),
        Code::Unknown(number) => matches!(kind, EventKind::ExchangeUnknown(read) if read == number),
        Code::Exchange(tiles) =>
            matches!(kind, EventKind::Exchange(read) if has_tiles(read, tiles)),
        Code::Challenge => matches!(kind, EventKind::Challenge),
        Code::Time => matches!(kind, EventKind::Time),
        Code::LastRack(tiles) =>
            matches!(kind, EventKind::LastRack(read) if has_tiles(read, tiles)),
    }
}

fn assert_code(rt: &impl Abort, row: &CodeRow, event: &Event) {
    let (text, line, tiles, code, numbers) = row;
    assert_eq!(rt; event.line, *line, "{:?}", text);
    assert!(rt; is_code(&event.kind, code), "{:?}", text);
    match &event.rack {
        Some(rack) => assert!(rt; has_tiles(rack, tiles), "{:?}", text),
        None => assert!(rt; tiles.is_empty(), "{:?}", text),
    }
    assert_eq!(rt;
        (event.score.value(), event.total.value()),
        *numbers,
        "{:?}",
        text
    );
}

#[test]
fn codes(rt: HostRuntime) {
    for row in &CODES {
        let record = read(rt.alloc(), row.0).expect(&rt, "a record");
        assert_code(&rt, row, last_event(&rt, &record));
    }
}

/// The name of a player whom no line names.
const NOBODY: &str = "";

/// Records, and the names of the first player and then of the second: the nickname, and the full name after it.
const NAMES: [(&[u8], &str, &str); 13] = [
    (
        b"\xef\xbb\xbf#player1 A  Ann Lee\r\n#note x\n>A:\tDORWAAE  8e WORD 16 16\r\n",
        "A Ann Lee",
        NOBODY,
    ),
    (b"#player1 A  Ann Lee\r\n#player2 B", "A Ann Lee", "B"),
    (b"#player2 \tB\t Bo:  Ng \t\n", NOBODY, "B Bo:  Ng"),
    (b"#player1 A:B Ann\n>C: - +0 0", "C", NOBODY),
    (b"#player1 :\n#player1 A Ann", "A Ann", NOBODY),
    (
        b"#player1 A Ann\n#player1 B Bo\n#player2 B Cy",
        "A Ann",
        "B Cy",
    ),
    (
        b"#player1 A Ann\n#player2 B Bo\n#player1 B Bo",
        "A Ann",
        "B Bo",
    ),
    (b">A: - +0 0\n#player1 B Bo\n#player2 A Ann", "A", NOBODY),
    (b"#player2 B Bo\n>A: - +0 0\n>B: - +0 0", "A", "B Bo"),
    (
        b"#player1X A\n#player1\n#player1 \t \n#player11 A\n#player3 A\n#player A",
        NOBODY,
        NOBODY,
    ),
    (
        b"#Player1 A\n# player1 A\n #player1 A\n##player1 A\n#\nplayer1 A",
        NOBODY,
        NOBODY,
    ),
    (
        b"#rack1 A\n#note player1 A\n#lexicon X\n#player1 A\x00 \x00",
        "A\x00 \x00",
        NOBODY,
    ),
    (
        b"\xef\xbb\xbf#player1 A Ann\r\r\n#player2 B\r",
        "A Ann\r",
        "B",
    ),
];

fn assert_player(rt: &impl Abort, player: &Player, names: &str) {
    let (nick, full) = names.split_once(' ').unwrap_or((names, ""));
    assert_eq!(rt; player.nick.as_bytes(), nick.as_bytes());
    assert_eq!(rt; player.full.as_bytes(), full.as_bytes());
}

#[test]
fn pragmas(rt: HostRuntime) {
    for (text, first, second) in &NAMES {
        let players = read(rt.alloc(), text).expect(&rt, "a record").players;
        assert_player(&rt, &players.first, first);
        assert_player(&rt, &players.second, second);
    }
}

/// How many events the record of a text has.
fn events_in(alloc: Global, text: &[u8]) -> Result<usize, ReadFault> {
    let record = read(alloc, text)?;
    Ok(record.events.len())
}

/// Only the rack of the first of two events is known.
fn assert_racks(rt: &impl Abort, events: &[Event]) {
    match events {
        [one, two] => {
            let rack = one.rack.expect(rt, "a rack");
            assert!(rt; has_tiles(&rack, b"?QQ"));
            assert!(rt; two.rack.is_none());
        }
        _ => assert!(rt; false, "two events"),
    }
}

#[test]
fn names_and_racks(rt: HostRuntime) {
    let text = b">Ann Lee\n#x\n>Bo:?QQ A1 Q +0 0\n> Al :A1 Q +0 0\n";
    assert_eq!(rt; events_in(rt.alloc(), text), Err(fault(1, Why::NoColon)));
    let record = read(rt.alloc(), &text[9..]).expect(&rt, "a record");
    assert_player(&rt, record.players.of(First), "Bo");
    assert_player(&rt, record.players.of(Second), "Al");
    assert_racks(&rt, record.events.as_slice());
}

#[test]
fn names_of_faults_and_players(rt: HostRuntime) {
    assert_eq!(rt; Why::TooManyEvents.name(), "TooManyEvents");
    assert_eq!(rt; ReadFault::no_memory().line, 0);
    let name = Name::copied(rt.alloc(), b"Ann").expect(&rt, "memory");
    assert_eq!(rt; name.as_bytes(), b"Ann".as_slice());
    assert_eq!(rt; Name::empty(rt.alloc()).as_bytes().len(), 0);
    assert!(rt; First.other() == Second);
}

#[test]
fn points(rt: HostRuntime) {
    let least = Points::new(-999_999).expect(&rt, "the least number");
    assert_eq!(rt; least.value(), -999_999);
    assert!(rt; Points::new(1_000_000).is_none());
    let number = Points::of_bytes(b"-12").expect(&rt, "a number");
    assert_eq!(rt; number.value(), -12);
}

#[test]
fn texts(rt: HostRuntime) {
    assert!(rt; Text::new(&[]).is_none());
    let text = Text::new(&[Symbol::Dot, Symbol::Dot]).expect(&rt, "a text");
    assert_eq!(rt; text.as_slice().len(), 2);
    assert!(rt; Text::of_bytes(b"A-B").is_none());
}

/// A pass that was made and not read.
fn own_event(rt: &impl Abort) -> Event {
    Event {
        line: 7,
        player: Second,
        rack: Some(Counts::new()),
        kind: EventKind::Pass,
        score: Points::new(0).expect(rt, "0"),
        total: Points::new(5).expect(rt, "5"),
    }
}

#[test]
fn own_records(rt: HostRuntime) {
    let mut record = Record::empty(rt.alloc());
    assert!(rt; record.events.is_empty());
    let event = own_event(&rt);
    record.events.push(event).expect(&rt, "memory");
    assert_eq!(rt; record.events.len(), 1);
    law_of_faults();
    law_of_lines();
}

#[test]
fn unnamed_players(rt: HostRuntime) {
    assert_player(&rt, &Players::unnamed(rt.alloc()).second, NOBODY);
    assert_player(&rt, &Player::unnamed(rt.alloc()), NOBODY);
    assert!(rt; Events::new(rt.alloc()).is_empty());
}
