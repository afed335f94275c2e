//! The normal form of records and events.
use gcg_read::{Event, EventKind, Points, Record, Seat, Text, read};
use gcg_write::{NoMemory, event_text, law_of_round_trip, write};
use ref_board::{Dir, Square};
use ref_tiles::{Letter, Symbol};
use std::alloc::Global;
use std::process::Abort;

/// A record and its normal form.
struct Row {
    text: &'static [u8],
    normal: &'static [u8],
}

const ROWS: [Row; 8] = [
    Row {
        text: b"",
        normal: b"",
    },
    Row {
        text: b"\xef\xbb\xbf#player1 A  Ann Lee\r\n#note x\n>A:\tDORWAAE  8e WORD 16 16\r\n",
        normal: b"#player1 A Ann Lee\n>A: AADEORW 8E WORD +16 16\n",
    },
    Row {
        text: b"#player2 Bo Bob\n#player1 A\n>Bo: ?T? o07 W(O).(rd) -000007 -0",
        normal: b"#player1 A\n#player2 Bo Bob\n>Bo: T?? O7 WO.rd -7 0\n",
    },
    Row {
        text: b">A : 15o z +0 +000000\n\n> Bo:ZA? -?ZA 0 -999999\n",
        normal: b"#player1 A\n#player2 Bo\n>A: 15O z +0 0\n>Bo: AZ? -AZ? +0 -999999\n",
    },
    Row {
        text: b">A: AT 8H AT 4 4\n>B: - -0 0\n>A: ?A -1 0 4\n>B: -7 0 0",
        normal: b"#player1 A\n#player2 B\n>A: AT 8H AT +4 4\n>B: - +0 0\n>A: A? -1 +0 4\n>B: -7 +0 0\n",
    },
    Row {
        text: b"#player1 A Ann\n>B: AT A1 AT 4 4\n>B: -- -4 0\n>A: (challenge) 5 5\n>B: AT (time) -5 -5\n",
        normal: b"#player1 A Ann\n#player2 B\n>B: AT A1 AT +4 4\n>B: -- -4 0\n>A: (challenge) +5 5\n>B: AT (time) -5 -5\n",
    },
    Row {
        text: b">A: (TA?A) +999999 999999\r\n>A: QZQ (Q) -2 12",
        normal: b"#player1 A\n>A: (AAT?) +999999 999999\n>A: QQZ (Q) -2 12\n",
    },
    Row {
        text: b"#player2 \t x\tX  Y\t \n#player1 \xff\x00 ::\n",
        normal: b"#player1 \xff\x00 ::\n#player2 x X  Y\n",
    },
];

/// What is written of a record after these bytes.
fn written(rt: &impl Abort, alloc: Global, record: &Record, front: &[u8]) -> Vec<u8> {
    let mut out = Vec::from_slice(alloc, front).expect(rt, "memory");
    write(record, &mut out).expect(rt, "memory");
    out
}

/// The normal form of the record of a text, after these bytes.
fn normal(rt: &impl Abort, alloc: Global, text: &[u8], front: &[u8]) -> Vec<u8> {
    let record = read(alloc, text).expect(rt, "a record");
    written(rt, alloc, &record, front)
}

#[test]
fn normal_forms(rt: HostRuntime) {
    for row in &ROWS {
        let once = normal(&rt, rt.alloc(), row.text, b"");
        assert_eq!(rt; once.as_slice(), row.normal);
        let twice = normal(&rt, rt.alloc(), &once, b"");
        assert_eq!(rt; twice.as_slice(), row.normal, "read again");
    }
}

#[test]
fn written_after(rt: HostRuntime) {
    let out = normal(&rt, rt.alloc(), b">A: A 8H A. +2 2", b"x");
    assert_eq!(rt;
        out.as_slice(),
        b"x#player1 A\n>A: A 8H A. +2 2\n".as_slice()
    );
}

/// The event, score and total of each line of a record.
const EVENTS: [&[u8]; 8] = [
    b"8E WORD +16 16",
    b"- +0 0",
    b"-AZ? +0 16",
    b"-7 +0 0",
    b"-- -16 0",
    b"(challenge) +5 5",
    b"(time) -10 -5",
    b"(E??) -1 -1",
];

/// What is written of the event at a place.
fn event_written(rt: &impl Abort, alloc: Global, record: &Record, place: usize) -> Vec<u8> {
    assert!(rt; place < record.events.len(), "an event");
    let mut out = Vec::new(alloc);
    event_text(record, place, &mut out).expect(rt, "memory");
    out
}

#[test]
fn event_texts(rt: HostRuntime) {
    let text =
        b">A: 8e WORD 16 16\n>B: - 0 0\n>A: A -Z?A 0 16\n>B: -7 0 0\n>A: -- -16 0\n>B: AB (challenge) 5 5\n>B: (time) -10 -5\n>A: (?E?) -1 -1";
    let record = read(rt.alloc(), text).expect(&rt, "a record");
    for (place, expected) in EVENTS.iter().enumerate() {
        let out = event_written(&rt, rt.alloc(), &record, place);
        assert_eq!(rt; out.as_slice(), *expected);
    }
}

/// A play of a record that was made and not read.
fn own_event(rt: &impl Abort) -> Event {
    let letter = Letter::new(3).expect(rt, "D");
    let word = Text::new(&[Symbol::Dot, Symbol::Blank(letter)]).expect(rt, "a text");
    Event {
        line: 0,
        player: Seat::Second,
        rack: None,
        kind: EventKind::Play {
            at: Square::new(9, 0).expect(rt, "A10"),
            dir: Dir::Down,
            word,
        },
        score: Points::new(0).expect(rt, "0"),
        total: Points::new(-3).expect(rt, "-3"),
    }
}

#[test]
fn own_records(rt: HostRuntime) {
    let mut record = Record::empty(rt.alloc());
    let event = own_event(&rt);
    record.events.push(event).expect(&rt, "memory");
    let out = written(&rt, rt.alloc(), &record, b"");
    assert_eq!(rt; out.as_slice(), b">: A10 .d +0 -3\n".as_slice());
    law_of_round_trip();
}

/// What is written of a record after a byte is the normal form, or nothing if a growth is refused.
fn assert_growth(rt: &impl Abort, alloc: Global, record: &Record, normal: &[u8]) {
    let Ok(mut out) = Vec::from_slice(alloc, b"x") else {
        return;
    };
    match write(record, &mut out) {
        Ok(()) => assert_eq!(rt; &out.as_slice()[1..], normal),
        Err(NoMemory) => assert_eq!(rt; out.as_slice(), b"x".as_slice(), "as it was"),
    }
}

/// Each growth that is refused leaves the output as it was: `rt try --test --fail-alloc N` fails the N-th.
#[test]
fn refused_growths(rt: HostRuntime) {
    for row in &ROWS {
        if let Ok(record) = read(rt.alloc(), row.text) {
            assert_growth(&rt, rt.alloc(), &record, row.normal);
        }
    }
}
