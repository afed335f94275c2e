//! The turns of records: which events stand, and the first fault of the others.
use Answer::{Illegal, Legal};
use Game::{English, Short, Spare, Varied};
use game_turns::RuleFault::{
    BadBonus, BadTime, BonusOnPhony, ExchangeRefused, ExchangeSize, GameOver, LastRackSize,
    NotOver, NotYourTurn, NothingToWithdraw, Play, TooManyUsed, WithdrawnValid, WrongScore,
    WrongTotal,
};
use game_turns::{Machine, RuleFault, Turn, law_of_tallies, play_through};
use gcg_read::{Event, Record, Seat, read};
use lex_list::WordList;
use ref_play::PlayFault::MissesCentre;
use ref_tiles::{Rules, english_rules};
use std::alloc::Global;
use std::process::Abort;
use test_samples::tiles_of;

/// Which rules a row is judged by.
#[derive(Clone, Copy)]
enum Game {
    /// The English game.
    English,
    /// The English game with 14 tiles: two each of A, E, R and T, one each of D, I, N, O, S and W.
    Short,
    /// The same with three more A, and exchanges from a bag of one tile on.
    Spare,
    /// The English game with a zero run of 4 turns, 10 points a challenged word, and time penalties in steps of 10.
    Varied,
}

/// The answer for a row.
#[derive(Clone, Copy, Debug, PartialEq, Eq)]
enum Answer {
    /// Every line is allowed; the game is complete, or not.
    Legal(bool),
    /// The first line that is not allowed, and its fault.
    Illegal(u32, RuleFault),
}

/// Lines of a record.
type Lines = &'static [&'static [u8]];

/// The rules and the list that records are judged by, the lines with which all of them begin, and the lines of each after these, with
/// the answer for that record.
type Table = (Game, &'static [u8], Lines, &'static [(Lines, Answer)]);

const WORD: &[u8] = b">A: DORWAAE 8E WORD +16 16";

const AT: &[u8] = b">B: AT 9G AT +9 9";

const TAKEN: &[u8] = b">B: AT -- -9 0";

const PASS_A: &[u8] = b">A: - +0 0";

const PASS_B: &[u8] = b">B: - +0 0";

const SIX_PASSES: Lines = &[PASS_A, PASS_B, PASS_A, PASS_B, PASS_A, PASS_B];

const FIVE_PASSES: Lines = &[PASS_A, PASS_B, PASS_A, PASS_B, PASS_A];

const LOSES_A: &[u8] = b">A: AEINRST (AEINRST) -7 -7";

const LOSES_B: &[u8] = b">B: AEINRST (AEINRST) -7 -7";

const RETAINS: &[u8] = b">A: AEINRST 8D RETAINS +66 66";

const BACK: &[u8] = b">A: -- -66 0";

const IDLE: &[u8] = b">B: ADEORTW - +0 0";

const GAINS: &[u8] = b">A: (ADEORTW) +22 88";

const EARLY: &[u8] = b">A: (challenge) +5 5";

const LISTED: &[u8] = b"WORD\nAT\nRA";

const ALL_LISTED: &[u8] = b"WORD\nAT\nRA\nDT";

/// Plays, turns, scores and totals.
const PLAYS: [Table; 2] = [
    (
        English,
        LISTED,
        &[],
        &[
            (&[WORD, AT], Legal(false)),
            (&[], Legal(false)),
            (&[WORD, b">A: - +0 16"], Illegal(2, NotYourTurn)),
            (
                &[b">A: DORWAAE 8D WORD +16 16"],
                Illegal(1, Play(MissesCentre)),
            ),
            (&[b">A: DOW? 8E WOrD +16 16"], Illegal(1, WrongScore(14))),
            (&[b">A: DORWAAE 8E WORD +16 17"], Illegal(1, WrongTotal(16))),
            (&[WORD, b"", b">B: - +5 5"], Illegal(3, WrongScore(0))),
            (
                &[b">A: AEI -5 +0 0", b">B: QU - +0 0", b">A: SX - +0 0"],
                Legal(false),
            ),
            (
                &[
                    WORD,
                    PASS_B,
                    b">A: 7E A +5 21",
                    PASS_B,
                    b">A: (time) -10 11",
                    b">A: - +0 11",
                ],
                Legal(false),
            ),
        ],
    ),
    (
        Short,
        LISTED,
        &[],
        &[(
            &[b">A: 8H AT +4 4", PASS_B, b">A: 9H ABCDEF +0 4"],
            Illegal(3, TooManyUsed),
        )],
    ),
];

/// Exchanges.
const EXCHANGES: [Table; 2] = [
    (
        Short,
        LISTED,
        &[],
        &[(&[b">A: AEINRST -AE +0 0"], Illegal(1, ExchangeRefused))],
    ),
    (
        Spare,
        LISTED,
        &[],
        &[
            (&[b">A: AEINRST -5 +0 0"], Illegal(1, ExchangeSize)),
            (&[b">A: AEINRST -AEI +0 0"], Legal(false)),
        ],
    ),
];

/// Withdrawals.
const WITHDRAWALS: [Table; 3] = [
    (
        English,
        LISTED,
        &[WORD, AT],
        &[
            (&[TAKEN, b">A: AT 9G AT +9 25"], Legal(false)),
            (&[TAKEN, b">B: AT 9G AT +9 9"], Illegal(4, NotYourTurn)),
            (
                &[b">B: (time) -5 4", b">B: AT -- -9 -5"],
                Illegal(4, NothingToWithdraw),
            ),
            (&[b">A: -- -9 7"], Illegal(3, NothingToWithdraw)),
        ],
    ),
    (
        English,
        ALL_LISTED,
        &[WORD, AT],
        &[(&[TAKEN], Illegal(3, WithdrawnValid))],
    ),
    (
        English,
        LISTED,
        &[],
        &[(&[b">A: -- +0 0"], Illegal(1, NothingToWithdraw))],
    ),
];

/// Unsuccessful challenges.
const CHALLENGES: [Table; 4] = [
    (
        English,
        LISTED,
        &[WORD, AT],
        &[
            (&[b">B: AT (challenge) +5 14"], Legal(false)),
            (&[b">B: AT (challenge) +10 19"], Legal(false)),
            (&[b">B: AT (challenge) +15 24"], Illegal(3, BadBonus)),
            (
                &[b">B: (time) -5 4", b">B: (challenge) +5 9"],
                Illegal(4, BadBonus),
            ),
        ],
    ),
    (
        English,
        ALL_LISTED,
        &[WORD, AT],
        &[
            (&[b">B: AT (challenge) +15 24"], Legal(false)),
            (&[b">B: AT (challenge) +20 29"], Illegal(3, BadBonus)),
        ],
    ),
    (
        English,
        b"WORD",
        &[WORD, AT],
        &[(&[b">B: AT (challenge) +5 14"], Illegal(3, BonusOnPhony))],
    ),
    (English, LISTED, &[], &[(&[EARLY], Illegal(1, BadBonus))]),
];

/// Games that a player ends by going out.
const OUT: [Table; 2] = [
    (
        Short,
        b"RETAINS",
        &[RETAINS],
        &[
            (&[GAINS], Legal(true)),
            (&[IDLE, GAINS, b">A: (time) -5 83"], Legal(true)),
            (&[IDLE, GAINS, b">A: (time) -7 81"], Illegal(4, BadTime)),
            (
                &[IDLE, GAINS, b">A: (time) -5 83", b">A: (time) -5 78"],
                Illegal(5, BadTime),
            ),
            (&[IDLE, IDLE], Illegal(3, GameOver)),
            (&[b">A: (ADEORW) +20 86"], Illegal(2, LastRackSize)),
            (&[b">B: (ADEORTW) +22 22"], Illegal(2, NotYourTurn)),
            (&[b">A: (ADEORTW) +11 77"], Illegal(2, WrongScore(22))),
            (&[GAINS, b">A: (ADEORTW) +22 110"], Illegal(3, GameOver)),
            (
                &[b">A: (challenge) +5 71", b">A: (ADEORTW) +22 93"],
                Legal(true),
            ),
        ],
    ),
    (
        Short,
        b"AT",
        &[RETAINS, BACK],
        &[
            (&[IDLE, b">A: AEINRST - +0 0"], Legal(false)),
            (&[b">A: (ADEORTW) +22 22"], Illegal(3, NotOver)),
        ],
    ),
];

/// Games that end by turns without a play that stands.
const STALE: [Table; 2] = [
    (
        English,
        b"RETAINS",
        SIX_PASSES,
        &[
            (&[LOSES_A, LOSES_B], Legal(true)),
            (&[LOSES_B, LOSES_A], Legal(true)),
            (&[LOSES_A, b">B: - +0 0"], Illegal(8, GameOver)),
            (&[LOSES_A, b">A: (AEINRST) -7 -14"], Illegal(8, GameOver)),
            (&[b">A: (???????) +0 0"], Legal(false)),
            (&[b">A: (??????) +0 0"], Illegal(7, LastRackSize)),
        ],
    ),
    (
        English,
        b"RETAINS",
        FIVE_PASSES,
        &[
            (&[LOSES_B], Illegal(6, NotOver)),
            (&[b">B: 8G aa +0 0", PASS_A, LOSES_B], Illegal(8, NotOver)),
            (
                &[b">B: 8G AA +4 4", b">B: -- -4 0", LOSES_A, LOSES_B],
                Legal(true),
            ),
        ],
    ),
];

/// Games by numbers that are not the English ones.
const VARIED: [Table; 2] = [
    (
        Varied,
        b"RETAINS",
        &[PASS_A, PASS_B, PASS_A],
        &[
            (&[PASS_B, LOSES_A, LOSES_B], Legal(true)),
            (&[LOSES_B], Illegal(4, NotOver)),
        ],
    ),
    (
        Varied,
        LISTED,
        &[WORD],
        &[
            (&[AT, b">B: AT (challenge) +5 14"], Illegal(3, BadBonus)),
            (&[AT, b">B: AT (challenge) +20 29"], Legal(false)),
            (&[AT, b">B: AT (challenge) +30 39"], Illegal(3, BadBonus)),
            (&[b">A: (time) -20 -4"], Legal(false)),
            (&[b">A: (time) -5 11"], Illegal(2, BadTime)),
        ],
    ),
];

fn rules_of(rt: &impl Abort, game: Game) -> Rules {
    let mut parts = english_rules().parts();
    match game {
        English => (),
        Short => parts.counts = tiles_of(b"AADEEINORRSTTW").expect(rt, "tiles"),
        Spare => {
            parts.counts = tiles_of(b"AAAAADEEINORRSTTW").expect(rt, "tiles");
            parts.exchange_min = 1;
        }
        Varied => {
            parts.zero_limit = 4;
            parts.challenge_unit = 10;
            parts.time_step = 10;
        }
    }
    Rules::checked(parts).expect(rt, "rules")
}

/// The record of these lines, one part after the other.
fn record_of(rt: &impl Abort, alloc: Global, front: &[&[u8]], following: &[&[u8]]) -> Record {
    let mut text = Vec::new(alloc);
    for line in front.iter().chain(following) {
        text.extend_from_slice(line).expect(rt, "memory");
        text.push(b'\n').expect(rt, "memory");
    }
    read(alloc, &text).expect(rt, "a record")
}

fn list_of(rt: &impl Abort, alloc: Global, words: &[u8]) -> WordList {
    WordList::read(alloc, words).expect(rt, "a word list")
}

/// The answer for a record. What passed lends the rules, a record of as many events as there are lines, and the list.
fn answer_of(
    rt: &impl Abort,
    rules: &Rules,
    record: &Record,
    list: &WordList,
    lines: usize,
) -> Answer {
    match play_through(rules, record, list) {
        Ok(passed) => {
            assert!(rt; passed.rules() == rules);
            assert_eq!(rt;
                (passed.record().events.len(), passed.list().len()),
                (lines, list.len())
            );
            Legal(passed.complete())
        }
        Err((line, fault)) => Illegal(line, fault),
    }
}

fn assert_table(rt: &impl Abort, alloc: Global, table: Table) {
    let (game, words, front, rows) = table;
    let rules = rules_of(rt, game);
    let list = list_of(rt, alloc, words);
    for (following, expected) in rows {
        let record = record_of(rt, alloc, front, following);
        let lines = front.len().saturating_add(following.len());
        let answer = answer_of(rt, &rules, &record, &list, lines);
        assert_eq!(rt; answer, *expected, "{:?} {:?}", front, following);
    }
}

fn assert_answers(rt: &impl Abort, alloc: Global, tables: &[Table]) {
    for table in tables {
        assert_table(rt, alloc, *table);
    }
}

/// All tables: each test function costs a proof of its own, and a row costs none.
const TABLES: [&[Table]; 7] = [
    &PLAYS,
    &EXCHANGES,
    &WITHDRAWALS,
    &CHALLENGES,
    &OUT,
    &STALE,
    &VARIED,
];

#[test]
fn tables(rt: HostRuntime) {
    for tables in TABLES {
        assert_answers(&rt, rt.alloc(), tables);
    }
}

/// The event at a place of a record.
fn event<'a>(rt: &impl Abort, record: &'a Record, place: usize) -> &'a Event {
    record.events.as_slice().get(place).expect(rt, "an event")
}

/// What is said of a machine and one player.
#[derive(Clone, Copy, Debug, PartialEq, Eq)]
struct Reported {
    bag: usize,
    rack: usize,
    total: i32,
    tiles: usize,
    words: usize,
    finished: bool,
}

fn look_at(machine: &Machine, player: Seat) -> Reported {
    Reported {
        bag: machine.bag_size(),
        rack: machine.rack_size(player),
        total: machine.total(player),
        tiles: machine.last_play().map_or(0, |play| play.tiles.len()),
        words: machine.standing_words().len(),
        finished: machine.finished(),
    }
}

const START: Reported = Reported {
    bag: 86,
    rack: 7,
    total: 0,
    tiles: 0,
    words: 0,
    finished: false,
};

const WAITING: Reported = Reported {
    rack: 3,
    total: 16,
    tiles: 4,
    ..START
};

const STANDING: Reported = Reported {
    bag: 82,
    total: 16,
    tiles: 4,
    words: 1,
    ..START
};

const TAKEN_BACK: Reported = Reported { tiles: 4, ..START };

/// Asserts what a step answers, and what is said of the machine and the first player after it.
fn assert_step(
    rt: &impl Abort,
    machine: &mut Machine,
    event: &Event,
    next: Option<&Event>,
    list: &WordList,
    answer: Result<Turn, RuleFault>,
    reported: Reported,
) {
    assert_eq!(rt; machine.step(event, next, list), answer);
    assert_eq!(rt; look_at(machine, Seat::First), reported);
}

/// The answer for a withdrawal that has nothing to withdraw, and for what comes before one.
const REFUSED: Result<Turn, RuleFault> = Err(RuleFault::NothingToWithdraw);

/// The answer for an event that is taken: whether it is a turn, the rack before it, and whether it stands.
fn taken(counted: bool, rack_size: usize, stands: bool) -> Result<Turn, RuleFault> {
    Ok(Turn {
        counted,
        rack_size,
        stands,
    })
}

#[test]
fn a_play_taken_back(rt: HostRuntime) {
    let list = list_of(&rt, rt.alloc(), b"AT");
    let record = record_of(
        &rt,
        rt.alloc(),
        &[],
        &[WORD, b">A: -- -16 0", b">A: - +0 16"],
    );
    let play = event(&rt, &record, 0);
    let back = event(&rt, &record, 1);
    let pass = event(&rt, &record, 2);
    let mut machine = Machine::new(&english_rules());
    assert_eq!(rt; look_at(&machine, Seat::First), START);
    assert!(rt; machine.board().is_empty());
    let waits = taken(false, 7, false);
    assert_step(&rt, &mut machine, play, Some(back), &list, waits, WAITING);
    assert_step(&rt, &mut machine, pass, None, &list, REFUSED, WAITING);
    let counts = taken(true, 3, false);
    assert_step(&rt, &mut machine, back, None, &list, counts, TAKEN_BACK);
    assert!(rt; machine.board().is_empty());
}

#[test]
fn a_play_that_stands(rt: HostRuntime) {
    let list = list_of(&rt, rt.alloc(), b"AT");
    let record = record_of(&rt, rt.alloc(), &[], &[WORD, b">A: -- -16 0"]);
    let play = event(&rt, &record, 0);
    let back = event(&rt, &record, 1);
    let mut machine = Machine::new(&english_rules());
    let stands = taken(true, 7, true);
    assert_step(&rt, &mut machine, play, None, &list, stands, STANDING);
    assert_step(&rt, &mut machine, back, None, &list, REFUSED, STANDING);
    law_of_tallies();
}
