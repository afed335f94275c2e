//! Worked jobs for the calls of the engine.
use engine_stages::{Earlier, GameFault, RunFault, Verdict};
use lex_file::Format;
use ref_tiles::ENGLISH_TEXT;
use std::alloc::Global;
use test_calls::{Before, Call, GameRules, Inputs, Mishap, NEVER, Reads, Sheet, ask};
use test_samples::{AT, AT_BY_NODES, GAD1, file_bytes};

/// The file of the word WORD.
pub const WORD: [u8; 80] = file_bytes![
    GAD1, 16, 13, 1, 0x77, 0xcf, 0x152, 0x64, 0x252, 0x2c0, 0x357, 0x240, 0x457, 0x4cf, 0x2cf,
    0x5c0, 0x184, 0x38f, 0x512, 0x657,
];

/// The file of the words WORD, AT and RA.
pub const WORD_AT_RA: [u8; 108] = file_bytes![
    GAD1, 23, 18, 3, 0x74, 0x80, 0x72, 0x77, 0x24f, 0x2d2, 0x64, 0x3d2, 0x440, 0x4d7, 0x61, 0x3c0,
    0x657, 0x580, 0x6cf, 0x44f, 0x840, 0x101, 0x304, 0x50f, 0x712, 0x594, 0x8d7,
];

/// The file of the word RETAINS.
pub const RETAINS: [u8; 176] = file_bytes![
    GAD1, 40, 34, 1, 0x73, 0xce, 0x149, 0x1c0, 0x252, 0x2c5, 0x354, 0x1c1, 0x454, 0x4c0, 0x552,
    0x140, 0x652, 0x6c5, 0x754, 0x7c1, 0xc0, 0x8d2, 0x945, 0x9d4, 0xa41, 0xac9, 0x4c5, 0xbc0, 0x72,
    0xcc5, 0xd54, 0xdc1, 0xe49, 0xece, 0x440, 0xfd2, 0x1045, 0x381, 0x585, 0x809, 0xb0e, 0xc12,
    0xf13, 0x10d4,
];

/// Rules with 14 tiles, otherwise those of the English game.
#[rattlefmt::skip]
const SHORT_RULES: &[u8] = b"\
tile A 2 1\ntile B 0 3\ntile C 0 3\ntile D 1 2\ntile E 2 1\ntile F 0 4\ntile G 0 2\n\
tile H 0 4\ntile I 1 1\ntile J 0 8\ntile K 0 5\ntile L 0 1\ntile M 0 3\ntile N 1 1\n\
tile O 1 1\ntile P 0 3\ntile Q 0 10\ntile R 2 1\ntile S 1 1\ntile T 2 1\ntile U 0 1\n\
tile V 0 4\ntile W 1 4\ntile X 0 8\ntile Y 0 4\ntile Z 0 10\ntile ? 0 0\n\
row 1 T..d...T...d..T\nrow 2 .D...t...t...D.\nrow 3 ..D...d.d...D..\n\
row 4 d..D...d...D..d\nrow 5 ....D.....D....\nrow 6 .t...t...t...t.\n\
row 7 ..d...d.d...d..\nrow 8 T..d...D...d..T\nrow 9 ..d...d.d...d..\n\
row 10 .t...t...t...t.\nrow 11 ....D.....D....\nrow 12 d..D...d...D..d\n\
row 13 ..D...d.d...D..\nrow 14 .D...t...t...D.\nrow 15 T..d...T...d..T\n\
bonus 50\nexchange_min 7\nzero_limit 6\nchallenge_unit 5\ntime_step 5\n";

/// A call, what its inputs hold, and what is answered and written. An input that the call does not have is empty.
#[derive(Drop)]
pub struct Job<'a> {
    pub call: Call<'a>,
    /// The rules text that a game is judged by; by the English rules if there is none.
    pub rules: Option<&'a [u8]>,
    pub words: &'a [u8],
    pub lexicon: &'a [u8],
    pub game: &'a [u8],
    pub verdict: Verdict,
    pub wrote: &'a [u8],
}

/// A job of empty inputs, by the English rules.
const NO_JOB: Job<'static> = Job {
    call: Call::Tidy,
    rules: None,
    words: b"",
    lexicon: b"",
    game: b"",
    verdict: Verdict::Done,
    wrote: b"",
};

/// A play that is the best one.
pub const ONE_PLAY: Job<'static> = Job {
    call: Call::Judge,
    rules: None,
    words: b"WORD",
    lexicon: &WORD,
    game: b">A: DORWAAE 8E WORD +16 16\n",
    verdict: Verdict::Legal { complete: false },
    wrote: b"legal unfinished\n1 A 8E WORD +16 16 best 8E WORD 16\n",
};

/// A play that is taken back.
pub const WITHDRAWN: Job<'static> = Job {
    words: b"WORD\nAT\nRA",
    lexicon: &WORD_AT_RA,
    game: b">A: DORWAAE 8E WORD +16 16\n>B: AT 9G AT +9 9\n>B: AT -- -9 0\n>A: AT 9G AT +9 25\n",
    wrote: b"legal unfinished\n1 A 8E WORD +16 16 best 8E WORD 16\n2 B 9G AT +9 9 best -\n3 B -- -9 0\n4 A 9G AT +9 25 best - unlisted DT\n",
    ..ONE_PLAY
};

/// Six passes, and both players lose the points of their racks.
pub const STALE: Job<'static> = Job {
    words: b"RETAINS",
    lexicon: &RETAINS,
    game: b">A: - +0 0\n>B: - +0 0\n>A: - +0 0\n>B: - +0 0\n>A: - +0 0\n>B: - +0 0\n>A: AEINRST (AEINRST) -7 -7\n>B: AEINRST (AEINRST) -7 -7\n",
    verdict: Verdict::Legal { complete: true },
    wrote: b"legal complete\n1 A - +0 0 best -\n2 B - +0 0 best -\n3 A - +0 0 best -\n4 B - +0 0 best -\n5 A - +0 0 best -\n6 B - +0 0 best -\n7 A (AEINRST) -7 -7\n8 B (AEINRST) -7 -7\n",
    ..ONE_PLAY
};

/// The one Q is shown again before it can be drawn.
pub const UNSETTLED: Job<'static> = Job {
    game: b">A: Q -Q +0 0\n>B: - +0 0\n>A: Q - +0 0\n",
    verdict: Verdict::Unsettled,
    wrote: b"unsettled\n",
    ..ONE_PLAY
};

/// The same, settled.
pub const NO_DEAL: Job<'static> = Job {
    call: Call::Settle,
    verdict: Verdict::Illegal {
        line: 3,
        fault: GameFault::NoDeal {
            earlier: Earlier::Dealt,
        },
    },
    wrote: b"illegal line 3: NoDeal\n",
    ..UNSETTLED
};

/// Another one, by the text of the English rules: seven other tiles, though six of the old ones stayed.
pub const RULED_NO_DEAL: Job<'static> = Job {
    rules: Some(ENGLISH_TEXT),
    game: b">A: AEINRST -1 +0 0\n>B: - +0 0\n>A: BCDFGHJ - +0 0\n",
    ..NO_DEAL
};

/// A game whose search finds a deal.
pub const SETTLED: Job<'static> = Job {
    call: Call::Settle,
    game: b">A: AEINRST -7 +0 0\n>B: - +0 0\n>A: BCDFGHJ - +0 0\n",
    wrote: b"legal unfinished\n1 A -7 +0 0 best none\n2 B - +0 0 best -\n3 A - +0 0 best none\n",
    ..ONE_PLAY
};

/// The best plays with a blank on the empty board.
pub const BEST_PLAYS: Job<'static> = Job {
    call: Call::Top(b"?A"),
    rules: None,
    words: b"AT",
    lexicon: &AT,
    game: b"",
    verdict: Verdict::Done,
    wrote: b"8G At 2\n8H At 2\nH7 At 2\nH8 At 2\n",
};

/// With 14 tiles the player who laid seven is out, and the other rack is what is left.
pub const RULED: Job<'static> = Job {
    rules: Some(SHORT_RULES),
    game: b">A: AEINRST 8D RETAINS +66 66\n>A: (ADEORTW) +22 88\n",
    wrote: b"legal complete\n1 A 8D RETAINS +66 66 best 8B RETAINS 66\n2 A (ADEORTW) +22 88\n",
    ..STALE
};

/// The best plays with a blank on the empty board, by the text of the English rules.
pub const RULED_PLAYS: Job<'static> = Job {
    rules: Some(ENGLISH_TEXT),
    ..BEST_PLAYS
};

/// The best plays before a line with the rack that it shows.
pub const PLAYS_BEFORE: Job<'static> = Job {
    call: Call::TopBefore(Before {
        rack: None,
        number: 10,
        line: Some(1),
    }),
    game: b">A: ?A 8H At +2 2\n",
    ..BEST_PLAYS
};

/// The same by the text of the English rules.
pub const RULED_PLAYS_BEFORE: Job<'static> = Job {
    rules: Some(ENGLISH_TEXT),
    ..PLAYS_BEFORE
};

/// A lexicon of one word.
pub const BUILT: Job<'static> = Job {
    call: Call::Build,
    words: b"AT",
    wrote: &AT,
    ..NO_JOB
};

/// The same, checked.
pub const CHECKED: Job<'static> = Job {
    call: Call::Check,
    words: b"AT",
    lexicon: &AT,
    wrote: b"ok 1\n",
    ..NO_JOB
};

/// The same lexicon, converted.
pub const CONVERTED: Job<'static> = Job {
    call: Call::Convert(Format::Gad2),
    lexicon: &AT,
    wrote: &AT_BY_NODES,
    ..NO_JOB
};

/// And back.
pub const CONVERTED_BACK: Job<'static> = Job {
    call: Call::Convert(Format::Gad1),
    lexicon: &AT_BY_NODES,
    wrote: &AT,
    ..NO_JOB
};

/// A record with a mark at its front, a note, small letters and blanks.
pub const TIDIED: Job<'static> = Job {
    call: Call::Tidy,
    game: b"\xef\xbb\xbf#player1 A  Ann Lee\r\n#note x\n>A:\tDORWAAE  8e WORD 16 16\r\n",
    wrote: b"#player1 A Ann Lee\n>A: AADEORW 8E WORD +16 16\n",
    ..NO_JOB
};

/// The board of a small record.
#[rattlefmt::skip]
const SMALL_BOARD: &[u8] = b"\
board before line 2\n\
\x20  A B C D E F G H I J K L M N O\n\
\x201 = . . ' . . . = . . . ' . . =\n\
\x202 . - . . . \" . . . \" . . . - .\n\
\x203 . . - . . . ' . ' . . . - . .\n\
\x204 ' . . - . . . ' . . . - . . '\n\
\x205 . . . . - . . . . . - . . . .\n\
\x206 . \" . . . \" . . . \" . . . \" .\n\
\x207 . . ' . . . ' . ' . . . ' . .\n\
\x208 = . . ' W O r D . . . ' . . =\n\
\x209 . . ' . . . ' . ' . . . ' . .\n\
10 . \" . . . \" . . . \" . . . \" .\n\
11 . . . . - . . . . . - . . . .\n\
12 ' . . - . . . ' . . . - . . '\n\
13 . . - . . . ' . ' . . . - . .\n\
14 . - . . . \" . . . \" . . . - .\n\
15 = . . ' . . . = . . . ' . . =\n\
= triple word, - double word, \" triple letter, ' double letter\n\
small letters are blanks\n\
A 14\n\
B 0\n\
rack AEINRST\n\
tiles not on the board: 96\n\
\x20 A 9  B 2  C 2  D 3  E 12  F 2  G 3  H 2  I 9\n\
\x20 J 1  K 1  L 4  M 2  N 6  O 7  P 2  Q 1  R 6\n\
\x20 S 4  T 6  U 4  V 2  W 1  X 1  Y 2  Z 1  ? 1\n";

/// A record whose board is shown.
pub const SHOWN: Job<'static> = Job {
    call: Call::Board(Some(2)),
    game: b">A: DOW? 8E WOrD +14 14\n>B: NRSTAEI - +0 0\n",
    wrote: SMALL_BOARD,
    ..NO_JOB
};

/// The same by the text of the English rules.
pub const RULED_BOARD: Job<'static> = Job {
    rules: Some(ENGLISH_TEXT),
    ..SHOWN
};

/// Those that judge a game.
pub const JUDGED: [Job<'static>; 8] = [
    ONE_PLAY,
    WITHDRAWN,
    STALE,
    UNSETTLED,
    NO_DEAL,
    RULED_NO_DEAL,
    SETTLED,
    RULED,
];

/// All others.
pub const OTHERS: [Job<'static>; 11] = [
    BEST_PLAYS,
    RULED_PLAYS,
    PLAYS_BEFORE,
    RULED_PLAYS_BEFORE,
    BUILT,
    CHECKED,
    CONVERTED,
    CONVERTED_BACK,
    TIDIED,
    SHOWN,
    RULED_BOARD,
];

/// How the devices of a job behave: how its inputs are read, and the number of the write that has a mishap. A write moves at most
/// as many bytes as a read.
#[derive(Clone, Copy, Debug)]
pub struct Manner {
    pub reads: Reads,
    pub writes: usize,
    pub mishap: Mishap,
}

/// Devices that work, and move at most `piece` bytes.
pub fn working(piece: usize) -> Manner {
    Manner {
        reads: Reads::working(piece),
        writes: NEVER,
        mishap: Mishap::Fails,
    }
}

/// The result of a job.
#[derive(Drop)]
pub struct Outcome {
    pub answer: Result<Verdict, RunFault>,
    pub out: Sheet<1024>,
    /// Whether an input failed.
    pub failed: bool,
}

/// Does a job.
pub fn attempt(alloc: Global, job: &Job<'_>, manner: &Manner) -> Outcome {
    let inputs = Inputs {
        rules: match job.rules {
            Some(text) => GameRules::Text(text),
            None => GameRules::English,
        },
        words: job.words,
        lexicon: job.lexicon,
        game: job.game,
    };
    let mut out = Sheet::<1024>::new(manner.reads.piece, manner.writes, manner.mishap);
    let asked = ask(alloc, job.call, &inputs, &manner.reads, &mut out);
    let failed = asked.has_failed();
    Outcome {
        answer: asked.answer,
        out,
        failed,
    }
}
