//! The calls that read or write a lexicon file, over memory.
ghost use Rattle.io_devices.specs.Devices.{Device};
ghost use Rattle.std.specs.Prelude.{None};

use super::games::judged_by;
use super::pieces::reported_of;
use engine::run_check;
use engine_stages::Verdict;
use io_devices::{DeviceFailed, FromRead, FromWrite, Input};
use std::alloc::Global;
use std::process::Abort;
use test_calls::{Call, Inputs, NO_INPUTS};
use test_samples::{AT, AT_IT, EMPTY};

/// Asserts a verdict and what was written.
pub fn expect(rt: &impl Abort, reported: &(Verdict, Vec<u8>), verdict: Verdict, written: &[u8]) {
    assert_eq!(rt; reported.0, verdict);
    assert_eq!(rt; reported.1.as_slice(), written);
}

/// Checks the bytes of a file by words, and gives the verdict and what was written.
pub fn checked_bytes<'a>(
    rt: &impl Abort,
    alloc: Global,
    words: &'a [u8],
    lexicon: &'a [u8],
) -> (Verdict, Vec<u8>) {
    let inputs = Inputs {
        words,
        lexicon,
        ..NO_INPUTS
    };
    reported_of(rt, alloc, Call::Check, &inputs)
}

/// A word list, a file, and what is written of their check.
struct Check {
    words: &'static str,
    lexicon: &'static [u8],
    verdict: Verdict,
    report: &'static str,
}

const CHECKS: [Check; 8] = [
    Check {
        words: "AT",
        lexicon: &AT,
        verdict: Verdict::Done,
        report: "ok 1\n",
    },
    Check {
        words: "it\nAT\nAt",
        lexicon: &AT_IT,
        verdict: Verdict::Done,
        report: "ok 2\n",
    },
    Check {
        words: "",
        lexicon: &EMPTY,
        verdict: Verdict::Done,
        report: "ok 0\n",
    },
    Check {
        words: "AT",
        lexicon: &AT_IT,
        verdict: Verdict::BadFile,
        report: "bad lexicon: Extra I\n",
    },
    Check {
        words: "AT\nIT",
        lexicon: &AT,
        verdict: Verdict::BadFile,
        report: "bad lexicon: Missing I+T\n",
    },
    Check {
        words: "",
        lexicon: b"",
        verdict: Verdict::BadFile,
        report: "bad lexicon: Short\n",
    },
    Check {
        words: "AT\nA1",
        lexicon: b"",
        verdict: Verdict::BadList,
        report: "bad word list line 2: BadLetter\n",
    },
    Check {
        words: "A",
        lexicon: &AT,
        verdict: Verdict::BadList,
        report: "bad word list line 1: BadLength\n",
    },
];

#[test]
fn checks(rt: HostRuntime) {
    for row in &CHECKS {
        let reported = checked_bytes(&rt, rt.alloc(), row.words.as_bytes(), row.lexicon);
        expect(&rt, &reported, row.verdict, row.report.as_bytes());
    }
}

/// An input of zeros without an end. It counts them as it gives them.
#[derive(Drop)]
struct Zeros {
    given: usize,
}

impl Input for Zeros {
    ghost device = { λ _. record { bytes = None; failures = 0; stalls = 0 } };

    fn read(&mut self, buf: &mut [u8]) -> Result<usize, DeviceFailed> {
        buf.fill(0);
        self.given = self.given.saturating_add(buf.len());
        Ok(buf.len())
    }
}

#[test]
fn too_long(rt: HostRuntime) {
    let mut zeros = Zeros { given: 0 };
    let mut words = FromRead::new(b"AT".as_slice());
    let mut out = FromWrite::new(Vec::new(rt.alloc()));
    let verdict = run_check(rt.alloc(), &mut words, &mut zeros, &mut out);
    let reported = (verdict.expect(&rt, "a verdict"), out.into_inner());
    expect(&rt, &reported, Verdict::BadFile, b"bad lexicon: Length\n");
    assert_eq!(rt; zeros.given, 268_435_469);
}

/// A word list, a lexicon and a record, and what is written of them.
struct Game {
    words: &'static str,
    lexicon: &'static [u8],
    game: &'static str,
    verdict: Verdict,
    report: &'static str,
}

const GAMES: [Game; 6] = [
    Game {
        words: "AT",
        lexicon: &AT,
        game: ">A: AEI -5 +0 0\n",
        verdict: Verdict::Legal { complete: false },
        report: "legal unfinished\n1 A -5 +0 0 best -\n",
    },
    Game {
        words: "AT",
        lexicon: &AT,
        game: ">A B: AEI -5 +0 0\n",
        verdict: Verdict::BadRecord,
        report: "bad record line 1: NoColon\n",
    },
    Game {
        words: "AT",
        lexicon: b"GAD1",
        game: ">A B: AEI -5 +0 0\n",
        verdict: Verdict::BadFile,
        report: "bad lexicon: Short\n",
    },
    Game {
        words: "AT",
        lexicon: &AT_IT,
        game: ">A: AEI -5 +0 0\n",
        verdict: Verdict::BadFile,
        report: "bad lexicon: Extra I\n",
    },
    Game {
        words: "AT\nIT",
        lexicon: &AT,
        game: ">A: AEI -5 +0 0\n",
        verdict: Verdict::BadFile,
        report: "bad lexicon: Missing I+T\n",
    },
    Game {
        words: "A1",
        lexicon: b"GAD1",
        game: ">A B: AEI -5 +0 0\n",
        verdict: Verdict::BadList,
        report: "bad word list line 1: BadLetter\n",
    },
];

#[test]
fn games(rt: HostRuntime) {
    for row in &GAMES {
        let inputs = Inputs {
            words: row.words.as_bytes(),
            lexicon: row.lexicon,
            game: row.game.as_bytes(),
            ..NO_INPUTS
        };
        let reported = judged_by(&rt, rt.alloc(), &inputs);
        expect(&rt, &reported, row.verdict, row.report.as_bytes());
    }
}

/// A word list, and what is built from it.
struct Build {
    words: &'static str,
    verdict: Verdict,
    bytes: &'static [u8],
}

const BUILDS: [Build; 4] = [
    Build {
        words: "AT",
        verdict: Verdict::Done,
        bytes: &AT,
    },
    Build {
        words: "it\nAT\nAt\n",
        verdict: Verdict::Done,
        bytes: &AT_IT,
    },
    Build {
        words: "",
        verdict: Verdict::Done,
        bytes: &EMPTY,
    },
    Build {
        words: "AT\nA1",
        verdict: Verdict::BadList,
        bytes: b"bad word list line 2: BadLetter\n",
    },
];

#[test]
fn builds(rt: HostRuntime) {
    for row in &BUILDS {
        let inputs = Inputs {
            words: row.words.as_bytes(),
            ..NO_INPUTS
        };
        let reported = reported_of(&rt, rt.alloc(), Call::Build, &inputs);
        expect(&rt, &reported, row.verdict, row.bytes);
    }
}
