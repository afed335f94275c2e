//! Inputs at their limits and past them.
ghost use Rattle.io_devices.specs.Devices.{Device, HasRoom};
ghost use Rattle.std.specs.Prelude.{◌≡◌, None};

use engine::run;
use engine_stages::Verdict;
use io_devices::{DeviceFailed, FromRead, FromWrite, Input};
use ref_tiles::english_rules;
use std::alloc::Global;
use std::process::Abort;
use test_samples::EMPTY;

/// An input of a number of line feeds. It counts them as it gives them.
#[derive(Drop)]
struct Feeds {
    remaining: usize,
    given: usize,
}

impl Input for Feeds {
    ghost device = { λ _. record { bytes = None; failures = 0; stalls = 0 } };

    fn read(&mut self, buf: &mut [u8]) -> Result<usize, DeviceFailed> {
        let n = buf.len().min(self.remaining);
        buf[..n].fill(b'\n');
        self.remaining -= n;
        self.given = self.given.wrapping_add(n);
        Ok(n)
    }
}

/// Judges a record of line feeds by a list of line feeds, and gives how many of both were read.
fn judged_feeds(
    rt: &impl Abort,
    alloc: Global,
    words: usize,
    game: usize,
    report: &[u8],
) -> (usize, usize) {
    let mut words = Feeds {
        remaining: words,
        given: 0,
    };
    let mut game = Feeds {
        remaining: game,
        given: 0,
    };
    let mut lexicon = FromRead::new(EMPTY.as_slice());
    let mut out = FromWrite::new(Vec::new(alloc));
    let rules = english_rules();
    let answer = run(alloc, &mut words, &mut lexicon, &mut game, &mut out, &rules);
    assert!(rt; answer.is_ok());
    assert_eq!(rt; out.into_inner().as_slice(), report);
    (words.given, game.given)
}

/// A record of 1 MiB is read. For a longer one, and for a list of more than 16 MiB, one more byte is read, and no further
/// one.
#[test]
fn longest_inputs(rt: HostRuntime) {
    let rows: [(usize, usize, &[u8], (usize, usize)); 3] = [
        (7, 1_048_576, b"legal unfinished\n", (7, 1_048_576)),
        (usize::MAX, 7, b"bad word list: TooLong\n", (16_777_217, 0)),
        (7, usize::MAX, b"bad record: TooLong\n", (7, 1_048_577)),
    ];
    for (words, game, report, given) in rows {
        assert_eq!(rt; judged_feeds(&rt, rt.alloc(), words, game, report), given);
    }
}

/// Passes by two players in turn.
fn passes(rt: &impl Abort, alloc: Global, number: usize) -> Vec<u8> {
    let mut text = Vec::new(alloc);
    for place in 0..number {
        let line: &[u8] = if place % 2 == 0 {
            b">A: - +0 0\n"
        } else {
            b">B: - +0 0\n"
        };
        text.extend_from_slice(line).expect(rt, "memory");
    }
    text
}

/// Judges a record by no words, and gives the verdict and what was written.
fn judged(rt: &impl Abort, alloc: Global, game: &[u8]) -> (Verdict, Vec<u8>) {
    let mut words = FromRead::new(b"".as_slice());
    let mut lexicon = FromRead::new(EMPTY.as_slice());
    let mut game = FromRead::new(game);
    let mut out = FromWrite::new(Vec::new(alloc));
    let rules = english_rules();
    let answer = run(alloc, &mut words, &mut lexicon, &mut game, &mut out, &rules);
    (answer.expect(rt, "a verdict"), out.into_inner())
}

/// A game has at most 1,000 events. The fault of a further line does not matter.
#[test]
fn most_events(rt: HostRuntime) {
    let mut text = passes(&rt, rt.alloc(), 1000);
    let (verdict, report) = judged(&rt, rt.alloc(), &text);
    assert_eq!(rt; verdict, Verdict::Legal { complete: false });
    assert!(rt; report.ends_with(b"\n1000 B - +0 0 best -\n"));
    text.extend_from_slice(b">no colon\n").expect(&rt, "memory");
    let (verdict, report) = judged(&rt, rt.alloc(), &text);
    assert_eq!(rt; verdict, Verdict::BadRecord);
    assert_eq!(rt;
        report.as_slice(),
        b"bad record line 1001: TooManyEvents\n".as_slice()
    );
}
