//! Devices that fail, or move few bytes at a time.
ghost use Rattle.std.specs.Prelude.{◌<◌};

use super::jobs::{JUDGED, Job, OTHERS, attempt, working};
use engine_stages::RunFault;
use std::alloc::Global;
use std::process::Abort;
use test_calls::{Call, Mishap, NEVER};

/// Whether a job reads the words, the lexicon, the record and the rules text.
fn inputs_of(job: &Job<'_>) -> [bool; 4] {
    match job.call {
        Call::Judge | Call::Settle | Call::Top(_) | Call::TopBefore(_) => {
            [true, true, true, job.rules.is_some()]
        }
        Call::Build => [true, false, false, false],
        Call::Check => [true, true, false, false],
        Call::Convert(_) => [false, true, false, false],
        Call::Tidy => [false, false, true, false],
        Call::Board(_) => [false, false, true, job.rules.is_some()],
    }
}

/// Lets each read of an input fail once, while the other reads work, and returns how many reads there were.
fn each_read_fails(rt: &impl Abort, alloc: Global, job: &Job<'_>, input: usize) -> usize
    requires { input < 4 }
{
    for read in 0..1000 {
        let mut manner = working(7);
        manner.reads.failing[input] = read;
        let outcome = attempt(alloc, job, &manner);
        if !outcome.failed {
            assert_eq!(rt; outcome.answer, Ok(job.verdict));
            assert_eq!(rt; outcome.out.as_slice(), job.wrote);
            return read;
        }
        assert_eq!(rt; outcome.answer, Err(RunFault::ReadFailed));
        assert!(rt; outcome.out.as_slice().is_empty());
    }
    NEVER
}

/// Asserts that a job reads the inputs of its call, and fails with each read of them.
fn assert_reads(rt: &impl Abort, alloc: Global, job: &Job<'_>) {
    let read = inputs_of(job);
    for input in 0..4 {
        let reads = each_read_fails(rt, alloc, job, input);
        assert_eq!(rt; reads > 0, read[input], "{:?} {input}", job.call);
    }
}

#[test]
fn failing_reads(rt: HostRuntime) {
    for job in JUDGED.iter().chain(&OTHERS) {
        assert_reads(&rt, rt.alloc(), job);
    }
}

/// Lets each write have a mishap once, while the other writes work, and returns how many writes there were.
fn each_write_fails(rt: &impl Abort, alloc: Global, job: &Job<'_>, mishap: Mishap) -> usize {
    for write in 0..1000 {
        let mut manner = working(3);
        manner.writes = write;
        manner.mishap = mishap;
        let outcome = attempt(alloc, job, &manner);
        let wrote = outcome.out.as_slice();
        if !outcome.out.has_failed() {
            assert_eq!(rt; outcome.answer, Ok(job.verdict));
            assert_eq!(rt; wrote, job.wrote);
            return write;
        }
        assert_eq!(rt; outcome.answer, Err(RunFault::WriteFailed));
        assert_eq!(rt; wrote.len(), 3 * write);
        assert!(rt; job.wrote.starts_with(wrote));
    }
    NEVER
}

/// Asserts that a job fails with each write: three bytes a write, as many writes as the output has threes, and one for the rest.
fn assert_writes(rt: &impl Abort, alloc: Global, job: &Job<'_>) {
    for mishap in [Mishap::Fails, Mishap::TakesNone] {
        let writes = each_write_fails(rt, alloc, job, mishap);
        assert_eq!(rt; writes, job.wrote.len().div_ceil(3), "{mishap:?}");
    }
}

#[test]
fn failing_writes(rt: HostRuntime) {
    for job in JUDGED.iter().chain(&OTHERS) {
        assert_writes(&rt, rt.alloc(), job);
    }
}
