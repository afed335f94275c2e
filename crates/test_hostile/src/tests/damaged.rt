//! Damaged inputs.
use super::jobs::{Job, WITHDRAWN, attempt, working};
use engine_stages::Verdict;
use test_calls::Call;
use test_samples::AT;

/// Each change of one bit in the file of AT makes it a lexicon other than that of AT.
#[test]
fn single_bits(rt: HostRuntime) {
    for bit in 0..8 * AT.len() {
        let mut file = AT;
        file[bit / 8] ^= 1 << (bit % 8);
        let job = Job {
            call: Call::Check,
            rules: None,
            words: b"AT",
            lexicon: &file,
            game: b"",
            verdict: Verdict::BadFile,
            wrote: b"bad lexicon: ",
        };
        let outcome = attempt(rt.alloc(), &job, &working(8192));
        assert_eq!(rt; outcome.answer, Ok(job.verdict), "bit {bit}");
        assert!(rt; outcome.out.as_slice().starts_with(job.wrote), "bit {bit}");
    }
}

/// Wherever a record is cut off, there is an answer, and it is settled, since there is no exchange.
#[test]
fn cut_records(rt: HostRuntime) {
    for len in 0..WITHDRAWN.game.len() {
        let job = Job {
            call: Call::Judge,
            rules: None,
            words: WITHDRAWN.words,
            lexicon: WITHDRAWN.lexicon,
            game: &WITHDRAWN.game[..len],
            verdict: WITHDRAWN.verdict,
            wrote: b"\n",
        };
        let outcome = attempt(rt.alloc(), &job, &working(8192));
        assert!(rt; outcome.answer.is_ok(), "{len} bytes");
        assert!(rt; outcome.answer != Ok(Verdict::Unsettled), "{len} bytes");
        assert!(rt; outcome.out.as_slice().ends_with(job.wrote), "{len} bytes");
    }
}
