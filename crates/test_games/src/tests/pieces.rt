//! What calls of the engine report, however few bytes a read of their inputs gives.
use engine_stages::Verdict;
use io_devices::FromWrite;
use ref_tiles::ENGLISH_TEXT;
use std::alloc::Global;
use std::process::Abort;
use test_calls::{Call, GameRules, Inputs, Reads, ask};

/// What a call reports of its inputs: the verdict and what was written. Bytes read one by one and seven at once give the same, and so
/// do the English rules as a text.
pub fn reported_of(
    rt: &impl Abort,
    alloc: Global,
    call: Call<'_>,
    inputs: &Inputs<'_>,
) -> (Verdict, Vec<u8>) {
    let reported = reported_in_pieces(rt, alloc, call, inputs, usize::MAX);
    for piece in [1, 7] {
        let again = reported_in_pieces(rt, alloc, call, inputs, piece);
        assert_same(rt, &reported, &again);
        if let GameRules::English = inputs.rules {
            let ruled = reported_in_pieces(rt, alloc, call, &by_text(inputs), piece);
            assert_same(rt, &reported, &ruled);
        }
    }
    reported
}

/// The same inputs with the English rules as a text.
fn by_text<'a>(inputs: &Inputs<'a>) -> Inputs<'a> {
    Inputs {
        rules: GameRules::Text(ENGLISH_TEXT),
        ..*inputs
    }
}

/// What a call reports of inputs that give at most `piece` bytes a read.
pub fn reported_in_pieces(
    rt: &impl Abort,
    alloc: Global,
    call: Call<'_>,
    inputs: &Inputs<'_>,
    piece: usize,
) -> (Verdict, Vec<u8>) {
    let mut out = FromWrite::new(Vec::new(alloc));
    let asked = ask(alloc, call, inputs, &Reads::working(piece), &mut out);
    (asked.answer.expect(rt, "a verdict"), out.into_inner())
}

/// Asserts that a call gave the same verdict and output.
fn assert_same(rt: &impl Abort, reported: &(Verdict, Vec<u8>), again: &(Verdict, Vec<u8>)) {
    assert_eq!(rt; again.0, reported.0);
    assert_eq!(rt; again.1.as_slice(), reported.1.as_slice());
}
