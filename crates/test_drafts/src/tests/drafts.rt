//! What the lines of drafts lack, the text that is read, and faults.
use gcg_drafts::{Amiss, Missing, amiss_on, law_of_drafts, read_draft};
use gcg_read::Why;
use std::process::Abort;

/// Drafts of one event, what its line lacks, and the text that is read.
const LINES: [(&[u8], Missing, &[u8]); 17] = [
    (
        b">A: DORWAAE 8E WORD",
        Missing::Both,
        b">A: DORWAAE 8E WORD +0 0",
    ),
    (
        b">A: DORWAAE 8E WORD +16",
        Missing::Total,
        b">A: DORWAAE 8E WORD +16 0",
    ),
    (
        b">A: DORWAAE 8E WORD +16 16",
        Missing::Nothing,
        b">A: DORWAAE 8E WORD +16 16",
    ),
    (b">A: 8E WORD", Missing::Both, b">A: 8E WORD +0 0"),
    (b">A: E8 WORD 16", Missing::Total, b">A: E8 WORD 16 0"),
    (b">A: -", Missing::Both, b">A: - +0 0"),
    (b">A: --", Missing::Both, b">A: -- +0 0"),
    (b">A: -3", Missing::Both, b">A: -3 +0 0"),
    (
        b">A: AEINRST -AEI +0",
        Missing::Total,
        b">A: AEINRST -AEI +0 0",
    ),
    (b">A: (DEL)", Missing::Both, b">A: (DEL) +0 0"),
    (
        b">A: (challenge) +5",
        Missing::Total,
        b">A: (challenge) +5 0",
    ),
    (
        b">A: AEINRST (time) -10",
        Missing::Total,
        b">A: AEINRST (time) -10 0",
    ),
    (b">A: 8E WORD ", Missing::Both, b">A: 8E WORD +0 0"),
    (
        b">A:\t8E\tWORD\t\r\n",
        Missing::Both,
        b">A:\t8E\tWORD\t+0 0\r\n",
    ),
    (
        b"\xef\xbb\xbf>A: 8E WORD\n",
        Missing::Both,
        b"\xef\xbb\xbf>A: 8E WORD +0 0\n",
    ),
    (
        b"#note >A: -\r\n>A: -\r\n#note >A: -",
        Missing::Both,
        b"#note >A: -\r\n>A: - +0 0\r\n#note >A: -",
    ),
    (b">A:8E (W)ORD", Missing::Both, b">A:8E (W)ORD +0 0"),
];

#[test]
fn lines(rt: HostRuntime) {
    law_of_drafts();
    for (text, missing, whole) in LINES {
        let draft = read_draft(rt.alloc(), text).expect(&rt, "a draft");
        assert_eq!(rt; draft.text.as_slice(), whole, "{:?}", text);
        assert_eq!(rt;
            draft.missing.as_slice(),
            [missing].as_slice(),
            "{:?}",
            text
        );
        assert_eq!(rt; draft.record.events.len(), 1, "{:?}", text);
    }
}

#[test]
fn several_lines(rt: HostRuntime) {
    let text = b"#player1 A\n>A: 8E WORD +16 16\nx\n>B: -\n>A: 9E AT +9\n";
    let draft = read_draft(rt.alloc(), text).expect(&rt, "a draft");
    let lacks = [Missing::Nothing, Missing::Both, Missing::Total];
    assert_eq!(rt; draft.missing.as_slice(), lacks.as_slice());
    assert_eq!(rt; draft.record.events.len(), 3);
}

/// Texts that are no drafts: the line and the name of the first fault.
const FAULTS: [(&[u8], u32, Why); 12] = [
    (b">A: DORWAAE", 1, Why::Fields),
    (b">A:", 1, Why::Fields),
    (b">A: 8E", 1, Why::Fields),
    (b">A: -\n>B: (time)", 2, Why::Fields),
    (b">A: A 8E WORD +16 16 16", 1, Why::Fields),
    (b">A B: 8E WORD", 1, Why::NoColon),
    (b">A: -\n>B: -\n>C: -", 3, Why::ThirdPlayer),
    (b">A: AAAAAAAA 8E WORD", 1, Why::Rack),
    (b">A: 16A AT", 1, Why::Position),
    (b">A: 8E W0RD", 1, Why::Word),
    (b">A: -8", 1, Why::Code),
    (b">A: 8E WORD x", 1, Why::Number),
];

#[test]
fn faults(rt: HostRuntime) {
    for (text, line, why) in FAULTS {
        match read_draft(rt.alloc(), text) {
            Ok(_) => assert!(rt; false, "{:?}", text),
            Err(fault) => {
                assert_eq!(rt; fault.line, line, "{:?}", text);
                assert_eq!(rt; fault.why, why, "{:?}", text);
            }
        }
    }
}

/// Lines, and which field they lack, or that they have too many.
const AMISS: [(&[u8], Option<Amiss>); 12] = [
    (b">A: DORWAAE", Some(Amiss::NoEvent)),
    (b">A: \t", Some(Amiss::NoEvent)),
    (b">A", Some(Amiss::NoEvent)),
    (b">A: 8E", Some(Amiss::NoWord)),
    (b">A: DORWAAE 8E", Some(Amiss::NoWord)),
    (b">A: (challenge)", Some(Amiss::NoScore)),
    (b">A: AEINRST (time)", Some(Amiss::NoScore)),
    (b">A: 8E WORD 16 16 16", Some(Amiss::TooMany)),
    (b">A: -- 0 5 6", Some(Amiss::TooMany)),
    (b">A: WORD WORD 1 2", None),
    (b">A: (time) x", None),
    (b">A: 8E WORD", None),
];

#[test]
fn amiss(rt: HostRuntime) {
    for (line, want) in AMISS {
        assert_eq!(rt; amiss_on(line), want, "{:?}", line);
    }
}
