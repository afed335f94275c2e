//! Lines of records that are not read although they look like events, and lines that begin like events and are none.
use gcg_read::Why;
use gcg_unread::{UnreadWhy, faulty_lines, law_of_unread_lines, unread_lines};
use std::process::Abort;

/// Texts, with the line that is not read and why, if there is one.
const UNREAD: [(&[u8], Option<(u32, UnreadWhy)>); 18] = [
    (b"", None),
    (b">A: - +0 0\n", None),
    (b"\n >A: - +0 0", Some((2, UnreadWhy::Blank))),
    (b"\t>A: - +0 0\r\n", Some((1, UnreadWhy::Blank))),
    (b"\xc2\xa0>A: - +0 0", Some((1, UnreadWhy::Blank))),
    (b"\xa0>A: - +0 0", Some((1, UnreadWhy::Blank))),
    (b"#\n12. >A: - +0 0", Some((2, UnreadWhy::Before))),
    (b"=A: - +0 0", Some((1, UnreadWhy::OtherSign))),
    (b"A: (time) -15 482", Some((1, UnreadWhy::NoMark))),
    (b"\xef\xbb\xbfA: - +0 0", Some((1, UnreadWhy::NoMark))),
    (b"A 8H AT +4 4", Some((1, UnreadWhy::Parts))),
    (b"8H +4 4 x", Some((1, UnreadWhy::Parts))),
    (b"A (time) -15 482", Some((1, UnreadWhy::Parts))),
    (b"A 8H AT 4", None),
    (b"A: well played", None),
    (b"#note x\nA 8H AT +4 4", None),
    (b"#note x\nA: - +0 0", Some((2, UnreadWhy::NoMark))),
    (
        b"#note x\n#title y\nA 8H AT +4 4",
        Some((3, UnreadWhy::Parts)),
    ),
];

#[test]
fn lines_that_are_not_read(rt: HostRuntime) {
    law_of_unread_lines();
    for (text, want) in UNREAD {
        let found = unread_lines(rt.alloc(), text).expect(&rt, "memory");
        let first = found
            .as_slice()
            .first()
            .map(|unread| (unread.line, unread.why));
        assert_eq!(rt; first, want);
        assert_eq!(rt; found.len(), if want.is_some() { 1 } else { 0 });
    }
}

#[test]
fn lines_that_are_no_events(rt: HostRuntime) {
    let text = b">A: 8H\n>A: - +0 0\n>A: - +0 1,234\nA: 8H\n>B: -9 +0 0";
    let faults = faulty_lines(rt.alloc(), text).expect(&rt, "memory");
    let want = [(1, Why::Fields), (3, Why::Number), (5, Why::Code)];
    assert_eq!(rt; faults.len(), want.len());
    for (fault, (line, why)) in faults.as_slice().iter().zip(want) {
        assert_eq!(rt; fault.line, line);
        assert_eq!(rt; fault.why, why);
    }
}
