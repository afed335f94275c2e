//! How texts are split into lines and fields.
use std::process::Abort;
use text_lines::{Lines, cut_line, find_blank, find_filled, next_field, without_mark};

/// Texts and their lines.
const TEXTS: [(&[u8], &[&[u8]]); 8] = [
    (b"", &[b""]),
    (b"\xef\xbb\xbf", &[b""]),
    (b"\xef\xbb\xbfAT\r\n\nIT", &[b"AT", b"", b"IT"]),
    (b"AT\n", &[b"AT", b""]),
    (b"AT\nIT\r", &[b"AT", b"IT"]),
    (b"\r", &[b""]),
    (b"A\rT\r\r\n\r\n", &[b"A\rT\r", b"", b""]),
    (
        b"\xef\xbbAT\n\xef\xbb\xbfIT",
        &[b"\xef\xbbAT", b"\xef\xbb\xbfIT"],
    ),
];

fn assert_lines(rt: &impl Abort, text: &[u8], lines: &[&[u8]]) {
    let mut remaining = Some(without_mark(text));
    let mut all = Lines::of(without_mark(text));
    for line in lines {
        assert!(rt; remaining.is_some(), "{:?}", text);
        let cut = cut_line(remaining.unwrap_or(&[]));
        assert_eq!(rt; cut.line, *line, "{:?}", text);
        remaining = cut.after;
        assert_eq!(rt; all.next(), Some(*line), "{:?}", text);
    }
    assert!(rt; remaining.is_none(), "{:?}", text);
    assert!(rt; all.next().is_none(), "{:?}", text);
}

#[test]
fn lines_of_texts(rt: HostRuntime) {
    for (text, lines) in &TEXTS {
        assert_lines(&rt, text, lines);
    }
}

/// Lines and their fields.
const LINES: [(&[u8], &[&[u8]]); 6] = [
    (b"", &[]),
    (b" \t ", &[]),
    (b"8E", &[b"8E"]),
    (b"8E WORD\t+16", &[b"8E", b"WORD", b"+16"]),
    (b"\t \tAT  \t IT\t", &[b"AT", b"IT"]),
    (b"A\rT\x0bIT \xc2\xa0", &[b"A\rT\x0bIT", b"\xc2\xa0"]),
];

fn assert_fields(rt: &impl Abort, line: &[u8], fields: &[&[u8]]) {
    let mut remaining = line;
    for bytes in fields {
        let field = next_field(remaining);
        let here = field.map(|field| field.bytes);
        assert_eq!(rt; here, Some(*bytes), "{:?}", line);
        remaining = field.map_or(&[], |field| field.after);
    }
    assert!(rt; next_field(remaining).is_none(), "{:?}", line);
}

#[test]
fn fields_of_lines(rt: HostRuntime) {
    for (line, fields) in &LINES {
        assert_fields(&rt, line, fields);
    }
}

#[test]
fn blanks(rt: HostRuntime) {
    assert_eq!(rt; find_blank(b"AT\tIT "), Some(2));
    assert_eq!(rt; find_blank(b"A\r\n"), None);
    assert_eq!(rt; find_filled(b"\t \rA"), Some(2));
    assert_eq!(rt; find_filled(b" \t"), None);
}
