//! The first fields of the lines of a text, read a few bytes at a time.
use lex_words::FirstFields;
use std::alloc::Global;
use std::io::{Read, Result};
use std::process::Abort;

/// A reader that gives a few bytes at a time.
#[derive(Drop)]
struct Slow<'a> {
    remaining: &'a [u8],
    most: usize,
}

impl Read for Slow<'_> {
    fn read(&mut self, buf: &mut [u8]) -> Result<usize> {
        let count = self.remaining.len().min(self.most).min(buf.len());
        buf[..count].copy_from_slice(&self.remaining[..count]);
        self.remaining = &self.remaining[count..];
        Ok(count)
    }
}

/// Texts, each with what is given out of it, by what they show.
const ROWS: [(&str, &[(&[u8], &[u8])]); 4] = [
    (
        "no more than a field",
        &[
            (b"", b""),
            (b"AA", b"AA"),
            (b"AA ", b"AA"),
            (b"\n\n", b"\n\n"),
        ],
    ),
    (
        "more fields",
        &[
            (b"AA 4\nAB\t5 a muscle\n", b"AA\nAB\n"),
            (b"AA 4\r\nAB\r\n", b"AA\nAB\r\n"),
            (b"AA  BB\n", b"AA\n"),
            (b"AA # two\nAB#\n", b"AA\nAB#\n"),
        ],
    ),
    (
        "# at the front",
        &[
            (b"# a list\nAA\n#\n", b"\nAA\n\n"),
            (b"#", b""),
            (b"#x\n#y\n#z", b"\n\n"),
        ],
    ),
    ("white space at the front", &[(b" AA\n\tAB\n", b"\n\n")]),
];

/// Asserts what is given out of a text if 1, 2 or 3 bytes come at a time.
fn assert_fields(rt: &impl Abort, alloc: Global, text: &[u8], fields: &[u8], what: &str) {
    for most in 1..4 {
        let mut read = Vec::new(alloc);
        let count = FirstFields::new(Slow {
            remaining: text,
            most,
        })
        .read_to_end(&mut read);
        assert_eq!(rt; count.ok(), Some(fields.len()), "{what}");
        assert_eq!(rt; read.as_slice(), fields, "{what}");
    }
}

#[test]
fn first_fields_of_texts(rt: HostRuntime) {
    for (what, rows) in &ROWS {
        for (text, fields) in *rows {
            assert_fields(&rt, rt.alloc(), text, fields, what);
        }
    }
}
