//! Word lists: what they hold, their faults and limits.
use lex_list::{ListFault, ListWhy, MAX_WORDS, WordList, law_of_lists, law_of_paths};
use std::alloc::Global;
use std::process::Abort;

/// Texts and their first faults.
const FAULTS: [(&[u8], u32, ListWhy); 19] = [
    (b"AT\nA1", 2, ListWhy::BadLetter),
    (b"A", 1, ListWhy::BadLength),
    (b"A-B", 1, ListWhy::BadLetter),
    (b"AT\r\n\r\nABCDEFGHIJKLMNOP\r\n", 3, ListWhy::BadLength),
    (b"ABCDEFGHIJKLMNOP", 1, ListWhy::BadLength),
    (b"ABCDEFGHIJKLMNO1", 1, ListWhy::BadLetter),
    (b"1", 1, ListWhy::BadLetter),
    (b"AT \n", 1, ListWhy::BadLetter),
    (b" ", 1, ListWhy::BadLetter),
    (b"\n\t\nA", 2, ListWhy::BadLetter),
    (b"AT\r\r\n", 1, ListWhy::BadLetter),
    (b"AT\rIT\n", 1, ListWhy::BadLetter),
    (b"AT\n\xef\xbb\xbfIT", 2, ListWhy::BadLetter),
    (b"\xef\xbb\xbf\xef\xbb\xbfAT", 1, ListWhy::BadLetter),
    (b"\xef\xbbAT", 1, ListWhy::BadLetter),
    (b"@A", 1, ListWhy::BadLetter),
    (b"A[", 1, ListWhy::BadLetter),
    (b"`a", 1, ListWhy::BadLetter),
    (b"z{\nA", 1, ListWhy::BadLetter),
];

/// A fault on a line.
fn fault(line: u32, why: ListWhy) -> ListFault {
    ListFault { line, why }
}

/// The fault of a text.
fn fault_of(alloc: Global, text: &[u8]) -> Option<ListFault> {
    WordList::read(alloc, text).err()
}

#[test]
fn faults(rt: HostRuntime) {
    for (text, line, why) in &FAULTS {
        let expected = Some(fault(*line, *why));
        assert_eq!(rt; fault_of(rt.alloc(), text), expected, "{:?}", text);
    }
}

/// Texts and their words.
const LISTS: [(&[u8], &[&[u8]]); 11] = [
    (b"", &[]),
    (b"\xef\xbb\xbf", &[]),
    (b"\n\r\n\r", &[]),
    (b"WORD", &[b"WORD"]),
    (b"AT\nIT\n", &[b"AT", b"IT"]),
    (
        b"\xef\xbb\xbfWord\r\natE\n\nAT\r\nat\nzA\r\naz\nATE",
        &[b"AT", b"ATE", b"AZ", b"WORD", b"ZA"],
    ),
    (
        b"abcdefghijklmno\nABCDEFGHIJKLMNO\r\nabcdefghijklmnz",
        &[b"ABCDEFGHIJKLMNO", b"ABCDEFGHIJKLMNZ"],
    ),
    (b"AT\nATE\nBE\nBE", &[b"AT", b"ATE", b"BE"]),
    (b"AT\nATE\nBE\nAT\nZA", &[b"AT", b"ATE", b"BE", b"ZA"]),
    (b"AT\nBE\nZA\nAN\nZO", &[b"AN", b"AT", b"BE", b"ZA", b"ZO"]),
    (b"BE\nAT\nBE\nZA\nAT", &[b"AT", b"BE", b"ZA"]),
];

/// The list of a text.
fn list_of(rt: &impl Abort, alloc: Global, text: &[u8]) -> WordList {
    WordList::read(alloc, text).expect(rt, "a list")
}

fn assert_list(rt: &impl Abort, list: &WordList, words: &[&[u8]]) {
    assert_eq!(rt; list.len(), words.len());
    for (place, word) in words.iter().enumerate() {
        assert!(rt; place < list.len());
        assert_eq!(rt; list.word(place), *word);
        assert!(rt; list.has(word));
    }
}

#[test]
fn lists(rt: HostRuntime) {
    for (text, words) in &LISTS {
        assert_list(&rt, &list_of(&rt, rt.alloc(), text), words);
    }
}

#[test]
fn other_bytes_are_unlisted(rt: HostRuntime) {
    let list = list_of(&rt, rt.alloc(), b"at\nabcdefghijklmno\nzax");
    let others: [&[u8]; 11] = [
        b"",
        b"A",
        b"at",
        b"At",
        b"ATA",
        b"AT\0",
        b"\0\0",
        b"ABCDEFGHIJKLMN",
        b"ABCDEFGHIJKLMNOP",
        b"ZA",
        b"ZZ",
    ];
    for word in others.iter() {
        assert!(rt; !list.has(word), "{word:?}");
    }
}

#[test]
fn names(rt: HostRuntime) {
    assert_eq!(rt; ListWhy::BadLetter.name(), "BadLetter");
    assert_eq!(rt; ListWhy::TooMany.name(), "TooMany");
    let none = ListFault::no_memory();
    assert_eq!(rt; none.line, 0);
    assert_eq!(rt; none.why.name(), "NoMemory");
    law_of_lists();
    law_of_paths();
}

/// Lines of four letters each, all different, in no particular order.
fn distinct_lines(rt: &impl Abort, alloc: Global, lines: u32) -> Vec<u8> {
    let mut text = Vec::new(alloc);
    for line in 0..lines {
        let mut rest = line;
        for _ in 0..4 {
            text.push(b'A' + (rest % 26) as u8).expect(rt, "memory");
            rest /= 26;
        }
        text.push(b'\n').expect(rt, "memory");
    }
    text
}

/// Asserts that a text has as many words as a list may have, and that with more text after it a line has one word too many.
fn assert_limit(rt: &impl Abort, alloc: Global, text: &mut Vec<u8>, more: &[u8], line: u32) {
    let list = list_of(rt, alloc, text);
    assert_eq!(rt; list.len(), MAX_WORDS);
    assert_eq!(rt; list.word(0), b"AAAA".as_slice());
    assert_eq!(rt; list.word(1), b"AAAB".as_slice());
    assert!(rt; list.has(b"BAAA"));
    text.extend_from_slice(more).expect(rt, "memory");
    assert_eq!(rt; fault_of(alloc, text), Some(fault(line, ListWhy::TooMany)));
}

#[test]
fn limit_of_words(rt: HostRuntime) {
    let mut text = distinct_lines(&rt, rt.alloc(), 400_000);
    text.extend_from_slice(b"baaa\n").expect(&rt, "memory");
    assert_limit(&rt, rt.alloc(), &mut text, b"\nQI\nA1", 400_003);
}
