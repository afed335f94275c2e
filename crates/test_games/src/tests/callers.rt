//! What the example of a caller of the crates answers for texts.
use example_library::allows;
use lex_list::WordList;
use ref_tiles::english_rules;

/// Texts, and the answers for them by the list of the word AT.
const ROWS: [(&[u8], Option<bool>); 4] = [
    (b">A: AT 8G AT +4 4\n", Some(true)),
    (b">A: AT 8G AT +5 5\n", Some(false)),
    (b">A: AT 8G AT +4 4\n>B: - +0 1\n", Some(false)),
    (b">A: AT 8G AT four\n", None),
];

#[test]
fn answers_of_texts(rt: HostRuntime) {
    let list = WordList::read(rt.alloc(), b"AT\n").expect(&rt, "a list");
    for row in &ROWS {
        let answer = allows(rt.alloc(), &english_rules(), &list, row.0);
        assert_eq!(rt; answer.ok(), row.1);
    }
}
