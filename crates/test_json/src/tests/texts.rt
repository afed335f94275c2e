//! The bytes of trees, by hand, and as `serde_json` writes the same values.
use json_trees::{
    Tree, array, bool_tree, count_or_null, count_tree, integer_or_null, integer_tree,
    large_count_or_null, large_count_tree, large_integer_or_null, large_integer_tree, name_or_null,
    name_tree, null_tree, object, or_null, push_tree, text_or_null, text_tree, with_field_if,
};
use std::alloc::{AllocError, Global};
use std::process::Abort;

/// The text of a tree.
fn written(rt: &impl Abort, alloc: Global, tree: &Tree) -> Vec<u8> {
    let mut text = Vec::new(alloc);
    push_tree(&mut text, tree).expect(rt, "memory");
    text
}

/// A tree has this text.
fn assert_text(rt: &impl Abort, alloc: Global, tree: &Tree, expected: &[u8]) {
    let text = written(rt, alloc, tree);
    assert_eq!(rt; text.as_slice(), expected);
}

/// A tree has the text that `serde_json` writes for a text.
fn assert_same(rt: &impl Abort, alloc: Global, tree: &Tree, text: &String) {
    let expected = serde_json::to_vec(alloc, text).expect(rt, "memory");
    assert_text(rt, alloc, tree, &expected);
}

/// Bytes, and how they are written as a text.
const TEXTS: [(&[u8], &[u8]); 16] = [
    (b"", b"\"\""),
    (b"WORD", b"\"WORD\""),
    (b"a \"b\" c", b"\"a \\\"b\\\" c\""),
    (b"a\\b/c", b"\"a\\\\b/c\""),
    (b"\x08\t\n\x0c\r", b"\"\\b\\t\\n\\f\\r\""),
    (b"\x00\x01\x0b\x1f", b"\"\\u0000\\u0001\\u000b\\u001f\""),
    (b" !~\x7f", b"\" !~\x7f\""),
    (b"<b>&'", b"\"<b>&'\""),
    (b"Zo\xc3\xab", b"\"Zo\xc3\xab\""),
    (b"\xe2\x80\xa8\xe2\x80\xa9", b"\"\xe2\x80\xa8\xe2\x80\xa9\""),
    (b"\xf0\x9f\x98\x80", b"\"\xf0\x9f\x98\x80\""),
    (b"\xef\xbb\xbfA", b"\"\xef\xbb\xbfA\""),
    // What is not UTF-8: a byte of ISO-8859-1, a character that is cut off, a surrogate, an overlong form.
    (b"caf\xe9", b"\"caf\xef\xbf\xbd\""),
    (b"a\xf0\x9f\x98b", b"\"a\xef\xbf\xbdb\""),
    (b"\xed\xa0\x80", b"\"\xef\xbf\xbd\xef\xbf\xbd\xef\xbf\xbd\""),
    (b"\xc0\xaf\"", b"\"\xef\xbf\xbd\xef\xbf\xbd\\\"\""),
];

/// A text is written as the row says, and as `serde_json` writes it.
fn assert_row(rt: &impl Abort, alloc: Global, bytes: &[u8], expected: &[u8]) {
    let tree = text_tree(alloc, bytes).expect(rt, "memory");
    assert_text(rt, alloc, &tree, expected);
    let text = String::from_utf8_lossy(alloc, bytes).expect(rt, "memory");
    assert_same(rt, alloc, &tree, &text);
}

#[test]
fn texts(rt: HostRuntime) {
    for (bytes, expected) in &TEXTS {
        assert_row(&rt, rt.alloc(), bytes, expected);
    }
}

/// Names, and how they are written: as texts are.
const NAMES: [(&'static str, &[u8]); 4] = [
    ("", b"\"\""),
    ("last rack", b"\"last rack\""),
    ("\"\\\n", b"\"\\\"\\\\\\n\""),
    ("\u{2028}é", b"\"\xe2\x80\xa8\xc3\xa9\""),
];

#[test]
fn names(rt: HostRuntime) {
    for (name, expected) in &NAMES {
        assert_text(&rt, rt.alloc(), &name_tree(name), expected);
    }
}

/// Numbers that count, and how they are written.
const COUNTS: [(u32, &[u8]); 4] = [(0, b"0"), (9, b"9"), (10, b"10"), (u32::MAX, b"4294967295")];

const LARGE_COUNTS: [(u64, &[u8]); 3] = [
    (0, b"0"),
    (4_294_967_296, b"4294967296"),
    (u64::MAX, b"18446744073709551615"),
];

#[test]
fn counts(rt: HostRuntime) {
    for (number, expected) in &COUNTS {
        assert_text(&rt, rt.alloc(), &count_tree(*number), expected);
    }
    for (number, expected) in &LARGE_COUNTS {
        assert_text(&rt, rt.alloc(), &large_count_tree(*number), expected);
    }
}

/// Numbers that may be below zero, and how they are written.
const INTEGERS: [(i32, &[u8]); 5] = [
    (i32::MIN, b"-2147483648"),
    (-10, b"-10"),
    (-1, b"-1"),
    (0, b"0"),
    (i32::MAX, b"2147483647"),
];

const LARGE_INTEGERS: [(i64, &[u8]); 4] = [
    (i64::MIN, b"-9223372036854775808"),
    (-2_147_483_649, b"-2147483649"),
    (2_147_483_648, b"2147483648"),
    (i64::MAX, b"9223372036854775807"),
];

#[test]
fn integers(rt: HostRuntime) {
    for (number, expected) in &INTEGERS {
        assert_text(&rt, rt.alloc(), &integer_tree(*number), expected);
    }
    for (number, expected) in &LARGE_INTEGERS {
        assert_text(&rt, rt.alloc(), &large_integer_tree(*number), expected);
    }
}

#[test]
fn single_values(rt: HostRuntime) {
    assert_text(&rt, rt.alloc(), &null_tree(), b"null");
    assert_text(&rt, rt.alloc(), &bool_tree(true), b"true");
    assert_text(&rt, rt.alloc(), &bool_tree(false), b"false");
}

#[test]
fn missing_values(rt: HostRuntime) {
    assert_text(&rt, rt.alloc(), &or_null(None), b"null");
    assert_text(&rt, rt.alloc(), &count_or_null(None), b"null");
    assert_text(&rt, rt.alloc(), &large_count_or_null(None), b"null");
    assert_text(&rt, rt.alloc(), &integer_or_null(None), b"null");
    assert_text(&rt, rt.alloc(), &large_integer_or_null(None), b"null");
    assert_text(&rt, rt.alloc(), &name_or_null(None), b"null");
    let text = text_or_null(rt.alloc(), None).expect(&rt, "memory");
    assert_text(&rt, rt.alloc(), &text, b"null");
}

#[test]
fn values_that_are_there(rt: HostRuntime) {
    assert_text(&rt, rt.alloc(), &or_null(Some(name_tree("A"))), b"\"A\"");
    assert_text(&rt, rt.alloc(), &count_or_null(Some(0)), b"0");
    let large = large_count_or_null(Some(4_294_967_296));
    assert_text(&rt, rt.alloc(), &large, b"4294967296");
    assert_text(&rt, rt.alloc(), &integer_or_null(Some(-7)), b"-7");
    let large = large_integer_or_null(Some(-2_147_483_649));
    assert_text(&rt, rt.alloc(), &large, b"-2147483649");
    assert_text(&rt, rt.alloc(), &name_or_null(Some("")), b"\"\"");
    let text = text_or_null(rt.alloc(), Some(b"a\xff")).expect(&rt, "memory");
    assert_text(&rt, rt.alloc(), &text, b"\"a\xef\xbf\xbd\"");
}

#[test]
fn nothing_inside(rt: HostRuntime) {
    assert_text(&rt, rt.alloc(), &array(Vec::new(rt.alloc())), b"[]");
    assert_text(&rt, rt.alloc(), &object(Vec::new(rt.alloc())), b"{}");
}

/// An array of values of each kind.
fn mixed(alloc: Global) -> Result<Tree, AllocError> {
    let text = text_tree(alloc, b"a,b")?;
    let values = vec![in alloc;
        null_tree(),
        array(Vec::new(alloc)),
        count_tree(1),
        object(Vec::new(alloc)),
        text,
        bool_tree(true),
        integer_tree(-2),
    ]?;
    Ok(array(values))
}

/// An object whose keys are not in the order of the alphabet; one comes twice, and one needs escapes.
fn nested(alloc: Global) -> Result<Tree, AllocError> {
    let values = mixed(alloc)?;
    let inner = vec![in alloc; ("verdict", name_tree("ok")), ("line", null_tree())]?;
    let fields = vec![in alloc;
        ("z", values),
        ("a", object(inner)),
        ("z", count_tree(7)),
        ("\"\n", bool_tree(false)),
    ]?;
    Ok(object(fields))
}

const NESTED: &[u8] =
    b"{\"z\":[null,[],1,{},\"a,b\",true,-2],\"a\":{\"verdict\":\"ok\",\"line\":null},\"z\":7,\"\\\"\\n\":false}";

#[test]
fn fields_keep_their_order(rt: HostRuntime) {
    let tree = nested(rt.alloc()).expect(&rt, "memory");
    assert_text(&rt, rt.alloc(), &tree, NESTED);
}

/// An object with the fields that have a value.
fn with_fields(
    alloc: Global,
    first: Option<Tree>,
    second: Option<Tree>,
) -> Result<Tree, AllocError> {
    let fields = vec![in alloc; ("name", name_tree("NoDeal"))]?;
    let fields = with_field_if(fields, "expected", first)?;
    let fields = with_field_if(fields, "tile", second)?;
    Ok(object(fields))
}

#[test]
fn fields_are_left_out(rt: HostRuntime) {
    let neither = with_fields(rt.alloc(), None, None).expect(&rt, "memory");
    assert_text(&rt, rt.alloc(), &neither, b"{\"name\":\"NoDeal\"}");
    let second = with_fields(rt.alloc(), None, Some(name_tree("?"))).expect(&rt, "memory");
    assert_text(
        &rt,
        rt.alloc(),
        &second,
        b"{\"name\":\"NoDeal\",\"tile\":\"?\"}",
    );
    let both = with_fields(rt.alloc(), Some(null_tree()), Some(count_tree(0))).expect(
        &rt, "memory",
    );
    assert_text(
        &rt,
        rt.alloc(),
        &both,
        b"{\"name\":\"NoDeal\",\"expected\":null,\"tile\":0}",
    );
}

/// A value in this many arrays.
fn in_arrays(alloc: Global, many: usize) -> Result<Tree, AllocError> {
    let mut tree = count_tree(0);
    for _ in 0..many {
        tree = array(vec![in alloc; tree]?);
    }
    Ok(tree)
}

#[test]
fn deep(rt: HostRuntime) {
    let tree = in_arrays(rt.alloc(), 300).expect(&rt, "memory");
    let text = written(&rt, rt.alloc(), &tree);
    assert_eq!(rt; text.len(), 601);
    assert_eq!(rt; text.as_slice()[299..302], b"[0]"[..]);
}

/// The beginning of a text, and the text with the object after it.
const FRONT: &[u8] = b"{\"answer\":";

const GROWN: &[u8] =
    b"{\"answer\":{\"z\":[null,[],1,{},\"a,b\",true,-2],\"a\":{\"verdict\":\"ok\",\"line\":null},\"z\":7,\"\\\"\\n\":false}";

/// A text that is there already stays in front, and is as it was if memory is refused.
fn assert_growth(rt: &impl Abort, alloc: Global, tree: &Tree) {
    let Ok(mut text) = Vec::from_slice(alloc, FRONT) else {
        return;
    };
    let expected = if push_tree(&mut text, tree).is_ok() {
        GROWN
    } else {
        FRONT
    };
    assert_eq!(rt; text.as_slice(), expected);
}

/// Each request for memory is refused in turn, by `rt try --test --fail-alloc N` or `oracle/run refuse_memory`.
#[test]
fn refused_growths(rt: HostRuntime) {
    if let Ok(tree) = nested(rt.alloc()) {
        assert_growth(&rt, rt.alloc(), &tree);
    }
}
