//! The order of the games in an index.

use std::alloc::{AllocError, Global};
use text_decimals::push_number;

/// How many digits the length of a number in a name is written with.
const LENGTH_DIGITS: usize = 5;

/// How many digits a text begins with.
fn digits_at(text: &[u8]) -> usize {
    text.iter().take_while(|byte| byte.is_ascii_digit()).count()
}

/// How many zeros a text begins with.
fn zeros_at(text: &[u8]) -> usize {
    text.iter().take_while(|byte| **byte == b'0').count()
}

/// Appends a number with zeros before it, so that it has as many digits as the length of any number in a name.
fn push_padded(alloc: Global, key: &mut Vec<u8>, number: usize) -> Result<(), AllocError> {
    let mut digits = Vec::new(alloc);
    push_number(&mut digits, number)?;
    for _ in digits.len()..LENGTH_DIGITS {
        key.push(b'0')?;
    }
    key.extend_from_slice(digits.as_slice())
}

/// Appends a number by how many digits it has and then by its digits, so that a greater one comes later.
fn push_digits(alloc: Global, key: &mut Vec<u8>, digits: &[u8]) -> Result<(), AllocError> {
    let digits = digits.get(zeros_at(digits)..).unwrap_or(&[]);
    push_padded(alloc, key, digits.len())?;
    key.extend_from_slice(digits)
}

/// Appends a name in such a form that the order of the bytes is that of names with numbers in them: `t2` comes before `t10`.
fn push_name(alloc: Global, key: &mut Vec<u8>, name: &[u8]) -> Result<(), AllocError> {
    let mut rest = name;
    for _ in 0..name.len() {
        let many = digits_at(rest);
        match rest.first() {
            None => break,
            Some(byte) if many == 0 => key.push(*byte)?,
            Some(_) => push_digits(alloc, key, rest.get(..many).unwrap_or(&[]))?,
        }
        rest = rest.get(many.max(1)..).unwrap_or(&[]);
    }
    Ok(())
}

/// A text by which the rows of an index are in order: by the names of their games, with numbers in names by their value, and rows of one name as they
/// were added, of which this is the one with a number.
pub fn order_key(alloc: Global, name: &str, number: usize) -> Result<String, AllocError> {
    let mut key = Vec::new(alloc);
    push_name(alloc, &mut key, name.as_bytes())?;
    key.push(0)?;
    key.extend_from_slice(name.as_bytes())?;
    key.push(0)?;
    push_numbered(alloc, &mut key, number)?;
    String::from_utf8_lossy(alloc, key.as_slice())
}

/// Appends the number of a row.
fn push_numbered(alloc: Global, key: &mut Vec<u8>, number: usize) -> Result<(), AllocError> {
    let mut digits = Vec::new(alloc);
    push_number(&mut digits, number)?;
    push_digits(alloc, key, digits.as_slice())
}
