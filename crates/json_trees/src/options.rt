//! Values that may be missing: null in their place.
ghost use Rattle.std.specs.Prelude.{◌≡◌, IfOk, option_map};
ghost use Rattle.std.specs.Option.{option_copied};
ghost use Rattle.json.specs.Json.{boolean, string};
ghost use Rattle.json_trees.specs.Trees.{view};
ghost use Rattle.json_trees.specs.Values.{count, integer, or_null, text};

use crate::trees::{
    Tree, bool_tree, count_tree, integer_tree, large_count_tree, large_integer_tree, name_tree,
    null_tree, size_tree, str_tree, text_tree, wide_tree,
};
use std::alloc::{AllocError, Global};

/// A value, or null if there is none.
pub fn or_null(value: Option<Tree>) -> Tree
    ensures { view result ≡ or_null (option_map view value) }
{
    match value {
        Some(tree) => tree,
        None => null_tree(),
    }
}

/// A number that counts something, or null if there is none.
pub fn count_or_null(value: Option<u32>) -> Tree
    ensures { view result ≡ or_null (option_map count value) }
{
    match value {
        Some(value) => count_tree(value),
        None => null_tree(),
    }
}

/// A number that counts something and may not fit in 32 bits, or null if there is none.
pub fn large_count_or_null(value: Option<u64>) -> Tree
    ensures { view result ≡ or_null (option_map count value) }
{
    match value {
        Some(value) => large_count_tree(value),
        None => null_tree(),
    }
}

/// How many there are of something in memory, or null if that is not known.
pub fn size_or_null(value: Option<usize>) -> Tree
    ensures { view result ≡ or_null (option_map count value) }
{
    match value {
        Some(value) => size_tree(value),
        None => null_tree(),
    }
}

/// A number that counts something and may not fit in 64 bits, or null if there is none.
pub fn wide_or_null(value: Option<u128>) -> Tree
    ensures { view result ≡ or_null (option_map count value) }
{
    match value {
        Some(value) => wide_tree(value),
        None => null_tree(),
    }
}

/// True or false, or null if it is not known.
pub fn bool_or_null(value: Option<bool>) -> Tree
    ensures { view result ≡ or_null (option_map boolean value) }
{
    match value {
        Some(value) => bool_tree(value),
        None => null_tree(),
    }
}

/// A number that may be below zero, or null if there is none.
pub fn integer_or_null(value: Option<i32>) -> Tree
    ensures { view result ≡ or_null (option_map integer value) }
{
    match value {
        Some(value) => integer_tree(value),
        None => null_tree(),
    }
}

/// A number that may be below zero and may not fit in 32 bits, or null if there is none.
pub fn large_integer_or_null(value: Option<i64>) -> Tree
    ensures { view result ≡ or_null (option_map integer value) }
{
    match value {
        Some(value) => large_integer_tree(value),
        None => null_tree(),
    }
}

/// A text that is in the program, or null if there is none.
pub fn name_or_null(value: Option<&'static str>) -> Tree
    ensures { view result ≡ or_null (option_map string (option_copied value.entry)) }
{
    match value {
        Some(value) => name_tree(value),
        None => null_tree(),
    }
}

/// Bytes as text, with U+FFFD for what is not UTF-8; or null if there are none.
///
/// # Errors
///
/// Memory was refused.
pub fn text_or_null(alloc: Global, bytes: Option<&[u8]>) -> Result<Tree, AllocError>
    ensures { IfOk result (λ tree. view tree ≡ or_null (option_map text (option_copied bytes.entry))) }
{
    match bytes {
        Some(bytes) => text_tree(alloc, bytes),
        None => Ok(null_tree()),
    }
}

/// A text that is not in the program, or null if there is none.
///
/// # Errors
///
/// Memory was refused.
pub fn str_or_null(alloc: Global, value: Option<&str>) -> Result<Tree, AllocError>
    ensures { IfOk result (λ tree. view tree ≡ or_null (option_map string (option_copied value.entry))) }
{
    match value {
        Some(text) => str_tree(alloc, text),
        None => Ok(null_tree()),
    }
}
