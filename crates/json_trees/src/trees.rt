//! Trees, and what they are made of.
ghost use Rattle.std.specs.Prelude.{◌≡◌, ◌++◌, [], IfOk, OnOk, map, option_map, string_bytes};
ghost use Rattle.std.specs.List.{cons_option};
ghost use Rattle.std.specs.Str.{IsUtf8};
ghost use Rattle.json.specs.Json.{boolean, null, string};
ghost use Rattle.json_trees.specs.Values.{array_of, count, field_if, integer, object_of, text};
ghost use Rattle.json_trees.specs.Trees.{fields_view, view};

use std::alloc::{AllocError, Global};

/// A JSON value. The fields of an object keep their order.
#[derive(Drop)]
pub enum Tree {
    /// Null: what is not known, or does not apply.
    Null,
    /// True or false.
    Bool(bool),
    /// A number that counts something.
    Count(u64),
    /// A number that may be below zero.
    Integer(i64),
    /// A number that counts something and may not fit in 64 bits.
    Wide(u128),
    /// A text that is in the program.
    Name(&'static str),
    /// A text.
    Text(String),
    /// Values in their order.
    Array(Vec<Tree>),
    /// Keys with their values, in their order.
    Object(Vec<(&'static str, Tree)>),
}

/// An object with these fields, in this order.
#[tactic(auto, using(crate::proofs::Views::view_of_object))]
pub fn object(fields: Vec<(&'static str, Tree)>) -> Tree
    ensures { view result ≡ object_of (fields_view fields.entry.items) }
{
    Tree::Object(fields)
}

/// An array of these values, in this order.
pub fn array(values: Vec<Tree>) -> Tree
    ensures { view result ≡ array_of (map view values.items) }
{
    Tree::Array(values)
}

/// A number that counts something.
pub fn count_tree(number: u32) -> Tree
    ensures { view result ≡ count number }
{
    Tree::Count(u64::from(number))
}

/// A number that counts something, and may not fit in 32 bits.
pub fn large_count_tree(number: u64) -> Tree
    ensures { view result ≡ count number }
{
    Tree::Count(number)
}

/// How many there are of something in memory.
pub fn size_tree(number: usize) -> Tree
    ensures { view result ≡ count number }
{
    Tree::Count(number as u64)
}

/// A number that counts something, and may not fit in 64 bits.
pub fn wide_tree(number: u128) -> Tree
    ensures { view result ≡ count number }
{
    Tree::Wide(number)
}

/// A number that may be below zero.
pub fn integer_tree(number: i32) -> Tree
    ensures { view result ≡ integer number }
{
    Tree::Integer(i64::from(number))
}

/// A number that may be below zero, and may not fit in 32 bits.
pub fn large_integer_tree(number: i64) -> Tree
    ensures { view result ≡ integer number }
{
    Tree::Integer(number)
}

/// Null: what is not known, or does not apply.
pub fn null_tree() -> Tree
    ensures { view result ≡ null }
{
    Tree::Null
}

/// True or false.
pub fn bool_tree(value: bool) -> Tree
    ensures { view result ≡ boolean value }
{
    Tree::Bool(value)
}

/// A text that is in the program.
pub fn name_tree(name: &'static str) -> Tree
    ensures { view result ≡ string name.now }
{
    Tree::Name(name)
}

/// A text.
pub fn string_tree(text: String) -> Tree
    ensures { view result ≡ string (string_bytes text) }
{
    Tree::Text(text)
}

/// Bytes as text, with U+FFFD for what is not UTF-8.
///
/// # Errors
///
/// Memory was refused.
pub fn text_tree(alloc: Global, bytes: &[u8]) -> Result<Tree, AllocError>
    ensures text { IfOk result (λ tree. view tree ≡ text bytes.now) }
    ensures utf8 { IfOk result (λ tree. IsUtf8 bytes.now → view tree ≡ string bytes.now) }
{
    let text = String::from_utf8_lossy(alloc, bytes)?;
    Ok(Tree::Text(text))
}

/// A text that is not in the program.
///
/// # Errors
///
/// Memory was refused.
pub fn str_tree(alloc: Global, text: &str) -> Result<Tree, AllocError>
    ensures { IfOk result (λ tree. view tree ≡ string text.now) }
{
    text_tree(alloc, text.as_bytes())
}

/// Fields, and after them one more if it has a value.
///
/// # Errors
///
/// Memory was refused.
pub fn with_field_if(
    mut fields: Vec<(&'static str, Tree)>,
    key: &'static str,
    value: Option<Tree>,
) -> Result<Vec<(&'static str, Tree)>, AllocError>
    ensures { IfOk result (λ all. fields_view all.items
        ≡ fields_view fields.entry.items ++ field_if key.now (option_map view value)) }
{
    if let Some(tree) = value {
        fields.push((key, tree))?;
    }
    Ok(fields)
}

/// Adds a value to others, if there is one.
///
/// # Errors
///
/// Memory was refused.
pub fn push_if(values: &mut Vec<Tree>, value: Option<Tree>) -> Result<(), AllocError>
    ensures { OnOk result (map view values.new.items ≡ map view values.old.items ++ cons_option (option_map view value) []) }
{
    if let Some(tree) = value {
        values.push(tree)?;
    }
    Ok(())
}
