//! JSON as data: a tree that keeps the order of its fields, and its text.
//!
//! A [`Tree`] is made by the functions of this crate, from the values inside it outwards; the contract of each says which JSON value its result is.
//! [`push_tree`] writes the text of a tree: its contract says that these are exactly the bytes of the value, and that they read back as the value.
#![tactic(auto)]

mod laws;
mod options;
mod trees;
mod writing;

pub use laws::law_of_texts;
pub use options::{
    bool_or_null, count_or_null, integer_or_null, large_count_or_null, large_integer_or_null,
    name_or_null, or_null, size_or_null, str_or_null, text_or_null, wide_or_null,
};
pub use trees::{
    Tree, array, bool_tree, count_tree, integer_tree, large_count_tree, large_integer_tree,
    name_tree, null_tree, object, push_if, size_tree, str_tree, string_tree, text_tree, wide_tree,
    with_field_if,
};
pub use writing::{line_of, push_tree, push_tree_line};
