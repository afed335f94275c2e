//! The tests by what they show: how a text is split into lines (`lines`), which texts are word lists (`lists`), which bytes
//! are a compiled lexicon (`changes`) and what it holds (`files`, and `masks` for the format of label words), where a lexicon
//! first differs from a list (`checks`), which files are seen at once to be that of a list (`agreements`), the bytes that are
//! built (`builds`), and those of a file in another format (`conversions`). `samples` has lists that several of them use.

mod agreements;
mod builds;
mod changes;
mod checks;
mod conversions;
mod files;
mod lines;
mod lists;
mod masks;
mod samples;
