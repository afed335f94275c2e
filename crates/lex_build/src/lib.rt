//! The builder of compiled lexicons: from a list of words to the bytes of the file that has their rotated paths.
//!
//! The walk starts at the root and visits labels in rising order, each node after all its targets. A node is written when the walk
//! leaves it, unless a node with the same arcs was written before: then that one is the target.
//!
//! A compiled lexicon is converted into another format node by node, as they are stored in its file.
#![tactic(auto)]

mod arcs;
mod building;
mod converting;
mod faults;
mod heading;
mod mask_writing;
mod run_writing;
mod storing;
mod walks;
mod writing;

pub use building::build;
pub use converting::convert;
pub use faults::BuildFault;
