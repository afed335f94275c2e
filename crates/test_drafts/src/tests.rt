//! Each module has the tables of one crate, each table shows one rule.

mod drafts;
