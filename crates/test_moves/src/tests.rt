//! Each module has the tables of one crate, each table shows one rule.

mod boards;
mod cases;
mod crosses;
mod generating;
mod increments;
mod least;
mod searching;
