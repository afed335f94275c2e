//! Each module has the tables of one crate, each table shows one rule.

mod best_plays;
mod boards;
mod following;
mod normal_forms;
mod notations;
mod plays;
mod records;
mod tiles;
mod turns;
mod unread;
