//! Each module has the tables of one question, each table shows one rule.

mod archiving;
mod boards;
mod callers;
mod converting;
mod deals;
mod devices_over_memory;
mod first_fields_over_memory;
mod games;
mod inputs;
mod lexicons;
mod pieces;
mod plays;
mod ruled;
mod tidying;
mod top_before;
mod topping;
mod turns;
