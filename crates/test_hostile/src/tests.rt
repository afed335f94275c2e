//! Damaged and extreme inputs (`damaged`, `extreme`), devices that fail (`failing`), and memory that is refused (`refused`,
//! `refused_plays`), with their jobs (`jobs`).

mod damaged;
mod extreme;
mod failing;
mod jobs;
mod refused;
mod refused_plays;
