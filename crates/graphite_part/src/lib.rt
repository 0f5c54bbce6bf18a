//! Partitions: a value at each instant of time, or nothing, kept as maximal pieces of equal value.
#![tactic(auto)]

mod calls;
mod counts;
mod cut;
mod fill;
mod lasting;
mod laws;
mod map;
mod mirror;
mod partition;
mod piece;
mod pieces;
mod plain;
mod zip;

pub use counts::time_at;
pub use lasting::{Lasting, append};
pub use laws::{answers_are_runs, chain_is_unique, pieces_are_mapped_runs, pieces_are_runs};
pub use partition::Partition;
pub use piece::Piece;
pub use plain::{Plain, is_same};
