//! A graph text made from a number, so that a large input is at hand anywhere: the same numbers give the
//! same bytes. The graph that is made stands in this crate's `specs`.
#![tactic(auto)]

mod draw;
mod made;
mod text;

pub use made::made_text;
