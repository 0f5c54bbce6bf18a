//! A graph that changes over time, read from its text and kept in memory.
//!
//! A [`Graph`] is seen in contracts as the plain graph that `graphite_text`'s specs define.
#![tactic(auto)]

mod alive;
mod departure;
mod ends;
mod facts;
mod fault;
mod graph;
mod hashed;
mod made;
mod names;
mod numbered;
mod open;
mod property;
mod reader;
mod reading;
mod show;
mod store;

pub use ends::Ends;
pub use facts::{Ask, Facts};
pub use graph::Graph;
pub use names::Names;
pub use reading::{LoadFault, load};
