//! Journeys through a graph over time: which vertices are reached from a source, how early, how cheaply and how fast, and
//! how late one can depart for a target. A program for each question forward in time, the values that it starts with, and the
//! answer for all vertices and instants.
#![tactic(auto)]

mod best;
mod cheapest;
mod durations;
mod earliest;
mod fastest;
mod latest;
mod reach;
mod run;
mod start;

pub use cheapest::Cheapest;
pub use earliest::Earliest;
pub use fastest::Fastest;
pub use reach::Reach;
pub use run::{PathAnswer, PathFault, run_path};
pub use start::path_start;

/// How many instants a window of starts may have where the fastest journey is asked for: 4,096. Each is a piece of the
/// values of the vertex that the journeys start from.
pub const FASTEST_WINDOW: u64 = 4_096;
