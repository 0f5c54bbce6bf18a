//! The edges of a graph as arcs: for programs of snapshots, which see the graph at one instant, and for
//! programs of journeys, which go through it over time. A table of the latter has a mirror, in which time
//! runs backwards.
#![tactic(auto)]

mod arcs;
mod direction;
mod hops;
mod journey;
mod lives;
mod mirrored;
mod snapshot;
mod travel;

pub use direction::Direction;
pub use journey::journey_arcs;
pub use mirrored::mirror;
pub use snapshot::snapshot_arcs;
