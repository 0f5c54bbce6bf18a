//! Programs of snapshots, and what they give for a graph.
#![tactic(auto)]

mod bfs;
mod components;
mod degree;
mod described;
mod distance;
mod least;
mod map;
mod max;
mod program;
mod query;
mod rank;
mod rank_state;
mod run;
mod start;

pub use bfs::Bfs;
pub use components::Components;
pub use distance::Distance;
pub use max::Max;
pub use query::SnapQuery;
pub use rank::{Rank, SCALE};
pub use rank_state::RankState;
pub use run::{SnapAnswer, run_snap};
pub use start::point_start;
