//! Arcs, the traits and laws of programs, and the meaning of supersteps: what every program and the
//! whole engine stand on.
#![tactic(auto)]

mod arc;
mod duration;
mod groups;
mod instant;
mod journey_laws;
mod journey_program;
mod kind;
mod laws;
mod next;
mod path_query;
mod plain_run;
mod point_program;
mod program;
mod ran_at;
mod table;

pub use arc::Arc;
pub use duration::Duration;
pub use graphite_warp::Message;
pub use journey_laws::{
    best_of_lists_is_best_of_journeys, each_message_is_attained,
    fewer_hops_than_lifespans_are_enough, latest_is_earliest_in_the_mirror,
    saturating_sums_are_exact, settled_values_are_best, the_first_departure_is_enough,
    the_last_hop_makes_the_best,
};
pub use journey_program::JourneyProgram;
pub use kind::Kind;
pub use laws::{both_ends_tell, early_stop_changes_nothing, going_on_is_one_run, silence_lasts};
pub use next::Next;
pub use path_query::PathQuery;
pub use plain_run::run_at;
pub use point_program::PointProgram;
pub use program::Program;
pub use ran_at::RanAt;
pub use table::ArcTable;

/// The greatest number of supersteps of a run.
pub const STEP_LIMIT: u32 = 2_097_152;
