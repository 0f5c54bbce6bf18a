//! Written journeys: beside each best value one journey that has it, the same on every machine.
#![tactic(auto)]

mod answered;
mod departure;
mod hops;
mod incoming;
mod laws;
mod standing;
mod step;
mod taken;
mod written;

pub use answered::Answered;
pub use incoming::IncomingArcs;
pub use laws::{
    a_written_journey_is_a_best_one, a_written_journey_is_one,
    every_best_value_has_a_written_journey,
};
pub use step::Step;
pub use written::witness;
