//! Supersteps over all instants at once: each vertex computes once for each maximal interval on
//! which its state and the notes that it is told are the same.
#![tactic(auto)]

mod delivery;
mod journeys;
mod order;
mod points;
mod run;
mod scatter;
mod steps;
mod vertex;
mod walk;

pub use delivery::Delivery;
pub use journeys::run_journeys;
pub use points::run_points;
pub use run::Run;
pub use steps::{Ran, run_steps};
