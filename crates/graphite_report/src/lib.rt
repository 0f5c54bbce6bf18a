//! Reports of the values of a graph's vertices: the intervals on which they are the same, with durations
//! and written journeys where there are some, those of one instant, and their sums. The texts stand in this crate's `specs`: a
//! report is a function of the values, and the values are functions of the instant.
#![tactic(auto)]

mod buffer;
mod fault;
mod form;
mod head;
mod lines;
mod paths;
mod summary;
mod sums;
mod writer;

pub use fault::ReportFault;
pub use head::Head;
pub use paths::{write_one_path, write_paths};
pub use summary::write_summary;
pub use writer::{write_instant, write_intervals, write_sums};
