//! What a run at one instant gives.
use graphite_part::Plain;

/// What supersteps at one instant gave.
#[derive(Drop)]
pub struct RanAt<S: Plain> {
    /// The state of each vertex; nothing where it is not alive.
    pub states: Vec<Option<S>>,
    /// How many supersteps were made.
    pub made: u32,
}
