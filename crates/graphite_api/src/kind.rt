//! The five questions about journeys.

/// What is asked about the journeys between the vertex of a query and another one.
#[derive(Clone, Copy, Debug, PartialEq, Eq)]
pub enum Kind {
    /// Whether there is a journey.
    Reach,
    /// The earliest arrival.
    Earliest,
    /// The least sum of costs.
    Cheapest,
    /// The latest start, from which the fastest journey is told.
    Fastest,
    /// The latest departure towards a target.
    Latest,
}
