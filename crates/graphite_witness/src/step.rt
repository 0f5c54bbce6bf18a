//! A step of a written journey.

/// A step of a written journey: an edge, entered at an instant.
#[derive(Clone, Copy, Debug, PartialEq, Eq)]
pub struct Step {
    /// The number of the edge.
    pub edge: u32,
    /// The instant of departure.
    pub depart: u64,
    /// The instant of arrival, which is later.
    pub arrive: u64,
    /// The cost that the edge has at the departure.
    pub cost: u32,
}
