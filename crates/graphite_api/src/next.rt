//! The outcome of a superstep for one vertex.

/// The outcome of a superstep for a vertex: its new state, and whether it sends.
#[derive(Clone, Copy, Debug, PartialEq, Eq)]
pub struct Next<S> {
    /// The state from now on.
    pub state: S,
    /// Whether the vertex sends that state along its arcs.
    pub send: bool,
}
