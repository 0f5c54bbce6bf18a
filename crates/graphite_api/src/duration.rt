//! How long the fastest journey takes.

/// The duration of the fastest journey to a vertex.
#[derive(Clone, Copy, Debug, PartialEq, Eq)]
pub struct Duration {
    /// How many instants it takes.
    pub length: u64,
    /// The instant at which it starts.
    pub start: u64,
    /// The instant at which it arrives.
    pub arrive: u64,
}
