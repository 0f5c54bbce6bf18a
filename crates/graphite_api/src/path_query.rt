//! Queries about journeys.
use crate::Kind;

/// A query about the journeys between a vertex and all others.
#[derive(Clone, Copy, Debug, PartialEq, Eq)]
pub struct PathQuery {
    /// What is asked.
    pub kind: Kind,
    /// The number of the vertex where the journeys start; for [`Kind::Latest`] of the one where they
    /// end.
    pub vertex: u32,
    /// The first instant at which a journey may start there; for [`Kind::Latest`], end there.
    pub from: u64,
    /// The instant after the last one.
    pub until: u64,
}
