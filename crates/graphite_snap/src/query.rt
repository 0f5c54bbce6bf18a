//! The queries of programs of snapshots.

use graphite_base::Bytes;

/// A program of snapshots, with what it asks for.
#[derive(Drop, PartialEq, Eq)]
pub enum SnapQuery {
    /// The out-degree of each vertex. It makes no superstep.
    Degree,
    /// Breadth-first search from the vertex with this number.
    Bfs(u32),
    /// The least number of a vertex that is connected with each vertex.
    Components,
    /// The greatest value of the property with this key over the vertices from which a walk leads to each
    /// vertex, itself among them.
    Max(Bytes),
    /// The least cost of a walk from the vertex with this number.
    Distance(u32),
    /// The rank of each vertex, by the ranks of those from which edges lead to it.
    Rank,
}
