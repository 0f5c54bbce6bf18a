//! Which way a program goes along the edges.

/// Which way a program goes along the edges.
#[derive(Clone, Copy, Debug, PartialEq, Eq)]
pub enum Direction {
    /// From the source of an edge to its target.
    Out,
    /// That way, and from the target to the source.
    Both,
}
