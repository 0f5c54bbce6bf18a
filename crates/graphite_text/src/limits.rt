//! What a text may have at most.

/// The most bytes that a line may have, without its line feed.
pub const LINE_LIMIT: usize = 1024;

/// The most bytes that the name of a vertex or an edge may have.
pub const NAME_LIMIT: usize = 64;

/// The most bytes that the key of a property may have.
pub const KEY_LIMIT: usize = 32;

/// The most vertices that a graph may have.
pub const VERTEX_LIMIT: u32 = 1_048_576;

/// The most edges that a graph may have.
pub const EDGE_LIMIT: u32 = 2_097_152;

/// The most properties that a graph may have, of vertices and edges together.
pub const PROPERTY_LIMIT: u32 = 4_194_304;
