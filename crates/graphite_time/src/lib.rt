//! Instants, intervals of instants, and the lives of vertices and edges.
#![tactic(auto)]

mod interval;
mod life;
mod memory;

pub use interval::Interval;
pub use life::Life;
pub use memory::NoMemory;

/// The greatest horizon, in instants: epoch milliseconds fit below it.
pub const LAST: u64 = 17_592_186_044_416;
