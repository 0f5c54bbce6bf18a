//! Which report is written.

use graphite_api::Duration;

/// Which report is written.
#[derive(Clone, Copy)]
pub enum Form<'d> {
    /// The intervals on which the value of a vertex is the same, and the duration of each vertex that has
    /// an entry here.
    Intervals(&'d [Option<Duration>]),
    /// The values at one instant.
    Instant(u64),
    /// How long a vertex is alive, how long it has a number, and the sum of that.
    Sums,
}
