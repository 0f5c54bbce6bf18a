//! A note over an interval.
use graphite_time::Interval;

/// A note that holds at the instants of an interval.
#[derive(Clone, Copy, Debug, PartialEq, Eq)]
pub struct Message<M> {
    pub over: Interval,
    pub note: M,
}
