//! One property, with its owner and key by number.
use graphite_time::Interval;

/// A value that an owner has under a key over an interval.
#[derive(Clone, Copy, Debug, PartialEq, Eq)]
pub struct PropRow {
    /// The number of the owner, which the caller chooses.
    pub owner: u32,
    /// The number of the key, in the order of first appearance.
    pub key: u32,
    pub over: Interval,
    pub value: u32,
}
