//! What the first line of a report says.

/// What the first line of a report says.
#[derive(Clone, Copy, Debug, PartialEq, Eq)]
pub struct Head<'w> {
    /// The word that names the program.
    pub program: &'w [u8],
    /// The supersteps that were made.
    pub steps: u32,
    /// The calls of compute, where they are counted. Else the first line does not speak of them.
    pub calls: Option<u128>,
}
