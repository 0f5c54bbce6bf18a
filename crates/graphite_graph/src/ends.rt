//! The two ends of an edge.
/// The vertices that an edge leads from and to, by their numbers.
#[derive(Clone, Copy, Debug, PartialEq, Eq)]
pub struct Ends {
    pub from: u32,
    pub to: u32,
}
