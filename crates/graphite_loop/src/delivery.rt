//! A message on its way to a vertex.
use graphite_api::Message;

/// A message to a vertex, which waits to be read in the next superstep.
#[derive(Clone, Copy, Debug, PartialEq, Eq)]
pub struct Delivery<M> {
    /// The number of the vertex that it comes to.
    pub to: u32,
    /// The message, with the instants at which it holds.
    pub message: Message<M>,
}
