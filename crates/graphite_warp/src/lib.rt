//! Messages over intervals of time, and how they are aligned with the states of a vertex.
#![tactic(auto)]

mod align;
mod changes;
mod group;
mod laws;
mod message;
mod parts;
mod sides;
mod sort;
mod sweep;
mod touch;
mod triple;

pub use align::warp;
pub use laws::{
    instants_are_met, order_is_free, sorted_lists_rise, touched_instants_have_notes,
    triples_are_runs, triples_are_unique, triples_tell,
};
pub use message::Message;
pub use sort::sort_notes;
pub use sweep::Sweep;
pub use touch::Touch;
pub use triple::Triple;
