//! Properties of numbered owners: for each owner and key a value over intervals of time.
//!
//! [`Timelines`] is seen in contracts as the list of its properties, in the order of adding.
#![tactic(auto)]

mod fault;
mod hashed;
mod hasher;
mod keys;
mod meets;
mod places;
mod places_of;
mod row;
mod rows;
mod sides;
mod taken;
mod timelines;
mod turn;

pub use fault::AddFault;
pub use row::PropRow;
pub use rows::Rows;
pub use sides::beside;
pub use timelines::Timelines;
