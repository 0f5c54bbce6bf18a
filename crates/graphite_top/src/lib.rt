//! The top call: words and a text come in, a report or a refusal goes out.
#![tactic(auto)]

mod asked;
mod call;
mod journeys;
mod laws;
mod made;
mod path;
mod snap;
mod status;
mod told;
mod write;

pub use call::run;
pub use laws::{a_told_journey_has_the_value, an_answer_is_one};
pub use status::Status;
