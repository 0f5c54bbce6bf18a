//! What the words after the program's name ask for.
#![tactic(auto)]

mod fault;
mod given;
mod made;
mod parse;
mod query;
mod steps;
mod table;
mod values;

pub use fault::WordsFault;
pub use made::MadeAsk;
pub use query::{Query, Report, query_of};
pub use steps::Steps;
pub use table::{Command, Row, row_of};
