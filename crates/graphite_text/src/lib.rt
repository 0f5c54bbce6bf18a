//! The graph text: what its lines say, and what it means.
//!
//! The definitions of the plain graph, of what holds at an instant and of the reading of a text
//! stand in this crate's `specs`.
#![tactic(auto)]

mod canonical;
mod fields;
mod limits;
mod line;
mod record;
mod rules;
mod span;
mod writing;

pub use canonical::{
    canonical_text_is_no_longer, canonical_text_is_read, canonical_text_tells_graphs_apart,
};
pub use fields::{field, is_header, is_line, is_skipped, is_wrong_start};
pub use limits::{EDGE_LIMIT, KEY_LIMIT, LINE_LIMIT, NAME_LIMIT, PROPERTY_LIMIT, VERTEX_LIMIT};
pub use line::{Line, Lines, line_count};
pub use record::{Record, record_of};
pub use rules::{
    AFTER_END_RULE, DECLARED_RULE, ENDS_RULE, HEADER_RULE, LENGTH_RULE, LIMIT_RULE, LINE_RULE,
    MISSING_END_RULE, NAMES_RULE, NEW_NAME_RULE, NUMBERS_RULE, ORDER_RULE, OVERLAP_RULE,
    OWNER_RULE, SHAPE_RULE, TRAVEL_RULE,
};
pub use span::Span;
pub use writing::push_record;
