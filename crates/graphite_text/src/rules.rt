//! The numbers of the rules that a text is read by. A refusal names the least one that is broken.

/// A line is ended by a line feed, has at most [`crate::LINE_LIMIT`] printable bytes, and is blank, a
/// comment, or fields parted by one space each.
pub const LINE_RULE: u8 = 1;

/// The first record is a header of version 1, and no other record is a header.
pub const HEADER_RULE: u8 = 2;

/// The first field is the word of a record, and there are as many fields as that record has.
pub const SHAPE_RULE: u8 = 3;

/// Each name and each key has its form.
pub const NAMES_RULE: u8 = 4;

/// Each number has its form, and is not too large.
pub const NUMBERS_RULE: u8 = 5;

/// A span holds at least one instant, and does not go past the horizon.
pub const ORDER_RULE: u8 = 6;

/// The name of a vertex is that of no earlier vertex, and that of an edge of no earlier edge.
pub const NEW_NAME_RULE: u8 = 7;

/// The ends of an edge and the owner of a property are declared in earlier lines.
pub const DECLARED_RULE: u8 = 8;

/// Both ends of an edge are alive at each of its instants.
pub const ENDS_RULE: u8 = 9;

/// The owner of a property is alive at each of its instants.
pub const OWNER_RULE: u8 = 10;

/// No earlier property of the same owner and key holds at an instant of the new one.
pub const OVERLAP_RULE: u8 = 11;

/// The travel time of an edge is at least 1 instant.
pub const TRAVEL_RULE: u8 = 12;

/// There are at most [`crate::VERTEX_LIMIT`] vertices, [`crate::EDGE_LIMIT`] edges and
/// [`crate::PROPERTY_LIMIT`] properties.
pub const LIMIT_RULE: u8 = 13;

/// The text has an `end` record. The rule is broken at the line after the last.
pub const MISSING_END_RULE: u8 = 14;

/// No record comes after `end`.
pub const AFTER_END_RULE: u8 = 15;

/// The text is not too long. The rule is broken at line 0, which is the text as a whole.
pub const LENGTH_RULE: u8 = 16;
