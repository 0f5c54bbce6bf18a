//! A line in fields, and what its first fields say.
ghost use Rattle.std.specs.Prelude.{◌≡◌, ◌∷◌, ◌&&◌, [], not, slice_get};
ghost use Rattle.std.specs.List.{list_all, list_any};
ghost use Rattle.std.specs.Option.{option_copied, option_map_or};
ghost use Rattle.std.specs.Str.{bytes_eq};
ghost use Rattle.memchr.specs.Find.{IsFirstByte, is_byte};
ghost use Rattle.graphite_text.specs.Forms.{is_line, is_printable, is_skipped};
ghost use Rattle.graphite_text.specs.Lines.{fields_of};
ghost use Rattle.graphite_text.specs.Reading.{is_header, is_wrong_start};

use crate::LINE_LIMIT;
use std::marker::Model;

/// The fields of a line in order, parted at each space.
#[derive(Drop)]
pub(crate) struct Fields<'a> {
    rest: Option<&'a [u8]>,
}

impl<'a> Model for Fields<'a> {
    ghost use Rattle.std.specs.Prelude.{List, ℕ, []};
    ghost use Rattle.std.specs.Option.{option_map_or};
    ghost use Rattle.graphite_text.specs.Lines.{fields_of};

    ghost Value = { List (List ℕ) };

    ghost view = { λ it. option_map_or (λ rest. fields_of rest.now) it.rest [] };
}

impl<'a> Fields<'a> {
    pub(crate) fn new(line: &'a [u8]) -> Fields<'a>
        ensures { result ≡ fields_of line.now }
    {
        Fields { rest: Some(line) }
    }

    /// The fields of what comes after a space, if there is one.
    pub(crate) fn after(rest: Option<&'a [u8]>) -> Fields<'a>
        ensures { result ≡ option_map_or (λ rest. fields_of rest.now) rest.entry [] }
    {
        Fields { rest }
    }
}

impl<'a> Iterator for Fields<'a> {
    ghost use Rattle.std.specs.Iterator.{YieldsFirstRef, item_count};

    type Item = &'a [u8];

    ghost next_gives = { YieldsFirstRef (λ fields. fields) };

    ghost remaining = { item_count (λ fields. fields) };

    fn next(&mut self) -> Option<&'a [u8]> {
        let (field, rest) = first_field(self.rest?);
        self.rest = rest;
        Some(field)
    }
}

/// The first field of a line, and what comes after the space behind it, if there is one.
pub(crate) fn first_field(line: &[u8]) -> (&[u8], Option<&[u8]>)
    ensures { fields_of line.now
        ≡ result.0.now ∷ option_map_or (λ rest. fields_of rest.now) result.1 [] }
{
    match first_space(line) {
        Some(at) => (&line[..at], Some(&line[at + 1..])),
        None => (line, None),
    }
}

/// The index of the first space. Fields are short, so the bytes are taken one by one.
fn first_space(line: &[u8]) -> Option<usize>
    ensures { IsFirstByte (is_byte 32) line.now result }
{
    line.iter().position(|c| *c == b' ')
}

/// The field at an index, counted from 0, of a line that is parted at each space. `None` exactly
/// where there are not so many fields.
pub fn field(line: &[u8], index: u32) -> Option<&[u8]>
    ensures { option_copied result ≡ slice_get (fields_of line.now) index }
{
    Fields::new(line).nth(index as usize)
}

/// Whether a line is blank or a comment.
pub fn is_skipped(line: &[u8]) -> bool
    ensures { result ≡ is_skipped line.now }
{
    matches!(line, [] | [b'#', ..])
}

/// Whether a line has the form of a line: at most [`LINE_LIMIT`] bytes, each of them printable, and in a
/// line that is neither blank nor a comment no empty field.
pub fn is_line(line: &[u8]) -> bool
    ensures { result ≡ is_line line.now }
{
    if line.len() > LINE_LIMIT {
        return false;
    }
    if is_skipped(line) {
        return are_printable(line);
    }
    have_no_gap(line)
}

fn are_printable(bytes: &[u8]) -> bool
    ensures { result ≡ list_all is_printable bytes.now }
{
    bytes.iter().all(|c| (b' '..=b'~').contains(c))
}

/// Whether each byte of a line is printable, and no field is empty.
fn have_no_gap(line: &[u8]) -> bool
    ensures { result ≡ list_all is_printable line.now
        && not (list_any (bytes_eq []) (fields_of line.now)) }
{
    let mut field_is_empty = true;
    for c in line {
        if *c < b' ' || *c > b'~' {
            return false;
        }
        let is_space = *c == b' ';
        if is_space && field_is_empty {
            return false;
        }
        field_is_empty = is_space;
    }
    !field_is_empty
}

/// Whether a line is a header, of whatever version: its first field is `graph`.
pub fn is_header(line: &[u8]) -> bool
    ensures { result ≡ is_header (fields_of line.now) }
{
    let (word, _) = first_field(line);
    word == b"graph".as_slice()
}

/// Whether a line may not be the first record of a text, which is a header of version 1: its first
/// field is not `graph`, or it has a second field other than `1`.
pub fn is_wrong_start(line: &[u8]) -> bool
    ensures { result ≡ is_wrong_start (fields_of line.now) }
{
    let (word, rest) = first_field(line);
    if word != b"graph".as_slice() {
        return true;
    }
    match rest {
        Some(rest) => {
            let (version, _) = first_field(rest);
            version != b"1".as_slice()
        }
        None => false,
    }
}
