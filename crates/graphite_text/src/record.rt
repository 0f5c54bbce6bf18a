//! What one line says, with its numbers read.
ghost use Rattle.std.specs.Prelude.{◌≡◌, ◌∷◌, ◌&&◌, [], Some, codes, option_map, true};
ghost use Rattle.std.specs.List.{list_all};
ghost use Rattle.graphite_text.specs.Forms.{horizon_in, is_key, is_name, is_name_byte, is_skipped, is_text_up_to, line_form, shape_form, shape_of, span_in, value_in};
ghost use Rattle.graphite_text.specs.Lines.{fields_of};
ghost use Rattle.graphite_text.specs.Record.{five_of, line_answer, record_answer, three_of, two_of};

use crate::fields::{Fields, first_field, is_line, is_skipped};
use crate::{
    KEY_LIMIT, LINE_LIMIT, LINE_RULE, NAME_LIMIT, NAMES_RULE, NUMBERS_RULE, SHAPE_RULE, Span,
};
use graphite_base::number_of;
use graphite_time::LAST;

/// What a line says, with its numbers read. The texts borrow the line. In what [`record_of`] gives, a
/// name has 1 to [`NAME_LIMIT`] bytes, a key 1 to [`KEY_LIMIT`], the horizon is from 1 to [`LAST`]
/// instants, and the ends of a span are at most [`LAST`].
#[derive(Clone, Copy, Debug, PartialEq, Eq)]
pub enum Record<'a> {
    Graph {
        version: u32,
        horizon: u64,
    },
    Vertex {
        name: &'a [u8],
        over: Span,
    },
    Edge {
        name: &'a [u8],
        from: &'a [u8],
        to: &'a [u8],
        over: Span,
    },
    VertexProp {
        owner: &'a [u8],
        key: &'a [u8],
        over: Span,
        value: u32,
    },
    EdgeProp {
        owner: &'a [u8],
        key: &'a [u8],
        over: Span,
        value: u32,
    },
    End,
}

/// What a line says. `Ok(None)` exactly where it is blank or a comment of the right form. `Err`
/// exactly where it breaks the form of a line ([`LINE_RULE`]), or is no record by its first field and
/// the number of its fields ([`SHAPE_RULE`]), or has a name or a key ([`NAMES_RULE`]) or a number
/// ([`NUMBERS_RULE`]) out of form: the least of these rules that it breaks. Takes no memory.
pub fn record_of(line: &[u8]) -> Result<Option<Record<'_>>, u8>
    ensures { line_answer result ≡ line_form line.now }
{
    if is_skipped(line) {
        return skipped_of(line);
    }
    // A record whose texts and numbers have their forms is printable and has no empty field, so only
    // a line that breaks another rule is tested for rule 1.
    match record_in(line) {
        Ok(record) => {
            if line.len() > LINE_LIMIT {
                return Err(LINE_RULE);
            }
            Ok(Some(record))
        }
        Err(rule) => {
            if !is_line(line) {
                return Err(LINE_RULE);
            }
            Err(rule)
        }
    }
}

/// What a blank line or a comment says.
fn skipped_of(line: &[u8]) -> Result<Option<Record<'_>>, u8>
    requires { is_skipped line.now ≡ true }
    ensures { line_answer result ≡ line_form line.now }
{
    if !is_line(line) {
        return Err(LINE_RULE);
    }
    Ok(None)
}

fn record_in(line: &[u8]) -> Result<Record<'_>, u8>
    ensures { record_answer result ≡ shape_form (shape_of (fields_of line.now)) }
{
    let (word, rest) = first_field(line);
    let fields = Fields::after(rest);
    match word {
        b"v" => vertex_in(fields),
        b"e" => edge_in(fields),
        b"pv" => vertex_property_in(fields),
        b"pe" => edge_property_in(fields),
        b"graph" => header_in(fields),
        b"end" => end_in(fields),
        _ => Err(SHAPE_RULE),
    }
}

fn header_in(fields: Fields<'_>) -> Result<Record<'_>, u8>
    ensures { record_answer result ≡ shape_form (shape_of (codes "graph" ∷ fields.entry)) }
{
    let Some((version, horizon)) = two_of(fields) else {
        return Err(SHAPE_RULE);
    };
    let Some(version) = value_in(version) else {
        return Err(NUMBERS_RULE);
    };
    let Some(horizon) = horizon_in(horizon) else {
        return Err(NUMBERS_RULE);
    };
    Ok(Record::Graph { version, horizon })
}

fn vertex_in(fields: Fields<'_>) -> Result<Record<'_>, u8>
    ensures { record_answer result ≡ shape_form (shape_of (codes "v" ∷ fields.entry)) }
{
    let Some((name, a, b)) = three_of(fields) else {
        return Err(SHAPE_RULE);
    };
    if !is_name(name) {
        return Err(NAMES_RULE);
    }
    let Some(over) = span_in(a, b) else {
        return Err(NUMBERS_RULE);
    };
    Ok(Record::Vertex { name, over })
}

fn edge_in(fields: Fields<'_>) -> Result<Record<'_>, u8>
    ensures { record_answer result ≡ shape_form (shape_of (codes "e" ∷ fields.entry)) }
{
    let Some((name, from, to, a, b)) = five_of(fields) else {
        return Err(SHAPE_RULE);
    };
    if !are_names(name, from, to) {
        return Err(NAMES_RULE);
    }
    let Some(over) = span_in(a, b) else {
        return Err(NUMBERS_RULE);
    };
    Ok(Record::Edge {
        name,
        from,
        to,
        over,
    })
}

fn vertex_property_in(fields: Fields<'_>) -> Result<Record<'_>, u8>
    ensures { record_answer result ≡ shape_form (shape_of (codes "pv" ∷ fields.entry)) }
{
    let Some((owner, key, a, b, value)) = five_of(fields) else {
        return Err(SHAPE_RULE);
    };
    if !are_name_and_key(owner, key) {
        return Err(NAMES_RULE);
    }
    let Some(over) = span_in(a, b) else {
        return Err(NUMBERS_RULE);
    };
    let Some(value) = value_in(value) else {
        return Err(NUMBERS_RULE);
    };
    Ok(Record::VertexProp {
        owner,
        key,
        over,
        value,
    })
}

fn edge_property_in(fields: Fields<'_>) -> Result<Record<'_>, u8>
    ensures { record_answer result ≡ shape_form (shape_of (codes "pe" ∷ fields.entry)) }
{
    let Some((owner, key, a, b, value)) = five_of(fields) else {
        return Err(SHAPE_RULE);
    };
    if !are_name_and_key(owner, key) {
        return Err(NAMES_RULE);
    }
    let Some(over) = span_in(a, b) else {
        return Err(NUMBERS_RULE);
    };
    let Some(value) = value_in(value) else {
        return Err(NUMBERS_RULE);
    };
    Ok(Record::EdgeProp {
        owner,
        key,
        over,
        value,
    })
}

fn end_in(mut fields: Fields<'_>) -> Result<Record<'_>, u8>
    ensures { record_answer result ≡ shape_form (shape_of (codes "end" ∷ fields.entry)) }
{
    match fields.next() {
        Some(_) => Err(SHAPE_RULE),
        None => Ok(Record::End),
    }
}

/// The fields, where there are exactly two.
fn two_of<'a>(mut fields: Fields<'a>) -> Option<(&'a [u8], &'a [u8])>
    ensures { option_map (λ parts. (parts.0.now, parts.1.now)) result ≡ two_of fields.entry }
{
    let x = fields.next()?;
    let y = fields.next()?;
    if fields.next().is_some() {
        return None;
    }
    Some((x, y))
}

/// The fields, where there are exactly three.
fn three_of<'a>(mut fields: Fields<'a>) -> Option<(&'a [u8], &'a [u8], &'a [u8])>
    ensures { option_map (λ parts. (parts.0.now, parts.1.now, parts.2.now)) result
        ≡ three_of fields.entry }
{
    let x = fields.next()?;
    let y = fields.next()?;
    let z = fields.next()?;
    if fields.next().is_some() {
        return None;
    }
    Some((x, y, z))
}

type Five<'a> = (&'a [u8], &'a [u8], &'a [u8], &'a [u8], &'a [u8]);

/// The fields, where there are exactly five.
fn five_of<'a>(mut fields: Fields<'a>) -> Option<Five<'a>>
    ensures { option_map (λ parts. (parts.0.now, parts.1.now, parts.2.now, parts.3.now, parts.4.now)) result
        ≡ five_of fields.entry }
{
    let p = fields.next()?;
    let q = fields.next()?;
    let x = fields.next()?;
    let y = fields.next()?;
    let z = fields.next()?;
    if fields.next().is_some() {
        return None;
    }
    Some((p, q, x, y, z))
}

fn are_names(name: &[u8], from: &[u8], to: &[u8]) -> bool
    ensures { result ≡ is_name name.now && is_name from.now && is_name to.now }
{
    is_name(name) && is_name(from) && is_name(to)
}

fn are_name_and_key(owner: &[u8], key: &[u8]) -> bool
    ensures { result ≡ is_name owner.now && is_key key.now }
{
    is_name(owner) && is_key(key)
}

fn is_name(text: &[u8]) -> bool
    ensures { result ≡ is_name text.now }
{
    is_text_up_to(text, NAME_LIMIT)
}

fn is_key(text: &[u8]) -> bool
    ensures { result ≡ is_key text.now }
{
    is_text_up_to(text, KEY_LIMIT)
}

fn is_text_up_to(text: &[u8], most: usize) -> bool
    ensures { result ≡ is_text_up_to most text.now }
{
    if text.is_empty() {
        return false;
    }
    if text.len() > most {
        return false;
    }
    are_name_bytes(text)
}

fn are_name_bytes(text: &[u8]) -> bool
    ensures { result ≡ list_all is_name_byte text.now }
{
    text.iter().all(|c| is_name_byte(*c))
}

// Each byte of a name or a key stands at its own place, and a comma at every other place, so that one
// look tells what a byte is.
static NAME_BYTES: [u8; 256] = *b"\
    ,,,,,,,,,,,,,,,,,,,,,,,,,,,,,,,,\
    ,,,,,,,,,,,,,-.,0123456789:,,,,,\
    ,ABCDEFGHIJKLMNOPQRSTUVWXYZ,,,,_\
    ,abcdefghijklmnopqrstuvwxyz,,,,,\
    ,,,,,,,,,,,,,,,,,,,,,,,,,,,,,,,,\
    ,,,,,,,,,,,,,,,,,,,,,,,,,,,,,,,,\
    ,,,,,,,,,,,,,,,,,,,,,,,,,,,,,,,,\
    ,,,,,,,,,,,,,,,,,,,,,,,,,,,,,,,,";

fn is_name_byte(c: u8) -> bool
    ensures { result ≡ is_name_byte c }
{
    NAME_BYTES[usize::from(c)] != b','
}

fn horizon_in(field: &[u8]) -> Option<u64>
    ensures { result ≡ horizon_in field.now }
{
    let horizon = number_of(field, LAST)?;
    if horizon == 0 { None } else { Some(horizon) }
}

fn span_in(a: &[u8], b: &[u8]) -> Option<Span>
    ensures { result ≡ span_in a.now b.now }
{
    let a = number_of(a, LAST)?;
    let b = number_of(b, LAST)?;
    Some(Span { a, b })
}

fn value_in(field: &[u8]) -> Option<u32>
    ensures { result ≡ value_in field.now }
{
    let value = number_of(field, u64::from(u32::MAX))?;
    Some(value as u32)
}
