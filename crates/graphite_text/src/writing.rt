//! Records as the lines that say them.
ghost use Rattle.std.specs.Prelude.{◌≡◌, ◌∷◌, ◌++◌, OnOk};
ghost use Rattle.std.specs.Fmt.{decimal};
ghost use Rattle.graphite_text.specs.Canonical.{form_line, text_of};
ghost use Rattle.graphite_text.specs.Forms.{Edge, Header, Vertex};
ghost use Rattle.graphite_text.specs.Record.{form_of_record};
ghost use Rattle.graphite_text.specs.Writing.{property_text};

use crate::{Record, Span};
use graphite_base::push_number;
use graphite_time::NoMemory;

/// Appends the line of a record, its line feed included: the words of the record, parted by one space
/// each, with its numbers in canonical decimals. It is the line of a canonical text.
pub fn push_record(into: &mut Vec<u8>, said: Record<'_>) -> Result<(), NoMemory>
    ensures { OnOk result (into.new.items ≡ into.old.items ++ form_line (form_of_record said.entry)) }
{
    match said {
        Record::Graph { version, horizon } => push_header(into, version, horizon)?,
        Record::Vertex { name, over } => push_vertex(into, name, over)?,
        Record::Edge {
            name,
            from,
            to,
            over,
        } => push_edge(into, name, from, to, over)?,
        Record::VertexProp {
            owner,
            key,
            over,
            value,
        } => push_property(into, b"pv", owner, key, over, value)?,
        Record::EdgeProp {
            owner,
            key,
            over,
            value,
        } => push_property(into, b"pe", owner, key, over, value)?,
        Record::End => into.extend_from_slice(b"end")?,
    }
    into.extend_from_slice(b"\n")?;
    Ok(())
}

/// Appends a space and a word.
fn push_word(into: &mut Vec<u8>, word: &[u8]) -> Result<(), NoMemory>
    ensures { OnOk result (into.new.items ≡ into.old.items ++ 32 ∷ word.now) }
{
    into.extend_from_slice(b" ")?;
    into.extend_from_slice(word)?;
    Ok(())
}

/// Appends a space and a number.
fn push_field(into: &mut Vec<u8>, number: u64) -> Result<(), NoMemory>
    ensures { OnOk result (into.new.items ≡ into.old.items ++ 32 ∷ decimal number) }
{
    into.extend_from_slice(b" ")?;
    push_number(into, u128::from(number))?;
    Ok(())
}

/// Appends the ends of a span, each behind a space.
fn push_span(into: &mut Vec<u8>, over: Span) -> Result<(), NoMemory>
    ensures { OnOk result (into.new.items ≡ into.old.items ++ 32 ∷ (decimal over.a ++ 32 ∷ decimal over.b)) }
{
    push_field(into, over.a)?;
    push_field(into, over.b)?;
    Ok(())
}

fn push_header(into: &mut Vec<u8>, version: u32, horizon: u64) -> Result<(), NoMemory>
    ensures { OnOk result (into.new.items ≡ into.old.items ++ text_of (Header version horizon)) }
{
    into.extend_from_slice(b"graph")?;
    push_field(into, u64::from(version))?;
    push_field(into, horizon)?;
    Ok(())
}

fn push_vertex(into: &mut Vec<u8>, name: &[u8], over: Span) -> Result<(), NoMemory>
    ensures { OnOk result (into.new.items ≡ into.old.items ++ text_of (Vertex name.now over)) }
{
    into.extend_from_slice(b"v")?;
    push_word(into, name)?;
    push_span(into, over)?;
    Ok(())
}

fn push_edge(
    into: &mut Vec<u8>,
    name: &[u8],
    from: &[u8],
    to: &[u8],
    over: Span,
) -> Result<(), NoMemory>
    ensures { OnOk result (into.new.items ≡ into.old.items ++ text_of (Edge name.now from.now to.now over)) }
{
    into.extend_from_slice(b"e")?;
    push_word(into, name)?;
    push_word(into, from)?;
    push_word(into, to)?;
    push_span(into, over)?;
    Ok(())
}

/// Appends the text of a property, which begins with a word of its kind.
fn push_property(
    into: &mut Vec<u8>,
    kind: &[u8],
    owner: &[u8],
    key: &[u8],
    over: Span,
    value: u32,
) -> Result<(), NoMemory>
    ensures { OnOk result (into.new.items ≡ into.old.items ++ property_text kind.now owner.now key.now over value) }
{
    into.extend_from_slice(kind)?;
    push_word(into, owner)?;
    push_word(into, key)?;
    push_span(into, over)?;
    push_field(into, u64::from(value))?;
    Ok(())
}
