//! The canonical text of a graph.
ghost use Rattle.std.specs.Prelude.{◌≡◌, ◌<◌, ◌++◌, length, map, OnOk, OnErr};
ghost use Rattle.std.specs.List.{flat_map};
ghost use Rattle.graphite_text.specs.Canonical.{form_line, first_span, vertex_form, edge_form, vertex_property_form, edge_property_form, canonical_text};
ghost use Rattle.graphite_text.specs.Spans.{as_span};
ghost use Rattle.graphite_props.specs.Properties.{keys_of};
ghost use Rattle.graphite_props.specs.Rows.{property_of};

use crate::store::Store;
use graphite_props::PropRow;
use graphite_text::{Record, Span, push_record};
use graphite_time::{Interval, Life, NoMemory};

/// The version of the text.
const VERSION: u32 = 1;

/// The instants of an interval, as a line names them.
fn span_of(over: Interval) -> Span
    ensures { result ≡ as_span over }
{
    Span {
        a: over.a(),
        b: over.b(),
    }
}

/// The first lifespan.
fn first_span(life: &Life) -> Span
    ensures { result ≡ first_span (map as_span life.now) }
{
    match life.spans().first() {
        Some(over) => span_of(*over),
        None => Span { a: 0, b: 0 },
    }
}

impl<'a> Store<'a> {
    /// Appends the canonical text. Where memory is short, nothing changes.
    pub(crate) fn show(&self, into: &mut Vec<u8>) -> Result<(), NoMemory>
        ensures ok { OnOk result (into.new.items ≡ into.old.items ++ canonical_text self.now) }
        ensures err { OnErr result (into.new.items ≡ into.old.items) }
    {
        let mut text = Vec::new(*into.allocator());
        self.push_text(&mut text)?;
        if into.is_empty() {
            *into = text;
            return Ok(());
        }
        into.extend_from_slice(&text)?;
        Ok(())
    }

    fn push_text(&self, into: &mut Vec<u8>) -> Result<(), NoMemory>
        ensures { OnOk result (into.new.items ≡ into.old.items ++ canonical_text self.now) }
    {
        let header = Record::Graph {
            version: VERSION,
            horizon: self.horizon(),
        };
        push_record(into, header)?;
        self.push_vertices(into)?;
        self.push_edges(into)?;
        self.push_vertex_properties(into)?;
        self.push_edge_properties(into)?;
        push_record(into, Record::End)?;
        Ok(())
    }

    fn push_vertices(&self, into: &mut Vec<u8>) -> Result<(), NoMemory>
        ensures { OnOk result (into.new.items
            ≡ into.old.items ++ flat_map form_line (map vertex_form self.now.vertices)) }
    {
        for v in 0..self.vertices() {
            let vertex = Record::Vertex {
                name: self.vertex_name(v),
                over: first_span(self.vertex_life(v)),
            };
            push_record(into, vertex)?;
        }
        Ok(())
    }

    fn push_edges(&self, into: &mut Vec<u8>) -> Result<(), NoMemory>
        ensures { OnOk result (into.new.items
            ≡ into.old.items ++ flat_map form_line (map (edge_form self.now.vertices) self.now.edges)) }
    {
        for e in 0..self.edges() {
            let ends = self.ends(e);
            let from = self.vertex_name(ends.from);
            let to = self.vertex_name(ends.to);
            let edge = Record::Edge {
                name: self.edge_name(e),
                from,
                to,
                over: first_span(self.edge_life(e)),
            };
            push_record(into, edge)?;
        }
        Ok(())
    }

    fn push_vertex_properties(&self, into: &mut Vec<u8>) -> Result<(), NoMemory>
        ensures { OnOk result (into.new.items ≡ into.old.items
            ++ flat_map form_line (map (vertex_property_form self.now.vertices) self.now.vertex_properties)) }
    {
        let rows = self.vertex_props().rows();
        for row in rows {
            self.push_vertex_property(into, *row)?;
        }
        Ok(())
    }

    fn push_vertex_property(&self, into: &mut Vec<u8>, row: PropRow) -> Result<(), NoMemory>
        requires key { row.key < length (keys_of self.now.vertex_properties) }
        requires owner { row.owner < length self.now.vertices }
        ensures { OnOk result (into.new.items ≡ into.old.items
            ++ form_line (vertex_property_form self.now.vertices (property_of (keys_of self.now.vertex_properties) row))) }
    {
        let property = Record::VertexProp {
            owner: self.vertex_name(row.owner),
            key: self.vertex_props().key_name(row.key),
            over: span_of(row.over),
            value: row.value,
        };
        push_record(into, property)
    }

    fn push_edge_properties(&self, into: &mut Vec<u8>) -> Result<(), NoMemory>
        ensures { OnOk result (into.new.items ≡ into.old.items
            ++ flat_map form_line (map (edge_property_form self.now.edges) self.now.edge_properties)) }
    {
        let rows = self.edge_props().rows();
        for row in rows {
            self.push_edge_property(into, *row)?;
        }
        Ok(())
    }

    fn push_edge_property(&self, into: &mut Vec<u8>, row: PropRow) -> Result<(), NoMemory>
        requires key { row.key < length (keys_of self.now.edge_properties) }
        requires owner { row.owner < length self.now.edges }
        ensures { OnOk result (into.new.items ≡ into.old.items
            ++ form_line (edge_property_form self.now.edges (property_of (keys_of self.now.edge_properties) row))) }
    {
        let property = Record::EdgeProp {
            owner: self.edge_name(row.owner),
            key: self.edge_props().key_name(row.key),
            over: span_of(row.over),
            value: row.value,
        };
        push_record(into, property)
    }
}
