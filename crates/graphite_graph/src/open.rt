//! A graph while its text is read: its properties have no values by instant yet.
ghost use Rattle.std.specs.Prelude.{◌≡◌, ◌<◌, ◌≤◌, [], Some, ◌&&◌, ◌||◌, true, false, length, is_none, Err, if◌then◌else◌, IfSome, IfNone, IfOk, OnOk, OnErr};
ghost use Rattle.graphite_time.specs.declared.TheConstants.{LAST};
ghost use Rattle.graphite_time.specs.Interval.{end_of};
ghost use Rattle.graphite_text.specs.declared.limits.TheConstants.{VERTEX_LIMIT, EDGE_LIMIT, PROPERTY_LIMIT};
ghost use Rattle.graphite_text.specs.Graph.{is_alive, vertex_life, edge_life, vertex_number, edge_number};
ghost use Rattle.graphite_text.specs.Reading.{throughout, is_apart, property_count};
ghost use Rattle.graphite_text.specs.Spans.{as_span};
ghost use Rattle.graphite_props.specs.declared.fault.AddFault.TheVariants.{Overlap};
ghost use Rattle.graphite_props.specs.Properties.{property};
ghost use Rattle.graphite_graph.specs.Ends.{with_vertex, with_edge, with_vertex_property, with_edge_property};
ghost use Rattle.graphite_graph.specs.Store.{AreAmong};

use crate::ends::Ends;
use crate::store::Store;
use graphite_props::{AddFault, PropRow, Rows, Timelines};
use graphite_time::{Interval, NoMemory};
use std::alloc::Global;
use std::marker::Model;

/// A graph to which lines are still added. The store has its vertices and edges, and no properties.
#[derive(Drop)]
pub(crate) struct Open<'a> {
    store: Store<'a>,
    vertex_rows: Rows<'a>,
    edge_rows: Rows<'a>,
}

impl<'a> Model for Open<'a> {
    ghost use Rattle.std.specs.Prelude.{length};
    ghost use Rattle.graphite_text.specs.Graph.{PlainGraph};
    ghost use Rattle.graphite_graph.specs.Store.{with_properties, AreOwned};

    ghost Value = { PlainGraph };

    ghost view = { λ graph. with_properties graph.store graph.vertex_rows graph.edge_rows };

    ghost invariant = { λ graph. AreOwned (length graph.store.vertices) graph.vertex_rows
        × AreOwned (length graph.store.edges) graph.edge_rows };
}

/// The owner of the last row, or 0.
fn last_owner(rows: &[PropRow]) -> u32 {
    rows.last().map_or(0, |row| row.owner)
}

impl<'a> Open<'a> {
    /// The graph with no vertices.
    pub(crate) fn new(alloc: Global, horizon: u64) -> Open<'a>
        requires { horizon ≤ LAST }
        ensures { result ≡ record {
          horizon = horizon;
          vertices = [];
          edges = [];
          vertex_properties = [];
          edge_properties = [];
        } }
    {
        Open {
            store: Store::new(alloc, horizon),
            vertex_rows: Rows::new(alloc),
            edge_rows: Rows::new(alloc),
        }
    }

    /// The graph with the values of its properties by instant.
    pub(crate) fn finish(self) -> Result<Store<'a>, NoMemory>
        ensures { IfOk result (λ store. store ≡ self.entry) }
    {
        let Open {
            store,
            vertex_rows,
            edge_rows,
        } = self;
        let vertex_props = Timelines::of_rows(vertex_rows)?;
        let edge_props = Timelines::of_rows(edge_rows)?;
        Ok(store.completed(vertex_props, edge_props))
    }

    /// Moves the horizon of a graph with no vertices.
    pub(crate) fn set_horizon(&mut self, horizon: u64)
        requires in_range { horizon ≤ LAST }
        requires no_vertices { self.old.vertices ≡ [] }
        requires no_edges { self.old.edges ≡ [] }
        ensures { self.new ≡ record self.old { horizon = horizon } }
    {
        self.store.set_horizon(horizon);
    }

    /// Adds a vertex, as [`Store::add_vertex`] does.
    pub(crate) fn add_vertex(
        &mut self,
        alloc: Global,
        name: &'a [u8],
        over: Interval,
    ) -> Result<bool, NoMemory>
        requires room { length self.old.vertices < VERTEX_LIMIT }
        requires in_range { end_of over ≤ self.old.horizon }
        ensures added { IfOk result (λ added. added ≡ is_none (vertex_number self.old name.now)) }
        ensures graph { IfOk result (λ added. self.new
            ≡ (if added then with_vertex self.old name.now (as_span over) else self.old)) }
        ensures err { OnErr result (self.new ≡ self.old) }
    {
        self.store.add_vertex(alloc, name, over)
    }

    /// Adds an edge, as [`Store::add_edge`] does.
    pub(crate) fn add_edge(
        &mut self,
        alloc: Global,
        name: &'a [u8],
        ends: Ends,
        over: Interval,
    ) -> Result<bool, NoMemory>
        requires room { length self.old.edges < EDGE_LIMIT }
        requires among { AreAmong (length self.old.vertices) ends }
        requires in_range { end_of over ≤ self.old.horizon }
        ensures added { IfOk result (λ added. added ≡ is_none (edge_number self.old name.now)) }
        ensures graph { IfOk result (λ added. self.new
            ≡ (if added then with_edge self.old name.now ends (as_span over) else self.old)) }
        ensures err { OnErr result (self.new ≡ self.old) }
    {
        self.store.add_edge(alloc, name, ends, over)
    }

    /// Adds a property of a vertex. `Overlap` exactly where one of this vertex and key holds at an
    /// instant of `over`. After a refusal nothing has changed.
    pub(crate) fn add_vertex_property(
        &mut self,
        v: u32,
        key: &'a [u8],
        over: Interval,
        value: u32,
    ) -> Result<(), AddFault>
        requires room { length self.old.vertex_properties < PROPERTY_LIMIT }
        requires among { v < length self.old.vertices }
        ensures overlap { result ≡ Err Overlap → is_apart self.old.vertex_properties v key.now (as_span over) ≡ false }
        ensures apart { OnOk result (is_apart self.old.vertex_properties v key.now (as_span over) ≡ true) }
        ensures ok { OnOk result (self.new ≡ with_vertex_property self.old (property v key.now over value)) }
        ensures err { OnErr result (self.new ≡ self.old) }
    {
        self.vertex_rows.add(v, key, over, value)
    }

    /// Adds a property of an edge. `Overlap` exactly where one of this edge and key holds at an
    /// instant of `over`. After a refusal nothing has changed.
    pub(crate) fn add_edge_property(
        &mut self,
        e: u32,
        key: &'a [u8],
        over: Interval,
        value: u32,
    ) -> Result<(), AddFault>
        requires room { length self.old.edge_properties < PROPERTY_LIMIT }
        requires among { e < length self.old.edges }
        ensures overlap { result ≡ Err Overlap → is_apart self.old.edge_properties e key.now (as_span over) ≡ false }
        ensures apart { OnOk result (is_apart self.old.edge_properties e key.now (as_span over) ≡ true) }
        ensures ok { OnOk result (self.new ≡ with_edge_property self.old (property e key.now over value)) }
        ensures err { OnErr result (self.new ≡ self.old) }
    {
        self.edge_rows.add(e, key, over, value)
    }

    /// Whether a vertex is alive at every instant of `over`.
    pub(crate) fn is_alive_throughout(&self, v: u32, over: Interval) -> bool
        requires { v < length self.now.vertices }
        ensures { result ≡ throughout (is_alive (vertex_life self.now v)) (as_span over) }
    {
        self.store.is_alive_throughout(v, over)
    }

    /// The numbers of the vertices with two names. `None` exactly where one of them has none.
    pub(crate) fn find_ends(&self, from: &[u8], to: &[u8]) -> Option<Ends>
        ensures from { IfSome result (λ ends. vertex_number self.now from.now ≡ Some ends.from) }
        ensures to { IfSome result (λ ends. vertex_number self.now to.now ≡ Some ends.to) }
        ensures among { IfSome result (AreAmong (length self.now.vertices)) }
        ensures missing { IfNone result
            ((is_none (vertex_number self.now from.now) || is_none (vertex_number self.now to.now)) ≡ true) }
    {
        self.store.find_ends(from, to)
    }

    /// Whether both ends are alive at every instant of `over`.
    pub(crate) fn are_alive_throughout(&self, ends: Ends, over: Interval) -> bool
        requires { AreAmong (length self.now.vertices) ends }
        ensures { result ≡ (throughout (is_alive (vertex_life self.now ends.from)) (as_span over)
            && throughout (is_alive (vertex_life self.now ends.to)) (as_span over)) }
    {
        self.store.are_alive_throughout(ends, over)
    }

    /// Whether an edge is alive at every instant of `over`.
    pub(crate) fn edge_is_alive_throughout(&self, e: u32, over: Interval) -> bool
        requires { e < length self.now.edges }
        ensures { result ≡ throughout (is_alive (edge_life self.now e)) (as_span over) }
    {
        self.store.edge_is_alive_throughout(e, over)
    }

    /// How many properties there are, of vertices and edges together.
    pub(crate) fn properties(&self) -> usize
        ensures { result ≡ property_count self.now }
    {
        self.vertex_rows.rows().len() + self.edge_rows.rows().len()
    }

    /// The instant after the last, at most [`graphite_time::LAST`].
    pub(crate) fn horizon(&self) -> u64
        ensures horizon { result ≡ self.now.horizon }
        ensures in_range { result ≤ LAST }
    {
        self.store.horizon()
    }

    /// How many vertices there are, at most [`graphite_text::VERTEX_LIMIT`].
    pub(crate) fn vertices(&self) -> u32
        ensures count { result ≡ length self.now.vertices }
        ensures in_range { result ≤ VERTEX_LIMIT }
    {
        self.store.vertices()
    }

    /// How many edges there are, at most [`graphite_text::EDGE_LIMIT`].
    pub(crate) fn edges(&self) -> u32
        ensures count { result ≡ length self.now.edges }
        ensures in_range { result ≤ EDGE_LIMIT }
    {
        self.store.edges()
    }

    /// The number of the vertex with a name. `None` exactly where there is none.
    pub(crate) fn find_vertex(&self, name: &[u8]) -> Option<u32>
        ensures number { result ≡ vertex_number self.now name.now }
        ensures in_range { IfSome result (λ v. v < length self.now.vertices) }
    {
        self.store.find_vertex(name)
    }

    /// The number of the edge with a name. `None` exactly where there is none.
    pub(crate) fn find_edge(&self, name: &[u8]) -> Option<u32>
        ensures number { result ≡ edge_number self.now name.now }
        ensures in_range { IfSome result (λ e. e < length self.now.edges) }
    {
        self.store.find_edge(name)
    }

    /// The number of the vertex with a name, as [`Open::find_vertex`] has it. Where that vertex has
    /// the last property or follows the one that has it, nothing is searched: properties mostly come
    /// in the order of their owners.
    pub(crate) fn find_property_vertex(&self, name: &[u8]) -> Option<u32>
        ensures number { result ≡ vertex_number self.now name.now }
        ensures in_range { IfSome result (λ v. v < length self.now.vertices) }
    {
        self.store
            .find_vertex_near(name, last_owner(self.vertex_rows.rows()))
    }

    /// The number of the edge with a name, as [`Open::find_edge`] has it. Where that edge has the
    /// last property or follows the one that has it, nothing is searched.
    pub(crate) fn find_property_edge(&self, name: &[u8]) -> Option<u32>
        ensures number { result ≡ edge_number self.now name.now }
        ensures in_range { IfSome result (λ e. e < length self.now.edges) }
    {
        self.store
            .find_edge_near(name, last_owner(self.edge_rows.rows()))
    }

    /// The properties of the vertices, which own them by number.
    pub(crate) fn vertex_rows(&self) -> &Rows<'a>
        ensures { result.now ≡ self.now.vertex_properties }
    {
        &self.vertex_rows
    }

    /// The properties of the edges, which own them by number.
    pub(crate) fn edge_rows(&self) -> &Rows<'a>
        ensures { result.now ≡ self.now.edge_properties }
    {
        &self.edge_rows
    }
}
