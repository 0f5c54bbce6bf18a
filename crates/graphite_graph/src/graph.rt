//! A graph as its callers see it.
ghost use Rattle.std.specs.Prelude.{◌≡◌, ◌<◌, ◌≤◌, ◌++◌, ℕ, Some, false, length, map, option_map, IsTrue, IfSome, OnOk, OnErr};
ghost use Rattle.graphite_time.specs.declared.TheConstants.{LAST};
ghost use Rattle.graphite_time.specs.Life.{lifespan_at, IsLife};
ghost use Rattle.graphite_text.specs.Canonical.{canonical_text};
ghost use Rattle.graphite_text.specs.declared.limits.TheConstants.{VERTEX_LIMIT, EDGE_LIMIT};
ghost use Rattle.graphite_text.specs.Graph.{vertex_life, edge_life, vertex_number, edge_number, vertex_is_alive, edge_is_alive, lifespan_at as lifespan_at_instant, travel_time};
ghost use Rattle.graphite_text.specs.Reading.{Accepted, reading_of};
ghost use Rattle.graphite_text.specs.Spans.{as_span};
ghost use Rattle.graphite_graph.specs.Life.{EndsBy};
ghost use Rattle.graphite_graph.specs.Ends.{vertex_name, edge_name, edge_ends, lifespan_count, edge_lifespan_count};
ghost use Rattle.graphite_graph.specs.Store.{AreOwned};

use crate::ends::Ends;
use crate::store::Store;
use graphite_props::Timelines;
use graphite_time::{Life, NoMemory};
use std::alloc::Global;
use std::marker::Model;

/// A graph over the instants below its horizon, as a text was accepted with it. Vertices and edges
/// are numbered from 0, in the order of their lines. The names stay in the text that the graph was
/// read from.
#[derive(Drop)]
pub struct Graph<'a> {
    store: Store<'a>,
}

impl<'a> Model for Graph<'a> {
    ghost use Rattle.std.specs.Prelude.{◌≡◌};
    ghost use Rattle.graphite_text.specs.Canonical.{canonical_text};
    ghost use Rattle.graphite_text.specs.Graph.{PlainGraph};
    ghost use Rattle.graphite_text.specs.Reading.{Accepted, reading_of};

    ghost Value = { PlainGraph };

    ghost view = { λ graph. graph.store };

    ghost invariant = { λ graph. reading_of (canonical_text graph.store) ≡ Accepted graph.store };
}

impl<'a> Graph<'a> {
    /// A graph whose canonical text is accepted with it.
    pub(crate) fn of_text(store: Store<'a>) -> Graph<'a>
        requires { reading_of (canonical_text store) ≡ Accepted store }
        ensures { result ≡ store.entry }
    {
        Graph { store }
    }

    /// What the graph takes its memory from.
    pub(crate) fn allocator(&self) -> Global {
        self.store.allocator()
    }

    /// Appends the canonical text: the header, the vertices, the edges, the properties of the
    /// vertices, those of the edges, each in order, and the end. It is accepted with this graph.
    /// Where memory is short, nothing changes.
    pub fn show(&self, into: &mut Vec<u8>) -> Result<(), NoMemory>
        ensures ok { OnOk result (into.new.items ≡ into.old.items ++ canonical_text self.now) }
        ensures err { OnErr result (into.new.items ≡ into.old.items) }
        ensures round_trip { reading_of (canonical_text self.now) ≡ Accepted self.now }
    {
        self.store.show(into)
    }

    /// The instant after the last, at most [`graphite_time::LAST`]. Nothing lives from it on.
    pub fn horizon(&self) -> u64
        ensures horizon { result ≡ self.now.horizon }
        ensures in_range { result ≤ LAST }
        ensures ended { (v t : ℕ) → v < length self.now.vertices → self.now.horizon ≤ t
            → vertex_is_alive self.now v t ≡ false }
    {
        self.store.horizon()
    }

    /// How many vertices there are, at most [`graphite_text::VERTEX_LIMIT`].
    pub fn vertices(&self) -> u32
        ensures count { result ≡ length self.now.vertices }
        ensures in_range { result ≤ VERTEX_LIMIT }
    {
        self.store.vertices()
    }

    /// How many edges there are, at most [`graphite_text::EDGE_LIMIT`]. Together they have no more lifespans.
    pub fn edges(&self) -> u32
        ensures count { result ≡ length self.now.edges }
        ensures in_range { result ≤ EDGE_LIMIT }
        ensures lifespans { edge_lifespan_count self.now ≤ EDGE_LIMIT }
    {
        self.store.edges()
    }

    /// How many lifespans the vertices have together, at most [`graphite_text::VERTEX_LIMIT`].
    pub fn lifespans(&self) -> u32
        ensures count { result ≡ lifespan_count self.now }
        ensures in_range { result ≤ VERTEX_LIMIT }
    {
        self.store.lifespans()
    }

    /// The name of a vertex.
    pub fn vertex_name(&self, v: u32) -> &[u8]
        requires { v < length self.now.vertices }
        ensures { vertex_name self.now v ≡ Some result.now }
    {
        self.store.vertex_name(v)
    }

    /// The name of an edge.
    pub fn edge_name(&self, e: u32) -> &[u8]
        requires { e < length self.now.edges }
        ensures { edge_name self.now e ≡ Some result.now }
    {
        self.store.edge_name(e)
    }

    /// When a vertex is alive: its lifespan at an instant is the plain graph's.
    pub fn vertex_life(&self, v: u32) -> &Life
        requires { v < length self.now.vertices }
        ensures life { map as_span result.now ≡ vertex_life self.now v }
        ensures lifespans { (t : ℕ) → option_map as_span (lifespan_at result.now t)
            ≡ lifespan_at_instant (vertex_life self.now v) t }
        ensures gaps { IsLife result.now }
        ensures in_range { EndsBy self.now.horizon result.now }
    {
        self.store.vertex_life(v)
    }

    /// When an edge is alive: its lifespan at an instant is the plain graph's.
    pub fn edge_life(&self, e: u32) -> &Life
        requires { e < length self.now.edges }
        ensures life { map as_span result.now ≡ edge_life self.now e }
        ensures lifespans { (t : ℕ) → option_map as_span (lifespan_at result.now t)
            ≡ lifespan_at_instant (edge_life self.now e) t }
        ensures gaps { IsLife result.now }
        ensures in_range { EndsBy self.now.horizon result.now }
    {
        self.store.edge_life(e)
    }

    /// The vertices that an edge leads from and to. Both are alive at each instant of the edge.
    pub fn ends(&self, e: u32) -> Ends
        requires { e < length self.now.edges }
        ensures ends { edge_ends self.now e ≡ Some result }
        ensures from_in_range { result.from < length self.now.vertices }
        ensures to_in_range { result.to < length self.now.vertices }
        ensures from_alive { (t : ℕ) → IsTrue (edge_is_alive self.now e t)
            → IsTrue (vertex_is_alive self.now result.from t) }
        ensures to_alive { (t : ℕ) → IsTrue (edge_is_alive self.now e t)
            → IsTrue (vertex_is_alive self.now result.to t) }
    {
        self.store.ends(e)
    }

    /// The number of the vertex with a name. `None` exactly where there is none.
    pub fn find_vertex(&self, name: &[u8]) -> Option<u32>
        ensures number { result ≡ vertex_number self.now name.now }
        ensures in_range { IfSome result (λ v. v < length self.now.vertices) }
    {
        self.store.find_vertex(name)
    }

    /// The number of the edge with a name. `None` exactly where there is none.
    pub fn find_edge(&self, name: &[u8]) -> Option<u32>
        ensures number { result ≡ edge_number self.now name.now }
        ensures in_range { IfSome result (λ e. e < length self.now.edges) }
    {
        self.store.find_edge(name)
    }

    /// The properties of the vertices, which own them by number.
    pub fn vertex_props(&self) -> &Timelines<'a>
        ensures properties { result.now ≡ self.now.vertex_properties }
        ensures owners { AreOwned (length self.now.vertices) result.now }
    {
        self.store.vertex_props()
    }

    /// The properties of the edges, which own them by number. No travel time is 0.
    pub fn edge_props(&self) -> &Timelines<'a>
        ensures properties { result.now ≡ self.now.edge_properties }
        ensures owners { AreOwned (length self.now.edges) result.now }
        ensures times { (e t : ℕ) → 1 ≤ travel_time self.now e t }
    {
        self.store.edge_props()
    }
}
