//! What is kept of a graph while its text is read and after.
ghost use Rattle.std.specs.Prelude.{◌≡◌, ◌<◌, ◌≤◌, ℕ, [], Some, ◌&&◌, ◌||◌, true, false, length, map, is_none, Err, if◌then◌else◌, IfSome, IfNone, IfOk, OnOk, OnErr};
ghost use Rattle.graphite_time.specs.declared.TheConstants.{LAST};
ghost use Rattle.graphite_time.specs.Interval.{end_of};
ghost use Rattle.graphite_time.specs.Life.{IsLife};
ghost use Rattle.graphite_text.specs.declared.limits.TheConstants.{VERTEX_LIMIT, EDGE_LIMIT};
ghost use Rattle.graphite_text.specs.Graph.{is_alive, vertex_life, edge_life, vertex_number, edge_number, vertex_is_alive};
ghost use Rattle.graphite_text.specs.Reading.{throughout};
ghost use Rattle.graphite_text.specs.Spans.{as_span};
ghost use Rattle.graphite_graph.specs.Life.{EndsBy};
ghost use Rattle.graphite_graph.specs.Ends.{vertex_name, edge_name, edge_ends, lifespan_count, edge_lifespan_count, with_vertex, with_edge};
ghost use Rattle.graphite_graph.specs.Store.{with_properties, AreAmong, AreOwned};

use crate::ends::Ends;
use crate::names::Names;
use graphite_props::Timelines;
use graphite_time::{Interval, Life, NoMemory};
use std::alloc::Global;
use std::marker::Model;

/// A graph over the instants below its horizon. Vertices and edges are numbered from 0, in the
/// order of their lines. The names stay in the text that the graph was read from.
#[derive(Drop)]
pub(crate) struct Store<'a> {
    horizon: u64,
    vertex_names: Names<'a>,
    vertex_lives: Vec<Life>,
    edge_names: Names<'a>,
    edge_ends: Vec<Ends>,
    edge_lives: Vec<Life>,
    vertex_props: Timelines<'a>,
    edge_props: Timelines<'a>,
}

impl<'a> Model for Store<'a> {
    ghost use Rattle.std.specs.Prelude.{◌≤◌, [], length};
    ghost use Rattle.graphite_time.specs.declared.TheConstants.{LAST};
    ghost use Rattle.graphite_text.specs.Graph.{PlainGraph};
    ghost use Rattle.graphite_graph.specs.Store.{vertices_of, edges_of, AreVertices, AreEdges, AreOwned};

    ghost Value = { PlainGraph };

    ghost view = { λ graph. record {
      horizon = graph.horizon;
      vertices = vertices_of graph.vertex_names graph.vertex_lives.items;
      edges = edges_of graph.edge_names graph.edge_ends.items graph.edge_lives.items;
      vertex_properties = graph.vertex_props;
      edge_properties = graph.edge_props;
    } };

    ghost invariant = { λ graph. (graph.horizon ≤ LAST)
        × AreVertices graph.horizon graph.vertex_names graph.vertex_lives.items
        × AreEdges graph.horizon (length graph.vertex_names) graph.edge_names graph.edge_ends.items graph.edge_lives.items
        × AreOwned (length graph.vertex_names) graph.vertex_props
        × AreOwned (length graph.edge_names) graph.edge_props };
}

impl<'a> Store<'a> {
    /// The graph with no vertices.
    pub(crate) fn new(alloc: Global, horizon: u64) -> Store<'a>
        requires { horizon ≤ LAST }
        ensures { result ≡ record {
          horizon = horizon;
          vertices = [];
          edges = [];
          vertex_properties = [];
          edge_properties = [];
        } }
    {
        Store {
            horizon,
            vertex_names: Names::new(alloc),
            vertex_lives: Vec::new(alloc),
            edge_names: Names::new(alloc),
            edge_ends: Vec::new(alloc),
            edge_lives: Vec::new(alloc),
            vertex_props: Timelines::new(alloc),
            edge_props: Timelines::new(alloc),
        }
    }

    /// What the graph takes its memory from.
    pub(crate) fn allocator(&self) -> Global {
        *self.edge_ends.allocator()
    }

    /// Moves the horizon of a graph with no vertices.
    pub(crate) fn set_horizon(&mut self, horizon: u64)
        requires in_range { horizon ≤ LAST }
        requires no_vertices { self.old.vertices ≡ [] }
        requires no_edges { self.old.edges ≡ [] }
        ensures { self.new ≡ record self.old { horizon = horizon } }
    {
        self.horizon = horizon;
    }

    /// The same vertices and edges with these properties.
    pub(crate) fn completed(
        self,
        vertex_props: Timelines<'a>,
        edge_props: Timelines<'a>,
    ) -> Store<'a>
        requires of_vertices { AreOwned (length self.vertices) vertex_props }
        requires of_edges { AreOwned (length self.edges) edge_props }
        ensures { result ≡ with_properties self.entry vertex_props.entry edge_props.entry }
    {
        let Store {
            horizon,
            vertex_names,
            vertex_lives,
            edge_names,
            edge_ends,
            edge_lives,
            ..
        } = self;
        Store {
            horizon,
            vertex_names,
            vertex_lives,
            edge_names,
            edge_ends,
            edge_lives,
            vertex_props,
            edge_props,
        }
    }

    /// Adds a vertex with one lifespan, and answers `true`, where its name is new. Where it is not,
    /// or memory is short, nothing changes.
    pub(crate) fn add_vertex(
        &mut self,
        alloc: Global,
        name: &'a [u8],
        over: Interval,
    ) -> Result<bool, NoMemory>
        requires room { length self.old.vertices < VERTEX_LIMIT }
        requires in_range { end_of over ≤ self.old.horizon }
        ensures added { IfOk result (λ added. added ≡ is_none (vertex_number self.old name.now)) }
        ensures graph { IfOk result (λ added. self.new
            ≡ (if added then with_vertex self.old name.now (as_span over) else self.old)) }
        ensures err { OnErr result (self.new ≡ self.old) }
    {
        self.vertex_lives.reserve(1)?;
        let life = Life::one(alloc, over)?;
        let added = self.vertex_names.insert(name)?;
        if added {
            self.vertex_lives.push(life).unwrap();
        }
        Ok(added)
    }

    /// Adds an edge with one lifespan, and answers `true`, where its name is new. Where it is not,
    /// or memory is short, nothing changes.
    pub(crate) fn add_edge(
        &mut self,
        alloc: Global,
        name: &'a [u8],
        ends: Ends,
        over: Interval,
    ) -> Result<bool, NoMemory>
        requires room { length self.old.edges < EDGE_LIMIT }
        requires among { AreAmong (length self.old.vertices) ends }
        requires in_range { end_of over ≤ self.old.horizon }
        ensures added { IfOk result (λ added. added ≡ is_none (edge_number self.old name.now)) }
        ensures graph { IfOk result (λ added. self.new
            ≡ (if added then with_edge self.old name.now ends (as_span over) else self.old)) }
        ensures err { OnErr result (self.new ≡ self.old) }
    {
        self.edge_ends.reserve(1)?;
        self.edge_lives.reserve(1)?;
        let life = Life::one(alloc, over)?;
        let added = self.edge_names.insert(name)?;
        if added {
            self.edge_ends.push(ends).unwrap();
            self.edge_lives.push(life).unwrap();
        }
        Ok(added)
    }

    /// Whether a vertex is alive at every instant of `over`.
    pub(crate) fn is_alive_throughout(&self, v: u32, over: Interval) -> bool
        requires { v < length self.now.vertices }
        ensures { result ≡ throughout (is_alive (vertex_life self.now v)) (as_span over) }
    {
        self.vertex_life(v).covers(over)
    }

    /// The numbers of the vertices with two names. `None` exactly where one of them has none.
    pub(crate) fn find_ends(&self, from: &[u8], to: &[u8]) -> Option<Ends>
        ensures from { IfSome result (λ ends. vertex_number self.now from.now ≡ Some ends.from) }
        ensures to { IfSome result (λ ends. vertex_number self.now to.now ≡ Some ends.to) }
        ensures among { IfSome result (AreAmong (length self.now.vertices)) }
        ensures missing { IfNone result
            ((is_none (vertex_number self.now from.now) || is_none (vertex_number self.now to.now)) ≡ true) }
    {
        let from = self.find_vertex(from)?;
        let to = self.find_vertex(to)?;
        Some(Ends { from, to })
    }

    /// Whether both ends are alive at every instant of `over`.
    pub(crate) fn are_alive_throughout(&self, ends: Ends, over: Interval) -> bool
        requires { AreAmong (length self.now.vertices) ends }
        ensures { result ≡ (throughout (is_alive (vertex_life self.now ends.from)) (as_span over)
            && throughout (is_alive (vertex_life self.now ends.to)) (as_span over)) }
    {
        self.is_alive_throughout(ends.from, over) && self.is_alive_throughout(ends.to, over)
    }

    /// Whether an edge is alive at every instant of `over`.
    pub(crate) fn edge_is_alive_throughout(&self, e: u32, over: Interval) -> bool
        requires { e < length self.now.edges }
        ensures { result ≡ throughout (is_alive (edge_life self.now e)) (as_span over) }
    {
        self.edge_life(e).covers(over)
    }

    /// The instant after the last, at most [`graphite_time::LAST`]. No lifespan ends after it.
    pub(crate) fn horizon(&self) -> u64
        ensures horizon { result ≡ self.now.horizon }
        ensures in_range { result ≤ LAST }
        ensures ended { (v t : ℕ) → v < length self.now.vertices → self.now.horizon ≤ t
            → vertex_is_alive self.now v t ≡ false }
    {
        self.horizon
    }

    /// How many vertices there are, at most [`graphite_text::VERTEX_LIMIT`].
    pub(crate) fn vertices(&self) -> u32
        ensures count { result ≡ length self.now.vertices }
        ensures in_range { result ≤ VERTEX_LIMIT }
    {
        self.vertex_names.len()
    }

    /// How many edges there are, at most [`graphite_text::EDGE_LIMIT`]. Together they have no more lifespans.
    pub(crate) fn edges(&self) -> u32
        ensures count { result ≡ length self.now.edges }
        ensures in_range { result ≤ EDGE_LIMIT }
        ensures lifespans { edge_lifespan_count self.now ≤ EDGE_LIMIT }
    {
        self.edge_names.len()
    }

    /// How many lifespans the vertices have together, at most [`graphite_text::VERTEX_LIMIT`].
    pub(crate) fn lifespans(&self) -> u32
        ensures count { result ≡ lifespan_count self.now }
        ensures in_range { result ≤ VERTEX_LIMIT }
    {
        // each vertex has one
        self.vertex_names.len()
    }

    /// The name of a vertex.
    pub(crate) fn vertex_name(&self, v: u32) -> &[u8]
        requires { v < length self.now.vertices }
        ensures { vertex_name self.now v ≡ Some result.now }
    {
        self.vertex_names.name_at(v)
    }

    /// The name of an edge.
    pub(crate) fn edge_name(&self, e: u32) -> &[u8]
        requires { e < length self.now.edges }
        ensures { edge_name self.now e ≡ Some result.now }
    {
        self.edge_names.name_at(e)
    }

    /// When a vertex is alive.
    pub(crate) fn vertex_life(&self, v: u32) -> &Life
        requires { v < length self.now.vertices }
        ensures life { map as_span result.now ≡ vertex_life self.now v }
        ensures gaps { IsLife result.now }
        ensures in_range { EndsBy self.now.horizon result.now }
    {
        &self.vertex_lives[v as usize]
    }

    /// When an edge is alive.
    pub(crate) fn edge_life(&self, e: u32) -> &Life
        requires { e < length self.now.edges }
        ensures life { map as_span result.now ≡ edge_life self.now e }
        ensures gaps { IsLife result.now }
        ensures in_range { EndsBy self.now.horizon result.now }
    {
        &self.edge_lives[e as usize]
    }

    /// The vertices that an edge leads from and to.
    pub(crate) fn ends(&self, e: u32) -> Ends
        requires { e < length self.now.edges }
        ensures ends { edge_ends self.now e ≡ Some result }
        ensures from_in_range { result.from < length self.now.vertices }
        ensures to_in_range { result.to < length self.now.vertices }
    {
        self.edge_ends[e as usize]
    }

    /// The number of the vertex with a name. `None` exactly where there is none.
    pub(crate) fn find_vertex(&self, name: &[u8]) -> Option<u32>
        ensures number { result ≡ vertex_number self.now name.now }
        ensures in_range { IfSome result (λ v. v < length self.now.vertices) }
    {
        self.vertex_names.number_of(name)
    }

    /// The number of the edge with a name. `None` exactly where there is none.
    pub(crate) fn find_edge(&self, name: &[u8]) -> Option<u32>
        ensures number { result ≡ edge_number self.now name.now }
        ensures in_range { IfSome result (λ e. e < length self.now.edges) }
    {
        self.edge_names.number_of(name)
    }

    /// The number of the vertex with a name, as [`Store::find_vertex`] has it. Where it is `guess` or
    /// the one after it, nothing is searched.
    pub(crate) fn find_vertex_near(&self, name: &[u8], guess: u32) -> Option<u32>
        ensures number { result ≡ vertex_number self.now name.now }
        ensures in_range { IfSome result (λ v. v < length self.now.vertices) }
    {
        self.vertex_names.number_near(name, guess)
    }

    /// The number of the edge with a name, as [`Store::find_edge`] has it. Where it is `guess` or the
    /// one after it, nothing is searched.
    pub(crate) fn find_edge_near(&self, name: &[u8], guess: u32) -> Option<u32>
        ensures number { result ≡ edge_number self.now name.now }
        ensures in_range { IfSome result (λ e. e < length self.now.edges) }
    {
        self.edge_names.number_near(name, guess)
    }

    /// The properties of the vertices, which own them by number.
    pub(crate) fn vertex_props(&self) -> &Timelines<'a>
        ensures properties { result.now ≡ self.now.vertex_properties }
        ensures owners { AreOwned (length self.now.vertices) result.now }
    {
        &self.vertex_props
    }

    /// The properties of the edges, which own them by number.
    pub(crate) fn edge_props(&self) -> &Timelines<'a>
        ensures properties { result.now ≡ self.now.edge_properties }
        ensures owners { AreOwned (length self.now.edges) result.now }
    {
        &self.edge_props
    }
}
