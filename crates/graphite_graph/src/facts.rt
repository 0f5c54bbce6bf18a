//! The facts of vertices, and what is made of them.
ghost use Rattle.std.specs.Prelude.{◌≡◌, ◌<◌, ℕ, length, unwrap_or, vec_len, slice_index_or, [], IfOk};
ghost use Rattle.std.specs.Option.{ForSome};
ghost use Rattle.graphite_part.specs.Pieces.{value_at, AreRuns, IsChain};
ghost use Rattle.std.proofs.Common.{true, lit<};
ghost use Rattle.graphite_graph.specs.FactsLaws.{facts_exact};
ghost use Rattle.graphite_graph.specs.Facts.{facts_at, AreMadeOf};
ghost use Rattle.graphite_graph.specs.Departure.{departing, GoFrom, HaveEdges};
ghost use Rattle.graphite_graph.specs.Covered.{facts_with, asked_degree, asked_number};

use crate::Graph;
use crate::alive::asked_numbers;
use crate::departure::{Departure, sorted_departures, take_covers};
use crate::made::made_of_vertex;
use crate::property::asked_property;
use graphite_base::Bytes;
use graphite_part::{Partition, Piece, Plain};
use graphite_time::NoMemory;
use std::alloc::Global;

/// Which facts of the vertices are wanted.
#[derive(Drop, PartialEq, Eq)]
pub struct Ask {
    /// The number of edges that are alive and lead out of the vertex.
    pub outdegree: bool,
    /// The number of vertices that are alive.
    pub n: bool,
    /// The value of the vertex's property with this key.
    pub key: Option<Bytes>,
}

/// What holds of a vertex at an instant of its life.
#[derive(Clone, Copy, Debug, PartialEq, Eq, PartialOrd, Ord, Default)]
pub struct Facts {
    /// Its number.
    pub vertex: u32,
    /// How many edges that are alive lead out of it, at most [`graphite_text::EDGE_LIMIT`]; 0 where that is not asked.
    pub outdegree: u32,
    /// How many vertices are alive at the instant, at most [`graphite_text::VERTEX_LIMIT`]; 0 where that is not asked.
    pub n: u32,
    /// The value that the vertex has under the asked key at the instant; `None` where it has none or no
    /// key is asked.
    pub prop: Option<u32>,
}

impl Plain for Facts {
    ghost exact = { facts_exact };

    const IN_PLACE: bool = true;

    ghost IN_PLACE = { true };

    ghost fits = { λ _. lit< tt };

    const OPTION_IN_PLACE: bool = true;

    ghost OPTION_IN_PLACE = { true };

    ghost option_fits = { λ _. lit< tt };
}

impl Facts {
    /// The facts of a vertex with this out-degree, this number of vertices alive and this value of a
    /// property.
    pub(crate) fn with(vertex: u32, outdegree: u32, n: u32, prop: Option<u32>) -> Facts
        ensures { result ≡ facts_with vertex outdegree n prop }
    {
        Facts {
            vertex,
            outdegree,
            n,
            prop,
        }
    }
}

impl<'a> Graph<'a> {
    /// For each vertex, in the order of their numbers, its facts at exactly the instants of its life.
    /// What is not asked is not looked at. Refused only where memory is short.
    pub fn facts(&self, ask: &Ask) -> Result<Vec<Partition<Facts>>, NoMemory>
        ensures len { IfOk result (λ facts. vec_len facts ≡ length self.now.vertices) }
        ensures facts { IfOk result (λ facts. (v : ℕ) → v < length self.now.vertices
            → AreRuns (facts_at self.now ask.now v) (slice_index_or facts.items v [])) }
    {
        self.map_facts(ask, &|facts: Facts| facts)
    }

    /// For each vertex, in the order of their numbers, what `f` makes of its facts, at exactly the
    /// instants of its life. `f` may be called on the facts of every vertex at every instant of its
    /// life. What is not asked is not looked at. Refused only where memory is short.
    pub fn map_facts<T: Plain, F: Fn(Facts) -> T>(
        &self,
        ask: &Ask,
        f: &F,
    ) -> Result<Vec<Partition<T>>, NoMemory>
        requires { (v t : ℕ) → ForSome (facts_at self.now ask.now v t) (F.pre f.now) }
        ensures len { IfOk result (λ made. vec_len made ≡ length self.now.vertices) }
        ensures made { IfOk result (λ made. (v : ℕ) → v < length self.now.vertices
            → AreMadeOf (F.post f.now) (facts_at self.now ask.now v) (slice_index_or made.items v [])) }
    {
        let alloc = self.allocator();
        let departures = asked_departures(alloc, self, ask)?;
        let numbers = asked_numbers(alloc, self, ask)?;
        made_from(alloc, self, ask, &departures, numbers.pieces(), f)
    }
}

/// The departures that are counted: those of all edges, in the order of their vertices, or none
/// where out-degrees are not asked.
fn asked_departures(alloc: Global, graph: &Graph<'_>, ask: &Ask) -> Result<Vec<Departure>, NoMemory>
    ensures ordered { IfOk result (λ all. GoFrom 0 all.items) }
    ensures edges { IfOk result (λ all. HaveEdges graph.now all.items) }
    ensures counts { IfOk result (λ all. (v t : ℕ) → departing graph.now all.items v t ≡ asked_degree graph.now ask.now v t) }
{
    if ask.outdegree {
        return sorted_departures(alloc, graph);
    }
    Ok(Vec::new(alloc))
}

/// What `f` makes of the facts of all vertices, counted from the departures and with the numbers of vertices
/// alive. The facts of one vertex at a time are made.
fn made_from<T: Plain, F: Fn(Facts) -> T>(
    alloc: Global,
    graph: &Graph<'_>,
    ask: &Ask,
    departures: &[Departure],
    numbers: &[Piece<u32>],
    f: &F,
) -> Result<Vec<Partition<T>>, NoMemory>
    requires callable { (v t : ℕ) → ForSome (facts_at graph.now ask.now v t) (F.pre f.now) }
    requires ordered { GoFrom 0 departures.now }
    requires edges { HaveEdges graph.now departures.now }
    requires counts { (v t : ℕ) → departing graph.now departures.now v t ≡ asked_degree graph.now ask.now v t }
    requires chain { IsChain numbers.now }
    requires numbers { (t : ℕ) → unwrap_or (value_at numbers.now t) 0 ≡ asked_number graph.now ask.now t }
    ensures len { IfOk result (λ made. vec_len made ≡ length graph.now.vertices) }
    ensures made { IfOk result (λ made. (v : ℕ) → v < length graph.now.vertices
        → AreMadeOf (F.post f.now) (facts_at graph.now ask.now v) (slice_index_or made.items v [])) }
{
    let mut made = Vec::with_capacity(alloc, graph.vertices() as usize)?;
    let mut covers = Vec::new(alloc);
    let mut rest = departures;
    for v in 0..graph.vertices() {
        rest = take_covers(graph, rest, v, &mut covers)?;
        let property = asked_property(graph, ask, v);
        let life = graph.vertex_life(v);
        made.push(made_of_vertex(alloc, v, life, &covers, numbers, property, f)?)?;
    }
    Ok(made)
}
