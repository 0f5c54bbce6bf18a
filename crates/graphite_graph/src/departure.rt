//! The edges of a graph by the vertices that they leave.
ghost use Rattle.std.specs.Prelude.{◌≡◌, ◌+◌, ◌<◌, ◌≤◌, ℕ, vec_len, OnOk, IfOk};
ghost use Rattle.std.specs.List.Sorted.{IsPermutation};
ghost use Rattle.graphite_part.specs.Counts.{covers_at};
ghost use Rattle.graphite_text.specs.declared.limits.TheConstants.{EDGE_LIMIT};
ghost use Rattle.graphite_text.specs.Graph.{out_degree};

use crate::Graph;
use graphite_time::{Interval, NoMemory};
use std::alloc::Global;

/// An edge, and the vertex that it leaves. The edge's lifespans stay in the graph, since at the moment
/// of greatest memory there is a departure for every edge.
#[derive(Clone, Copy, Debug, PartialEq, Eq)]
pub(crate) struct Departure {
    pub from: u32,
    pub edge: u32,
}

ghost use Rattle.graphite_graph.specs.Departure.{departing, GoFrom, HaveEdges};

/// The departures of all edges, in the order of the edges.
fn departures_of(alloc: Global, graph: &Graph<'_>) -> Result<Vec<Departure>, NoMemory>
    ensures counts { IfOk result (λ all. (v t : ℕ) → departing graph.now all.items v t ≡ out_degree graph.now v t) }
    ensures edges { IfOk result (λ all. HaveEdges graph.now all.items) }
{
    let mut departures = Vec::with_capacity(alloc, graph.edges() as usize)?;
    for edge in 0..graph.edges() {
        let from = graph.ends(edge).from;
        departures.push(Departure { from, edge })?;
    }
    Ok(departures)
}

/// Puts the departures in the order of their vertices.
fn sort(departures: &mut Vec<Departure>)
    ensures ordered { GoFrom 0 departures.new.items }
    ensures kept { IsPermutation departures.old.items departures.new.items }
{
    departures.sort_unstable_by_key(|departure| departure.from);
}

/// The departures of all edges, in the order of their vertices.
pub(crate) fn sorted_departures(
    alloc: Global,
    graph: &Graph<'_>,
) -> Result<Vec<Departure>, NoMemory>
    ensures ordered { IfOk result (λ all. GoFrom 0 all.items) }
    ensures counts { IfOk result (λ all. (v t : ℕ) → departing graph.now all.items v t ≡ out_degree graph.now v t) }
    ensures edges { IfOk result (λ all. HaveEdges graph.now all.items) }
{
    let mut departures = departures_of(alloc, graph)?;
    sort(&mut departures);
    Ok(departures)
}

/// Puts the lifespans of the edges of the departures from `v`, which stand at the front, in place of
/// what `covers` held, and answers the departures behind them.
pub(crate) fn take_covers<'d>(
    graph: &Graph<'_>,
    departures: &'d [Departure],
    v: u32,
    covers: &mut Vec<Interval>,
) -> Result<&'d [Departure], NoMemory>
    requires ordered { GoFrom v departures.now }
    requires edges { HaveEdges graph.now departures.now }
    ensures covers { OnOk result ((t : ℕ) → covers_at covers.new.items t ≡ departing graph.now departures.now v t) }
    ensures few { OnOk result (vec_len covers.new ≤ EDGE_LIMIT) }
    ensures ordered { IfOk result (λ rest. GoFrom (v + 1) rest.now) }
    ensures edges { IfOk result (λ rest. HaveEdges graph.now rest.now) }
    ensures others { IfOk result (λ rest. (w t : ℕ) → v < w
        → departing graph.now rest.now w t ≡ departing graph.now departures.now w t) }
{
    covers.clear();
    let mut rest = departures;
    while let Some((departure, others)) = rest.split_first() {
        if departure.from != v {
            break;
        }
        covers.extend_from_slice(graph.edge_life(departure.edge).spans())?;
        rest = others;
    }
    Ok(rest)
}
