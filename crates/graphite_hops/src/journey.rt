//! The table of arcs for programs of journeys.
ghost use Rattle.std.specs.Prelude.{◌≡◌, ◌<◌, ◌≤◌, ◌↔◌, ℕ, All, IsTrue, filter, length, map, IfOk};
ghost use Rattle.graphite_text.specs.Graph.{vertex_is_alive};
ghost use Rattle.graphite_text.specs.Spans.{as_span};
ghost use Rattle.graphite_api.specs.Hop.{Hop};
ghost use Rattle.graphite_api.specs.Table.{vertex_is_alive as is_alive_in};
ghost use Rattle.graphite_api.specs.TableHops.{IsHopOn, StaysAt};
ghost use Rattle.graphite_hops.specs.Hops.{is_arc_at, AreHopArcs, IsHopOf};

use crate::hops::hop_arcs;
use crate::lives::lives_of;
use graphite_api::ArcTable;
use graphite_graph::Graph;
use graphite_time::NoMemory;
use std::alloc::Global;

/// The edges of a graph as arcs for a program of journeys. An edge can be entered at an instant at which
/// it is alive, if its target is alive at the arrival, which has to be below the horizon; the edge need
/// not live until then. Each such hop is along exactly one arc, with the time and the cost that the edge
/// has at the departure, and all arrivals of an arc are in one lifespan of its target, which the arc
/// names. An edge is cut where the time, the cost or that lifespan changes, and nowhere else. The table
/// has the lives of the graph's vertices, in order, which all end by the horizon.
pub fn journey_arcs(alloc: Global, graph: &Graph<'_>) -> Result<ArcTable, NoMemory>
    ensures lives { IfOk result (λ table. map (map as_span) table.lives
        ≡ map (λ vertex. vertex.life) graph.now.vertices) }
    ensures alive { IfOk result (λ table. (v t : ℕ)
        → is_alive_in table.lives v t ≡ vertex_is_alive graph.now v t) }
    ensures below { IfOk result (λ table. (v t : ℕ)
        → IsTrue (is_alive_in table.lives v t) → t < graph.now.horizon) }
    ensures hops { IfOk result (λ table. (hop : Hop)
        → (IsHopOn table.arcs hop ↔ IsHopOf graph.now hop)) }
    ensures stays { IfOk result (λ table. All (StaysAt table.lives) table.arcs) }
    ensures once { IfOk result (λ table. (e t : ℕ) → length (filter (is_arc_at e t) table.arcs) ≤ 1) }
    ensures runs { IfOk result (λ table. AreHopArcs graph.now table.lives table.arcs) }
{
    let _horizon = graph.horizon();
    let lives = lives_of(alloc, graph)?;
    let arcs = hop_arcs(alloc, graph, &lives)?;
    ArcTable::new(alloc, lives, arcs)
}
