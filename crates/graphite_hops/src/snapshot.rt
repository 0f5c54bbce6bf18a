//! The table of arcs for programs of snapshots.
ghost use Rattle.std.specs.Prelude.{◌≡◌, ℕ, All, map, IfOk};
ghost use Rattle.std.specs.List.Sorted.{IsPermutation};
ghost use Rattle.graphite_text.specs.Graph.{vertex_is_alive};
ghost use Rattle.graphite_text.specs.Spans.{as_span};
ghost use Rattle.graphite_api.specs.Snapshot.{arcs_at, link_of};
ghost use Rattle.graphite_api.specs.Table.{vertex_is_alive as is_alive_in};
ghost use Rattle.graphite_hops.specs.Arcs.{AreTableArcs};
ghost use Rattle.graphite_hops.specs.Links.{links_at, links_in};

use crate::Direction;
use crate::arcs::arcs_of;
use crate::lives::lives_of;
use graphite_api::ArcTable;
use graphite_graph::Graph;
use graphite_time::NoMemory;
use std::alloc::Global;

/// The edges of a graph as arcs for a program of snapshots that goes this way along them. At every
/// instant the arcs that hold it are the edges that are alive then, each once, with its ends and with its
/// time and cost of that instant; for [`Direction::Both`] each is there the other way round too, and so
/// an edge from a vertex to itself twice. An edge is cut where its time or its cost changes, and nowhere
/// else. What is told along an arc holds while the arc does. The table has the lives of the graph's
/// vertices, in order.
pub fn snapshot_arcs(
    alloc: Global,
    graph: &Graph<'_>,
    direction: Direction,
) -> Result<ArcTable, NoMemory>
    ensures lives { IfOk result (λ table. map (map as_span) table.lives
        ≡ map (λ vertex. vertex.life) graph.now.vertices) }
    ensures alive { IfOk result (λ table. (v t : ℕ)
        → is_alive_in table.lives v t ≡ vertex_is_alive graph.now v t) }
    ensures links { IfOk result (λ table. (t : ℕ)
        → IsPermutation (map link_of (arcs_at table.arcs t)) (links_in direction (links_at graph.now t))) }
    ensures stays { IfOk result (λ table. All (λ arc. arc.stay ≡ arc.over) table.arcs) }
    ensures runs { IfOk result (λ table. AreTableArcs graph.now direction table.arcs) }
{
    let lives = lives_of(alloc, graph)?;
    let arcs = arcs_of(alloc, graph, direction)?;
    ArcTable::new(alloc, lives, arcs)
}
