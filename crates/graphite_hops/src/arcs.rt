//! The arcs of the edges.
ghost use Rattle.std.specs.Prelude.{◌≡◌, ◌<◌, ◌++◌, All, length, map, IfOk, OnOk};
ghost use Rattle.graphite_hops.specs.Arcs.{arc_between, turned_arc, AreArcsOf, AreDirectedArcs, EdgeAdded, IsArcIn};

use crate::Direction;
use crate::travel::travel_of;
use graphite_api::Arc;
use graphite_graph::{Ends, Graph};
use graphite_part::Piece;
use graphite_time::NoMemory;
use std::alloc::Global;

/// The arcs of all edges, for a program that goes this way along them.
pub(crate) fn arcs_of(
    alloc: Global,
    graph: &Graph<'_>,
    direction: Direction,
) -> Result<Vec<Arc>, NoMemory>
    ensures { IfOk result (λ arcs. AreDirectedArcs graph.now direction arcs.items) }
{
    let arcs = forward_arcs(alloc, graph)?;
    match direction {
        Direction::Out => Ok(arcs),
        Direction::Both => with_turned(arcs),
    }
}

/// The arcs of all edges, from their sources to their targets.
fn forward_arcs(alloc: Global, graph: &Graph<'_>) -> Result<Vec<Arc>, NoMemory>
    ensures arcs { IfOk result (λ arcs. AreArcsOf graph.now (length graph.now.edges) arcs.items) }
    ensures fit { IfOk result (λ arcs. All (IsArcIn graph.now) arcs.items) }
{
    let mut arcs = Vec::with_capacity(alloc, graph.edges() as usize)?;
    for e in 0..graph.edges() {
        add_edge(alloc, graph, e, &mut arcs)?;
    }
    Ok(arcs)
}

/// Adds the arcs of an edge.
fn add_edge(alloc: Global, graph: &Graph<'_>, e: u32, arcs: &mut Vec<Arc>) -> Result<(), NoMemory>
    requires { e < length graph.now.edges }
    ensures arcs { OnOk result (EdgeAdded graph.now e arcs.old.items arcs.new.items) }
    ensures fit { OnOk result (All (IsArcIn graph.now) arcs.old.items → All (IsArcIn graph.now) arcs.new.items) }
{
    let travel = travel_of(alloc, graph, e)?;
    let _props = graph.edge_props();
    add_pieces(arcs, e, graph.ends(e), travel.pieces())
}

/// Adds an arc for each piece of an edge's time and cost.
fn add_pieces(
    arcs: &mut Vec<Arc>,
    e: u32,
    ends: Ends,
    pieces: &[Piece<(u32, u32)>],
) -> Result<(), NoMemory>
    ensures { OnOk result (arcs.new.items ≡ arcs.old.items ++ map (arc_between e ends) pieces.now) }
{
    for piece in pieces {
        let (time, cost) = piece.value;
        arcs.push(Arc {
            from: ends.from,
            edge: e,
            over: piece.over,
            to: ends.to,
            time,
            cost,
            stay: piece.over,
        })?;
    }
    Ok(())
}

/// The arcs, and each of them the other way round.
fn with_turned(arcs: Vec<Arc>) -> Result<Vec<Arc>, NoMemory>
    ensures { IfOk result (λ all. all.items ≡ arcs.items ++ map turned_arc arcs.items) }
{
    let mut arcs = arcs;
    let count = arcs.len();
    arcs.reserve(count)?;
    for place in 0..count {
        let arc = arcs[place];
        arcs.push(Arc {
            from: arc.to,
            to: arc.from,
            ..arc
        })?;
    }
    Ok(arcs)
}
