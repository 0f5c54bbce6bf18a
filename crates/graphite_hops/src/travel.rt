//! The time and the cost of an edge.
ghost use Rattle.std.specs.Prelude.{◌≡◌, ◌<◌, ℕ, length, unwrap_or, IfOk};
ghost use Rattle.graphite_part.specs.Pieces.{value_at, IsChain, AreRuns};
ghost use Rattle.graphite_text.specs.Graph.{edge_property_at};
ghost use Rattle.graphite_hops.specs.Arcs.{travel_at};
ghost use Rattle.graphite_hops.specs.Paired.{paired};

use graphite_graph::Graph;
use graphite_part::{Partition, Piece};
use graphite_props::beside;
use graphite_time::{Life, NoMemory};
use std::alloc::Global;

/// The time and the cost of an edge at each instant of its life.
pub(crate) fn travel_of(
    alloc: Global,
    graph: &Graph<'_>,
    e: u32,
) -> Result<Partition<(u32, u32)>, NoMemory>
    requires { e < length graph.now.edges }
    ensures { IfOk result (AreRuns (travel_at graph.now e)) }
{
    let times = property_of(graph, e, b"time");
    let costs = property_of(graph, e, b"cost");
    travel_on(alloc, graph.edge_life(e), times, costs)
}

/// The values that an edge has under a key.
fn property_of<'g>(graph: &'g Graph<'_>, e: u32, key: &[u8]) -> &'g [Piece<u32>]
    ensures chain { IsChain result.now }
    ensures values { (t : ℕ) → value_at result.now t ≡ edge_property_at graph.now e key.now t }
{
    match graph.edge_props().timeline(e, key) {
        Some(timeline) => timeline.pieces(),
        None => &[],
    }
}

/// The pairs of a time and a cost at each instant of a life, each of them 1 where it is not given.
fn travel_on(
    alloc: Global,
    life: &Life,
    times: &[Piece<u32>],
    costs: &[Piece<u32>],
) -> Result<Partition<(u32, u32)>, NoMemory>
    requires times { IsChain times.now }
    requires costs { IsChain costs.now }
    ensures { IfOk result (AreRuns (paired life.now times.now costs.now)) }
{
    if times.is_empty() && costs.is_empty() {
        return Partition::on_life(alloc, life, (1, 1));
    }
    let ones = Partition::on_life(alloc, life, 1)?;
    let timed = beside(alloc, ones.pieces(), times)?;
    let both = beside(alloc, timed.pieces(), costs)?;
    let pair = |row: ((u32, Option<u32>), Option<u32>)| -> (u32, u32)
        ensures { result ≡ (unwrap_or row.0.1 1, unwrap_or row.1 1) }
    { (row.0.1.unwrap_or(1), row.1.unwrap_or(1)) };
    both.map(&pair)
}
