//! The arcs of the hops of the edges.
ghost use Rattle.std.specs.Prelude.{◌≡◌, ◌<◌, ◌≤◌, ◌++◌, ◌-◌, All, filter, length, map, max, min, IfOk, OnOk};
ghost use Rattle.std.specs.List.{flat_map};
ghost use Rattle.graphite_time.specs.declared.TheConstants.{LAST};
ghost use Rattle.graphite_time.specs.Interval.{start_of, end_of};
ghost use Rattle.graphite_time.specs.Life.{IsLife};
ghost use Rattle.graphite_time.specs.Meet.{interval_between};
ghost use Rattle.graphite_text.specs.Spans.{as_span};
ghost use Rattle.graphite_api.specs.Table.{IsArcOn};
ghost use Rattle.graphite_hops.specs.Arcs.{RunsAdded};
ghost use Rattle.graphite_hops.specs.Departures.{meets, parts_of};
ghost use Rattle.graphite_hops.specs.Hops.{hop_values, hop_arc_between, hop_arc_on, AreHopArcsOf};

use crate::travel::travel_of;
use graphite_api::Arc;
use graphite_graph::{Ends, Graph};
use graphite_part::Piece;
use graphite_time::{Interval, Life, NoMemory};
use std::alloc::Global;

/// The arcs of the hops of all edges, between vertices with these lives.
pub(crate) fn hop_arcs(
    alloc: Global,
    graph: &Graph<'_>,
    lives: &[Life],
) -> Result<Vec<Arc>, NoMemory>
    requires { map (map as_span) lives.now ≡ map (λ vertex. vertex.life) graph.now.vertices }
    ensures arcs { IfOk result (λ arcs. AreHopArcsOf graph.now lives.now (length graph.now.edges) arcs.items) }
    ensures fit { IfOk result (λ arcs. All (IsArcOn lives.now) arcs.items) }
{
    let mut arcs = Vec::with_capacity(alloc, graph.edges() as usize)?;
    for e in 0..graph.edges() {
        add_edge(alloc, graph, lives, e, &mut arcs)?;
    }
    Ok(arcs)
}

/// Adds the arcs of the hops of an edge.
fn add_edge(
    alloc: Global,
    graph: &Graph<'_>,
    lives: &[Life],
    e: u32,
    arcs: &mut Vec<Arc>,
) -> Result<(), NoMemory>
    requires within { e < length graph.now.edges }
    requires lives { map (map as_span) lives.now ≡ map (λ vertex. vertex.life) graph.now.vertices }
    ensures arcs { OnOk result (RunsAdded (hop_values graph.now lives.now e) (hop_arc_on graph.now e)
        arcs.old.items arcs.new.items) }
    ensures fit { OnOk result (All (IsArcOn lives.now) arcs.old.items → All (IsArcOn lives.now) arcs.new.items) }
{
    let travel = travel_of(alloc, graph, e)?;
    let _props = graph.edge_props();
    let ends = graph.ends(e);
    let stays = lives[ends.to as usize].spans();
    add_pieces(arcs, e, ends, travel.pieces(), stays, graph.horizon())
}

/// Adds the arcs of an edge to a target with these lifespans, by the pieces of its time and cost.
fn add_pieces(
    arcs: &mut Vec<Arc>,
    e: u32,
    ends: Ends,
    pieces: &[Piece<(u32, u32)>],
    stays: &[Interval],
    horizon: u64,
) -> Result<(), NoMemory>
    requires life { IsLife stays.now }
    requires horizon { horizon ≤ LAST }
    ensures { OnOk result (arcs.new.items ≡ arcs.old.items ++ map (hop_arc_between e ends) (flat_map
        (parts_of horizon stays.now) pieces.now)) }
{
    for piece in pieces {
        add_piece(arcs, e, ends, *piece, stays, horizon)?;
    }
    Ok(())
}

/// Adds the arcs over a piece: one for each lifespan of the target with arrivals in it.
fn add_piece(
    arcs: &mut Vec<Arc>,
    e: u32,
    ends: Ends,
    piece: Piece<(u32, u32)>,
    stays: &[Interval],
    horizon: u64,
) -> Result<(), NoMemory>
    requires life { IsLife stays.now }
    requires horizon { horizon ≤ LAST }
    ensures { OnOk result (arcs.new.items ≡ arcs.old.items ++ map (hop_arc_between e ends) (parts_of
        horizon stays.now piece)) }
{
    let (time, cost) = piece.value;
    let Some(arrivals) = piece.over.shift(time, horizon) else {
        return Ok(());
    };
    let met = spans_within(stays, arrivals);
    for stay in met {
        if let Some(over) = departures_of(arrivals, time, *stay) {
            arcs.push(Arc {
                from: ends.from,
                edge: e,
                over,
                to: ends.to,
                time,
                cost,
                stay: *stay,
            })?;
        }
    }
    Ok(())
}

/// The instants from which one arrives, after this time, at an instant of both intervals.
fn departures_of(arrivals: Interval, time: u32, stay: Interval) -> Option<Interval>
    requires { time ≤ start_of arrivals }
    ensures { result ≡ interval_between (max (start_of arrivals) (start_of stay) - time) (min (end_of arrivals) (end_of stay) - time) }
{
    arrivals.meet(stay)?.back(time)
}

/// The lifespans that have an instant in common with the interval. They are found by halving, since a
/// vertex may have many lifespans and an edge many pieces.
fn spans_within(spans: &[Interval], over: Interval) -> &[Interval]
    requires { IsLife spans.now }
    ensures { result.now ≡ filter (meets over) spans.now }
{
    let from = over.a();
    let until = over.b();
    let start = spans.partition_point(|span| span.b() <= from);
    let later = &spans[start..];
    let end = later.partition_point(|span| span.a() < until);
    &later[..end]
}
