//! Small graphs as tables of arcs.
use graphite_api::{Arc, ArcTable};
use graphite_graph::load;
use graphite_hops::{Direction, journey_arcs, mirror, snapshot_arcs};
use std::alloc::Global;
use std::process::Abort;
use std::test::Fail;

/// Three vertices, of which one lives shorter, and two edges.
pub(crate) const STOPS: &[u8] =
    b"graph 1 10\nv a 0 10\nv b 0 10\nv c 2 8\ne ab a b 0 5\ne bc b c 3 7\nend\n";

/// What an arc is to be: its edge with its ends, its first instant and the one after its last, and its
/// time and cost.
type Row = ((u32, u32, u32), (u64, u64), (u32, u32));

/// The same, and the ends of the lifespan of the target that it names.
type HopRow = (Row, (u64, u64));

fn arcs_of_three_stops() -> &'static [Row] {
    &[((0, 0, 1), (0, 5), (1, 1)), ((1, 1, 2), (3, 7), (1, 1))]
}

/// An edge whose cost and time change, and one from a vertex to itself.
fn two_stops() -> &'static [u8] {
    b"graph 1 10\nv a 0 10\nv b 0 10\ne x a b 0 10\ne y b b 3 4\npe x cost 2 6 5\npe x time 4 10 3\npe x time 0 1 1\nend\n"
}

fn arcs_of_two_stops() -> &'static [Row] {
    &[
        ((0, 0, 1), (0, 2), (1, 1)),
        ((0, 0, 1), (2, 4), (1, 5)),
        ((0, 0, 1), (4, 6), (3, 5)),
        ((0, 0, 1), (6, 10), (3, 1)),
        ((0, 1, 0), (0, 2), (1, 1)),
        ((0, 1, 0), (2, 4), (1, 5)),
        ((0, 1, 0), (4, 6), (3, 5)),
        ((0, 1, 0), (6, 10), (3, 1)),
        ((1, 1, 1), (3, 4), (1, 1)),
        ((1, 1, 1), (3, 4), (1, 1)),
    ]
}

fn assert_arc(rt: &impl Abort, arc: &Arc, row: &Row) {
    let (edge, over, travel) = *row;
    assert_eq!(rt; (arc.edge, arc.from, arc.to), edge);
    assert_eq!(rt; (arc.over.a(), arc.over.b()), over);
    assert_eq!(rt; (arc.time, arc.cost), travel);
}

fn assert_arcs(rt: &impl Abort, table: &ArcTable, rows: &[Row]) {
    assert_eq!(rt; table.arcs().len(), rows.len());
    for (arc, row) in table.arcs().iter().zip(rows) {
        assert_arc(rt, arc, row);
    }
}

fn table_of(alloc: Global, text: &[u8], direction: Direction) -> Result<ArcTable, Fail> {
    let graph = load(alloc, text)?;
    Ok(snapshot_arcs(alloc, &graph, direction)?)
}

#[test]
fn edges_are_arcs(rt: HostRuntime) -> Result<(), Fail> {
    let table = table_of(rt.alloc(), STOPS, Direction::Out)?;
    assert_arcs(&rt, &table, arcs_of_three_stops());
    Ok(())
}

#[test]
fn edges_are_cut_where_time_or_cost_changes(rt: HostRuntime) -> Result<(), Fail> {
    let table = table_of(rt.alloc(), two_stops(), Direction::Both)?;
    assert_arcs(&rt, &table, arcs_of_two_stops());
    Ok(())
}

/// An edge that takes 9 instants at first and 1 later.
fn slow_then_fast() -> &'static [u8] {
    b"graph 1 20\nv a 0 20\nv b 0 20\ne x a b 0 10\npe x time 0 5 9\npe x time 5 10 1\nend\n"
}

fn hops_of_slow_then_fast() -> &'static [HopRow] {
    &[
        (((0, 0, 1), (0, 5), (9, 1)), (0, 20)),
        (((0, 0, 1), (5, 10), (1, 1)), (0, 20)),
    ]
}

/// An edge that can be taken, one that would arrive at the horizon, and one to a vertex that is dead by then.
fn ends_of_time() -> &'static [u8] {
    b"graph 1 10\nv a 0 10\nv b 0 10\nv c 0 10\nv d 0 8\ne x a b 8 9\ne y a c 9 10\ne z a d 7 8\nend\n"
}

fn hops_of_ends_of_time() -> &'static [HopRow] {
    &[(((0, 0, 1), (8, 9), (1, 1)), (0, 10))]
}

/// An edge whose cost changes, to a vertex that dies with it, so that the last hops are too late.
fn too_late() -> &'static [u8] {
    b"graph 1 20\nv a 0 20\nv b 3 8\ne x a b 3 8\npe x time 3 8 2\npe x cost 4 5 6\nend\n"
}

fn hops_of_too_late() -> &'static [HopRow] {
    &[
        (((0, 0, 1), (3, 4), (2, 1)), (3, 8)),
        (((0, 0, 1), (4, 5), (2, 6)), (3, 8)),
        (((0, 0, 1), (5, 6), (2, 1)), (3, 8)),
    ]
}

fn assert_hops(rt: &impl Abort, table: &ArcTable, rows: &[HopRow]) {
    assert_eq!(rt; table.arcs().len(), rows.len());
    for (arc, (row, stay)) in table.arcs().iter().zip(rows) {
        assert_arc(rt, arc, row);
        assert_eq!(rt; (arc.stay.a(), arc.stay.b()), *stay);
    }
}

fn hops_of(alloc: Global, text: &[u8]) -> Result<ArcTable, Fail> {
    let graph = load(alloc, text)?;
    Ok(journey_arcs(alloc, &graph)?)
}

#[test]
fn hops_have_the_time_of_their_departure(rt: HostRuntime) -> Result<(), Fail> {
    let table = hops_of(rt.alloc(), slow_then_fast())?;
    assert_hops(&rt, &table, hops_of_slow_then_fast());
    Ok(())
}

#[test]
fn hops_arrive_at_live_vertices_below_the_horizon(rt: HostRuntime) -> Result<(), Fail> {
    let table = hops_of(rt.alloc(), ends_of_time())?;
    assert_hops(&rt, &table, hops_of_ends_of_time());
    Ok(())
}

#[test]
fn hops_are_cut_where_the_cost_changes(rt: HostRuntime) -> Result<(), Fail> {
    let table = hops_of(rt.alloc(), too_late())?;
    assert_hops(&rt, &table, hops_of_too_late());
    Ok(())
}

/// The hops of the edge that is slow at first and fast later, in the mirror of its 20 instants.
fn mirrored_hops_of_slow_then_fast() -> &'static [HopRow] {
    &[
        (((0, 1, 0), (6, 11), (9, 1)), (0, 20)),
        (((0, 1, 0), (9, 14), (1, 1)), (0, 20)),
    ]
}

fn mirrored_hops_of(alloc: Global, text: &[u8]) -> Result<ArcTable, Fail> {
    let graph = load(alloc, text)?;
    let table = journey_arcs(alloc, &graph)?;
    Ok(mirror(alloc, &table, graph.horizon())?)
}

#[test]
fn hops_depart_in_the_mirror_where_and_when_they_arrived(rt: HostRuntime) -> Result<(), Fail> {
    let table = mirrored_hops_of(rt.alloc(), slow_then_fast())?;
    assert_hops(&rt, &table, mirrored_hops_of_slow_then_fast());
    Ok(())
}
