//! Supersteps of a search on a small graph that changes: at one instant, and one by one over all
//! instants at once.
ghost use Rattle.std.specs.Prelude.{IfOk};
ghost use Rattle.graphite_loop.specs.Progress.{AreInitial};

use crate::hops::STOPS;
use graphite_api::{ArcTable, Program, RanAt, run_at};
use graphite_graph::load;
use graphite_hops::{Direction, snapshot_arcs};
use graphite_loop::Run;
use graphite_part::Partition;
use graphite_snap::Bfs;
use graphite_time::NoMemory;
use std::alloc::Global;
use std::process::Abort;
use std::test::Fail;

/// The edges of the three stops as arcs.
fn table_of_stops(alloc: Global) -> Result<ArcTable, Fail> {
    let graph = load(alloc, STOPS)?;
    Ok(snapshot_arcs(alloc, &graph, Direction::Out)?)
}

/// Runs from the first of three vertices at one instant: the states, and how many supersteps and calls
/// were made.
fn run_on_table_at(
    alloc: Global,
    table: &ArcTable,
    t: u64,
    steps: u32,
) -> Result<(RanAt<Option<u32>>, u128), Fail> {
    let start = [Some(0), None, None];
    let mut bfs = Bfs::new();
    if table.vertices() != 3 || t > 9 {
        return Err("another table")?;
    }
    let ran = run_at(alloc, &mut bfs, table, &start, t, steps)?;
    Ok((ran, bfs.calls()))
}

/// The same of the three stops.
fn run_stops_at(alloc: Global, t: u64, steps: u32) -> Result<(RanAt<Option<u32>>, u128), Fail> {
    let table = table_of_stops(alloc)?;
    Ok(run_on_table_at(alloc, &table, t, steps)?)
}

fn assert_ran_at(
    rt: &impl Abort,
    ran: (RanAt<Option<u32>>, u128),
    states: &[Option<Option<u32>>],
    made: u32,
    calls: u128,
) {
    let (ran, counted) = ran;
    assert_eq!(rt; ran.states.as_slice(), states);
    assert_eq!(rt; ran.made, made);
    assert_eq!(rt; counted, calls);
}

#[test]
fn supersteps_at_one_instant(rt: HostRuntime) -> Result<(), Fail> {
    let ran = run_stops_at(rt.alloc(), 3, 4)?;
    let states = [Some(Some(0)), Some(Some(1)), Some(Some(2))];
    assert_ran_at(&rt, ran, &states, 4, 5);
    Ok(())
}

#[test]
fn no_more_supersteps_than_allowed(rt: HostRuntime) -> Result<(), Fail> {
    let ran = run_stops_at(rt.alloc(), 3, 1)?;
    let states = [Some(Some(0)), Some(None), Some(None)];
    assert_ran_at(&rt, ran, &states, 1, 3);
    Ok(())
}

/// The states to start with: the first vertex is the source.
fn source_first(alloc: Global, table: &ArcTable) -> Result<Vec<Partition<Option<u32>>>, NoMemory>
    ensures { IfOk result (λ init. AreInitial table.now.lives init.items) }
{
    let mut init = Vec::new(alloc);
    for v in 0..table.vertices() {
        let start = (v == 0).then_some(0);
        init.push(Partition::on_life(alloc, table.life(v), start)?)?;
    }
    Ok(init)
}

/// Whether the next superstep sends, and how many calls were made by then.
fn superstep(run: &mut Run<Bfs>, bfs: &mut Bfs) -> Result<(bool, u128), Fail> {
    if run.made() > 9 || bfs.calls() > 9 {
        return Err("more supersteps or calls")?;
    }
    let sends = run.superstep(bfs)?;
    Ok((sends, bfs.calls()))
}

/// The same of the first four supersteps.
fn supersteps(alloc: Global, table: &ArcTable) -> Result<[(bool, u128); 4], Fail> {
    let init = source_first(alloc, table)?;
    let mut run = Run::start(alloc, table, init)?;
    let mut bfs = Bfs::new();
    Ok([
        superstep(&mut run, &mut bfs)?,
        superstep(&mut run, &mut bfs)?,
        superstep(&mut run, &mut bfs)?,
        superstep(&mut run, &mut bfs)?,
    ])
}

fn supersteps_of_stops(alloc: Global) -> Result<[(bool, u128); 4], Fail> {
    let table = table_of_stops(alloc)?;
    supersteps(alloc, &table)
}

#[test]
fn only_vertices_that_are_told_something_compute(rt: HostRuntime) -> Result<(), Fail> {
    let seen = supersteps_of_stops(rt.alloc())?;
    assert_eq!(rt; seen, [(true, 3), (true, 4), (true, 5), (false, 5)]);
    Ok(())
}
