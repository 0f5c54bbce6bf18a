//! Programs of snapshots on a small graph that changes.
ghost use Rattle.std.specs.Prelude.{◌≡◌, ◌+◌, ◌^◌, ◌<◌, ◌≤◌};
ghost use Rattle.std.specs.List.Sorted.{IsSorted};
ghost use Rattle.graphite_time.specs.Interval.{start_of, end_of};

use crate::hops::STOPS;
use crate::lives::interval;
use graphite_api::{Arc, Message, Next, Program};
use graphite_graph::{Ask, Facts, load};
use graphite_part::Partition;
use graphite_snap::{Bfs, point_start};
use graphite_time::Interval;
use std::alloc::Global;
use std::process::Abort;
use std::test::Fail;

fn outcome(state: Option<u32>, send: bool) -> Next<Option<u32>> {
    Next { state, send }
}

/// A call of any program, by its rules alone.
fn compute_once<P: Program>(
    program: &mut P,
    step: u32,
    state: P::State,
    group: &[P::Note],
) -> Next<P::State>
    requires room { P.count program.old + 1 < 2 ^ 128 }
    requires step { 1 ≤ step }
    requires rising { IsSorted P.Note.cmp group.now }
    ensures next { result ≡ P.rules.next step state group.now }
    ensures counted { P.count program.new ≡ P.count program.old + 1 }
{
    program.compute(step, state, group)
}

/// What any program tells along an arc, by its rules alone.
fn told_along<P: Program>(
    program: &P,
    state: P::State,
    arc: &Arc,
    over: Interval,
) -> Option<Message<P::Note>>
    requires starts { start_of arc.now.over ≤ start_of over }
    requires ends { end_of over ≤ end_of arc.now.over }
    ensures { result ≡ P.rules.message state arc.now over }
{
    program.scatter(state, arc, over)
}

#[test]
fn a_search_starts_and_goes_on(rt: HostRuntime) -> Result<(), Fail> {
    let mut bfs = Bfs::new();
    assert_eq!(rt; bfs.compute(1, Some(0), &[]), outcome(Some(0), true));
    assert_eq!(rt; bfs.compute(1, None, &[]), outcome(None, false));
    assert_eq!(rt;
        compute_once(&mut bfs, 2, None, &[1, 1, 3]),
        outcome(Some(1), true)
    );
    assert_eq!(rt; bfs.compute(3, Some(1), &[2]), outcome(Some(1), false));
    assert_eq!(rt; bfs.calls(), 4);
    let over = interval(0, 5)?;
    let arc = edge_of_cost_9(over);
    assert_eq!(rt;
        bfs.scatter(Some(2), &arc, over),
        Some(Message { over, note: 3 })
    );
    assert_eq!(rt; told_along(&bfs, None, &arc, over), None);
    Ok(())
}

/// An edge from the first vertex to the second over the instants 0 to 4, which takes 7 instants and
/// costs 9.
fn edge_of_cost_9(over: Interval) -> Arc
    ensures { result.over ≡ over }
{
    Arc {
        from: 0,
        edge: 0,
        over,
        to: 1,
        time: 7,
        cost: 9,
        stay: over,
    }
}

/// A vertex, an instant, and what is printed of the vertex then; nothing where it is not alive.
type Row = (usize, u64, Option<Option<u64>>);

fn numbers_of_three_stops() -> &'static [Row] {
    &[
        (0, 9, Some(Some(0))),
        (1, 0, Some(Some(1))),
        (2, 1, None),
        (2, 2, Some(Some(2))),
        (2, 8, None),
    ]
}

fn assert_printed(rt: &impl Abort, values: &[Partition<Option<u64>>], rows: &[Row]) {
    for row in rows {
        let (v, t, expected) = *row;
        let printed = values.get(v).and_then(|values| values.at(t));
        assert_eq!(rt; printed, expected);
    }
}

/// The number of each vertex of the three stops.
fn numbers(alloc: Global) -> Result<Vec<Partition<Option<u64>>>, Fail> {
    let graph = load(alloc, STOPS)?;
    let number = |facts: Facts| Some(u64::from(facts.vertex));
    Ok(point_start(
        alloc,
        &graph,
        &Ask {
            outdegree: false,
            n: false,
            key: None,
        },
        &number,
    )?)
}

#[test]
fn vertices_start_with_what_their_facts_give(rt: HostRuntime) -> Result<(), Fail> {
    let start = numbers(rt.alloc())?;
    assert_printed(&rt, &start, numbers_of_three_stops());
    Ok(())
}
