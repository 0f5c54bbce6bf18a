//! The states to start with, on a table by hand.
ghost use Rattle.graphite_paths.specs.Forward.{IsOnward};

use crate::lives::interval;
use graphite_api::{ArcTable, Kind, PathQuery};
use graphite_part::Partition;
use graphite_paths::{Cheapest, Earliest, FASTEST_WINDOW, Fastest, Reach, path_start};
use graphite_time::Life;
use std::alloc::Global;
use std::process::Abort;
use std::test::Fail;

fn life(alloc: Global, a: u64, b: u64) -> Result<Life, Fail> {
    let over = interval(a, b)?;
    Ok(Life::one(alloc, over)?)
}

/// Two vertices, alive from 0 to 9 and from 2 to 7, without arcs.
fn two_vertices(alloc: Global) -> Result<ArcTable, Fail> {
    let mut lives = Vec::new(alloc);
    lives.push(life(alloc, 0, 10)?)?;
    lives.push(life(alloc, 2, 8)?)?;
    if lives.len() > 2 {
        return Err("too many lives")?;
    }
    Ok(ArcTable::new(alloc, lives, Vec::new(alloc))?)
}

/// The starts of both vertices, for a query of the second one.
fn starts(
    alloc: Global,
    kind: Kind,
    from: u64,
    until: u64,
) -> Result<Vec<Partition<Option<u64>>>, Fail>
    requires { IsOnward kind }
{
    if until > from.saturating_add(FASTEST_WINDOW) {
        return Err("a wide window")?;
    }
    let table = two_vertices(alloc)?;
    let query = PathQuery {
        kind,
        vertex: 1,
        from,
        until,
    };
    if table.vertices() < 2 {
        return Err("no such vertex")?;
    }
    Ok(path_start(alloc, &table, &query)?)
}

fn assert_pieces(
    rt: &impl Abort,
    partition: &Partition<Option<u64>>,
    expected: &[(u64, u64, Option<u64>)],
) {
    let pieces = partition.pieces();
    assert_eq!(rt; pieces.len(), expected.len());
    for (piece, (a, b, value)) in pieces.iter().zip(expected) {
        assert_eq!(rt; piece.over.a(), *a);
        assert_eq!(rt; piece.over.b(), *b);
        assert_eq!(rt; piece.value, *value);
    }
}

/// The start of the query's vertex is this, and that of the other one is none throughout.
fn assert_starts(
    rt: &impl Abort,
    starts: &[Partition<Option<u64>>],
    expected: &[(u64, u64, Option<u64>)],
) {
    assert_eq!(rt; starts.len(), 2);
    for (v, partition) in starts.iter().enumerate() {
        if v == 0 {
            assert_pieces(rt, partition, &[(0, 10, None)]);
        } else {
            assert_pieces(rt, partition, expected);
        }
    }
}

#[test]
fn a_value_from_the_first_instant_of_the_window_on(rt: HostRuntime) -> Result<(), Fail> {
    let alloc = rt.alloc();
    let within = [(2, 4, None), (4, 8, Some(4))];
    assert_starts(&rt, &starts(alloc, Kind::Earliest, 4, 6)?, &within);
    let free = [(2, 4, None), (4, 8, Some(0))];
    assert_starts(&rt, &starts(alloc, Kind::Cheapest, 4, 6)?, &free);
    assert_starts(&rt, &starts(alloc, Kind::Reach, 4, 6)?, &free);
    Ok(())
}

#[test]
fn a_value_throughout_where_the_window_holds_the_first_instant(
    rt: HostRuntime,
) -> Result<(), Fail> {
    let throughout = [(2, 8, Some(2))];
    assert_starts(&rt, &starts(rt.alloc(), Kind::Earliest, 0, 6)?, &throughout);
    Ok(())
}

#[test]
fn each_instant_of_the_window_up_to_the_last_one(rt: HostRuntime) -> Result<(), Fail> {
    let latest = [(2, 4, None), (4, 5, Some(4)), (5, 8, Some(5))];
    assert_starts(&rt, &starts(rt.alloc(), Kind::Fastest, 4, 6)?, &latest);
    Ok(())
}

#[test]
fn none_where_the_window_ends_first(rt: HostRuntime) -> Result<(), Fail> {
    let throughout = [(2, 8, None)];
    assert_starts(&rt, &starts(rt.alloc(), Kind::Earliest, 0, 2)?, &throughout);
    assert_starts(&rt, &starts(rt.alloc(), Kind::Earliest, 8, 9)?, &throughout);
    Ok(())
}
