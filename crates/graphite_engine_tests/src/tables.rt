//! A table of a small graph that changes.
ghost use Rattle.std.specs.Prelude.{All};
ghost use Rattle.std.specs.Bool.{OnTrue};
ghost use Rattle.graphite_api.specs.Table.{IsArcOn};

use crate::lives::interval;
use graphite_api::{Arc, ArcTable};
use graphite_time::{Interval, Life};
use std::alloc::Global;
use std::process::Abort;
use std::test::Fail;

/// An edge over an interval, which takes one instant and costs 1.
pub(crate) fn arc(edge: u32, from: u32, to: u32, over: Interval) -> Arc {
    Arc {
        from,
        edge,
        over,
        to,
        time: 1,
        cost: 1,
        stay: over,
    }
}

/// Whether the arc may stand in a table of vertices with these lives.
fn is_arc_on(lives: &[Life], arc: &Arc) -> bool
    ensures { OnTrue result (IsArcOn lives.now arc.now) }
{
    let Some(life) = lives.get(arc.from as usize) else {
        return false;
    };
    if arc.to as usize >= lives.len() {
        return false;
    }
    if arc.time == 0 {
        return false;
    }
    life.covers(arc.over)
}

fn are_arcs_on(lives: &[Life], arcs: &[Arc]) -> bool
    ensures { OnTrue result (All (IsArcOn lives.now) arcs.now) }
{
    for arc in arcs {
        if !is_arc_on(lives, arc) {
            return false;
        }
    }
    true
}

/// The table of these arcs, where they may stand in one.
pub(crate) fn table_of(alloc: Global, lives: Vec<Life>, arcs: Vec<Arc>) -> Result<ArcTable, Fail> {
    if lives.len() > 9 {
        return Err("too many lives")?;
    }
    if !are_arcs_on(&lives, &arcs) {
        return Err("an arc that is not between the vertices")?;
    }
    Ok(ArcTable::new(alloc, lives, arcs)?)
}

/// Three vertices a, b and c; an edge from a to b over the instants 0 to 4, and one from b to c over
/// 3 to 6.
fn stops(alloc: Global) -> Result<ArcTable, Fail> {
    let long = interval(0, 10)?;
    let short = interval(2, 8)?;
    let mut lives = Vec::with_capacity(alloc, 3)?;
    for over in [long, long, short] {
        lives.push(Life::one(alloc, over)?)?;
    }
    let mut arcs = Vec::with_capacity(alloc, 2)?;
    arcs.push(arc(1, 1, 2, interval(3, 7)?))?;
    arcs.push(arc(0, 0, 1, interval(0, 5)?))?;
    Ok(table_of(alloc, lives, arcs)?)
}

fn assert_arcs_of(rt: &impl Abort, table: &ArcTable, v: u32, expected: &[Arc]) {
    assert!(rt; v < table.vertices());
    assert_eq!(rt; table.arcs_of(v), expected);
}

#[test]
fn arcs_stand_by_their_sources(rt: HostRuntime) -> Result<(), Fail> {
    let table = stops(rt.alloc())?;
    assert_eq!(rt; table.vertices(), 3);
    let first = arc(0, 0, 1, interval(0, 5)?);
    let second = arc(1, 1, 2, interval(3, 7)?);
    assert_eq!(rt; table.arcs(), [first, second].as_slice());
    assert_arcs_of(&rt, &table, 0, &[first]);
    assert_arcs_of(&rt, &table, 1, &[second]);
    assert_arcs_of(&rt, &table, 2, &[]);
    assert!(rt; table.life(2).holds(7));
    Ok(())
}
