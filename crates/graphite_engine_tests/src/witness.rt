//! The arcs of a small table by their targets. `witness` asks for the best values of a whole table, so the runs with paths
//! call it, where they are computed.
ghost use Rattle.std.specs.Prelude.{◌≡◌, length};

use crate::lives::interval;
use crate::tables::{arc, table_of};
use graphite_api::{ArcTable, Kind};
use graphite_time::Life;
use graphite_witness::IncomingArcs;
use std::alloc::Global;
use std::process::Abort;
use std::test::Fail;

/// Three vertices a, b and c; the edges 0 from a to b, 2 from a to c, and 1 from b to c.
fn table(alloc: Global) -> Result<ArcTable, Fail> {
    let over = interval(0, 9)?;
    let mut lives = Vec::with_capacity(alloc, 3)?;
    for _ in 0..3 {
        lives.push(Life::one(alloc, over)?)?;
    }
    let arcs = Vec::from_slice(
        alloc,
        &[arc(0, 0, 1, over), arc(2, 0, 2, over), arc(1, 1, 2, over)],
    )?;
    table_of(alloc, lives, arcs)
}

fn assert_edges_into(
    rt: &impl Abort,
    table: &ArcTable,
    incoming: &IncomingArcs,
    v: u32,
    edges: &[u32],
)
    requires { incoming.now.vertices ≡ length table.now.lives }
{
    assert!(rt; v < table.vertices());
    let arcs = incoming.into_of(v);
    assert_eq!(rt; arcs.len(), edges.len());
    for (arc, edge) in arcs.iter().zip(edges) {
        assert_eq!(rt; (arc.edge, arc.to), (*edge, v));
    }
}

#[test]
fn arcs_stand_by_their_targets_and_edges(rt: HostRuntime) -> Result<(), Fail> {
    let table = table(rt.alloc())?;
    let incoming = IncomingArcs::new(rt.alloc(), &table, Kind::Reach)?;
    assert_edges_into(&rt, &table, &incoming, 0, &[]);
    assert_edges_into(&rt, &table, &incoming, 1, &[0]);
    assert_edges_into(&rt, &table, &incoming, 2, &[1, 2]);
    let none = IncomingArcs::new(rt.alloc(), &table, Kind::Latest)?;
    assert_edges_into(&rt, &table, &none, 2, &[]);
    Ok(())
}
