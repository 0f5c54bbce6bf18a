//! The mirror of a table of arcs: the same journeys, gone the other way round from their ends.
ghost use Rattle.std.specs.Prelude.{◌≡◌, ◌<◌, ◌≤◌, ◌^◌, ℕ, All, IsTrue, length, map, IfOk};
ghost use Rattle.graphite_time.specs.declared.TheConstants.{LAST};
ghost use Rattle.graphite_time.specs.Mirror.{mirrored_life};
ghost use Rattle.graphite_api.specs.Mirror.{AreMirrored};
ghost use Rattle.graphite_api.specs.Table.{vertex_is_alive as is_alive_in, IsArcOn, IsTable};
ghost use Rattle.graphite_api.specs.TableHops.{IsHopOn, StaysAt};
ghost use Rattle.graphite_hops.specs.Mirror.{mirrored_arc};

use graphite_api::{Arc, ArcTable};
use graphite_time::{Life, NoMemory};
use std::alloc::Global;

/// The table in the mirror of the instants below `h`, where the instant `t` is `h - 1 - t`. Each vertex has
/// the mirror of its life. Each arc leads the other way round, with the same edge, time and cost: it can be
/// taken at the mirror of its arrivals, and names the mirror of the lifespan of its source in which it was
/// taken. So each hop leads from where and when it arrives to where and when it departs. All vertices live
/// below `h`, which is at most [`LAST`](graphite_time::LAST), and each arc names the lifespan of its target
/// that all its arrivals are in, as [`journey_arcs`](crate::journey_arcs) makes them. The call is refused
/// only where memory is short.
pub fn mirror(alloc: Global, table: &ArcTable, h: u64) -> Result<ArcTable, NoMemory>
    requires horizon { h ≤ LAST }
    requires below { (v t : ℕ) → IsTrue (is_alive_in table.now.lives v t) → t < h }
    requires stays { All (StaysAt table.now.lives) table.now.arcs }
    ensures lives { IfOk result (λ out. out.lives ≡ map (mirrored_life h) table.now.lives) }
    ensures mirrored { IfOk result (λ out. AreMirrored h (is_alive_in table.now.lives) (is_alive_in out.lives)
        (IsHopOn table.now.arcs) (IsHopOn out.arcs)) }
    ensures stays { IfOk result (λ out. All (StaysAt out.lives) out.arcs) }
{
    let lives = mirror_lives(alloc, table, h)?;
    let arcs = mirror_arcs(alloc, table, h)?;
    ArcTable::new(alloc, lives, arcs)
}

/// The lives of the vertices in the mirror, in order.
fn mirror_lives(alloc: Global, table: &ArcTable, h: u64) -> Result<Vec<Life>, NoMemory>
    requires horizon { h ≤ LAST }
    requires below { (v t : ℕ) → IsTrue (is_alive_in table.now.lives v t) → t < h }
    ensures lives { IfOk result (λ lives. lives.items ≡ map (mirrored_life h) table.now.lives) }
    ensures few { IfOk result (λ lives. length lives.items < 2 ^ 32) }
{
    let mut lives = Vec::with_capacity(alloc, table.vertices() as usize)?;
    for v in 0..table.vertices() {
        lives.push(table.life(v).mirror(h)?)?;
    }
    Ok(lives)
}

/// The arcs in the mirror, in the order of the table.
fn mirror_arcs(alloc: Global, table: &ArcTable, h: u64) -> Result<Vec<Arc>, NoMemory>
    requires horizon { h ≤ LAST }
    requires below { (v t : ℕ) → IsTrue (is_alive_in table.now.lives v t) → t < h }
    requires stays { All (StaysAt table.now.lives) table.now.arcs }
    ensures arcs { IfOk result (λ arcs. arcs.items ≡ map (mirrored_arc h table.now.lives) table.now.arcs) }
    ensures table { IsTable table.now.lives table.now.arcs }
{
    let arcs = table.arcs();
    let mut mirrored = Vec::with_capacity(alloc, arcs.len())?;
    for arc in arcs {
        mirrored.push(mirror_arc(table, *arc, h))?;
    }
    Ok(mirrored)
}

/// An arc of the table in the mirror.
fn mirror_arc(table: &ArcTable, arc: Arc, h: u64) -> Arc
    requires horizon { h ≤ LAST }
    requires below { (v t : ℕ) → IsTrue (is_alive_in table.now.lives v t) → t < h }
    requires on { IsArcOn table.now.lives arc }
    requires stays { StaysAt table.now.lives arc }
    ensures { result ≡ mirrored_arc h table.now.lives arc }
{
    // the target lives below h, and the source while the arc can be taken, so neither is `None`
    let arrivals = arc.over.shift(arc.time, h).unwrap();
    let stay = table.life(arc.from).stay(arc.over.a()).unwrap();
    Arc {
        from: arc.to,
        over: arrivals.mirror(h),
        to: arc.from,
        stay: stay.mirror(h),
        ..arc
    }
}
