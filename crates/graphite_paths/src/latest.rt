//! The latest departure: the earliest arrival in the mirror of time.
ghost use Rattle.std.specs.Prelude.{◌≡◌, ◌+◌, ◌<◌, ◌≤◌, ℕ, All, IfOk, IsErrOf, IsTrue, length, option_map};
ghost use Rattle.graphite_time.specs.declared.TheConstants.{LAST};
ghost use Rattle.graphite_time.specs.Mirror.{mirrored};
ghost use Rattle.graphite_part.specs.Pieces.{last_end, AreRuns};
ghost use Rattle.graphite_api.specs.declared.TheConstants.{STEP_LIMIT};
ghost use Rattle.graphite_api.specs.declared.kind.Kind.TheVariants.{Latest};
ghost use Rattle.graphite_api.specs.Mirror.{mirrored_query};
ghost use Rattle.graphite_api.specs.Table.{vertex_is_alive as is_alive_in};
ghost use Rattle.graphite_api.specs.TableHops.{lifespans, IsHopOn, StaysAt};
ghost use Rattle.graphite_paths.specs.Answer.{IsSettledWithin, IsPathAnswer};
ghost use Rattle.graphite_paths.specs.Turned.{turned, AreTurned};

use crate::run::{Found, PathFault, run_forward};
use graphite_api::{ArcTable, Kind, PathQuery};
use graphite_hops::mirror;
use graphite_part::Partition;
use graphite_time::NoMemory;
use std::alloc::Global;

/// Answers a question about latest departures, on a table in which each arc names the lifespan of its target that all its
/// arrivals are in, and whose vertices live below `h`, which is at most [`graphite_time::LAST`].
pub(crate) fn run_latest(
    alloc: Global,
    table: &ArcTable,
    query: &PathQuery,
    steps: u32,
    h: u64,
) -> Result<Found, PathFault>
    requires vertex { query.now.vertex < length table.now.lives }
    requires kind { query.now.kind ≡ Latest }
    requires stays { All (StaysAt table.now.lives) table.now.arcs }
    requires some { 1 ≤ steps }
    requires few { steps ≤ STEP_LIMIT }
    requires below { (v t : ℕ) → IsTrue (is_alive_in table.now.lives v t) → t < h }
    requires horizon { h ≤ LAST }
    ensures answer { IfOk result (λ answer. IsPathAnswer
        (is_alive_in table.now.lives) (IsHopOn table.now.arcs) query.now
        (length table.now.lives) steps answer.values.items answer.made) }
    ensures budget { IsErrOf result PathFault.Budget → IsSettledWithin
        (is_alive_in table.now.lives) (IsHopOn table.now.arcs) query.now steps → ⊥ }
    ensures enough { lifespans table.now.lives + 1 ≤ steps → IsErrOf result PathFault.Budget → ⊥ }
{
    let there = mirror(alloc, table, h)?;
    let found = run_forward(alloc, &there, &mirrored_query(h, query), steps)?;
    let values = turned_back(alloc, &found.values, h)?;
    Ok(Found {
        values,
        made: found.made,
    })
}

/// The values of each vertex in the mirror, turned back: at each instant below `h` the number at the mirrored instant,
/// which is an instant and mirrored too.
fn turned_back(
    alloc: Global,
    values: &[Partition<Option<u64>>],
    h: u64,
) -> Result<Vec<Partition<Option<u64>>>, NoMemory>
    requires ends { All (λ pieces. last_end pieces ≤ h) values.now }
    requires horizon { h ≤ LAST }
    ensures { IfOk result (λ turned. AreTurned h values.now turned.items) }
{
    let mut turned = Vec::with_capacity(alloc, values.len())?;
    for pieces in values {
        turned.push(turned_pieces(pieces, h)?)?;
    }
    Ok(turned)
}

/// The values of a vertex, turned back.
fn turned_pieces(
    pieces: &Partition<Option<u64>>,
    h: u64,
) -> Result<Partition<Option<u64>>, NoMemory>
    requires end { last_end pieces.now ≤ h }
    requires horizon { h ≤ LAST }
    ensures { IfOk result (AreRuns (turned h pieces.now)) }
{
    let back = pieces.mirror(h)?;
    let turn = |instant: Option<u64>| -> Option<u64>
        ensures { result ≡ option_map (mirrored h) instant }
    { mirrored_instant(h, instant) };
    back.map(&turn)
}

/// The instant, if there is one, in the mirror of the instants below `h`.
fn mirrored_instant(h: u64, instant: Option<u64>) -> Option<u64>
    ensures { result ≡ option_map (mirrored h) instant }
{
    Some(h.saturating_sub(instant?.saturating_add(1)))
}

/// The query of the earliest arrival in the mirror of the instants below `h`.
fn mirrored_query(h: u64, query: &PathQuery) -> PathQuery
    ensures { result ≡ mirrored_query h query.now }
{
    PathQuery {
        kind: Kind::Earliest,
        vertex: query.vertex,
        from: h.saturating_sub(query.until),
        until: h.saturating_sub(query.from),
    }
}
