//! A run at one instant, written plainly.
ghost use Rattle.std.specs.Prelude.{◌≡◌, ◌+◌, ◌*◌, ◌^◌, ◌<◌, ◌≤◌, ℕ, length, slice_get, IfOk, OnOk};
ghost use Rattle.graphite_time.specs.declared.TheConstants.{LAST};
ghost use Rattle.graphite_api.specs.Snapshot.{snapshot_at};
ghost use Rattle.graphite_api.specs.Supersteps.{state_after};
ghost use Rattle.graphite_api.specs.Calls.{supersteps_made, calls_made};
ghost use Rattle.graphite_api.specs.Outcomes.{entry_of};

use crate::instant::{arcs_that_hold, is_over, only, ran, starts_at, superstep_at};
use crate::{ArcTable, PointProgram, RanAt};
use graphite_time::NoMemory;
use std::alloc::Global;

/// Runs a program on the snapshot of a table at one instant, with at most `steps` supersteps:
/// plainly, as the definitions say it, so that every other run can be compared with it. `start` is
/// the state that each vertex starts with; of it, that of the vertices counts which are alive at the
/// instant. The instant is below 2^44, and the program's count of calls below 2^127. It goes once over
/// all arcs, and in each superstep over the vertices and the arcs that hold the instant. At [`NoMemory`]
/// the program was called at most once for each vertex in each superstep.
pub fn run_at<P: PointProgram>(
    alloc: Global,
    program: &mut P,
    table: &ArcTable,
    start: &[P::State],
    t: u64,
    steps: u32,
) -> Result<RanAt<P::State>, NoMemory>
    requires starts { length start.now ≡ length table.now.lives }
    requires instant { t < LAST }
    requires room { P.count program.old < 2 ^ 127 }
    ensures len { IfOk result (λ ran. length ran.states.items ≡ length table.now.lives) }
    ensures states { IfOk result (λ ran. (v : ℕ) → entry_of ran.states.items v
        ≡ (let snapshot = snapshot_at table.now.lives table.now.arcs (λ w _. slice_get start.now w) t in
        state_after P.plan snapshot steps v)) }
    ensures made { IfOk result (λ ran. ran.made
        ≡ (let snapshot = snapshot_at table.now.lives table.now.arcs (λ w _. slice_get start.now w) t in
        supersteps_made P.plan (λ _. snapshot) (length table.now.lives) 1 steps)) }
    ensures calls { OnOk result (P.count program.new ≡ P.count program.old
        + (let snapshot = snapshot_at table.now.lives table.now.arcs (λ w _. slice_get start.now w) t in
        calls_made P.State.cmp P.plan (λ _. snapshot) (length table.now.lives) 1 steps)) }
    ensures no_fewer { P.count program.old ≤ P.count program.new }
    ensures no_more { P.count program.new ≤ P.count program.old + steps * length table.now.lives }
{
    let now = only(t);
    let arcs = arcs_that_hold(alloc, table.arcs(), t)?;
    let mut outcomes = starts_at(alloc, table, start, t)?;
    for done in 0..steps {
        outcomes = superstep_at(alloc, program, &arcs, now, done + 1, &outcomes)?;
        if is_over::<P>(&outcomes) {
            return ran(alloc, &outcomes, done + 1);
        }
    }
    ran(alloc, &outcomes, steps)
}
