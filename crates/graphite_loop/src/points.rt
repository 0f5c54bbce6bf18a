//! Runs of programs that see one instant at a time.
ghost use Rattle.std.specs.Prelude.{◌≡◌, ◌≤◌, ℕ, IfOk, length};
ghost use Rattle.graphite_api.specs.declared.TheConstants.{STEP_LIMIT};
ghost use Rattle.graphite_api.specs.Snapshot.{snapshot_at};
ghost use Rattle.graphite_loop.specs.Points.{initial_at, EndBy, IsPointRun};
ghost use Rattle.graphite_loop.specs.Progress.{AreInitial};

use crate::{Ran, run_steps};
use graphite_api::{ArcTable, PointProgram, STEP_LIMIT};
use graphite_part::Partition;
use graphite_time::NoMemory;
use std::alloc::Global;

/// Runs a program of snapshots with at most `steps` supersteps, of which there are 1 to [`STEP_LIMIT`].
/// At every instant each vertex has the state that all of these supersteps leave on the graph of that
/// instant: the vertices alive then and the arcs that hold it. Only those supersteps are made up to
/// the first in which no vertex sends at any instant, but all of them where every vertex always
/// computes. In each the program is called once for each vertex and each maximal interval on which
/// the vertex computes with the same state and the same group. `init` has a partition for each
/// vertex, over exactly its life, and the program's count of calls is 0. At [`NoMemory`] the states are
/// given up.
pub fn run_points<P: PointProgram>(
    alloc: Global,
    table: &ArcTable,
    init: Vec<Partition<P::State>>,
    program: &mut P,
    steps: u32,
) -> Result<Ran<P::State>, NoMemory>
    requires init { AreInitial table.now.lives init.items }
    requires some { 1 ≤ steps }
    requires few { steps ≤ STEP_LIMIT }
    requires fresh { P.count program.old ≡ 0 }
    ensures run { IfOk result (λ ran. (horizon : ℕ) → EndBy horizon table.now.lives
        → IsPointRun P.State.cmp P.plan
        (snapshot_at table.now.lives table.now.arcs (initial_at init.items))
        (length table.now.lives) horizon steps
        ran.states.items ran.made ran.settled ran.calls) }
    ensures calls { IfOk result (λ ran. ran.calls ≡ P.count program.new) }
{
    run_steps(alloc, table, init, program, steps)
}
