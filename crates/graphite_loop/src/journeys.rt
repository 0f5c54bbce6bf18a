//! Runs of programs of journeys.
ghost use Rattle.std.specs.Prelude.{◌≡◌, ◌≤◌, ◌↔◌, ℕ, All, IfOk, IsTrue};
ghost use Rattle.graphite_part.specs.Pieces.{IsChain};
ghost use Rattle.graphite_api.specs.Attained.{IsBestAttained, IsBestOfLists};
ghost use Rattle.graphite_api.specs.declared.TheConstants.{STEP_LIMIT};
ghost use Rattle.graphite_api.specs.Table.{vertex_is_alive};
ghost use Rattle.graphite_api.specs.TableHops.{IsHopOn, StaysAt};
ghost use Rattle.graphite_loop.specs.Journeys.{vertex_value, IsSettledWithin, IsFirstSettled};
ghost use Rattle.graphite_loop.specs.Progress.{AreInitial};

use crate::{Ran, run_steps};
use graphite_api::{ArcTable, JourneyProgram, STEP_LIMIT};
use graphite_part::Partition;
use graphite_time::NoMemory;
use std::alloc::Global;

/// Runs a program of journeys within `steps`, of which there are 1 to [`STEP_LIMIT`]. At every instant of its
/// life each vertex has the best value of the lists of fewer than `steps` hops that lead to it, each begun
/// with a value of `init`; none where no list leads to it. The run is settled exactly where, at all
/// vertices and instants, the lists of one hop less have the same best values; then those of any number of
/// hops have them too. It makes `steps` steps, or stops at the first number of them within which the values
/// are settled. `init` has a partition for each vertex, over exactly its life; each arc names the lifespan
/// of its target that all its arrivals are in; and the program's count of calls is 0. At [`NoMemory`] the
/// states are given up.
pub fn run_journeys<P: JourneyProgram>(
    alloc: Global,
    table: &ArcTable,
    init: Vec<Partition<Option<u64>>>,
    program: &mut P,
    steps: u32,
) -> Result<Ran<Option<u64>>, NoMemory>
    requires init { AreInitial table.now.lives init.items }
    requires stays { All (StaysAt table.now.lives) table.now.arcs }
    requires some { 1 ≤ steps }
    requires few { steps ≤ STEP_LIMIT }
    requires fresh { P.count program.old ≡ 0 }
    ensures on { IfOk result (λ ran. AreInitial table.now.lives ran.states.items) }
    ensures pieces { IfOk result (λ ran. All IsChain ran.states.items) }
    ensures values { IfOk result (λ ran. (v t : ℕ) → IsBestAttained P.values
        (vertex_is_alive table.now.lives) (IsHopOn table.now.arcs) (vertex_value init.items)
        steps v t (vertex_value ran.states.items v t)) }
    ensures made { IfOk result (λ ran. IsFirstSettled P.values
        (vertex_is_alive table.now.lives) (IsHopOn table.now.arcs) (vertex_value init.items)
        steps ran.made) }
    ensures settled { IfOk result (λ ran. IsTrue ran.settled ↔ IsSettledWithin P.values
        (vertex_is_alive table.now.lives) (IsHopOn table.now.arcs) (vertex_value init.items)
        steps) }
    ensures over_all { IfOk result (λ ran. IsTrue ran.settled → (v t : ℕ) → IsBestOfLists P.values
        (vertex_is_alive table.now.lives) (IsHopOn table.now.arcs) (vertex_value init.items)
        v t (vertex_value ran.states.items v t)) }
    ensures calls { IfOk result (λ ran. ran.calls ≡ P.count program.new) }
{
    let _arcs = table.arcs();
    run_steps(alloc, table, init, program, steps)
}
