//! Supersteps one after the other, up to the last one that is made.
ghost use Rattle.std.specs.Prelude.{◌≡◌, ◌≤◌, ◌&&◌, ◌||◌, nat_lt, IfOk};
ghost use Rattle.graphite_api.specs.declared.TheConstants.{STEP_LIMIT};
ghost use Rattle.graphite_loop.specs.Progress.{AreInitial};
ghost use Rattle.graphite_loop.specs.Run.{IsRun};

use crate::Run;
use graphite_api::{ArcTable, Program, STEP_LIMIT};
use graphite_part::{Partition, Plain};
use graphite_time::NoMemory;
use std::alloc::Global;

/// What a run of supersteps comes to.
#[derive(Drop)]
pub struct Ran<S: Plain> {
    /// The states after the supersteps made.
    pub states: Vec<Partition<S>>,
    /// How many supersteps were made.
    pub made: u32,
    /// Whether no vertex sent at any instant in the last superstep made.
    pub settled: bool,
    /// How often the program was called.
    pub calls: u128,
}

/// Makes at most `steps` supersteps, of which there are 1 to [`STEP_LIMIT`]: all of them where every
/// vertex always computes; else up to the first in which no vertex sends at any instant. `init` has a
/// partition for each vertex, over exactly its life, and the program's count of calls is 0. At
/// [`NoMemory`] the states are given up.
pub fn run_steps<P: Program>(
    alloc: Global,
    table: &ArcTable,
    init: Vec<Partition<P::State>>,
    program: &mut P,
    steps: u32,
) -> Result<Ran<P::State>, NoMemory>
    requires init { AreInitial table.now.lives init.items }
    requires some { 1 ≤ steps }
    requires few { steps ≤ STEP_LIMIT }
    requires fresh { P.count program.old ≡ 0 }
    ensures run { IfOk result (λ ran. IsRun P.rules
        table.now.arcs init.items steps ran.states.items ran.made ran.settled ran.calls) }
    ensures calls { IfOk result (λ ran. ran.calls ≡ P.count program.new) }
{
    let mut run = Run::start(alloc, table, init)?;
    let mut sends = true;
    while goes_on::<P>(run.made(), steps, sends) {
        sends = run.superstep(program)?;
    }
    let made = run.made();
    Ok(Ran {
        states: run.into_states(),
        made,
        settled: !sends,
        calls: program.calls(),
    })
}

/// Whether one more superstep is to be made.
fn goes_on<P: Program>(made: u32, steps: u32, sends: bool) -> bool
    ensures { result ≡ nat_lt made steps && (sends || P.rules.always) }
{
    made < steps && (sends || P::ALWAYS)
}
