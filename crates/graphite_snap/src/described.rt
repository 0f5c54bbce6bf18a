//! A program of snapshots as one description, and its answer for a graph.
ghost use Rattle.std.specs.Prelude.{◌≡◌, ◌≤◌, ℕ, IfOk};
ghost use Rattle.graphite_api.specs.declared.TheConstants.{STEP_LIMIT};
ghost use Rattle.graphite_snap.specs.Answers.{IsAnswer};
ghost use Rattle.graphite_snap.specs.Description.{Description, meaning, seen_at};
ghost use Rattle.graphite_snap.specs.Sound.{IsSound};

use crate::SnapAnswer;
use crate::map::map_all;
use crate::program::run_program;
use graphite_api::{PointProgram, Program};
use graphite_graph::{Ask, Facts, Graph};
use graphite_hops::Direction;
use graphite_time::NoMemory;
use std::alloc::Global;

/// What makes a program of snapshots, together with what its query gives it: a program is one type
/// with this trait, in a file of its own.
pub(crate) trait SnapProgram {
    /// The program that makes the supersteps.
    type Program: PointProgram + Drop;

    ghost description: { Self → Description Self.Program.State Self.Program.Note };

    /// The program, not called yet.
    fn program(&self) -> Self::Program
        ensures { Self.Program.count result ≡ 0 };

    /// Which facts of the vertices it wants. Refused only where memory is short.
    fn ask(&self, alloc: Global) -> Result<Ask, NoMemory>
        ensures { IfOk result (λ ask. ask ≡ (description self.now).ask) };

    /// Which way it goes along the edges.
    fn direction(&self) -> Direction
        ensures { result ≡ (description self.now).direction };

    /// The state that a vertex with these facts starts with.
    fn start(&self, facts: Facts) -> <Self::Program as Program>::State
        ensures { result ≡ (description self.now).start facts };

    /// What is printed of a state.
    fn printed(&self, state: <Self::Program as Program>::State) -> Option<u64>
        ensures { result ≡ (description self.now).printed state };

    /// Its supersteps are the program's.
    ghost plan_is: { (described : Self) → (description described).plan ≡ Self.Program.plan };

    /// States are compared by the order that is described.
    ghost states_are: { (described : Self) (x y : Self.Program.State)
        → Self.Program.State.cmp x y ≡ (description described).order x y };
}

/// Runs a described program on a graph with at most `steps` supersteps, of which there are 1 to
/// [`graphite_api::STEP_LIMIT`].
pub(crate) fn answer_of<D: SnapProgram>(
    alloc: Global,
    graph: &Graph<'_>,
    described: &D,
    steps: u32,
) -> Result<SnapAnswer, NoMemory>
    requires some { 1 ≤ steps }
    requires few { steps ≤ STEP_LIMIT }
    ensures answer { IfOk result (λ answer. IsAnswer (meaning (D.description described.now)) graph.now steps
        answer.values.items answer.made answer.calls) }
    ensures sound { IfOk result (λ _. (t : ℕ) → IsSound (seen_at (D.description described.now) graph.now t)) }
{
    let ask = described.ask(alloc)?;
    let direction = described.direction();
    let start = |facts: Facts| -> <D::Program as Program>::State
        ensures { result ≡ (D.description described.entry.now).start facts }
    { described.start(facts) };
    let mut program = described.program();
    let ran = run_program(alloc, graph, direction, &ask, &start, &mut program, steps)?;
    let printed = |state: <D::Program as Program>::State| -> Option<u64>
        ensures { result ≡ (D.description described.entry.now).printed state }
    { described.printed(state) };
    Ok(SnapAnswer {
        values: map_all(alloc, ran.states, &printed)?,
        made: ran.made,
        calls: ran.calls,
    })
}
