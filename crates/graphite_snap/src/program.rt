//! A program of snapshots on a graph.
ghost use Rattle.std.specs.Prelude.{◌≡◌, ◌≤◌, ℕ, length, IfOk};
ghost use Rattle.std.specs.Option.{ForSome};
ghost use Rattle.graphite_graph.specs.declared.facts.Facts.{Facts};
ghost use Rattle.graphite_graph.specs.Facts.{facts_at};
ghost use Rattle.graphite_loop.specs.Points.{IsPointRun};
ghost use Rattle.graphite_api.specs.declared.TheConstants.{STEP_LIMIT};
ghost use Rattle.graphite_snap.specs.Description.{graph_at};
ghost use Rattle.graphite_snap.specs.Sound.{IsSound};

use crate::start::point_start;
use graphite_api::PointProgram;
use graphite_graph::{Ask, Facts, Graph};
use graphite_hops::{Direction, snapshot_arcs};
use graphite_loop::{Ran, run_points};
use graphite_part::Plain;
use graphite_time::NoMemory;
use std::alloc::Global;

/// Runs a program of snapshots that goes this way along the edges of a graph, with at most `steps`
/// supersteps, of which there are 1 to [`graphite_api::STEP_LIMIT`]. Each vertex starts with what `init` makes of its
/// facts, and the program's count of calls is 0.
pub(crate) fn run_program<P: PointProgram, F: Fn(Facts) -> P::State>(
    alloc: Global,
    graph: &Graph<'_>,
    direction: Direction,
    ask: &Ask,
    init: &F,
    program: &mut P,
    steps: u32,
) -> Result<Ran<P::State>, NoMemory>
    requires callable { (v t : ℕ) → ForSome (facts_at graph.now ask.now v t) (F.pre init.now) }
    requires some { 1 ≤ steps }
    requires few { steps ≤ STEP_LIMIT }
    requires fresh { P.count program.old ≡ 0 }
    ensures run { IfOk result (λ ran. (start : Facts → P.State)
        → ((v t : ℕ) → ForSome (facts_at graph.now ask.now v t)
        (λ facts. (state : P.State) → F.post init.now facts state → state ≡ start facts))
        → IsPointRun P.State.cmp P.plan (graph_at graph.now ask.now direction start)
        (length graph.now.vertices) graph.now.horizon steps
        ran.states.items ran.made ran.settled ran.calls) }
    ensures sound { IfOk result (λ _. (start : Facts → P.State) (t : ℕ)
        → IsSound (graph_at graph.now ask.now direction start t)) }
{
    let table = snapshot_arcs(alloc, graph, direction)?;
    let start = point_start(alloc, graph, ask, init)?;
    // nothing lives from the horizon on, so no superstep is looked for there
    let _horizon = graph.horizon();
    // links come from vertices that are alive, and their costs are numbers of 32 bits
    let _arcs = table.arcs();
    run_points(alloc, &table, start, program, steps)
}
