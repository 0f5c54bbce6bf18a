//! The least cost of a walk from a vertex.
ghost use Rattle.std.specs.Prelude.{◌≡◌, ◌≤◌, false, refl, IfOk};
ghost use Rattle.std.specs.List.Sorted.{IsSorted};
ghost use Rattle.std.specs.Ordering.{nat_cmp};
ghost use Rattle.graphite_api.specs.declared.TheConstants.{STEP_LIMIT};
ghost use Rattle.graphite_api.specs.Rules.{point_rules};
ghost use Rattle.graphite_snap.specs.Answers.{IsAnswer, MeetEquation};
ghost use Rattle.graphite_snap.specs.Description.{meaning};
ghost use Rattle.graphite_snap.specs.Distance.{distance, distance_next, distance_plan, distance_equation, cheapened};

use crate::SnapAnswer;
use crate::described::{SnapProgram, answer_of};
use crate::least::least_sum;
use graphite_api::{Arc, Message, Next, PointProgram, Program};
use graphite_graph::{Ask, Facts, Graph};
use graphite_hops::Direction;
use graphite_time::{Interval, NoMemory};
use std::alloc::Global;
use std::marker::Model;

/// The least cost of a walk from the source to each vertex, by vertices that start with `Some(0)` at the
/// source and with `None` elsewhere. An edge's cost is that of the instant.
#[derive(Drop)]
pub struct Distance {
    calls: u128,
}

/// Contracts see how often it was called.
impl Model for Distance {
    ghost use Rattle.std.specs.Prelude.{ℕ};

    ghost Value = { ℕ };

    ghost view = { λ distance. distance.calls };
}

impl Distance {
    /// A program that was not called yet. It takes no memory.
    pub fn new() -> Distance
        ensures { result ≡ 0 }
    {
        Distance { calls: 0 }
    }
}

impl Program for Distance {
    type State = Option<u64>;

    type Note = u64;

    const ALWAYS: bool = false;

    ghost ALWAYS = { false };

    ghost rules = { point_rules distance_plan };

    ghost count = { λ calls. calls };

    fn calls(&self) -> u128 {
        self.calls
    }

    fn compute(&mut self, step: u32, state: Option<u64>, group: &[u64]) -> Next<Option<u64>> {
        self.calls += 1;
        next(step, state, group)
    }

    fn scatter(&self, state: Option<u64>, arc: &Arc, over: Interval) -> Option<Message<u64>> {
        let sum = state?;
        let note = sum.saturating_add(u64::from(arc.cost));
        Some(Message { over, note })
    }

    ghost order_is = { refl };

    ghost always_is = { refl };
}

impl PointProgram for Distance {
    ghost plan = { distance_plan };

    ghost rules_are = { refl };
}

/// What is asked of a graph: the least costs from the vertex with this number.
#[derive(Clone, Copy, Debug, PartialEq, Eq)]
struct CheapestWalks {
    source: u32,
}

impl SnapProgram for CheapestWalks {
    type Program = Distance;

    ghost description = { λ walks. distance walks.source };

    fn program(&self) -> Distance {
        Distance::new()
    }

    fn ask(&self, _alloc: Global) -> Result<Ask, NoMemory> {
        Ok(Ask {
            outdegree: false,
            n: false,
            key: None,
        })
    }

    fn direction(&self) -> Direction {
        Direction::Out
    }

    fn start(&self, facts: Facts) -> Option<u64> {
        (facts.vertex == self.source).then_some(0)
    }

    fn printed(&self, state: Option<u64>) -> Option<u64> {
        state
    }

    ghost plan_is = { λ described. refl };

    ghost states_are = { λ described x y. refl };
}

/// The least costs from a vertex, after at most `steps` supersteps, of which there are 1 to
/// [`graphite_api::STEP_LIMIT`].
pub(crate) fn distances(
    alloc: Global,
    graph: &Graph<'_>,
    source: u32,
    steps: u32,
) -> Result<SnapAnswer, NoMemory>
    requires some { 1 ≤ steps }
    requires few { steps ≤ STEP_LIMIT }
    ensures answer { IfOk result (λ answer. IsAnswer (meaning (distance source)) graph.now steps
        answer.values.items answer.made answer.calls) }
    ensures equation { IfOk result (λ answer. MeetEquation graph.now
        (distance_equation source graph.now steps) answer.values.items) }
{
    answer_of(alloc, graph, &CheapestWalks { source }, steps)
}

/// What a vertex has after a superstep.
fn next(step: u32, state: Option<u64>, group: &[u64]) -> Next<Option<u64>>
    requires rising { IsSorted nat_cmp group.now }
    ensures { result ≡ distance_next step state group.now }
{
    if step == 1 {
        return Next {
            state,
            send: state.is_some(),
        };
    }
    cheapened(state, least_sum(group))
}

/// The lower of the cost that a vertex has and one that it is told, which is sent on where it is news.
fn cheapened(sum: Option<u64>, told: Option<u64>) -> Next<Option<u64>>
    ensures { result ≡ cheapened sum told }
{
    let Some(told) = told else {
        return Next {
            state: sum,
            send: false,
        };
    };
    if let Some(own) = sum
        && own <= told
    {
        return Next {
            state: sum,
            send: false,
        };
    }
    Next {
        state: Some(told),
        send: true,
    }
}
