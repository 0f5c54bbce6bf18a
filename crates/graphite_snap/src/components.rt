//! Connected components.
ghost use Rattle.std.specs.Prelude.{◌≡◌, ◌≤◌, false, refl, IfOk};
ghost use Rattle.std.specs.List.Sorted.{IsSorted};
ghost use Rattle.std.specs.Ordering.{nat_cmp};
ghost use Rattle.graphite_api.specs.declared.TheConstants.{STEP_LIMIT};
ghost use Rattle.graphite_api.specs.Rules.{point_rules};
ghost use Rattle.graphite_snap.specs.Answers.{IsAnswer, MeetEquation};
ghost use Rattle.graphite_snap.specs.Description.{meaning};
ghost use Rattle.graphite_snap.specs.Components.{components, components_next, components_plan, components_equation};

use crate::SnapAnswer;
use crate::described::{SnapProgram, answer_of};
use crate::least::least;
use graphite_api::{Arc, Message, Next, PointProgram, Program};
use graphite_graph::{Ask, Facts, Graph};
use graphite_hops::Direction;
use graphite_time::{Interval, NoMemory};
use std::alloc::Global;
use std::marker::Model;

/// Connected components: for each vertex the least number of a vertex that is connected with it by
/// edges taken either way, by vertices that start with their own numbers.
#[derive(Drop)]
pub struct Components {
    calls: u128,
}

/// Contracts see how often it was called.
impl Model for Components {
    ghost use Rattle.std.specs.Prelude.{ℕ};

    ghost Value = { ℕ };

    ghost view = { λ components. components.calls };
}

impl Components {
    /// A program that was not called yet. It takes no memory.
    pub fn new() -> Components
        ensures { result ≡ 0 }
    {
        Components { calls: 0 }
    }
}

impl Program for Components {
    type State = u32;

    type Note = u32;

    const ALWAYS: bool = false;

    ghost ALWAYS = { false };

    ghost rules = { point_rules components_plan };

    ghost count = { λ calls. calls };

    fn calls(&self) -> u128 {
        self.calls
    }

    fn compute(&mut self, step: u32, state: u32, group: &[u32]) -> Next<u32> {
        self.calls += 1;
        next(step, state, group)
    }

    fn scatter(&self, state: u32, _arc: &Arc, over: Interval) -> Option<Message<u32>> {
        Some(Message { over, note: state })
    }

    ghost order_is = { refl };

    ghost always_is = { refl };
}

impl PointProgram for Components {
    ghost plan = { components_plan };

    ghost rules_are = { refl };
}

/// What is asked of a graph: the components of all vertices.
#[derive(Clone, Copy, Debug, PartialEq, Eq)]
struct AllComponents;

impl SnapProgram for AllComponents {
    type Program = Components;

    ghost description = { λ _. components };

    fn program(&self) -> Components {
        Components::new()
    }

    fn ask(&self, _alloc: Global) -> Result<Ask, NoMemory> {
        Ok(Ask {
            outdegree: false,
            n: false,
            key: None,
        })
    }

    fn direction(&self) -> Direction {
        Direction::Both
    }

    fn start(&self, facts: Facts) -> u32 {
        facts.vertex
    }

    fn printed(&self, state: u32) -> Option<u64> {
        Some(u64::from(state))
    }

    ghost plan_is = { λ described. refl };

    ghost states_are = { λ described x y. refl };
}

/// The components of a graph, after at most `steps` supersteps, of which there are 1 to
/// [`graphite_api::STEP_LIMIT`].
pub(crate) fn components_of(
    alloc: Global,
    graph: &Graph<'_>,
    steps: u32,
) -> Result<SnapAnswer, NoMemory>
    requires some { 1 ≤ steps }
    requires few { steps ≤ STEP_LIMIT }
    ensures answer { IfOk result (λ answer. IsAnswer (meaning components) graph.now steps
        answer.values.items answer.made answer.calls) }
    ensures equation { IfOk result (λ answer. MeetEquation graph.now
        (components_equation graph.now steps) answer.values.items) }
{
    answer_of(alloc, graph, &AllComponents, steps)
}

/// What a vertex has after a superstep.
fn next(step: u32, state: u32, group: &[u32]) -> Next<u32>
    requires rising { IsSorted nat_cmp group.now }
    ensures { result ≡ components_next step state group.now }
{
    if step == 1 {
        return Next { state, send: true };
    }
    match least(group) {
        Some(told) if told < state => Next {
            state: told,
            send: true,
        },
        _ => Next { state, send: false },
    }
}
