//! The greatest value of a property.
ghost use Rattle.std.specs.Prelude.{◌≡◌, ◌≤◌, false, refl, IfOk};
ghost use Rattle.std.specs.List.Sorted.{IsSorted};
ghost use Rattle.std.specs.Ordering.{nat_cmp};
ghost use Rattle.graphite_api.specs.declared.TheConstants.{STEP_LIMIT};
ghost use Rattle.graphite_api.specs.Rules.{point_rules};
ghost use Rattle.graphite_snap.specs.Answers.{IsAnswer, MeetEquation};
ghost use Rattle.graphite_snap.specs.Description.{meaning};
ghost use Rattle.graphite_snap.specs.Max.{max_of, max_next, max_plan, max_equation, raised};

use crate::SnapAnswer;
use crate::described::{SnapProgram, answer_of};
use crate::least::greatest;
use graphite_api::{Arc, Message, Next, PointProgram, Program};
use graphite_base::Bytes;
use graphite_graph::{Ask, Facts, Graph};
use graphite_hops::Direction;
use graphite_time::{Interval, NoMemory};
use std::alloc::Global;
use std::marker::Model;

/// The greatest value of a property: for each vertex over all vertices from which a walk leads to it,
/// itself among them, by vertices that start with their own values.
#[derive(Drop)]
pub struct Max {
    calls: u128,
}

/// Contracts see how often it was called.
impl Model for Max {
    ghost use Rattle.std.specs.Prelude.{ℕ};

    ghost Value = { ℕ };

    ghost view = { λ max. max.calls };
}

impl Max {
    /// A program that was not called yet. It takes no memory.
    pub fn new() -> Max
        ensures { result ≡ 0 }
    {
        Max { calls: 0 }
    }
}

impl Program for Max {
    type State = Option<u32>;

    type Note = u32;

    const ALWAYS: bool = false;

    ghost ALWAYS = { false };

    ghost rules = { point_rules max_plan };

    ghost count = { λ calls. calls };

    fn calls(&self) -> u128 {
        self.calls
    }

    fn compute(&mut self, step: u32, state: Option<u32>, group: &[u32]) -> Next<Option<u32>> {
        self.calls += 1;
        next(step, state, group)
    }

    fn scatter(&self, state: Option<u32>, _arc: &Arc, over: Interval) -> Option<Message<u32>> {
        let note = state?;
        Some(Message { over, note })
    }

    ghost order_is = { refl };

    ghost always_is = { refl };
}

impl PointProgram for Max {
    ghost plan = { max_plan };

    ghost rules_are = { refl };
}

/// What is asked of a graph: the greatest value of the property with a key.
#[derive(Drop)]
struct Greatest<'k> {
    key: &'k [u8],
}

impl<'k> SnapProgram for Greatest<'k> {
    type Program = Max;

    ghost description = { λ greatest. max_of greatest.key.now };

    fn program(&self) -> Max {
        Max::new()
    }

    fn ask(&self, alloc: Global) -> Result<Ask, NoMemory> {
        Ok(Ask {
            outdegree: false,
            n: false,
            key: Some(Bytes::from_slice(alloc, self.key)?),
        })
    }

    fn direction(&self) -> Direction {
        Direction::Out
    }

    fn start(&self, facts: Facts) -> Option<u32> {
        facts.prop
    }

    fn printed(&self, state: Option<u32>) -> Option<u64> {
        state.map(u64::from)
    }

    ghost plan_is = { λ described. refl };

    ghost states_are = { λ described x y. refl };
}

/// The greatest values of the property with a key, after at most `steps` supersteps, of which there
/// are 1 to [`graphite_api::STEP_LIMIT`].
pub(crate) fn greatest_values(
    alloc: Global,
    graph: &Graph<'_>,
    key: &[u8],
    steps: u32,
) -> Result<SnapAnswer, NoMemory>
    requires some { 1 ≤ steps }
    requires few { steps ≤ STEP_LIMIT }
    ensures answer { IfOk result (λ answer. IsAnswer (meaning (max_of key.now)) graph.now steps
        answer.values.items answer.made answer.calls) }
    ensures equation { IfOk result (λ answer. MeetEquation graph.now
        (max_equation key.now graph.now steps) answer.values.items) }
{
    answer_of(alloc, graph, &Greatest { key }, steps)
}

/// What a vertex has after a superstep.
fn next(step: u32, state: Option<u32>, group: &[u32]) -> Next<Option<u32>>
    requires rising { IsSorted nat_cmp group.now }
    ensures { result ≡ max_next step state group.now }
{
    if step == 1 {
        return Next {
            state,
            send: state.is_some(),
        };
    }
    raised(state, greatest(group))
}

/// The greater of the value that a vertex has and one that it is told, which is sent on where it is
/// news.
fn raised(value: Option<u32>, told: Option<u32>) -> Next<Option<u32>>
    ensures { result ≡ raised value told }
{
    let Some(told) = told else {
        return Next {
            state: value,
            send: false,
        };
    };
    if let Some(own) = value
        && own >= told
    {
        return Next {
            state: value,
            send: false,
        };
    }
    Next {
        state: Some(told),
        send: true,
    }
}
