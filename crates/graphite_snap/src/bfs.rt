//! Breadth-first search.
ghost use Rattle.std.specs.Prelude.{◌≡◌, ◌≤◌, false, refl, IfOk};
ghost use Rattle.std.specs.List.Sorted.{IsSorted};
ghost use Rattle.std.specs.Ordering.{nat_cmp};
ghost use Rattle.graphite_api.specs.declared.TheConstants.{STEP_LIMIT};
ghost use Rattle.graphite_api.specs.Rules.{point_rules};
ghost use Rattle.graphite_snap.specs.Answers.{IsAnswer, MeetEquation};
ghost use Rattle.graphite_snap.specs.Bfs.{bfs, bfs_equation, bfs_next, bfs_plan};
ghost use Rattle.graphite_snap.specs.Description.{meaning};

use crate::SnapAnswer;
use crate::described::{SnapProgram, answer_of};
use crate::least::least;
use graphite_api::{Arc, Message, Next, PointProgram, Program};
use graphite_graph::{Ask, Facts, Graph};
use graphite_hops::Direction;
use graphite_time::{Interval, NoMemory};
use std::alloc::Global;
use std::marker::Model;

/// Breadth-first search: for each vertex the least number of edges from the source, by vertices that
/// start with `Some(0)` at the source and with `None` elsewhere. The first number that a vertex is told
/// is the least, and it sends it on.
#[derive(Drop)]
pub struct Bfs {
    calls: u128,
}

/// Contracts see how often it was called.
impl Model for Bfs {
    ghost use Rattle.std.specs.Prelude.{ℕ};

    ghost Value = { ℕ };

    ghost view = { λ bfs. bfs.calls };
}

impl Bfs {
    /// A search that was not called yet. It takes no memory.
    pub fn new() -> Bfs
        ensures { result ≡ 0 }
    {
        Bfs { calls: 0 }
    }
}

impl Program for Bfs {
    type State = Option<u32>;

    type Note = u32;

    const ALWAYS: bool = false;

    ghost ALWAYS = { false };

    ghost rules = { point_rules bfs_plan };

    ghost count = { λ calls. calls };

    fn calls(&self) -> u128 {
        self.calls
    }

    fn compute(&mut self, step: u32, state: Option<u32>, group: &[u32]) -> Next<Option<u32>> {
        self.calls += 1;
        next(step, state, group)
    }

    fn scatter(&self, state: Option<u32>, _arc: &Arc, over: Interval) -> Option<Message<u32>> {
        let distance = state?;
        Some(Message {
            over,
            note: distance.saturating_add(1),
        })
    }

    ghost order_is = { refl };

    ghost always_is = { refl };
}

impl PointProgram for Bfs {
    ghost plan = { bfs_plan };

    ghost rules_are = { refl };
}

/// A search from the vertex with this number.
#[derive(Clone, Copy, Debug, PartialEq, Eq)]
struct Search {
    source: u32,
}

impl SnapProgram for Search {
    type Program = Bfs;

    ghost description = { λ search. bfs search.source };

    fn program(&self) -> Bfs {
        Bfs::new()
    }

    fn ask(&self, _alloc: Global) -> Result<Ask, NoMemory> {
        Ok(Ask {
            outdegree: false,
            n: false,
            key: None,
        })
    }

    fn direction(&self) -> Direction {
        Direction::Out
    }

    fn start(&self, facts: Facts) -> Option<u32> {
        (facts.vertex == self.source).then_some(0)
    }

    fn printed(&self, state: Option<u32>) -> Option<u64> {
        state.map(u64::from)
    }

    ghost plan_is = { λ described. refl };

    ghost states_are = { λ described x y. refl };
}

/// A search from a vertex, with at most `steps` supersteps, of which there are 1 to
/// [`graphite_api::STEP_LIMIT`].
pub(crate) fn bfs_of(
    alloc: Global,
    graph: &Graph<'_>,
    source: u32,
    steps: u32,
) -> Result<SnapAnswer, NoMemory>
    requires some { 1 ≤ steps }
    requires few { steps ≤ STEP_LIMIT }
    ensures answer { IfOk result (λ answer. IsAnswer (meaning (bfs source)) graph.now steps
        answer.values.items answer.made answer.calls) }
    ensures equation { IfOk result (λ answer. MeetEquation graph.now
        (bfs_equation source graph.now steps) answer.values.items) }
{
    answer_of(alloc, graph, &Search { source }, steps)
}

/// What a vertex has after a superstep.
fn next(step: u32, state: Option<u32>, group: &[u32]) -> Next<Option<u32>>
    requires rising { IsSorted nat_cmp group.now }
    ensures { result ≡ bfs_next step state group.now }
{
    if step == 1 {
        return Next {
            state,
            send: state.is_some(),
        };
    }
    if state.is_some() {
        return Next { state, send: false };
    }
    let note = least(group);
    Next {
        state: note,
        send: note.is_some(),
    }
}
