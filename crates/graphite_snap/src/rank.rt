//! Rank: what each vertex gets of the ranks of those from which edges lead to it.
ghost use Rattle.std.specs.Prelude.{◌≡◌, ◌<◌, ◌≤◌, ◌/◌, ◌^◌, true, refl, sum, IfOk};
ghost use Rattle.graphite_api.specs.declared.TheConstants.{STEP_LIMIT};
ghost use Rattle.graphite_api.specs.Rules.{point_rules};
ghost use Rattle.graphite_snap.specs.Answers.{IsAnswer, MeetEquation};
ghost use Rattle.graphite_snap.specs.Description.{meaning};
ghost use Rattle.graphite_snap.specs.Rank.{rank, rank_equation, rank_of, rank_next, rank_note, rank_plan};
ghost use Rattle.graphite_snap.specs.declared.rank.TheConstants.{SCALE};

use crate::described::{SnapProgram, answer_of};
use crate::{RankState, SnapAnswer};
use graphite_api::{Arc, Message, Next, PointProgram, Program};
use graphite_graph::{Ask, Facts, Graph};
use graphite_hops::Direction;
use graphite_time::{Interval, NoMemory};
use std::alloc::Global;
use std::marker::Model;

/// The rank of all vertices together: ranks are in billionths.
pub const SCALE: u32 = 1_000_000_000;

/// Rank: for each vertex, in rounds, what it gets of the ranks of those from which edges lead to it, by
/// vertices that start with equal ranks. Every vertex computes in every superstep, and each divides its
/// rank evenly among the edges that lead out of it.
#[derive(Drop)]
pub struct Rank {
    calls: u128,
}

/// Contracts see how often it was called.
impl Model for Rank {
    ghost use Rattle.std.specs.Prelude.{ℕ};

    ghost Value = { ℕ };

    ghost view = { λ program. program.calls };
}

impl Rank {
    /// A program that was not called yet. It takes no memory.
    pub fn new() -> Rank
        ensures { result ≡ 0 }
    {
        Rank { calls: 0 }
    }
}

impl Program for Rank {
    type State = RankState;

    type Note = u32;

    const ALWAYS: bool = true;

    ghost ALWAYS = { true };

    ghost rules = { point_rules rank_plan };

    ghost count = { λ calls. calls };

    fn calls(&self) -> u128 {
        self.calls
    }

    fn compute(&mut self, step: u32, state: RankState, group: &[u32]) -> Next<RankState> {
        self.calls += 1;
        next(step, state, group)
    }

    fn scatter(&self, state: RankState, _arc: &Arc, over: Interval) -> Option<Message<u32>> {
        let note = share(state)?;
        Some(Message { over, note })
    }

    ghost order_is = { refl };

    ghost always_is = { refl };
}

impl PointProgram for Rank {
    ghost plan = { rank_plan };

    ghost rules_are = { refl };
}

/// What is asked of a graph: the ranks of all vertices.
#[derive(Clone, Copy, Debug, PartialEq, Eq)]
struct AllRanks;

impl SnapProgram for AllRanks {
    type Program = Rank;

    ghost description = { λ _. rank };

    fn program(&self) -> Rank {
        Rank::new()
    }

    fn ask(&self, _alloc: Global) -> Result<Ask, NoMemory> {
        Ok(Ask {
            outdegree: true,
            n: true,
            key: None,
        })
    }

    fn direction(&self) -> Direction {
        Direction::Out
    }

    fn start(&self, facts: Facts) -> RankState {
        RankState::begun_with(equal_rank(facts.n), facts.outdegree, facts.n)
    }

    fn printed(&self, state: RankState) -> Option<u64> {
        Some(u64::from(state.rank()))
    }

    ghost plan_is = { λ described. refl };

    ghost states_are = { λ described x y. refl };
}

/// The ranks of all vertices after `steps` supersteps, of which there are 1 to
/// [`graphite_api::STEP_LIMIT`].
pub(crate) fn ranks_of(alloc: Global, graph: &Graph<'_>, steps: u32) -> Result<SnapAnswer, NoMemory>
    requires some { 1 ≤ steps }
    requires few { steps ≤ STEP_LIMIT }
    ensures answer { IfOk result (λ answer. IsAnswer (meaning rank) graph.now steps
        answer.values.items answer.made answer.calls) }
    ensures equation { IfOk result (λ answer. MeetEquation graph.now
        (rank_equation graph.now steps) answer.values.items) }
{
    answer_of(alloc, graph, &AllRanks, steps)
}

/// The rank of each of `n` vertices that have equal ones; 0 where there is none.
fn equal_rank(n: u32) -> u32
    ensures { result ≡ SCALE / n }
{
    if n == 0 {
        return 0;
    }
    SCALE / n
}

/// What a vertex has after a superstep.
fn next(step: u32, state: RankState, group: &[u32]) -> Next<RankState>
    ensures { result ≡ rank_next step state group.now }
{
    let send = state.outdegree() > 0;
    if step == 1 {
        return Next { state, send };
    }
    let rank = rank_of(state.n(), sum_of(group));
    Next {
        state: state.with_rank(rank),
        send,
    }
}

/// What each edge that leads out of a vertex gets of its rank.
fn share(state: RankState) -> Option<u32>
    ensures { result ≡ rank_note state 0 0 }
{
    if state.outdegree() > 0 {
        Some(state.rank() / state.outdegree())
    } else {
        None
    }
}

/// The rank that shares with this sum give, where `n` vertices are alive.
fn rank_of(n: u32, shares: u128) -> u32
    requires alive { 1 ≤ n }
    requires shares { shares < 2 ^ 96 }
    ensures { result ≡ rank_of n shares }
{
    let spread = u128::from(SCALE) * 15 / 100 / u128::from(n);
    let rank = spread + 85 * shares / 100;
    rank.min(u128::from(SCALE)) as u32
}

/// The sum of the notes. A slice has fewer than 2^64 of them, so that it is below 2^96.
fn sum_of(notes: &[u32]) -> u128
    ensures sum { result ≡ sum notes.now }
    ensures below { result < 2 ^ 96 }
{
    let mut total = 0;
    for note in notes {
        total += u128::from(*note);
    }
    total
}
