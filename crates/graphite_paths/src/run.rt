//! Questions about journeys, answered for all vertices and instants at once.
ghost use Rattle.std.specs.Prelude.{◌≡◌, ◌+◌, ◌<◌, ◌≤◌, ℕ, All, IfOk, IsErrOf, IsTrue, length};
ghost use Rattle.graphite_time.specs.declared.TheConstants.{LAST};
ghost use Rattle.graphite_text.specs.Graph.{vertex_is_alive};
ghost use Rattle.graphite_api.specs.declared.TheConstants.{STEP_LIMIT};
ghost use Rattle.graphite_api.specs.declared.path_query.PathQuery.{PathQuery};
ghost use Rattle.graphite_api.specs.Journey.{IsBestOverAll};
ghost use Rattle.graphite_api.specs.Table.{vertex_is_alive as is_alive_in};
ghost use Rattle.graphite_api.specs.TableHops.{lifespans, IsHopOn, StaysAt};
ghost use Rattle.graphite_graph.specs.Ends.{lifespan_count};
ghost use Rattle.graphite_hops.specs.Hops.{IsHopOf};
ghost use Rattle.graphite_loop.specs.Journeys.{vertex_value};
ghost use Rattle.graphite_loop.specs.Progress.{AreInitial};
ghost use Rattle.graphite_paths.specs.declared.run.PathFault.TheVariants.{NoMemory as no_memory};
ghost use Rattle.graphite_paths.specs.Answer.{IsSettledWithin, IsFirstSettled, AreOnLives, IsPathAnswer};
ghost use Rattle.graphite_paths.specs.Crossing.{AreCrossed};
ghost use Rattle.graphite_paths.specs.declared.TheConstants.{FASTEST_WINDOW};
ghost use Rattle.graphite_paths.specs.Durations.{AreDurationsOf};
ghost use Rattle.graphite_paths.specs.Forward.{IsOnward};

use crate::durations::durations_for;
use crate::latest::run_latest;
use crate::start::path_start;
use crate::{Cheapest, Earliest, Fastest, Reach};
use graphite_api::{ArcTable, Duration, JourneyProgram, Kind, PathQuery, STEP_LIMIT};
use graphite_graph::Graph;
use graphite_hops::journey_arcs;
use graphite_loop::run_journeys;
use graphite_part::Partition;
use graphite_time::NoMemory;
use std::alloc::Global;
use thiserror::Error;

/// Why a question about journeys is not answered.
#[derive(Clone, Copy, Debug, PartialEq, Eq, Error)]
pub enum PathFault {
    /// The values are not settled within the steps allowed.
    #[error("the step budget was exceeded")]
    Budget,
    /// Out of memory.
    #[error("out of memory")]
    NoMemory,
}

impl From<NoMemory> for PathFault {
    ghost from_gives = { λ _ fault. fault ≡ no_memory };

    fn from(_error: NoMemory) -> PathFault {
        PathFault::NoMemory
    }
}

/// The answer to a question about journeys.
#[derive(Drop)]
pub struct PathAnswer {
    /// For each vertex its values over its life, with none where no journey leads to it.
    pub values: Vec<Partition<Option<u64>>>,
    /// How many steps were made.
    pub made: u32,
    /// For [`Kind::Fastest`] the duration of the fastest journey to each vertex, or none where there is no journey. It is
    /// empty for the other kinds.
    pub durations: Vec<Option<Duration>>,
}

/// What a run has found: the values, and how many steps were made.
#[derive(Drop)]
pub(crate) struct Found {
    pub values: Vec<Partition<Option<u64>>>,
    pub made: u32,
}

/// Answers a question about the journeys of a graph, within `steps`, of which there are 1 to [`STEP_LIMIT`]. At every
/// instant of its life each vertex has the best value of all journeys that are asked about; none where there is no
/// journey. Its pieces hold exactly its life, and are as few as can be. The values are settled within `steps`: the
/// journeys of one hop less have the same best ones, at all vertices and instants. Where they are not, the answer is
/// [`PathFault::Budget`]; it never is where `steps` is greater than the number of the lifespans of the graph's vertices. `made` is
/// `steps`, or the first number within which they are settled. For [`Kind::Fastest`] the durations are told by the values: the least
/// number of instants from a value to its instant, the first such instant, and the value there. The vertex of the query is one
/// of the graph; for [`Kind::Fastest`] its window has at most [`FASTEST_WINDOW`](crate::FASTEST_WINDOW) instants.
pub fn run_path(
    alloc: Global,
    graph: &Graph<'_>,
    query: &PathQuery,
    steps: u32,
) -> Result<PathAnswer, PathFault>
    requires vertex { query.now.vertex < length graph.now.vertices }
    requires window { query.now.kind ≡ Kind.Fastest → query.now.until ≤ query.now.from + FASTEST_WINDOW }
    requires some { 1 ≤ steps }
    requires few { steps ≤ STEP_LIMIT }
    ensures best { IfOk result (λ answer. (v t : ℕ) → IsBestOverAll
        (vertex_is_alive graph.now) (IsHopOf graph.now) query.now v t
        (vertex_value answer.values.items v t)) }
    ensures lives { IfOk result (λ answer. AreOnLives
        (vertex_is_alive graph.now) (length graph.now.vertices) answer.values.items) }
    ensures durations { IfOk result (λ answer. AreDurationsOf query.now.kind
        (length graph.now.vertices) (vertex_value answer.values.items) answer.durations.items) }
    ensures made { IfOk result (λ answer. IsFirstSettled
        (vertex_is_alive graph.now) (IsHopOf graph.now) query.now steps answer.made) }
    ensures settled { IfOk result (λ _. IsSettledWithin
        (vertex_is_alive graph.now) (IsHopOf graph.now) query.now steps) }
    ensures budget { IsErrOf result PathFault.Budget → IsSettledWithin
        (vertex_is_alive graph.now) (IsHopOf graph.now) query.now steps → ⊥ }
    ensures enough { lifespan_count graph.now + 1 ≤ steps → IsErrOf result PathFault.Budget → ⊥ }
{
    let found = run_on_graph(alloc, graph, query, steps)?;
    let durations = durations_for(alloc, query.kind, &found.values)?;
    Ok(PathAnswer {
        values: found.values,
        made: found.made,
        durations,
    })
}

/// The values for a question about the journeys of a graph.
fn run_on_graph(
    alloc: Global,
    graph: &Graph<'_>,
    query: &PathQuery,
    steps: u32,
) -> Result<Found, PathFault>
    requires vertex { query.now.vertex < length graph.now.vertices }
    requires window { query.now.kind ≡ Kind.Fastest → query.now.until ≤ query.now.from + FASTEST_WINDOW }
    requires some { 1 ≤ steps }
    requires few { steps ≤ STEP_LIMIT }
    ensures best { IfOk result (λ found. (v t : ℕ) → IsBestOverAll
        (vertex_is_alive graph.now) (IsHopOf graph.now) query.now v t
        (vertex_value found.values.items v t)) }
    ensures lives { IfOk result (λ found. AreOnLives
        (vertex_is_alive graph.now) (length graph.now.vertices) found.values.items) }
    ensures made { IfOk result (λ found. IsFirstSettled
        (vertex_is_alive graph.now) (IsHopOf graph.now) query.now steps found.made) }
    ensures settled { IfOk result (λ _. IsSettledWithin
        (vertex_is_alive graph.now) (IsHopOf graph.now) query.now steps) }
    ensures budget { IsErrOf result PathFault.Budget → IsSettledWithin
        (vertex_is_alive graph.now) (IsHopOf graph.now) query.now steps → ⊥ }
    ensures enough { lifespan_count graph.now + 1 ≤ steps → IsErrOf result PathFault.Budget → ⊥ }
{
    let table = journey_arcs(alloc, graph)?;
    run_on_table(alloc, &table, query, steps, graph.horizon())
}

/// Answers a question about the journeys of a table, in which each arc names the lifespan of its target that all its
/// arrivals are in, and whose vertices live below `h`, which is at most [`graphite_time::LAST`].
fn run_on_table(
    alloc: Global,
    table: &ArcTable,
    query: &PathQuery,
    steps: u32,
    h: u64,
) -> Result<Found, PathFault>
    requires vertex { query.now.vertex < length table.now.lives }
    requires window { query.now.kind ≡ Kind.Fastest → query.now.until ≤ query.now.from + FASTEST_WINDOW }
    requires stays { All (StaysAt table.now.lives) table.now.arcs }
    requires some { 1 ≤ steps }
    requires few { steps ≤ STEP_LIMIT }
    requires below { (v t : ℕ) → IsTrue (is_alive_in table.now.lives v t) → t < h }
    requires horizon { h ≤ LAST }
    ensures answer { IfOk result (λ answer. IsPathAnswer
        (is_alive_in table.now.lives) (IsHopOn table.now.arcs) query.now
        (length table.now.lives) steps answer.values.items answer.made) }
    ensures budget { IsErrOf result PathFault.Budget → IsSettledWithin
        (is_alive_in table.now.lives) (IsHopOn table.now.arcs) query.now steps → ⊥ }
    ensures enough { lifespans table.now.lives + 1 ≤ steps → IsErrOf result PathFault.Budget → ⊥ }
{
    match query.kind {
        Kind::Latest => run_latest(alloc, table, query, steps, h),
        _ => run_forward(alloc, table, query, steps),
    }
}

/// Answers a question that goes forward in time, on a table in which each arc names the lifespan of its target that all its
/// arrivals are in.
pub(crate) fn run_forward(
    alloc: Global,
    table: &ArcTable,
    query: &PathQuery,
    steps: u32,
) -> Result<Found, PathFault>
    requires vertex { query.now.vertex < length table.now.lives }
    requires kind { IsOnward query.now.kind }
    requires window { query.now.kind ≡ Kind.Fastest → query.now.until ≤ query.now.from + FASTEST_WINDOW }
    requires stays { All (StaysAt table.now.lives) table.now.arcs }
    requires some { 1 ≤ steps }
    requires few { steps ≤ STEP_LIMIT }
    ensures answer { IfOk result (λ answer. IsPathAnswer
        (is_alive_in table.now.lives) (IsHopOn table.now.arcs) query.now
        (length table.now.lives) steps answer.values.items answer.made) }
    ensures budget { IsErrOf result PathFault.Budget → IsSettledWithin
        (is_alive_in table.now.lives) (IsHopOn table.now.arcs) query.now steps → ⊥ }
    ensures enough { lifespans table.now.lives + 1 ≤ steps → IsErrOf result PathFault.Budget → ⊥ }
{
    let init = path_start(alloc, table, query)?;
    // hops take time, and sums of costs are exact, since the costs of a table are numbers of 32 bits
    let _arcs = table.arcs();
    match query.kind {
        Kind::Reach => run_program(alloc, table, init, &mut Reach::new(), steps),
        Kind::Earliest => run_program(alloc, table, init, &mut Earliest::new(), steps),
        Kind::Cheapest => run_program(alloc, table, init, &mut Cheapest::new(), steps),
        Kind::Fastest => run_program(alloc, table, init, &mut Fastest::new(), steps),
        // asked in the mirror of time
        Kind::Latest => Err(PathFault::NoMemory),
    }
}

/// Runs a program. It answers every question for which the best values of lists of hops are those of the journeys that
/// are asked about.
fn run_program<P: JourneyProgram>(
    alloc: Global,
    table: &ArcTable,
    init: Vec<Partition<Option<u64>>>,
    program: &mut P,
    steps: u32,
) -> Result<Found, PathFault>
    requires init { AreInitial table.now.lives init.items }
    requires stays { All (StaysAt table.now.lives) table.now.arcs }
    requires some { 1 ≤ steps }
    requires few { steps ≤ STEP_LIMIT }
    requires fresh { P.count program.old ≡ 0 }
    ensures answer { IfOk result (λ answer. (query : PathQuery)
        → AreCrossed P.values (is_alive_in table.now.lives) (IsHopOn table.now.arcs) query (vertex_value init.items)
        → IsPathAnswer (is_alive_in table.now.lives) (IsHopOn table.now.arcs) query
        (length table.now.lives) steps answer.values.items answer.made) }
    ensures budget { IsErrOf result PathFault.Budget → (query : PathQuery)
        → AreCrossed P.values (is_alive_in table.now.lives) (IsHopOn table.now.arcs) query (vertex_value init.items)
        → IsSettledWithin (is_alive_in table.now.lives) (IsHopOn table.now.arcs) query steps → ⊥ }
{
    let ran = run_journeys(alloc, table, init, program, steps)?;
    if !ran.settled {
        return Err(PathFault::Budget);
    }
    Ok(Found {
        values: ran.states,
        made: ran.made,
    })
}
