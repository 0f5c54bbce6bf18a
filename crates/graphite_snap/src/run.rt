//! The programs of snapshots on a graph.
ghost use Rattle.std.specs.Prelude.{◌≡◌, ◌≤◌, IfOk};
ghost use Rattle.graphite_api.specs.declared.TheConstants.{STEP_LIMIT};
ghost use Rattle.graphite_snap.specs.Answers.{equation_of, MeetEquation, IsAsked, IsSnapAnswer};

use crate::SnapQuery;
use crate::bfs::bfs_of;
use crate::components::components_of;
use crate::degree::degrees;
use crate::distance::distances;
use crate::max::greatest_values;
use crate::rank::ranks_of;
use graphite_graph::Graph;
use graphite_part::Partition;
use graphite_time::NoMemory;
use std::alloc::Global;

/// What a program of snapshots gives for a graph.
#[derive(Drop)]
pub struct SnapAnswer {
    /// For each vertex the value that is printed of it, at each instant of its life.
    pub values: Vec<Partition<Option<u64>>>,
    /// How many supersteps were made, at most as many as were allowed.
    pub made: u32,
    /// How often the program was called.
    pub calls: u128,
}

/// Runs a program of snapshots on a graph with at most `steps` supersteps, of which there are 1 to
/// [`graphite_api::STEP_LIMIT`]. At every instant the values are those that the program gives on the graph of that
/// instant after all of these supersteps. A vertex that it starts from is one of the graph. Refused
/// only where memory is short.
pub fn run_snap(
    alloc: Global,
    graph: &Graph<'_>,
    query: &SnapQuery,
    steps: u32,
) -> Result<SnapAnswer, NoMemory>
    requires asked { IsAsked graph.now query.now }
    requires some { 1 ≤ steps }
    requires few { steps ≤ STEP_LIMIT }
    ensures answer { IfOk result (λ answer. IsSnapAnswer graph.now query.now steps
        answer.values.items answer.made answer.calls) }
    ensures equation { IfOk result (λ answer. MeetEquation graph.now
        (equation_of query.now graph.now steps) answer.values.items) }
{
    match query {
        SnapQuery::Degree => degrees(alloc, graph),
        SnapQuery::Bfs(source) => bfs_of(alloc, graph, *source, steps),
        SnapQuery::Components => components_of(alloc, graph, steps),
        SnapQuery::Max(key) => greatest_values(alloc, graph, key.as_slice(), steps),
        SnapQuery::Distance(source) => distances(alloc, graph, *source, steps),
        SnapQuery::Rank => ranks_of(alloc, graph, steps),
    }
}
