//! The out-degree of each vertex, which makes no superstep.
ghost use Rattle.std.specs.Prelude.{◌≡◌, ℕ, IfOk};
ghost use Rattle.graphite_snap.specs.Answers.{IsAnswer, MeetEquation};
ghost use Rattle.graphite_snap.specs.Degree.{degree, degree_equation};

use crate::SnapAnswer;
use crate::start::point_start;
use graphite_graph::{Ask, Facts, Graph};
use graphite_time::NoMemory;
use std::alloc::Global;

/// The out-degree of each vertex at each instant of its life, however many supersteps are allowed.
pub(crate) fn degrees(alloc: Global, graph: &Graph<'_>) -> Result<SnapAnswer, NoMemory>
    ensures answer { IfOk result (λ answer. (steps : ℕ) → IsAnswer degree graph.now steps
        answer.values.items answer.made answer.calls) }
    ensures equation { IfOk result (λ answer. (steps : ℕ) → MeetEquation graph.now
        (degree_equation graph.now steps) answer.values.items) }
{
    let ask = Ask {
        outdegree: true,
        n: false,
        key: None,
    };
    let outdegree = |facts: Facts| Some(u64::from(facts.outdegree));
    Ok(SnapAnswer {
        values: point_start(alloc, graph, &ask, &outdegree)?,
        made: 0,
        calls: 0,
    })
}
