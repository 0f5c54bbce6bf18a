//! The states that a program of snapshots starts with.
ghost use Rattle.std.specs.Prelude.{◌≡◌, ◌<◌, ◌≤◌, ℕ, true, length, vec_len, slice_index_or, [], IfOk};
ghost use Rattle.std.specs.Option.{ForSome};
ghost use Rattle.graphite_graph.specs.Facts.{facts_at, AreMadeOf};

use graphite_graph::{Ask, Facts, Graph};
use graphite_part::{Partition, Plain};
use graphite_time::NoMemory;
use std::alloc::Global;

/// What `init` makes of the facts of each vertex, at each instant of its life: the states that a
/// program of snapshots starts with. `init` may be called on the facts of every vertex at every
/// instant of its life.
pub fn point_start<S: Plain, F: Fn(Facts) -> S>(
    _alloc: Global,
    graph: &Graph<'_>,
    ask: &Ask,
    init: &F,
) -> Result<Vec<Partition<S>>, NoMemory>
    requires { (v t : ℕ) → ForSome (facts_at graph.now ask.now v t) (F.pre init.now) }
    ensures len { IfOk result (λ start. vec_len start ≡ length graph.now.vertices) }
    ensures start { IfOk result (λ start. (v : ℕ) → v < length graph.now.vertices
        → AreMadeOf (F.post init.now) (facts_at graph.now ask.now v) (slice_index_or start.items v [])) }
    ensures number { ask.now.n ≡ true → (v t : ℕ) → ForSome (facts_at graph.now ask.now v t) (λ facts. 1 ≤ facts.n) }
{
    graph.map_facts(ask, init)
}
