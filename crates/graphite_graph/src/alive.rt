//! How many vertices of a graph are alive at each instant.
ghost use Rattle.std.specs.Prelude.{◌≡◌, ◌≤◌, ℕ, unwrap_or, vec_len, IfOk};
ghost use Rattle.graphite_part.specs.Counts.{covers_at};
ghost use Rattle.graphite_part.specs.Pieces.{value_at};
ghost use Rattle.graphite_text.specs.declared.limits.TheConstants.{VERTEX_LIMIT};
ghost use Rattle.graphite_graph.specs.Covered.{asked_number};
ghost use Rattle.graphite_graph.specs.Facts.{number_alive};
ghost use Rattle.graphite_graph.specs.Life.{EndsBy};

use crate::{Ask, Graph};
use graphite_part::Partition;
use graphite_time::{Interval, NoMemory};
use std::alloc::Global;

/// How many vertices are alive at each instant below the horizon, where that is asked, and else nothing.
pub(crate) fn asked_numbers(
    alloc: Global,
    graph: &Graph<'_>,
    ask: &Ask,
) -> Result<Partition<u32>, NoMemory>
    ensures { IfOk result (λ numbers. (t : ℕ) → unwrap_or (value_at numbers t) 0 ≡ asked_number graph.now ask.now t) }
{
    if ask.n {
        return numbers_alive(alloc, graph);
    }
    Ok(Partition::new(alloc))
}

/// How many vertices are alive at each instant below the horizon, by one sweep over all lifespans.
fn numbers_alive(alloc: Global, graph: &Graph<'_>) -> Result<Partition<u32>, NoMemory>
    ensures { IfOk result (λ numbers. (t : ℕ) → unwrap_or (value_at numbers t) 0 ≡ number_alive graph.now t) }
{
    let Some(whole) = Interval::new(0, graph.horizon()) else {
        // nothing lives
        return Ok(Partition::new(alloc));
    };
    let lifespans = lifespans_of(alloc, graph)?;
    let mut numbers = Partition::one(alloc, whole, 0);
    numbers.add_counts(&lifespans)?;
    Ok(numbers)
}

/// The lifespans of all vertices, those of each in order.
fn lifespans_of(alloc: Global, graph: &Graph<'_>) -> Result<Vec<Interval>, NoMemory>
    ensures counts { IfOk result (λ all. (t : ℕ) → covers_at all.items t ≡ number_alive graph.now t) }
    ensures few { IfOk result (λ all. vec_len all ≤ VERTEX_LIMIT) }
{
    let mut all = Vec::with_capacity(alloc, graph.lifespans() as usize)?;
    for v in 0..graph.vertices() {
        all.extend_from_slice(graph.vertex_life(v).spans())?;
    }
    Ok(all)
}
