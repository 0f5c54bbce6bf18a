//! The lives of the vertices.
ghost use Rattle.std.specs.Prelude.{◌≡◌, ◌<◌, ◌^◌, length, map, IfOk};
ghost use Rattle.graphite_text.specs.Spans.{as_span};

use graphite_graph::Graph;
use graphite_time::{Life, NoMemory};
use std::alloc::Global;

/// The lives of the vertices, in order.
pub(crate) fn lives_of(alloc: Global, graph: &Graph<'_>) -> Result<Vec<Life>, NoMemory>
    ensures lives { IfOk result (λ lives. map (map as_span) lives.items ≡ map (λ vertex. vertex.life) graph.now.vertices) }
    ensures few { IfOk result (λ lives. length lives.items < 2 ^ 32) }
{
    let mut lives = Vec::with_capacity(alloc, graph.vertices() as usize)?;
    for v in 0..graph.vertices() {
        lives.push(graph.vertex_life(v).copy()?)?;
    }
    Ok(lives)
}
