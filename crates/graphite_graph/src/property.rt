//! The values of a vertex's property.
ghost use Rattle.std.specs.Prelude.{◌≡◌, ℕ};
ghost use Rattle.graphite_part.specs.Pieces.{value_at, IsChain};
ghost use Rattle.graphite_text.specs.Graph.{vertex_property_at};
ghost use Rattle.graphite_graph.specs.Covered.{asked_property};

use crate::{Ask, Graph};
use graphite_part::Piece;

/// The values that a vertex has under the asked key, and none where none is asked.
pub(crate) fn asked_property<'g>(graph: &'g Graph<'_>, ask: &Ask, v: u32) -> &'g [Piece<u32>]
    ensures chain { IsChain result.now }
    ensures values { (t : ℕ) → value_at result.now t ≡ asked_property graph.now ask.now v t }
{
    match &ask.key {
        Some(key) => property_of(graph, v, key.as_slice()),
        None => &[],
    }
}

/// The values that a vertex has under a key.
fn property_of<'g>(graph: &'g Graph<'_>, v: u32, key: &[u8]) -> &'g [Piece<u32>]
    ensures chain { IsChain result.now }
    ensures values { (t : ℕ) → value_at result.now t ≡ vertex_property_at graph.now v key.now t }
{
    match graph.vertex_props().timeline(v, key) {
        Some(timeline) => timeline.pieces(),
        None => &[],
    }
}
