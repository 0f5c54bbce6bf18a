//! The text of a made graph.
ghost use Rattle.std.specs.Prelude.{◌≡◌, ◌<◌, IfOk, length};
ghost use Rattle.graphite_text.specs.Canonical.{canonical_text};
ghost use Rattle.graphite_text.specs.Reading.{Accepted, reading_of};
ghost use Rattle.graphite_gen.specs.Drawn.{recipe_of};
ghost use Rattle.graphite_gen.specs.Made.{made_graph, IsRecipe};

use crate::draw::{Numbers, draw_edges, draw_vertices};
use crate::text::{most_bytes, push_text};
use graphite_time::NoMemory;
use rand_core::SeedableRng;
use rand_xoshiro::SplitMix64;
use std::alloc::Global;

/// The canonical text of the graph that is made from a seed, with `v` vertices and `e` edges over the
/// instants below the horizon `h`. `v` and `e` are at most [`graphite_base::MADE_LIMIT`], `h` is from 1 to
/// [`graphite_time::LAST`], and `v` is at least 1 where `e` is. The text is accepted with that graph, and
/// has fewer than 250,000,000 bytes.
pub fn made_text(alloc: Global, seed: u64, v: u32, e: u32, h: u64) -> Result<Vec<u8>, NoMemory>
    requires { IsRecipe (record { seed = seed; vertices = v; edges = e; horizon = h }) }
    ensures text { IfOk result (λ text. text.items
        ≡ canonical_text (made_graph (record { seed = seed; vertices = v; edges = e; horizon = h }))) }
    ensures accepted { reading_of (canonical_text (made_graph (record { seed = seed; vertices = v; edges = e; horizon = h })))
        ≡ Accepted (made_graph (record { seed = seed; vertices = v; edges = e; horizon = h })) }
    ensures short { length (canonical_text (made_graph (record { seed = seed; vertices = v; edges = e; horizon = h })))
        < 250000000 }
{
    let numbers = Numbers {
        seed,
        vertices: v,
        edges: e,
        horizon: h,
    };
    text_from(alloc, numbers)
}

fn text_from(alloc: Global, numbers: Numbers) -> Result<Vec<u8>, NoMemory>
    requires { IsRecipe (recipe_of numbers) }
    ensures { IfOk result (λ text. text.items ≡ canonical_text (made_graph (recipe_of numbers))) }
{
    let mut rng = SplitMix64::seed_from_u64(numbers.seed);
    let vertices = draw_vertices(alloc, numbers, &mut rng)?;
    let edges = draw_edges(alloc, numbers, &vertices, &mut rng)?;
    let mut text = Vec::with_capacity(alloc, most_bytes(numbers))?;
    push_text(alloc, &mut text, numbers, &vertices, &edges)?;
    Ok(text)
}
