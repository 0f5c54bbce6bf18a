//! The lives, ends and numbers of a made graph, drawn from the words of a generator.
ghost use Rattle.std.specs.Prelude.{◌≡◌, ◌+◌, ◌*◌, ◌<◌, ◌≤◌, ◌%◌, ◌^◌, ℕ, IfOk, OnOk};
ghost use Rattle.graphite_time.specs.declared.TheConstants.{LAST};
ghost use Rattle.graphite_gen.specs.Drawn.{drawn_edge, drawn_edges, drawn_vertex, drawn_vertices, recipe_of};
ghost use Rattle.graphite_gen.specs.Made.{edge_words, meet, span_within, state_after, vertex_words, word_at, IsRecipe};

use graphite_text::Span;
use graphite_time::NoMemory;
use rand_core::utils::NextWord;
use rand_xoshiro::SplitMix64;
use std::alloc::Global;

/// The numbers that a graph is made from: a seed, how many vertices and edges it has, and its horizon.
#[derive(Clone, Copy)]
pub(crate) struct Numbers {
    pub seed: u64,
    pub vertices: u32,
    pub edges: u32,
    pub horizon: u64,
}

/// A vertex as it is drawn: its life, and its size while it lives.
#[derive(Clone, Copy)]
pub(crate) struct DrawnVertex {
    pub over: Span,
    pub size: u32,
}

/// An edge as it is drawn: the numbers of the vertices that it leads from and to, its life, and the time
/// and the cost of it while it lives.
#[derive(Clone, Copy)]
pub(crate) struct DrawnEdge {
    pub from: u32,
    pub to: u32,
    pub over: Span,
    pub time: u32,
    pub cost: u32,
}

/// The vertices, from the first words of the generator.
pub(crate) fn draw_vertices(
    alloc: Global,
    numbers: Numbers,
    rng: &mut SplitMix64,
) -> Result<Vec<DrawnVertex>, NoMemory>
    requires recipe { IsRecipe (recipe_of numbers) }
    requires words { rng.old ≡ numbers.seed }
    ensures vertices { IfOk result (λ vertices. vertices.items ≡ drawn_vertices (recipe_of numbers)) }
    ensures words { OnOk result (rng.new ≡ state_after numbers.seed (edge_words (recipe_of numbers) 0)) }
{
    let mut vertices = Vec::with_capacity(alloc, numbers.vertices as usize)?;
    for i in 0..numbers.vertices {
        vertices.push(draw_vertex(numbers, rng))?;
    }
    Ok(vertices)
}

/// The edges, from the words behind those of the vertices.
pub(crate) fn draw_edges(
    alloc: Global,
    numbers: Numbers,
    vertices: &[DrawnVertex],
    rng: &mut SplitMix64,
) -> Result<Vec<DrawnEdge>, NoMemory>
    requires recipe { IsRecipe (recipe_of numbers) }
    requires vertices { vertices.now ≡ drawn_vertices (recipe_of numbers) }
    requires words { rng.old ≡ state_after numbers.seed (edge_words (recipe_of numbers) 0) }
    ensures { IfOk result (λ edges. edges.items ≡ drawn_edges (recipe_of numbers)) }
{
    let mut edges = Vec::with_capacity(alloc, numbers.edges as usize)?;
    for j in 0..numbers.edges {
        edges.push(draw_edge(numbers, vertices, rng))?;
    }
    Ok(edges)
}

fn draw_vertex(numbers: Numbers, rng: &mut SplitMix64) -> DrawnVertex
    requires { IsRecipe (recipe_of numbers) }
    ensures vertex { (i : ℕ) → rng.old ≡ state_after numbers.seed (vertex_words i) → result ≡ drawn_vertex (recipe_of numbers) i }
    ensures words { (i : ℕ) → rng.old ≡ state_after numbers.seed (vertex_words i)
        → rng.new ≡ state_after numbers.seed (vertex_words (i + 1)) }
{
    let middle = (numbers.horizon + 1) / 2;
    let a = next_word(rng) % middle;
    let b = middle + next_word(rng) % (numbers.horizon - middle + 1);
    let size = 100 + number_below(rng, 900);
    DrawnVertex {
        over: Span { a, b },
        size,
    }
}

fn draw_edge(numbers: Numbers, vertices: &[DrawnVertex], rng: &mut SplitMix64) -> DrawnEdge
    requires recipe { IsRecipe (recipe_of numbers) }
    requires some { 1 ≤ numbers.vertices }
    requires vertices { vertices.now ≡ drawn_vertices (recipe_of numbers) }
    ensures edge { (j : ℕ) → rng.old ≡ state_after numbers.seed (edge_words (recipe_of numbers) j)
        → result ≡ drawn_edge (recipe_of numbers) j }
    ensures words { (j : ℕ) → rng.old ≡ state_after numbers.seed (edge_words (recipe_of numbers) j)
        → rng.new ≡ state_after numbers.seed (edge_words (recipe_of numbers) (j + 1)) }
{
    let from = number_below(rng, numbers.vertices);
    let to = number_below(rng, numbers.vertices);
    let both = meet(vertices[from as usize].over, vertices[to as usize].over);
    let start = next_word(rng);
    let length = next_word(rng);
    let over = span_within(both, start, length);
    let time = 1 + number_below(rng, 4);
    let cost = number_below(rng, 10);
    DrawnEdge {
        from,
        to,
        over,
        time,
        cost,
    }
}

/// The instants of both spans.
fn meet(one: Span, other: Span) -> Span
    ensures { result ≡ meet one other }
{
    Span {
        a: one.a.max(other.a),
        b: one.b.min(other.b),
    }
}

/// The span that two words choose within one: where it begins, and how long it lasts.
fn span_within(both: Span, start: u64, length: u64) -> Span
    requires proper { both.a < both.b }
    requires last { both.b ≤ LAST }
    ensures { result ≡ span_within both start length }
{
    let a = both.a + start % (both.b - both.a);
    let b = a + 1 + length % (both.b - a);
    Span { a, b }
}

/// The next word as a number below a bound.
fn number_below(rng: &mut SplitMix64, bound: u32) -> u32
    requires { 0 < bound }
    ensures number { (seed k : ℕ) → rng.old ≡ state_after seed k → result ≡ word_at seed k % bound }
    ensures below { result < bound }
    ensures words { (seed k : ℕ) → rng.old ≡ state_after seed k → rng.new ≡ state_after seed (k + 1) }
{
    (next_word(rng) % u64::from(bound)) as u32
}

/// The next word.
fn next_word(rng: &mut SplitMix64) -> u64
    ensures word { (seed k : ℕ) → rng.old ≡ state_after seed k → result ≡ word_at seed k }
    ensures words { (seed k : ℕ) → rng.old ≡ state_after seed k → rng.new ≡ state_after seed (k + 1) }
{
    rng.next_word()
}
