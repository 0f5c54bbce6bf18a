//! The lines of a made graph, in the order of a canonical text.
ghost use Rattle.std.specs.Prelude.{◌≡◌, ◌++◌, ◌≤◌, OnOk};
ghost use Rattle.graphite_text.specs.Canonical.{canonical_text, form_line};
ghost use Rattle.graphite_text.specs.Forms.{EdgeProperty};
ghost use Rattle.graphite_gen.specs.Drawn.{drawn_edges, drawn_vertices, edge_line, edge_lines, recipe_of, size_line, travel_lines, vertex_line, vertex_lines};
ghost use Rattle.graphite_gen.specs.Made.{made_graph, numbered, IsRecipe};

use crate::draw::{DrawnEdge, DrawnVertex, Numbers};
use graphite_base::push_number;
use graphite_text::{Record, Span, push_record};
use graphite_time::NoMemory;
use std::alloc::Global;

/// The bytes that the text has at most: no name and no instant has more digits than the greatest of them.
pub(crate) fn most_bytes(numbers: Numbers) -> usize
    requires { IsRecipe (recipe_of numbers) }
{
    let instant = digits_of(numbers.horizon);
    let vertex = 1 + digits_of(u64::from(numbers.vertices));
    let edge = 1 + digits_of(u64::from(numbers.edges));
    let of_vertex = 2 * vertex + 4 * instant + 20;
    let of_edge = 3 * edge + 2 * vertex + 6 * instant + 33;
    13 + instant + numbers.vertices as usize * of_vertex + numbers.edges as usize * of_edge
}

/// How many digits a number has.
fn digits_of(number: u64) -> usize
    ensures { result ≤ 20 }
{
    match number.checked_ilog10() {
        Some(power) => power as usize + 1,
        None => 1,
    }
}

/// Appends the whole text.
pub(crate) fn push_text(
    alloc: Global,
    into: &mut Vec<u8>,
    numbers: Numbers,
    vertices: &[DrawnVertex],
    edges: &[DrawnEdge],
) -> Result<(), NoMemory>
    requires recipe { IsRecipe (recipe_of numbers) }
    requires vertices { vertices.now ≡ drawn_vertices (recipe_of numbers) }
    requires edges { edges.now ≡ drawn_edges (recipe_of numbers) }
    ensures { OnOk result (into.new.items ≡ into.old.items ++ canonical_text (made_graph (recipe_of numbers))) }
{
    let horizon = numbers.horizon;
    push_record(
        into,
        Record::Graph {
            version: 1,
            horizon,
        },
    )?;
    push_vertices(alloc, into, numbers, vertices)?;
    push_edges(alloc, into, numbers, edges)?;
    push_sizes(alloc, into, numbers, vertices)?;
    push_travel(alloc, into, numbers, edges)?;
    push_record(into, Record::End)?;
    Ok(())
}

/// Appends the lines of the vertices.
fn push_vertices(
    alloc: Global,
    into: &mut Vec<u8>,
    numbers: Numbers,
    vertices: &[DrawnVertex],
) -> Result<(), NoMemory>
    requires { vertices.now ≡ drawn_vertices (recipe_of numbers) }
    ensures { OnOk result (into.new.items ≡ into.old.items ++ vertex_lines vertex_line (recipe_of numbers) numbers.vertices) }
{
    let mut name = Vec::new(alloc);
    for i in 0..numbers.vertices {
        push_vertex(into, &mut name, i, vertices[i as usize])?;
    }
    Ok(())
}

/// Appends the lines of the edges.
fn push_edges(
    alloc: Global,
    into: &mut Vec<u8>,
    numbers: Numbers,
    edges: &[DrawnEdge],
) -> Result<(), NoMemory>
    requires { edges.now ≡ drawn_edges (recipe_of numbers) }
    ensures { OnOk result (into.new.items ≡ into.old.items ++ edge_lines edge_line (recipe_of numbers) numbers.edges) }
{
    let mut name = Vec::new(alloc);
    let mut from = Vec::new(alloc);
    let mut to = Vec::new(alloc);
    for j in 0..numbers.edges {
        push_edge(into, &mut name, &mut from, &mut to, j, edges[j as usize])?;
    }
    Ok(())
}

/// Appends the lines of the sizes of the vertices.
fn push_sizes(
    alloc: Global,
    into: &mut Vec<u8>,
    numbers: Numbers,
    vertices: &[DrawnVertex],
) -> Result<(), NoMemory>
    requires { vertices.now ≡ drawn_vertices (recipe_of numbers) }
    ensures { OnOk result (into.new.items ≡ into.old.items ++ vertex_lines size_line (recipe_of numbers) numbers.vertices) }
{
    let mut name = Vec::new(alloc);
    for i in 0..numbers.vertices {
        push_size(into, &mut name, i, vertices[i as usize])?;
    }
    Ok(())
}

/// Appends the lines of the time and the cost of each edge.
fn push_travel(
    alloc: Global,
    into: &mut Vec<u8>,
    numbers: Numbers,
    edges: &[DrawnEdge],
) -> Result<(), NoMemory>
    requires { edges.now ≡ drawn_edges (recipe_of numbers) }
    ensures { OnOk result (into.new.items ≡ into.old.items ++ edge_lines travel_lines (recipe_of numbers) numbers.edges) }
{
    let mut name = Vec::new(alloc);
    for j in 0..numbers.edges {
        push_time_and_cost(into, &mut name, j, edges[j as usize])?;
    }
    Ok(())
}

// The names of a line are written into memory that is used again.

#[tactic(auto, unfolding(crate::specs::Drawn::vertex_line))]
fn push_vertex(
    into: &mut Vec<u8>,
    name: &mut Vec<u8>,
    i: u32,
    vertex: DrawnVertex,
) -> Result<(), NoMemory>
    ensures { OnOk result (into.new.items ≡ into.old.items ++ vertex_line i vertex) }
{
    write_name(name, b"v", i)?;
    let over = vertex.over;
    push_record(into, Record::Vertex { name, over })
}

#[tactic(auto, unfolding(crate::specs::Drawn::edge_line))]
fn push_edge(
    into: &mut Vec<u8>,
    name: &mut Vec<u8>,
    from: &mut Vec<u8>,
    to: &mut Vec<u8>,
    j: u32,
    edge: DrawnEdge,
) -> Result<(), NoMemory>
    ensures { OnOk result (into.new.items ≡ into.old.items ++ edge_line j edge) }
{
    write_name(name, b"e", j)?;
    write_name(from, b"v", edge.from)?;
    write_name(to, b"v", edge.to)?;
    let over = edge.over;
    push_record(
        into,
        Record::Edge {
            name,
            from,
            to,
            over,
        },
    )
}

#[tactic(auto, unfolding(crate::specs::Drawn::size_line))]
fn push_size(
    into: &mut Vec<u8>,
    name: &mut Vec<u8>,
    i: u32,
    vertex: DrawnVertex,
) -> Result<(), NoMemory>
    ensures { OnOk result (into.new.items ≡ into.old.items ++ size_line i vertex) }
{
    write_name(name, b"v", i)?;
    push_record(
        into,
        Record::VertexProp {
            owner: name,
            key: b"size",
            over: vertex.over,
            value: vertex.size,
        },
    )
}

#[tactic(auto, unfolding(crate::specs::Drawn::travel_lines))]
fn push_time_and_cost(
    into: &mut Vec<u8>,
    name: &mut Vec<u8>,
    j: u32,
    edge: DrawnEdge,
) -> Result<(), NoMemory>
    ensures { OnOk result (into.new.items ≡ into.old.items ++ travel_lines j edge) }
{
    write_name(name, b"e", j)?;
    push_edge_property(into, name, b"time", edge.over, edge.time)?;
    push_edge_property(into, name, b"cost", edge.over, edge.cost)
}

fn push_edge_property(
    into: &mut Vec<u8>,
    owner: &[u8],
    key: &[u8],
    over: Span,
    value: u32,
) -> Result<(), NoMemory>
    ensures { OnOk result (into.new.items ≡ into.old.items ++ form_line (EdgeProperty owner.now key.now over value)) }
{
    push_record(
        into,
        Record::EdgeProp {
            owner,
            key,
            over,
            value,
        },
    )
}

/// Writes a name of a letter and a number, in place of what stood there.
fn write_name(name: &mut Vec<u8>, letter: &[u8], number: u32) -> Result<(), NoMemory>
    ensures { OnOk result (name.new.items ≡ numbered letter.now number) }
{
    name.clear();
    name.extend_from_slice(letter)?;
    push_number(name, u128::from(number))
}
