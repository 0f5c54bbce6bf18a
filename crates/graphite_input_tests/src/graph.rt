//! Tests on texts that are read and graphs that are shown.
use graphite_base::Bytes;
use graphite_graph::{Ask, Ends, Facts, Graph, LoadFault, load};
use graphite_part::Partition;
use graphite_time::{Life, NoMemory};
use std::alloc::{AllocError, Global};
use std::process::Abort;
use std::test::Fail;

/// Three vertices, of which one lives shorter, and two edges.
const STOPS: &[u8] = b"graph 1 10\nv a 0 10\nv b 0 10\nv c 2 8\ne ab a b 0 5\ne bc b c 3 7\nend\n";

/// Two stops and a bus, with comments and out of the canonical order.
fn bus() -> &'static [u8] {
    b"# bus\ngraph 1 10\n\nv a 0 10\npv a load 0 4 7\nv b 0 10\ne ab a b 0 5\npe ab cost 0 5 3\npv b load 2 6 3\nend\n# done\n"
}

/// The canonical text of two stops and a bus.
fn canonical_bus() -> &'static [u8] {
    b"graph 1 10\nv a 0 10\nv b 0 10\ne ab a b 0 5\npv a load 0 4 7\npv b load 2 6 3\npe ab cost 0 5 3\nend\n"
}

/// The horizon, and how many vertices, edges and lifespans there are.
fn counts(graph: &Graph<'_>) -> (u64, u32, u32, u32) {
    (
        graph.horizon(),
        graph.vertices(),
        graph.edges(),
        graph.lifespans(),
    )
}

/// The start and the end of the first lifespan.
fn first_span(life: &Life) -> Option<(u64, u64)> {
    let over = life.spans().first()?;
    Some((over.a(), over.b()))
}

fn assert_vertex(rt: &impl Abort, graph: &Graph<'_>) {
    assert_eq!(rt; graph.find_vertex(b"bc"), None);
    assert_eq!(rt; graph.find_vertex(b"c"), Some(2));
    assert!(rt; graph.vertices() > 2);
    assert_eq!(rt; graph.vertex_name(2), b"c".as_slice());
    assert_eq!(rt; first_span(graph.vertex_life(2)), Some((2, 8)));
}

fn assert_edge(rt: &impl Abort, graph: &Graph<'_>) {
    assert_eq!(rt; graph.find_edge(b"b"), None);
    assert_eq!(rt; graph.find_edge(b"bc"), Some(1));
    assert!(rt; graph.edges() > 1);
    assert_eq!(rt; graph.edge_name(1), b"bc".as_slice());
    assert_eq!(rt; first_span(graph.edge_life(1)), Some((3, 7)));
    assert_eq!(rt; graph.ends(1), Ends { from: 1, to: 2 });
}

#[test]
fn three_stops_are_loaded(rt: HostRuntime) -> Result<(), Fail> {
    let graph = load(rt.alloc(), STOPS)?;
    assert_eq!(rt; counts(&graph), (10, 3, 2, 3));
    assert_vertex(&rt, &graph);
    assert_edge(&rt, &graph);
    Ok(())
}

/// The pieces of a vertex's facts: start, end and out-degree.
fn assert_outdegrees(rt: &impl Abort, facts: &Partition<Facts>, expected: &[(u64, u64, u32)]) {
    let pieces = facts.pieces();
    assert_eq!(rt; pieces.len(), expected.len());
    for (piece, (a, b, outdegree)) in pieces.iter().zip(expected) {
        assert_eq!(rt; (piece.over.a(), piece.over.b()), (*a, *b));
        assert_eq!(rt; piece.value.outdegree, *outdegree);
    }
}

fn assert_facts(rt: &impl Abort, facts: &[Partition<Facts>]) {
    assert_eq!(rt; facts.len(), 3);
    assert_outdegrees(rt, &facts[0], &[(0, 5, 1), (5, 10, 0)]);
    assert_outdegrees(rt, &facts[1], &[(0, 3, 0), (3, 7, 1), (7, 10, 0)]);
    assert_outdegrees(rt, &facts[2], &[(2, 8, 0)]);
    let last = Facts {
        vertex: 2,
        outdegree: 0,
        n: 0,
        prop: None,
    };
    assert_eq!(rt; facts[2].at(2), Some(last));
}

/// The facts where out-degrees are asked.
fn degrees_of(graph: &Graph<'_>) -> Result<Vec<Partition<Facts>>, NoMemory> {
    graph.facts(&Ask {
        outdegree: true,
        n: false,
        key: None,
    })
}

/// The number of each vertex over its life.
fn numbers_of(graph: &Graph<'_>) -> Result<Vec<Partition<u32>>, NoMemory> {
    let none = Ask {
        outdegree: false,
        n: false,
        key: None,
    };
    graph.map_facts(&none, &|facts: Facts| { facts.vertex })
}

fn assert_numbers(rt: &impl Abort, numbers: &[Partition<u32>]) {
    assert_eq!(rt; numbers.len(), 3);
    assert_eq!(rt; numbers[2].at(2), Some(2));
    assert_eq!(rt; numbers[2].at(8), None);
}

#[test]
fn facts_change_where_an_edge_begins_or_ends(rt: HostRuntime) -> Result<(), Fail> {
    let graph = load(rt.alloc(), STOPS)?;
    assert_facts(&rt, &degrees_of(&graph)?);
    assert_numbers(&rt, &numbers_of(&graph)?);
    Ok(())
}

/// The facts where out-degrees and the number alive are asked.
fn counted_facts_of(graph: &Graph<'_>) -> Result<Vec<Partition<Facts>>, NoMemory> {
    graph.facts(&Ask {
        outdegree: true,
        n: true,
        key: None,
    })
}

fn assert_counted(rt: &impl Abort, facts: &Partition<Facts>) {
    let pieces = facts.pieces();
    assert_eq!(rt; pieces.len(), 1);
    let last = Facts {
        vertex: 2,
        outdegree: 0,
        n: 3,
        prop: None,
    };
    assert_eq!(rt; (pieces[0].over.a(), pieces[0].over.b()), (2, 8));
    assert_eq!(rt; pieces[0].value, last);
}

#[test]
fn facts_have_the_number_alive(rt: HostRuntime) -> Result<(), Fail> {
    let graph = load(rt.alloc(), STOPS)?;
    let facts = counted_facts_of(&graph)?;
    assert_eq!(rt; facts.len(), 3);
    assert_counted(&rt, &facts[2]);
    Ok(())
}

/// The facts where the property `load` is asked, and nothing else.
fn loads_of(alloc: Global, graph: &Graph<'_>) -> Result<Vec<Partition<Facts>>, NoMemory> {
    let key = Bytes::from_slice(alloc, b"load")?;
    graph.facts(&Ask {
        outdegree: false,
        n: false,
        key: Some(key),
    })
}

/// The pieces of a vertex's facts: start, end and value of the property.
fn assert_loads(rt: &impl Abort, facts: &Partition<Facts>, expected: &[(u64, u64, Option<u32>)]) {
    let pieces = facts.pieces();
    assert_eq!(rt; pieces.len(), expected.len());
    for (piece, (a, b, prop)) in pieces.iter().zip(expected) {
        assert_eq!(rt; (piece.over.a(), piece.over.b()), (*a, *b));
        assert_eq!(rt; piece.value.prop, *prop);
    }
}

#[test]
fn facts_have_the_value_of_a_property(rt: HostRuntime) -> Result<(), Fail> {
    let graph = load(rt.alloc(), bus())?;
    let facts = loads_of(rt.alloc(), &graph)?;
    assert_eq!(rt; facts.len(), 2);
    assert_loads(&rt, &facts[0], &[(0, 4, Some(7)), (4, 10, None)]);
    Ok(())
}

fn fault_of(alloc: Global, text: &[u8]) -> Option<LoadFault> {
    load(alloc, text).err()
}

/// Texts with the line and the rule of their refusals.
fn refused_texts() -> [(&'static [u8], u32, u8); 8] {
    [
        (b"", 1, 14),
        (b"graph 2 10\nend\n", 1, 2),
        (b"# none\nv a 0 1\nend\n", 2, 2),
        (
            b"graph 1 10\nv a 0 10\nv b 0 10\nv c 2 8\ne ac a c 0 5\ne bc b c 3 7\nend\n",
            5,
            9,
        ),
        (
            b"graph 1 10\nv a 0 10\nv b 0 10\nv c 2 8\ne ac a c 0 12\ne bc b c 3 7\nend\n",
            5,
            6,
        ),
        (
            b"graph 1 10\nv a 0 10\nv b 0 10\nv c 2 8\ne ab a b 0 5\ne bc b c 3 7\n",
            7,
            14,
        ),
        (
            b"graph 1 10\nv a 0 10\nv b 0 10\nv c 2 8\ne ab a b 0 5\ne bc b c 3 7\nend\nv d 0 1\n",
            8,
            15,
        ),
        (
            b"graph 1 10\nv a 0 10\nv b 0 10\nv c 2 8\ne ab a b 0 5\ne bc b c 3",
            6,
            1,
        ),
    ]
}

#[test]
fn refused_texts_name_the_line_and_the_least_rule(rt: HostRuntime) {
    for (text, line, rule) in refused_texts() {
        assert_eq!(rt;
            fault_of(rt.alloc(), text),
            Some(LoadFault::Rule { line, rule })
        );
    }
}

/// The fault of the text of three stops with a line put in before its end, as line 7.
fn fault_with(alloc: Global, line: &[u8]) -> Result<Option<LoadFault>, AllocError> {
    let mut text = Vec::new(alloc);
    text.extend_from_slice(
        b"graph 1 10\nv a 0 10\nv b 0 10\nv c 2 8\ne ab a b 0 5\ne bc b c 3 7\n",
    )?;
    text.extend_from_slice(line)?;
    text.extend_from_slice(b"\nend\n")?;
    Ok(fault_of(alloc, &text))
}

/// Lines put in as line 7, with the line and the rule of their refusals.
fn refused_lines() -> [(&'static [u8], u32, u8); 20] {
    [
        (b"v  d 0 1", 7, 1),
        (b"v d 0 1 ", 7, 1),
        (b"graph 1 10", 7, 2),
        (b"x d 0 1", 7, 3),
        (b"v d 0", 7, 3),
        (b"v d! 0 1", 7, 4),
        (b"v d 0 01", 7, 5),
        (b"v d 0 17592186044417", 7, 5),
        (b"pv a k 0 1 4294967296", 7, 5),
        (b"v d 1 1", 7, 6),
        (b"v a 0 11", 7, 6),
        (b"v a 0 1", 7, 7),
        (b"e ab a b 0 1", 7, 7),
        (b"e x a z 0 1", 7, 8),
        (b"pv z k 0 1 1", 7, 8),
        (b"e x a c 0 3", 7, 9),
        (b"pe ab k 0 6 1", 7, 10),
        (b"pe ab time 0 6 0", 7, 10),
        (b"pe ab time 0 5 0", 7, 12),
        (b"pv a k 0 4 7\npv a k 3 5 7", 8, 11),
    ]
}

#[test]
fn refused_lines_name_the_least_rule(rt: HostRuntime) -> Result<(), Fail> {
    for (text, line, rule) in refused_lines() {
        assert_eq!(rt;
            fault_with(rt.alloc(), text)?,
            Some(LoadFault::Rule { line, rule })
        );
    }
    Ok(())
}

/// The canonical text behind what was there.
fn shown_behind(alloc: Global, before: &[u8], graph: &Graph<'_>) -> Result<Vec<u8>, NoMemory> {
    let mut text = Vec::new(alloc);
    text.extend_from_slice(before)?;
    graph.show(&mut text)?;
    Ok(text)
}

fn assert_shown(rt: &impl Abort, alloc: Global, graph: &Graph<'_>) -> Result<(), NoMemory> {
    let text = shown_behind(alloc, b"", graph)?;
    assert_eq!(rt; text.as_slice(), canonical_bus());
    let twice = shown_behind(alloc, &text, graph)?;
    assert_eq!(rt; twice.len(), 2 * canonical_bus().len());
    assert!(rt; twice.starts_with(&text));
    assert!(rt; twice.ends_with(&text));
    Ok(())
}

/// How many properties the vertices have, and the edges.
fn property_counts(graph: &Graph<'_>) -> (usize, usize) {
    (
        graph.vertex_props().rows().len(),
        graph.edge_props().rows().len(),
    )
}

#[test]
fn the_canonical_text_is_shown_behind_what_was_there(rt: HostRuntime) -> Result<(), Fail> {
    let graph = load(rt.alloc(), bus())?;
    assert_eq!(rt; property_counts(&graph), (2, 1));
    assert_shown(&rt, rt.alloc(), &graph)?;
    Ok(())
}
