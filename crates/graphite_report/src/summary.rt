//! The summary of a made graph and of the report on it.
ghost use Rattle.std.specs.Prelude.{◌≡◌, ◌<◌, ◌≤◌, ◌^◌, ◌++◌, count_by, is_some, length, OnOk, OnErr};
ghost use Rattle.std.specs.Io.KnownBytes.{Appends};
ghost use Rattle.graphite_base.specs.Causes.{Rose};
ghost use Rattle.graphite_report.specs.Given.{heading_of, values_in, AreOfVertices};
ghost use Rattle.graphite_report.specs.Report.{line_count, over_vertices, summary, valued_line_count};
ghost use Rattle.graphite_report.specs.Written.{AppendsPrefix};

use crate::buffer::send;
use crate::lines::{push_bytes_line, push_graph_line, push_lines_line, push_made_line};
use crate::{Head, ReportFault};
use graphite_base::Sink;
use graphite_graph::Graph;
use graphite_part::{Partition, Piece};
use graphite_time::NoMemory;
use std::alloc::Global;

/// The bytes for which a summary takes memory before it is made. Mostly it has fewer.
const SUMMARY: usize = 256;

/// How many lines for values there are, and how many of these have a number.
#[derive(Clone, Copy)]
struct LineCounts {
    lines: u128,
    valued: u128,
}

/// Writes the summary of a graph whose text has so many bytes: the first line, with the word `made` before
/// the program's; a line with the bytes of the text; one with the vertices, the edges and the properties
/// of the graph; and one with how many lines for values the intervals report would have, and how many of
/// these have a number. `values` are those of the vertices in order; a vertex has none where it is not
/// alive. After a fault a prefix of the summary was written.
pub fn write_summary<K: Sink>(
    alloc: Global,
    sink: &mut K,
    graph: &Graph<'_>,
    head: &Head<'_>,
    values: &[Partition<Option<u64>>],
    bytes: u64,
) -> Result<(), ReportFault>
    requires { AreOfVertices graph.now values.now }
    ensures ok { OnOk result (Appends (K.written sink.old) (K.written sink.new)
        (summary (heading_of head.now) graph.now bytes (values_in values.now))) }
    ensures err { OnErr result (AppendsPrefix (K.written sink.old) (K.written sink.new)
        (summary (heading_of head.now) graph.now bytes (values_in values.now))) }
    ensures failed { result ≡ Err ReportFault.WriteFailed → Rose (K.faults sink.old) (K.faults sink.new) }
    ensures later { K.faults sink.old ≤ K.faults sink.new }
{
    let mut buffer = Vec::with_capacity(alloc, SUMMARY)?;
    push_summary(&mut buffer, graph, head, values, bytes)?;
    send(&mut buffer, sink)?;
    Ok(())
}

/// Appends the summary.
#[tactic(auto, unfolding(crate::specs::Report::summary))]
fn push_summary(
    into: &mut Vec<u8>,
    graph: &Graph<'_>,
    head: &Head<'_>,
    values: &[Partition<Option<u64>>],
    bytes: u64,
) -> Result<(), NoMemory>
    requires { AreOfVertices graph.now values.now }
    ensures { OnOk result (into.new.items ≡ into.old.items
        ++ summary (heading_of head.now) graph.now bytes (values_in values.now)) }
{
    push_made_line(into, head)?;
    push_bytes_line(into, bytes)?;
    push_graph_line(into, graph)?;
    let counts = lines_of_all(graph, values);
    push_lines_line(into, counts.lines, counts.valued)?;
    into.extend_from_slice(b"end\n")?;
    Ok(())
}

/// The lines for the values of all vertices.
fn lines_of_all(graph: &Graph<'_>, values: &[Partition<Option<u64>>]) -> LineCounts
    requires { AreOfVertices graph.now values.now }
    ensures lines { result.lines ≡ over_vertices graph.now (λ v. line_count (values_in values.now v) graph.now.horizon) }
    ensures valued { result.valued ≡ over_vertices graph.now (λ v. valued_line_count (values_in values.now v) graph.now.horizon) }
{
    let mut counts = LineCounts {
        lines: 0,
        valued: 0,
    };
    for v in 0..graph.vertices() {
        let more = lines_of_vertex(graph, values, v);
        counts = LineCounts {
            lines: counts.lines + more.lines,
            valued: counts.valued + more.valued,
        };
    }
    counts
}

/// The lines for the values of a vertex.
fn lines_of_vertex(graph: &Graph<'_>, values: &[Partition<Option<u64>>], v: u32) -> LineCounts
    requires vertex { v < length graph.now.vertices }
    requires all { AreOfVertices graph.now values.now }
    ensures lines { result.lines ≡ line_count (values_in values.now v) graph.now.horizon }
    ensures valued { result.valued ≡ valued_line_count (values_in values.now v) graph.now.horizon }
    ensures lines_most { result.lines ≤ 2 ^ 64 }
    ensures valued_most { result.valued ≤ 2 ^ 64 }
{
    // nothing lives from the horizon on, so no run is printed from there on
    let _horizon = graph.horizon();
    let pieces = values[v as usize].pieces();
    LineCounts {
        lines: pieces.len() as u128,
        valued: valued_of(pieces) as u128,
    }
}

/// How many of these pieces have a number.
fn valued_of(pieces: &[Piece<Option<u64>>]) -> usize
    ensures { result ≡ count_by (λ piece. is_some piece.value) pieces.now }
{
    let mut valued = 0;
    for piece in pieces {
        if piece.value.is_some() {
            valued += 1;
        }
    }
    valued
}
