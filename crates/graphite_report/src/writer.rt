//! The writers of reports.
ghost use Rattle.std.specs.Prelude.{◌≡◌, ◌++◌, ◌+◌, ◌<◌, ◌≤◌, [], length, OnOk, OnErr};
ghost use Rattle.std.specs.Io.KnownBytes.{Appends};
ghost use Rattle.graphite_base.specs.Causes.{Rose};
ghost use Rattle.graphite_report.specs.Given.{AreOfVertices, durations_in, heading_of, values_in};
ghost use Rattle.graphite_report.specs.Lines.{lines_from, report_in};
ghost use Rattle.graphite_report.specs.Report.{instant_report, intervals_report, sums_report};
ghost use Rattle.graphite_report.specs.Through.{Through};
ghost use Rattle.graphite_report.specs.Written.{AppendsPrefix};

use crate::buffer::{PIECE, send, send_full};
use crate::form::Form;
use crate::lines::{push_duration, push_first_line, push_instant, push_runs, push_totals};
use crate::sums::totals_of;
use crate::{Head, ReportFault};
use graphite_api::Duration;
use graphite_base::Sink;
use graphite_graph::Graph;
use graphite_part::Partition;
use graphite_time::NoMemory;
use std::alloc::Global;

/// Writes the intervals report: for each vertex a line for each maximal interval on which its value is
/// the same, and then, where it has an entry in `durations`, a line with its duration (how long, from when
/// and until when, in instants) or `none`. `values` and `durations` are those of the vertices in order; a
/// vertex has no value where it is not alive, and `durations` may be shorter, as where it is empty. After
/// a fault a prefix of the report was written.
#[tactic(auto, unfolding(crate::specs::Lines::report_in, crate::specs::Report::intervals_report))]
pub fn write_intervals<K: Sink>(
    alloc: Global,
    sink: &mut K,
    graph: &Graph<'_>,
    head: &Head<'_>,
    values: &[Partition<Option<u64>>],
    durations: &[Option<Duration>],
) -> Result<(), ReportFault>
    requires { AreOfVertices graph.now values.now }
    ensures ok { OnOk result (Appends (K.written sink.old) (K.written sink.new)
        (intervals_report (heading_of head.now) graph.now (values_in values.now) (durations_in durations.now))) }
    ensures err { OnErr result (AppendsPrefix (K.written sink.old) (K.written sink.new)
        (intervals_report (heading_of head.now) graph.now (values_in values.now) (durations_in durations.now))) }
    ensures failed { result ≡ Err ReportFault.WriteFailed → Rose (K.faults sink.old) (K.faults sink.new) }
    ensures later { K.faults sink.old ≤ K.faults sink.new }
{
    write_report(alloc, sink, graph, head, values, Form::Intervals(durations))
}

/// Writes the report of an instant: for each vertex that is alive at it a line with its value. `values`
/// are those of the vertices in order; a vertex has none where it is not alive. After a fault a prefix of
/// the report was written.
#[tactic(auto, unfolding(crate::specs::Lines::report_in, crate::specs::Report::instant_report))]
pub fn write_instant<K: Sink>(
    alloc: Global,
    sink: &mut K,
    graph: &Graph<'_>,
    head: &Head<'_>,
    values: &[Partition<Option<u64>>],
    t: u64,
) -> Result<(), ReportFault>
    requires { AreOfVertices graph.now values.now }
    ensures ok { OnOk result (Appends (K.written sink.old) (K.written sink.new)
        (instant_report (heading_of head.now) graph.now (values_in values.now) t)) }
    ensures err { OnErr result (AppendsPrefix (K.written sink.old) (K.written sink.new)
        (instant_report (heading_of head.now) graph.now (values_in values.now) t)) }
    ensures failed { result ≡ Err ReportFault.WriteFailed → Rose (K.faults sink.old) (K.faults sink.new) }
    ensures later { K.faults sink.old ≤ K.faults sink.new }
{
    write_report(alloc, sink, graph, head, values, Form::Instant(t))
}

/// Writes the report of the sums: for each vertex a line with the number of instants at which it is
/// alive, the number of those at which it has a number, and the sum of its numbers over these. `values`
/// are those of the vertices in order; a vertex has none where it is not alive. After a fault a prefix of
/// the report was written.
#[tactic(auto, unfolding(crate::specs::Lines::report_in, crate::specs::Report::sums_report))]
pub fn write_sums<K: Sink>(
    alloc: Global,
    sink: &mut K,
    graph: &Graph<'_>,
    head: &Head<'_>,
    values: &[Partition<Option<u64>>],
) -> Result<(), ReportFault>
    requires { AreOfVertices graph.now values.now }
    ensures ok { OnOk result (Appends (K.written sink.old) (K.written sink.new)
        (sums_report (heading_of head.now) graph.now (values_in values.now))) }
    ensures err { OnErr result (AppendsPrefix (K.written sink.old) (K.written sink.new)
        (sums_report (heading_of head.now) graph.now (values_in values.now))) }
    ensures failed { result ≡ Err ReportFault.WriteFailed → Rose (K.faults sink.old) (K.faults sink.new) }
    ensures later { K.faults sink.old ≤ K.faults sink.new }
{
    write_report(alloc, sink, graph, head, values, Form::Sums)
}

/// Writes a report of any form.
fn write_report<K: Sink>(
    alloc: Global,
    sink: &mut K,
    graph: &Graph<'_>,
    head: &Head<'_>,
    values: &[Partition<Option<u64>>],
    form: Form<'_>,
) -> Result<(), ReportFault>
    requires { AreOfVertices graph.now values.now }
    ensures ok { OnOk result (Appends (K.written sink.old) (K.written sink.new)
        (report_in form.entry (heading_of head.now) graph.now (values_in values.now))) }
    ensures err { OnErr result (AppendsPrefix (K.written sink.old) (K.written sink.new)
        (report_in form.entry (heading_of head.now) graph.now (values_in values.now))) }
    ensures failed { result ≡ Err ReportFault.WriteFailed → Rose (K.faults sink.old) (K.faults sink.new) }
    ensures later { K.faults sink.old ≤ K.faults sink.new }
{
    let mut buffer = Vec::with_capacity(alloc, 2 * PIECE)?;
    push_first_line(&mut buffer, head)?;
    write_vertices(graph, values, form, &mut buffer, sink)?;
    buffer.extend_from_slice(b"end\n")?;
    send(&mut buffer, sink)?;
    Ok(())
}

/// Writes the lines of all vertices through the buffer.
fn write_vertices<K: Sink>(
    graph: &Graph<'_>,
    values: &[Partition<Option<u64>>],
    form: Form<'_>,
    buffer: &mut Vec<u8>,
    sink: &mut K,
) -> Result<(), ReportFault>
    requires { AreOfVertices graph.now values.now }
    ensures ok { OnOk result (Through (K.written sink.old) (K.written sink.new) buffer.new.items []
        (buffer.old.items ++ lines_from form.entry graph.now (values_in values.now) 0)) }
    ensures err { OnErr result (AppendsPrefix (K.written sink.old) (K.written sink.new)
        (buffer.old.items ++ lines_from form.entry graph.now (values_in values.now) 0)) }
    ensures failed { result ≡ Err ReportFault.WriteFailed → Rose (K.faults sink.old) (K.faults sink.new) }
    ensures later { K.faults sink.old ≤ K.faults sink.new }
{
    for v in 0..graph.vertices() {
        push_vertex(graph, v, values, form, buffer)?;
        send_full(buffer, sink)?;
    }
    Ok(())
}

/// What is said of the duration of a vertex: its entry, if there is one.
pub fn duration_of(durations: &[Option<Duration>], v: u32) -> Option<Option<Duration>>
    ensures { result ≡ durations_in durations.now v }
{
    durations.get(v as usize).copied()
}

/// Appends the lines of a vertex.
fn push_vertex(
    graph: &Graph<'_>,
    v: u32,
    values: &[Partition<Option<u64>>],
    form: Form<'_>,
    into: &mut Vec<u8>,
) -> Result<(), NoMemory>
    requires vertex { v < length graph.now.vertices }
    requires all { AreOfVertices graph.now values.now }
    ensures { OnOk result (into.new.items ++ lines_from form.entry graph.now (values_in values.now) (v + 1)
        ≡ into.old.items ++ lines_from form.entry graph.now (values_in values.now) v) }
{
    // nothing lives from the horizon on, so no value is printed from there on
    let _horizon = graph.horizon();
    let name = graph.vertex_name(v);
    let of_vertex = &values[v as usize];
    match form {
        Form::Intervals(durations) => {
            push_runs(into, name, of_vertex.pieces())?;
            push_duration(into, name, duration_of(durations, v))?;
        }
        Form::Instant(t) => push_instant(into, name, of_vertex, t)?,
        Form::Sums => push_totals(into, name, totals_of(of_vertex.pieces()))?,
    }
    Ok(())
}
