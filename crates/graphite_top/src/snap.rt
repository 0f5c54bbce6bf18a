//! The report of a program of snapshots.
ghost use Rattle.std.specs.Prelude.{◌≡◌, ◌≤◌, OnOk, OnErr};
ghost use Rattle.std.specs.Io.KnownBytes.{Appends};
ghost use Rattle.graphite_base.specs.Causes.{Rose};
ghost use Rattle.graphite_report.specs.Written.{AppendsPrefix};
ghost use Rattle.graphite_snap.specs.Answers.{meaning_of, IsAsked};
ghost use Rattle.graphite_top.specs.Answer.{report_answer};
ghost use Rattle.graphite_top.specs.Call.{WritesThis};
ghost use Rattle.graphite_top.specs.Output.{snap_report};

use crate::Status;
use crate::told::{Telling, write_values};
use graphite_base::Sink;
use graphite_graph::Graph;
use graphite_report::{Head, ReportFault};
use graphite_snap::{SnapQuery, run_snap};
use std::alloc::Global;

/// Runs a program and writes its report whole.
fn write_report<K: Sink>(
    alloc: Global,
    graph: &Graph<'_>,
    query: &SnapQuery,
    telling: Telling,
    sink: &mut K,
) -> Result<(), ReportFault>
    requires { IsAsked graph.now query.now }
    ensures ok { OnOk result (Appends (K.written sink.old) (K.written sink.new) (snap_report telling.report graph.now telling.word.now (meaning_of query.now) telling.steps.number)) }
    ensures err { OnErr result (AppendsPrefix (K.written sink.old) (K.written sink.new) (snap_report telling.report graph.now telling.word.now (meaning_of query.now) telling.steps.number)) }
    ensures failed { result ≡ Err ReportFault.WriteFailed → Rose (K.faults sink.old) (K.faults sink.new) }
    ensures later { K.faults sink.old ≤ K.faults sink.new }
{
    let answer = run_snap(alloc, graph, query, telling.steps.number)?;
    let head = Head {
        program: telling.word,
        steps: answer.made,
        calls: Some(answer.calls),
    };
    write_values(
        alloc,
        graph,
        &head,
        telling.report,
        &answer.values,
        &[],
        sink,
    )
}

/// Writes the report of a program of snapshots. A vertex that it starts from is one of the graph.
pub fn write_snap<K: Sink>(
    alloc: Global,
    graph: &Graph<'_>,
    query: &SnapQuery,
    telling: Telling,
    sink: &mut K,
) -> Status
    requires { IsAsked graph.now query.now }
    ensures writes { WritesThis result (report_answer (snap_report telling.report graph.now telling.word.now (meaning_of query.now) telling.steps.number)) (K.written sink.old) (K.written sink.new) (K.faults sink.old) (K.faults sink.new) }
    ensures later { K.faults sink.old ≤ K.faults sink.new }
{
    match write_report(alloc, graph, query, telling, sink) {
        Ok(()) => Status::Done,
        Err(ReportFault::WriteFailed) => Status::WriteFault,
        Err(ReportFault::NoMemory) => Status::NoMemory,
    }
}
