//! What is told of a program, and the report of its values.
ghost use Rattle.std.specs.Prelude.{◌≡◌, ◌≤◌, OnOk, OnErr};
ghost use Rattle.std.specs.Io.KnownBytes.{Appends};
ghost use Rattle.graphite_base.specs.Causes.{Rose};
ghost use Rattle.graphite_report.specs.Given.{durations_in, heading_of, values_in, AreOfVertices};
ghost use Rattle.graphite_report.specs.Written.{AppendsPrefix};
ghost use Rattle.graphite_top.specs.Answer.{path_heading, report_text};
ghost use Rattle.graphite_top.specs.Found.{status_of};

use crate::Status;
use graphite_api::Duration;
use graphite_base::Sink;
use graphite_graph::Graph;
use graphite_part::Partition;
use graphite_paths::PathAnswer;
use graphite_report::{
    Head, ReportFault, write_instant, write_intervals, write_summary, write_sums,
};
use graphite_words::{Report, Steps};
use std::alloc::Global;

/// Whose written journeys are told.
#[derive(Clone, Copy, Debug, PartialEq, Eq)]
pub enum Whose {
    /// Those of all vertices, at the start of each line that has a value.
    All,
    /// That of a vertex, by its number, at an instant.
    One(u32, u64),
}

/// What is to be told of a program: the word that names it, how many supersteps it is allowed, the kind of report, and whose
/// written journeys, if any.
#[derive(Clone, Copy, Debug, PartialEq, Eq)]
pub struct Telling {
    pub word: &'static [u8],
    pub steps: Steps,
    pub report: Report,
    pub journeys: Option<Whose>,
}

/// Writes a report of this kind of the values of a graph's vertices, and of their durations where there are some.
pub fn write_values<K: Sink>(
    alloc: Global,
    graph: &Graph<'_>,
    head: &Head<'_>,
    report: Report,
    values: &[Partition<Option<u64>>],
    durations: &[Option<Duration>],
    sink: &mut K,
) -> Result<(), ReportFault>
    requires { AreOfVertices graph.now values.now }
    ensures ok { OnOk result (Appends (K.written sink.old) (K.written sink.new) (report_text report (heading_of head.now) graph.now (values_in values.now) (durations_in durations.now))) }
    ensures err { OnErr result (AppendsPrefix (K.written sink.old) (K.written sink.new) (report_text report (heading_of head.now) graph.now (values_in values.now) (durations_in durations.now))) }
    ensures failed { result ≡ Err ReportFault.WriteFailed → Rose (K.faults sink.old) (K.faults sink.new) }
    ensures later { K.faults sink.old ≤ K.faults sink.new }
{
    match report {
        Report::Intervals | Report::Paths => write_intervals(
            alloc, sink, graph, head, values, durations,
        ),
        Report::Sums => write_sums(alloc, sink, graph, head, values),
        Report::At(t) | Report::PathAt(t) => write_instant(alloc, sink, graph, head, values, t),
        Report::Summary(bytes) => write_summary(alloc, sink, graph, head, values, bytes),
    }
}

/// What the first line of the report of a program of journeys says.
pub fn head_of(answer: &PathAnswer, telling: Telling) -> Head<'static>
    ensures { heading_of result ≡ path_heading telling.word.now answer.now.made }
{
    Head {
        program: telling.word,
        steps: answer.made,
        calls: None,
    }
}

/// The status of a call that has written a report, or not.
pub fn status_of(written: Result<(), ReportFault>) -> Status
    ensures { result ≡ status_of written }
{
    match written {
        Ok(()) => Status::Done,
        Err(ReportFault::WriteFailed) => Status::WriteFault,
        Err(ReportFault::NoMemory) => Status::NoMemory,
    }
}
