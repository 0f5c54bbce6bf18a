//! The report of written journeys.
ghost use Rattle.std.specs.Prelude.{◌≡◌, ◌≢◌, ◌<◌, ◌≤◌, ℕ, List, All, Some, length, OnOk, OnErr};
ghost use Rattle.std.specs.Io.KnownBytes.{Appends};
ghost use Rattle.graphite_api.specs.Table.{vertex_is_alive as is_alive_in};
ghost use Rattle.graphite_api.specs.TableHops.{IsHopOn};
ghost use Rattle.graphite_base.specs.Causes.{Rose};
ghost use Rattle.graphite_report.specs.Given.{durations_in, heading_of, values_in, AreOfVertices, TellsSteps};
ghost use Rattle.graphite_report.specs.Written.{AppendsPrefix};
ghost use Rattle.graphite_words.specs.declared.query.Report.{Report};
ghost use Rattle.graphite_top.specs.Call.{Writes};
ghost use Rattle.graphite_top.specs.Found.{IsFound};
ghost use Rattle.graphite_top.specs.Journeys.{journeys_text};
ghost use Rattle.graphite_top.specs.Output.{IsToldIn, OfJourneys};
ghost use Rattle.graphite_witness.specs.declared.step.Step.{Step};
ghost use Rattle.graphite_witness.specs.Answered.{IsAnswered};

use crate::Status;
use crate::told::{Telling, Whose, head_of, status_of};
use graphite_api::{Duration, PathQuery};
use graphite_base::Sink;
use graphite_graph::Graph;
use graphite_hops::journey_arcs;
use graphite_paths::PathAnswer;
use graphite_report::{Head, ReportFault, write_one_path, write_paths};
use graphite_witness::Answered;
use std::alloc::Global;

/// Writes the report of the values that were found, with the written journeys of all vertices, or of one alone.
pub(crate) fn write_journeys<K: Sink>(
    alloc: Global,
    graph: &Graph<'_>,
    query: &PathQuery,
    answer: &PathAnswer,
    telling: Telling,
    whose: Whose,
    sink: &mut K,
) -> Status
    requires found { IsFound (record { graph = graph.now; query = query.now; report = telling.report; journeys = telling.journeys; word = telling.word.now; steps = telling.steps.number }) answer.now.values.items answer.now.durations.items answer.now.made }
    requires whose { telling.journeys ≡ Some whose }
    requires told { IsToldIn graph.now (Some whose) }
    ensures writes { Writes result (OfJourneys (record { graph = graph.now; query = query.now; report = telling.report; journeys = telling.journeys; word = telling.word.now; steps = telling.steps.number })) (K.written sink.old) (K.written sink.new) (K.faults sink.old) (K.faults sink.new) }
    ensures accepted { result ≢ Status.QueryRefused }
    ensures settled { result ≢ Status.Budget }
    ensures later { K.faults sink.old ≤ K.faults sink.new }
{
    let Ok(table) = journey_arcs(alloc, graph) else {
        return Status::NoMemory;
    };
    // what the table keeps
    let _arcs = table.arcs();
    let answered = Answered {
        table: &table,
        query: *query,
        values: &answer.values,
    };
    let head = head_of(answer, telling);
    let written = write_told(
        alloc,
        graph,
        &head,
        &answered,
        &answer.durations,
        whose,
        sink,
    );
    status_of(written)
}

/// Writes the report with the written journeys of all vertices, or of one alone.
fn write_told<K: Sink>(
    alloc: Global,
    graph: &Graph<'_>,
    head: &Head<'_>,
    answered: &Answered<'_>,
    durations: &[Option<Duration>],
    whose: Whose,
    sink: &mut K,
) -> Result<(), ReportFault>
    requires told { IsToldIn graph.now (Some whose) }
    requires all { AreOfVertices graph.now answered.now.values.now }
    requires answered { IsAnswered answered.now.table.now.lives answered.now.table.now.arcs answered.now.query answered.now.values.now }
    requires lives { length answered.now.table.now.lives ≡ length graph.now.vertices }
    requires edges { All (λ arc. arc.edge < length graph.now.edges) answered.now.table.now.arcs }
    ensures ok { (report : Report) (steps : ℕ → ℕ → List Step)
        → TellsSteps (is_alive_in answered.now.table.now.lives) (IsHopOn answered.now.table.now.arcs) answered.now.query answered.now.values.now steps
        → OnOk result (Appends (K.written sink.old) (K.written sink.new)
        (journeys_text (Some whose) report (heading_of head.now) graph.now (values_in answered.now.values.now) (durations_in durations.now) steps)) }
    ensures err { (report : Report) (steps : ℕ → ℕ → List Step)
        → TellsSteps (is_alive_in answered.now.table.now.lives) (IsHopOn answered.now.table.now.arcs) answered.now.query answered.now.values.now steps
        → OnErr result (AppendsPrefix (K.written sink.old) (K.written sink.new)
        (journeys_text (Some whose) report (heading_of head.now) graph.now (values_in answered.now.values.now) (durations_in durations.now) steps)) }
    ensures failed { result ≡ Err ReportFault.WriteFailed → Rose (K.faults sink.old) (K.faults sink.new) }
    ensures later { K.faults sink.old ≤ K.faults sink.new }
{
    match whose {
        Whose::All => write_paths(alloc, sink, graph, head, answered, durations),
        Whose::One(vertex, t) => write_one_path(alloc, sink, graph, head, answered, vertex, t),
    }
}
