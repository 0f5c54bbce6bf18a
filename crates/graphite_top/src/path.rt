//! The answer to a question about journeys.
ghost use Rattle.std.specs.Prelude.{◌≡◌, ◌≢◌, ◌≤◌, ◌<◌, ◌+◌, ℕ, length, IfOk, OnOk, OnErr};
ghost use Rattle.std.specs.Io.KnownBytes.{Appends};
ghost use Rattle.graphite_base.specs.Causes.{Rose};
ghost use Rattle.graphite_graph.specs.Ends.{lifespan_count};
ghost use Rattle.graphite_report.specs.Given.{durations_in, values_in, AreOfVertices};
ghost use Rattle.graphite_report.specs.Written.{AppendsPrefix};
ghost use Rattle.graphite_top.specs.Answer.{budget_refusal, path_heading, report_answer, report_text};
ghost use Rattle.graphite_top.specs.Call.{Writes, WritesThis};
ghost use Rattle.graphite_top.specs.Found.{IsFound};
ghost use Rattle.graphite_top.specs.Output.{IsPathOf, IsToldIn, OfJourneys};

use crate::Status;
use crate::journeys::write_journeys;
use crate::told::{Telling, head_of, status_of, write_values};
use crate::write::write;
use graphite_api::PathQuery;
use graphite_base::{Sink, push_number};
use graphite_graph::Graph;
use graphite_paths::{PathAnswer, PathFault, run_path};
use graphite_time::NoMemory;
use std::alloc::Global;

/// Writes the answer to a question about the journeys of a graph. The vertex of the query is one of the graph, and its
/// window ends by the horizon and is short enough.
pub fn write_path<K: Sink>(
    alloc: Global,
    graph: &Graph<'_>,
    query: &PathQuery,
    telling: Telling,
    sink: &mut K,
) -> Status
    requires fits { IsPathOf graph.now query.now }
    requires told { IsToldIn graph.now telling.journeys }
    ensures writes { Writes result (OfJourneys (record { graph = graph.now; query = query.now; report = telling.report; journeys = telling.journeys; word = telling.word.now; steps = telling.steps.number })) (K.written sink.old) (K.written sink.new) (K.faults sink.old) (K.faults sink.new) }
    ensures accepted { result ≢ Status.QueryRefused }
    ensures enough { result ≡ Status.Budget → lifespan_count graph.now + 1 ≤ telling.steps.number → ⊥ }
    ensures later { K.faults sink.old ≤ K.faults sink.new }
{
    match run_path(alloc, graph, query, telling.steps.number) {
        Ok(answer) => write_answer(alloc, graph, query, &answer, telling, sink),
        Err(PathFault::Budget) => refuse_budget(alloc, telling.steps.number, sink),
        Err(PathFault::NoMemory) => Status::NoMemory,
    }
}

/// Writes the report of the values that were found, with written journeys where these are to be told.
fn write_answer<K: Sink>(
    alloc: Global,
    graph: &Graph<'_>,
    query: &PathQuery,
    answer: &PathAnswer,
    telling: Telling,
    sink: &mut K,
) -> Status
    requires found { IsFound (record { graph = graph.now; query = query.now; report = telling.report; journeys = telling.journeys; word = telling.word.now; steps = telling.steps.number }) answer.now.values.items answer.now.durations.items answer.now.made }
    requires told { IsToldIn graph.now telling.journeys }
    ensures writes { Writes result (OfJourneys (record { graph = graph.now; query = query.now; report = telling.report; journeys = telling.journeys; word = telling.word.now; steps = telling.steps.number })) (K.written sink.old) (K.written sink.new) (K.faults sink.old) (K.faults sink.new) }
    ensures accepted { result ≢ Status.QueryRefused }
    ensures settled { result ≢ Status.Budget }
    ensures later { K.faults sink.old ≤ K.faults sink.new }
{
    match telling.journeys {
        Some(whose) => write_journeys(alloc, graph, query, answer, telling, whose, sink),
        None => write_found(alloc, graph, answer, telling, sink),
    }
}

/// Writes the report of the values that were found, without journeys.
fn write_found<K: Sink>(
    alloc: Global,
    graph: &Graph<'_>,
    answer: &PathAnswer,
    telling: Telling,
    sink: &mut K,
) -> Status
    requires { AreOfVertices graph.now answer.now.values.items }
    ensures writes { WritesThis result (report_answer (report_text telling.report (path_heading telling.word.now answer.now.made) graph.now (values_in answer.now.values.items) (durations_in answer.now.durations.items))) (K.written sink.old) (K.written sink.new) (K.faults sink.old) (K.faults sink.new) }
    ensures accepted { result ≢ Status.QueryRefused }
    ensures settled { result ≢ Status.Budget }
    ensures later { K.faults sink.old ≤ K.faults sink.new }
{
    let head = head_of(answer, telling);
    let written = write_values(
        alloc,
        graph,
        &head,
        telling.report,
        &answer.values,
        &answer.durations,
        sink,
    );
    status_of(written)
}

/// The refusal of a program of journeys that does not settle within so many supersteps.
fn budget_text(alloc: Global, steps: u32) -> Result<Vec<u8>, NoMemory>
    ensures { IfOk result (λ text. text.items ≡ (budget_refusal steps).text) }
{
    let mut text = Vec::from_slice(alloc, b"refused budget ")?;
    push_number(&mut text, u128::from(steps))?;
    text.extend_from_slice(b"\n")?;
    Ok(text)
}

/// Writes that refusal.
fn refuse_budget<K: Sink>(alloc: Global, steps: u32, sink: &mut K) -> Status
    ensures writes { WritesThis result (budget_refusal steps) (K.written sink.old) (K.written sink.new) (K.faults sink.old) (K.faults sink.new) }
    ensures later { K.faults sink.old ≤ K.faults sink.new }
{
    match budget_text(alloc, steps) {
        Ok(text) => write(sink, &text, Status::Budget),
        Err(_) => Status::NoMemory,
    }
}
