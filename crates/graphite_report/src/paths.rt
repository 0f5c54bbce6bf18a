//! The writers of the reports of written journeys.
ghost use Rattle.std.specs.Prelude.{◌≡◌, ℕ, ◌<◌, ◌≤◌, ◌++◌, [], List, All, codes, length, OnOk, OnErr};
ghost use Rattle.std.specs.Io.KnownBytes.{Appends};
ghost use Rattle.graphite_api.specs.Table.{vertex_is_alive};
ghost use Rattle.graphite_api.specs.TableHops.{IsHopOn};
ghost use Rattle.graphite_base.specs.Causes.{Rose};
ghost use Rattle.graphite_part.specs.Pieces.{run_of};
ghost use Rattle.graphite_time.specs.Interval.{start_of};
ghost use Rattle.graphite_witness.specs.declared.step.Step.{Step};
ghost use Rattle.graphite_witness.specs.Answered.{value_for, IsAnswered};
ghost use Rattle.graphite_report.specs.Given.{AreOfVertices, TellsSteps, durations_in, heading_of, values_in};
ghost use Rattle.graphite_report.specs.Paths.{AreJourneys, Tells, paths_from};
ghost use Rattle.graphite_report.specs.Report.{name_of_edge, name_of_vertex, one_path_lines, one_path_report, path_lines, path_run, paths_report, steps_after};
ghost use Rattle.graphite_report.specs.Through.{Through};
ghost use Rattle.graphite_report.specs.Written.{AppendsPrefix};

use crate::buffer::{PIECE, send, send_full};
use crate::lines::{push_duration, push_first_line, push_run, push_steps, push_value_line};
use crate::writer::duration_of;
use crate::{Head, ReportFault};
use graphite_api::Duration;
use graphite_base::Sink;
use graphite_graph::Graph;
use graphite_part::Piece;
use graphite_time::NoMemory;
use graphite_witness::{Answered, IncomingArcs, witness};
use std::alloc::Global;

/// What the written journeys of a graph are told from.
#[derive(Clone, Copy)]
struct Journeys<'r, 'g> {
    alloc: Global,
    graph: &'r Graph<'g>,
    answered: Answered<'r>,
    incoming: &'r IncomingArcs,
}

/// Writes the intervals report with written journeys: after each line with a value the steps of the written journey for the
/// first instant of the line. The answer is one for the graph: on a table with its vertices, whose arcs are along its edges.
/// After a fault a prefix of the report was written.
pub fn write_paths<K: Sink>(
    alloc: Global,
    sink: &mut K,
    graph: &Graph<'_>,
    head: &Head<'_>,
    answered: &Answered<'_>,
    durations: &[Option<Duration>],
) -> Result<(), ReportFault>
    requires all { AreOfVertices graph.now answered.now.values.now }
    requires answered { IsAnswered answered.now.table.now.lives answered.now.table.now.arcs answered.now.query answered.now.values.now }
    requires lives { length answered.now.table.now.lives ≡ length graph.now.vertices }
    requires edges { All (λ arc. arc.edge < length graph.now.edges) answered.now.table.now.arcs }
    ensures ok { (steps : ℕ → ℕ → List Step)
        → TellsSteps (vertex_is_alive answered.now.table.now.lives) (IsHopOn answered.now.table.now.arcs) answered.now.query answered.now.values.now steps
        → OnOk result (Appends (K.written sink.old) (K.written sink.new)
        (paths_report (heading_of head.now) graph.now (values_in answered.now.values.now) (durations_in durations.now) steps)) }
    ensures err { (steps : ℕ → ℕ → List Step)
        → TellsSteps (vertex_is_alive answered.now.table.now.lives) (IsHopOn answered.now.table.now.arcs) answered.now.query answered.now.values.now steps
        → OnErr result (AppendsPrefix (K.written sink.old) (K.written sink.new)
        (paths_report (heading_of head.now) graph.now (values_in answered.now.values.now) (durations_in durations.now) steps)) }
    ensures failed { result ≡ Err ReportFault.WriteFailed → Rose (K.faults sink.old) (K.faults sink.new) }
    ensures later { K.faults sink.old ≤ K.faults sink.new }
{
    let incoming = IncomingArcs::new(alloc, answered.table, answered.query.kind)?;
    let journeys = Journeys {
        alloc,
        graph,
        answered: *answered,
        incoming: &incoming,
    };
    let mut buffer = Vec::with_capacity(alloc, 2 * PIECE)?;
    push_first_line(&mut buffer, head)?;
    write_vertices(&journeys, durations, &mut buffer, sink)?;
    write_end(&mut buffer, sink)?;
    Ok(())
}

/// Writes the report of one vertex at one instant: a line with its value, and the steps of the written journey for it. No
/// such line is written where the vertex is not alive. The answer is one for the graph, as for [`write_paths`]. After a
/// fault a prefix of the report was written.
pub fn write_one_path<K: Sink>(
    alloc: Global,
    sink: &mut K,
    graph: &Graph<'_>,
    head: &Head<'_>,
    answered: &Answered<'_>,
    v: u32,
    t: u64,
) -> Result<(), ReportFault>
    requires vertex { v < length graph.now.vertices }
    requires all { AreOfVertices graph.now answered.now.values.now }
    requires answered { IsAnswered answered.now.table.now.lives answered.now.table.now.arcs answered.now.query answered.now.values.now }
    requires lives { length answered.now.table.now.lives ≡ length graph.now.vertices }
    requires edges { All (λ arc. arc.edge < length graph.now.edges) answered.now.table.now.arcs }
    ensures ok { (steps : ℕ → ℕ → List Step)
        → TellsSteps (vertex_is_alive answered.now.table.now.lives) (IsHopOn answered.now.table.now.arcs) answered.now.query answered.now.values.now steps
        → OnOk result (Appends (K.written sink.old) (K.written sink.new)
        (one_path_report (heading_of head.now) graph.now (values_in answered.now.values.now) steps v t)) }
    ensures err { (steps : ℕ → ℕ → List Step)
        → TellsSteps (vertex_is_alive answered.now.table.now.lives) (IsHopOn answered.now.table.now.arcs) answered.now.query answered.now.values.now steps
        → OnErr result (AppendsPrefix (K.written sink.old) (K.written sink.new)
        (one_path_report (heading_of head.now) graph.now (values_in answered.now.values.now) steps v t)) }
    ensures failed { result ≡ Err ReportFault.WriteFailed → Rose (K.faults sink.old) (K.faults sink.new) }
    ensures later { K.faults sink.old ≤ K.faults sink.new }
{
    let incoming = IncomingArcs::new(alloc, answered.table, answered.query.kind)?;
    let journeys = Journeys {
        alloc,
        graph,
        answered: *answered,
        incoming: &incoming,
    };
    let mut buffer = Vec::with_capacity(alloc, PIECE)?;
    push_first_line(&mut buffer, head)?;
    push_one_path(&journeys, v, t, &mut buffer)?;
    write_end(&mut buffer, sink)?;
    Ok(())
}

/// Writes what the buffer holds and the last line.
fn write_end<K: Sink>(buffer: &mut Vec<u8>, sink: &mut K) -> Result<(), ReportFault>
    ensures ok { OnOk result (Appends (K.written sink.old) (K.written sink.new) (buffer.old.items ++ codes "end\n")) }
    ensures err { OnErr result (AppendsPrefix (K.written sink.old) (K.written sink.new) (buffer.old.items ++ codes "end\n")) }
    ensures failed { result ≡ Err ReportFault.WriteFailed → Rose (K.faults sink.old) (K.faults sink.new) }
    ensures later { K.faults sink.old ≤ K.faults sink.new }
{
    buffer.extend_from_slice(b"end\n")?;
    send(buffer, sink)?;
    Ok(())
}

/// Writes the lines of all vertices through the buffer.
fn write_vertices<K: Sink>(
    journeys: &Journeys<'_, '_>,
    durations: &[Option<Duration>],
    buffer: &mut Vec<u8>,
    sink: &mut K,
) -> Result<(), ReportFault>
    requires { AreJourneys journeys.now }
    ensures ok { (steps : ℕ → ℕ → List Step) → Tells journeys.now.answered steps
        → OnOk result (Through (K.written sink.old) (K.written sink.new) buffer.new.items []
        (buffer.old.items ++ paths_from journeys.now.graph.now (values_in journeys.now.answered.values.now) (durations_in durations.now) steps 0)) }
    ensures err { (steps : ℕ → ℕ → List Step) → Tells journeys.now.answered steps
        → OnErr result (AppendsPrefix (K.written sink.old) (K.written sink.new)
        (buffer.old.items ++ paths_from journeys.now.graph.now (values_in journeys.now.answered.values.now) (durations_in durations.now) steps 0)) }
    ensures failed { result ≡ Err ReportFault.WriteFailed → Rose (K.faults sink.old) (K.faults sink.new) }
    ensures later { K.faults sink.old ≤ K.faults sink.new }
{
    for v in 0..journeys.graph.vertices() {
        let name = journeys.graph.vertex_name(v);
        write_runs(journeys, v, name, buffer, sink)?;
        push_duration(buffer, name, duration_of(durations, v))?;
    }
    Ok(())
}

/// Writes the lines of the runs of a vertex with this name through the buffer, each with its steps.
fn write_runs<K: Sink>(
    journeys: &Journeys<'_, '_>,
    v: u32,
    name: &[u8],
    buffer: &mut Vec<u8>,
    sink: &mut K,
) -> Result<(), ReportFault>
    requires journeys { AreJourneys journeys.now }
    requires vertex { v < length journeys.now.graph.now.vertices }
    ensures ok { (steps : ℕ → ℕ → List Step) → Tells journeys.now.answered steps
        → OnOk result (Through (K.written sink.old) (K.written sink.new) buffer.new.items []
        (buffer.old.items ++ path_lines name.now (name_of_edge journeys.now.graph.now) (values_in journeys.now.answered.values.now v) (steps v) journeys.now.graph.now.horizon)) }
    ensures err { (steps : ℕ → ℕ → List Step) → Tells journeys.now.answered steps
        → OnErr result (AppendsPrefix (K.written sink.old) (K.written sink.new)
        (buffer.old.items ++ path_lines name.now (name_of_edge journeys.now.graph.now) (values_in journeys.now.answered.values.now v) (steps v) journeys.now.graph.now.horizon)) }
    ensures failed { result ≡ Err ReportFault.WriteFailed → Rose (K.faults sink.old) (K.faults sink.new) }
    ensures later { K.faults sink.old ≤ K.faults sink.new }
{
    // nothing lives from the horizon on, so no run is printed from there on
    let _horizon = journeys.graph.horizon();
    let pieces = journeys.answered.values[v as usize].pieces();
    for piece in pieces {
        push_path(journeys, v, name, *piece, buffer)?;
        send_full(buffer, sink)?;
    }
    Ok(())
}

/// Appends the line of a run, and the steps for its first instant.
fn push_path(
    journeys: &Journeys<'_, '_>,
    v: u32,
    name: &[u8],
    piece: Piece<Option<u64>>,
    into: &mut Vec<u8>,
) -> Result<(), NoMemory>
    requires journeys { AreJourneys journeys.now }
    requires vertex { v < length journeys.now.graph.now.vertices }
    requires value { value_for journeys.now.answered.values.now v (start_of piece.over) ≡ piece.value }
    ensures { (steps : ℕ → ℕ → List Step) → Tells journeys.now.answered steps
        → OnOk result (into.new.items ≡ into.old.items ++ path_run name.now (name_of_edge journeys.now.graph.now) (steps v) (run_of piece)) }
{
    push_run(into, name, piece)?;
    push_journey(journeys, v, piece.over.a(), into)?;
    Ok(())
}

/// Appends the line of a vertex at an instant and the steps for it, where it is alive.
fn push_one_path(
    journeys: &Journeys<'_, '_>,
    v: u32,
    t: u64,
    into: &mut Vec<u8>,
) -> Result<(), NoMemory>
    requires journeys { AreJourneys journeys.now }
    requires vertex { v < length journeys.now.graph.now.vertices }
    ensures { (steps : ℕ → ℕ → List Step) → Tells journeys.now.answered steps
        → OnOk result (into.new.items ≡ into.old.items
        ++ one_path_lines (name_of_vertex journeys.now.graph.now v) (name_of_edge journeys.now.graph.now) t (values_in journeys.now.answered.values.now v t) (steps v t)) }
{
    if let Some(value) = journeys.answered.values[v as usize].at(t) {
        push_value_line(into, journeys.graph.vertex_name(v), t, value)?;
        push_journey(journeys, v, t, into)?;
    }
    Ok(())
}

/// Appends the steps of the written journey for a vertex at an instant, where it has a value.
fn push_journey(
    journeys: &Journeys<'_, '_>,
    v: u32,
    t: u64,
    into: &mut Vec<u8>,
) -> Result<(), NoMemory>
    requires journeys { AreJourneys journeys.now }
    requires vertex { v < length journeys.now.graph.now.vertices }
    ensures { (steps : ℕ → ℕ → List Step) → Tells journeys.now.answered steps
        → OnOk result (into.new.items ≡ into.old.items
        ++ steps_after (name_of_edge journeys.now.graph.now) (value_for journeys.now.answered.values.now v t) (steps v t)) }
{
    let found = witness(journeys.alloc, &journeys.answered, journeys.incoming, v, t)?;
    if let Some(steps) = found {
        push_steps(into, journeys.graph, &steps)?;
    }
    Ok(())
}
