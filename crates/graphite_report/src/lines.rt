//! The lines of a report, appended to a buffer.
ghost use Rattle.std.specs.Prelude.{◌≡◌, ◌<◌, ◌++◌, All, length, map, flat_map, OnOk};
ghost use Rattle.graphite_part.specs.Pieces.{run_of, value_at};
ghost use Rattle.graphite_text.specs.Reading.{property_count};
ghost use Rattle.graphite_report.specs.Given.{heading_of};
ghost use Rattle.graphite_report.specs.Report.{bytes_line, calls_text, duration_line, duration_text, first_line, graph_line, heading_text, instant_lines, lines_line, made_heading, name_of_edge, run_line, step_line, totals_line, value_line, value_text};

use crate::Head;
use crate::sums::Totals;
use graphite_api::Duration;
use graphite_base::push_number;
use graphite_graph::Graph;
use graphite_part::{Partition, Piece};
use graphite_time::NoMemory;
use graphite_witness::Step;

/// Appends what the first line says of the calls.
fn push_calls(into: &mut Vec<u8>, calls: Option<u128>) -> Result<(), NoMemory>
    ensures { OnOk result (into.new.items ≡ into.old.items ++ calls_text calls) }
{
    if let Some(calls) = calls {
        into.extend_from_slice(b" calls ")?;
        push_number(into, calls)?;
    }
    Ok(())
}

/// Appends the first line after its first word.
fn push_heading(into: &mut Vec<u8>, head: &Head<'_>) -> Result<(), NoMemory>
    ensures { OnOk result (into.new.items ≡ into.old.items ++ heading_text (heading_of head.now)) }
{
    into.extend_from_slice(head.program)?;
    into.extend_from_slice(b" steps ")?;
    push_number(into, u128::from(head.steps))?;
    push_calls(into, head.calls)?;
    into.extend_from_slice(b"\n")?;
    Ok(())
}

/// Appends the first line.
pub fn push_first_line(into: &mut Vec<u8>, head: &Head<'_>) -> Result<(), NoMemory>
    ensures { OnOk result (into.new.items ≡ into.old.items ++ first_line (heading_of head.now)) }
{
    into.extend_from_slice(b"graphite ")?;
    push_heading(into, head)
}

/// Appends the first line with the word `made` before the program's.
pub fn push_made_line(into: &mut Vec<u8>, head: &Head<'_>) -> Result<(), NoMemory>
    ensures { OnOk result (into.new.items
        ≡ into.old.items ++ first_line (made_heading (heading_of head.now))) }
{
    into.extend_from_slice(b"graphite made ")?;
    push_heading(into, head)
}

/// Appends the line with how many bytes a text has.
pub fn push_bytes_line(into: &mut Vec<u8>, bytes: u64) -> Result<(), NoMemory>
    ensures { OnOk result (into.new.items ≡ into.old.items ++ bytes_line bytes) }
{
    into.extend_from_slice(b"text ")?;
    push_number(into, u128::from(bytes))?;
    into.extend_from_slice(b"\n")?;
    Ok(())
}

/// Appends the line with how many vertices, edges and properties a graph has.
pub fn push_graph_line(into: &mut Vec<u8>, graph: &Graph<'_>) -> Result<(), NoMemory>
    ensures { OnOk result (into.new.items ≡ into.old.items
        ++ graph_line (length graph.now.vertices) (length graph.now.edges) (property_count graph.now)) }
{
    let properties = graph.vertex_props().rows().len() + graph.edge_props().rows().len();
    into.extend_from_slice(b"graph ")?;
    push_number(into, u128::from(graph.vertices()))?;
    into.extend_from_slice(b" ")?;
    push_number(into, u128::from(graph.edges()))?;
    into.extend_from_slice(b" ")?;
    push_number(into, properties as u128)?;
    into.extend_from_slice(b"\n")?;
    Ok(())
}

/// Appends the line with how many lines for values a report has, and how many of these have a number.
pub fn push_lines_line(into: &mut Vec<u8>, lines: u128, valued: u128) -> Result<(), NoMemory>
    ensures { OnOk result (into.new.items ≡ into.old.items ++ lines_line lines valued) }
{
    into.extend_from_slice(b"report ")?;
    push_number(into, lines)?;
    into.extend_from_slice(b" ")?;
    push_number(into, valued)?;
    into.extend_from_slice(b"\n")?;
    Ok(())
}

/// Appends a value as it is printed.
fn push_value(into: &mut Vec<u8>, value: Option<u64>) -> Result<(), NoMemory>
    ensures { OnOk result (into.new.items ≡ into.old.items ++ value_text value) }
{
    match value {
        Some(number) => push_number(into, u128::from(number))?,
        None => into.extend_from_slice(b"none")?,
    }
    Ok(())
}

/// Appends the line that says that a vertex has a value throughout a piece.
pub fn push_run(into: &mut Vec<u8>, name: &[u8], piece: Piece<Option<u64>>) -> Result<(), NoMemory>
    ensures { OnOk result (into.new.items ≡ into.old.items ++ run_line name.now (run_of piece)) }
{
    into.extend_from_slice(name)?;
    into.extend_from_slice(b" ")?;
    push_number(into, u128::from(piece.over.a()))?;
    into.extend_from_slice(b" ")?;
    push_number(into, u128::from(piece.over.b()))?;
    into.extend_from_slice(b" ")?;
    push_value(into, piece.value)?;
    into.extend_from_slice(b"\n")?;
    Ok(())
}

/// Appends the lines of a vertex that has these values.
pub fn push_runs(
    into: &mut Vec<u8>,
    name: &[u8],
    pieces: &[Piece<Option<u64>>],
) -> Result<(), NoMemory>
    ensures { OnOk result (into.new.items
        ≡ into.old.items ++ flat_map (run_line name.now) (map run_of pieces.now)) }
{
    for piece in pieces {
        push_run(into, name, *piece)?;
    }
    Ok(())
}

/// Appends a duration as it is printed.
fn push_duration_text(into: &mut Vec<u8>, duration: Option<Duration>) -> Result<(), NoMemory>
    ensures { OnOk result (into.new.items ≡ into.old.items ++ duration_text duration) }
{
    let Some(duration) = duration else {
        into.extend_from_slice(b"none")?;
        return Ok(());
    };
    push_number(into, u128::from(duration.length))?;
    into.extend_from_slice(b" ")?;
    push_number(into, u128::from(duration.start))?;
    into.extend_from_slice(b" ")?;
    push_number(into, u128::from(duration.arrive))?;
    Ok(())
}

/// Appends the line of the duration of a vertex, where there is an entry for it.
pub fn push_duration(
    into: &mut Vec<u8>,
    name: &[u8],
    entry: Option<Option<Duration>>,
) -> Result<(), NoMemory>
    ensures { OnOk result (into.new.items ≡ into.old.items ++ duration_line name.now entry) }
{
    let Some(duration) = entry else {
        return Ok(());
    };
    into.extend_from_slice(b"= ")?;
    into.extend_from_slice(name)?;
    into.extend_from_slice(b" ")?;
    push_duration_text(into, duration)?;
    into.extend_from_slice(b"\n")?;
    Ok(())
}

/// Appends the line that says that a vertex has a value at an instant.
pub fn push_value_line(
    into: &mut Vec<u8>,
    name: &[u8],
    t: u64,
    value: Option<u64>,
) -> Result<(), NoMemory>
    ensures { OnOk result (into.new.items ≡ into.old.items ++ value_line name.now t value) }
{
    into.extend_from_slice(name)?;
    into.extend_from_slice(b" ")?;
    push_number(into, u128::from(t))?;
    into.extend_from_slice(b" ")?;
    push_value(into, value)?;
    into.extend_from_slice(b"\n")?;
    Ok(())
}

/// Appends the lines of steps.
pub fn push_steps(into: &mut Vec<u8>, graph: &Graph<'_>, steps: &[Step]) -> Result<(), NoMemory>
    requires { All (λ step. step.edge < length graph.now.edges) steps.now }
    ensures { OnOk result (into.new.items
        ≡ into.old.items ++ flat_map (step_line (name_of_edge graph.now)) steps.now) }
{
    for step in steps {
        push_step(into, graph.edge_name(step.edge), *step)?;
    }
    Ok(())
}

/// Appends the line of a step along the edge with this name.
fn push_step(into: &mut Vec<u8>, edge: &[u8], step: Step) -> Result<(), NoMemory>
    ensures { OnOk result (into.new.items ≡ into.old.items ++ step_line (λ e. edge.now) step) }
{
    into.extend_from_slice(b"> ")?;
    into.extend_from_slice(edge)?;
    into.extend_from_slice(b" ")?;
    push_number(into, u128::from(step.depart))?;
    into.extend_from_slice(b" ")?;
    push_number(into, u128::from(step.arrive))?;
    into.extend_from_slice(b" ")?;
    push_number(into, u128::from(step.cost))?;
    into.extend_from_slice(b"\n")?;
    Ok(())
}

/// Appends the line that says which value a vertex has at an instant, where it has one.
pub fn push_instant(
    into: &mut Vec<u8>,
    name: &[u8],
    values: &Partition<Option<u64>>,
    t: u64,
) -> Result<(), NoMemory>
    ensures { OnOk result (into.new.items ≡ into.old.items ++ instant_lines name.now (value_at values.now t)) }
{
    if let Some(value) = values.at(t) {
        into.extend_from_slice(name)?;
        into.extend_from_slice(b" ")?;
        push_value(into, value)?;
        into.extend_from_slice(b"\n")?;
    }
    Ok(())
}

/// Appends the line of the totals of a vertex.
pub fn push_totals(into: &mut Vec<u8>, name: &[u8], totals: Totals) -> Result<(), NoMemory>
    ensures { OnOk result (into.new.items
        ≡ into.old.items ++ totals_line name.now totals.alive totals.valued totals.sum) }
{
    into.extend_from_slice(name)?;
    into.extend_from_slice(b" ")?;
    push_number(into, u128::from(totals.alive))?;
    into.extend_from_slice(b" ")?;
    push_number(into, u128::from(totals.valued))?;
    into.extend_from_slice(b" ")?;
    push_number(into, totals.sum)?;
    into.extend_from_slice(b"\n")?;
    Ok(())
}
