//! The whole of the program, once it has its words.
ghost use Rattle.std.specs.Prelude.{◌≡◌, ◌≢◌, ◌≤◌, ℕ, Bool, true, false, map, length, string_bytes, IfOk, IfSome, Some, option_map};
ghost use Rattle.std.specs.Io.KnownBytes.{Keeps};
ghost use Rattle.graphite_base.specs.Causes.{Rose};
ghost use Rattle.graphite_base.specs.Known.{IsEmptied};
ghost use Rattle.graphite_text.specs.Canonical.{canonical_text};
ghost use Rattle.graphite_text.specs.Reading.{text_limit};
ghost use Rattle.graphite_top.specs.Answer.{report_answer, text_refusal, words_refusal};
ghost use Rattle.graphite_top.specs.Output.{graph_output, output_of, query_output, text_output, journeys_of, steps_of, usual_steps, CanBeRefused, HasBudget, IsToldIn, ReadsSource};
ghost use Rattle.graphite_words.specs.Query.{number_given, plain_query};
ghost use Rattle.graphite_words.specs.Table.{row_of};
ghost use Rattle.graphite_words.specs.Words.{query_of};
ghost use Rattle.graphite_top.specs.Call.{Answers, Writes, WritesThis, Gives, IsWritten, IsReadThrough};

use crate::Status;
use crate::asked::{Asked, asked_of, journeys_of};
use crate::made::answer_made;
use crate::path::write_path;
use crate::snap::write_snap;
use crate::told::Telling;
use crate::write::write;
use graphite_base::{ReadText, Sink, Source, TEXT_LIMIT, push_number, read_text};
use graphite_graph::{Graph, LoadFault, load};
use graphite_text::LENGTH_RULE;
use graphite_time::NoMemory;
use graphite_words::{Query, Row, Steps, WordsFault, query_of, row_of};
use std::alloc::Global;

/// Does what the words ask for with the text of the source, and writes the report or the refusal to
/// the sink: the whole of the program, once it has its words. `words` are those after the program's
/// own name. Where they are refused, or ask for a graph that is made, the source is not touched.
pub fn run<S: Source, K: Sink>(
    alloc: Global,
    words: &[String],
    source: &mut S,
    sink: &mut K,
) -> Status
    // The status and the text of the answer, or a prefix of that text. For a program of journeys there are best values,
    // and a written journey for each that is told, such that the text is their report, or the values are not settled
    // within the supersteps allowed.
    ensures answer { IfSome (output_of (map string_bytes words.now) (S.left source.old))
        (λ output. Answers result output (K.written sink.old) (K.written sink.new)) }

    // Without a fault, and with memory, the answer is given whole.
    ensures complete { ¬ Rose (S.faults source.old) (S.faults source.new)
        → ¬ Rose (K.faults sink.old) (K.faults sink.new)
        → result ≢ Status.NoMemory
        → IfSome (output_of (map string_bytes words.now) (S.left source.old))
        (λ output. Gives result output (K.written sink.old) (K.written sink.new)) }

    // When each fault comes. Without a number of supersteps in the words no budget ends.
    ensures read_fault { result ≡ Status.ReadFault
        → ReadsSource (query_of (map string_bytes words.now)) × Rose (S.faults source.old) (S.faults source.new) }
    ensures nothing_written { result ≡ Status.ReadFault → Keeps (K.written sink.old) (K.written sink.new) }
    ensures write_fault { result ≡ Status.WriteFault → Rose (K.faults sink.old) (K.faults sink.new) }
    ensures words_refused { result ≡ Status.WordsRefused → query_of (map string_bytes words.now) ≡ None }
    ensures text_refused { result ≡ Status.TextRefused → ReadsSource (query_of (map string_bytes words.now)) }
    ensures query_refused { result ≡ Status.QueryRefused → CanBeRefused (query_of (map string_bytes words.now)) }
    ensures budget { result ≡ Status.Budget → HasBudget (query_of (map string_bytes words.now)) }

    // What becomes of the source. Words that are refused, and a graph that is made, leave it as it was.
    ensures untouched { ¬ ReadsSource (query_of (map string_bytes words.now)) → source.new ≡ source.old }
    ensures emptied { ReadsSource (query_of (map string_bytes words.now))
        → IsReadThrough result (S.left source.old) (S.left source.new) }

    // No count of faults falls.
    ensures later { (S.faults source.old ≤ S.faults source.new) × (K.faults sink.old ≤ K.faults sink.new) }
{
    match query_of(alloc, words) {
        Ok(query) => answer_query(alloc, &query, source, sink),
        Err(WordsFault::Refused) => write(sink, b"refused words\n", Status::WordsRefused),
        Err(WordsFault::NoMemory) => Status::NoMemory,
    }
}

/// Writes the answer to a query, for the graph that it makes or for the text of the source.
fn answer_query<S: Source, K: Sink>(
    alloc: Global,
    query: &Query,
    source: &mut S,
    sink: &mut K,
) -> Status
    ensures answer { IfSome (query_output (Some (plain_query query.now)) (S.left source.old))
        (λ output. Answers result output (K.written sink.old) (K.written sink.new)) }
    ensures complete { ¬ Rose (S.faults source.old) (S.faults source.new)
        → ¬ Rose (K.faults sink.old) (K.faults sink.new)
        → result ≢ Status.NoMemory
        → IfSome (query_output (Some (plain_query query.now)) (S.left source.old))
        (λ output. Gives result output (K.written sink.old) (K.written sink.new)) }
    ensures read_fault { result ≡ Status.ReadFault
        → ReadsSource (Some (plain_query query.now)) × Rose (S.faults source.old) (S.faults source.new) }
    ensures nothing_written { result ≡ Status.ReadFault → Keeps (K.written sink.old) (K.written sink.new) }
    ensures write_fault { result ≡ Status.WriteFault → Rose (K.faults sink.old) (K.faults sink.new) }
    ensures words_accepted { result ≢ Status.WordsRefused }
    ensures text_refused { result ≡ Status.TextRefused → ReadsSource (Some (plain_query query.now)) }
    ensures query_refused { result ≡ Status.QueryRefused → CanBeRefused (Some (plain_query query.now)) }
    ensures budget { result ≡ Status.Budget → HasBudget (Some (plain_query query.now)) }
    ensures untouched { ¬ ReadsSource (Some (plain_query query.now)) → source.new ≡ source.old }
    ensures emptied { ReadsSource (Some (plain_query query.now))
        → IsReadThrough result (S.left source.old) (S.left source.new) }
    ensures later { (S.faults source.old ≤ S.faults source.new) × (K.faults sink.old ≤ K.faults sink.new) }
{
    match query.made {
        Some(made) => answer_made(alloc, made, sink),
        None => answer_source(alloc, query, source, sink),
    }
}

/// Reads the source and writes the answer to a query.
fn answer_source<S: Source, K: Sink>(
    alloc: Global,
    query: &Query,
    source: &mut S,
    sink: &mut K,
) -> Status
    ensures answer { IfSome (option_map (text_output (plain_query query.now)) (S.left source.old))
        (λ output. Answers result output (K.written sink.old) (K.written sink.new)) }
    ensures complete { ¬ Rose (S.faults source.old) (S.faults source.new)
        → ¬ Rose (K.faults sink.old) (K.faults sink.new)
        → result ≢ Status.NoMemory
        → IfSome (option_map (text_output (plain_query query.now)) (S.left source.old))
        (λ output. Gives result output (K.written sink.old) (K.written sink.new)) }
    ensures read_fault { result ≡ Status.ReadFault → Rose (S.faults source.old) (S.faults source.new) }
    ensures nothing_written { result ≡ Status.ReadFault → Keeps (K.written sink.old) (K.written sink.new) }
    ensures write_fault { result ≡ Status.WriteFault → Rose (K.faults sink.old) (K.faults sink.new) }
    ensures words_accepted { result ≢ Status.WordsRefused }
    ensures query_refused { result ≡ Status.QueryRefused → CanBeRefused (Some (plain_query query.now)) }
    ensures budget { result ≡ Status.Budget → HasBudget (Some (plain_query query.now)) }
    ensures emptied { IsReadThrough result (S.left source.old) (S.left source.new) }
    ensures later { (S.faults source.old ≤ S.faults source.new) × (K.faults sink.old ≤ K.faults sink.new) }
{
    match read_text(alloc, source, TEXT_LIMIT) {
        Ok(text) => answer_text(alloc, query, &text, sink),
        Err(ReadText::TooLong) => refuse_text(alloc, 0, LENGTH_RULE, sink),
        Err(ReadText::Failed) => Status::ReadFault,
        Err(ReadText::NoMemory) => Status::NoMemory,
    }
}

/// Writes the answer to a text.
pub(crate) fn answer_text<K: Sink>(
    alloc: Global,
    query: &Query,
    text: &[u8],
    sink: &mut K,
) -> Status
    ensures writes { Writes result (text_output (plain_query query.now) text.now) (K.written sink.old) (K.written sink.new) (K.faults sink.old) (K.faults sink.new) }
    ensures query_refused { result ≡ Status.QueryRefused → CanBeRefused (Some (plain_query query.now)) }
    ensures budget { result ≡ Status.Budget → HasBudget (Some (plain_query query.now)) }
    ensures later { K.faults sink.old ≤ K.faults sink.new }
{
    match load(alloc, text) {
        Ok(graph) => report(alloc, query, &graph, sink),
        Err(LoadFault::Rule { line, rule }) => refuse_text(alloc, line, rule, sink),
        Err(LoadFault::NoMemory) => Status::NoMemory,
    }
}

/// Writes the answer to a query for a graph.
fn report<K: Sink>(alloc: Global, query: &Query, graph: &Graph<'_>, sink: &mut K) -> Status
    ensures writes { Writes result (graph_output (plain_query query.now) graph.now) (K.written sink.old) (K.written sink.new) (K.faults sink.old) (K.faults sink.new) }
    ensures query_refused { result ≡ Status.QueryRefused → CanBeRefused (Some (plain_query query.now)) }
    ensures budget { result ≡ Status.Budget → HasBudget (Some (plain_query query.now)) }
    ensures later { K.faults sink.old ≤ K.faults sink.new }
{
    match asked_of(alloc, query, graph) {
        Ok(Asked::Text) => write_shown(alloc, graph, sink),
        Ok(Asked::Snap(program)) => write_snap(alloc, graph, &program, telling(query, graph), sink),
        Ok(Asked::Path(path)) => write_path(alloc, graph, &path, telling(query, graph), sink),
        Ok(Asked::NoVertex) => write(sink, b"refused query 1\n", Status::QueryRefused),
        Ok(Asked::NoInstant) => write(sink, b"refused query 2\n", Status::QueryRefused),
        Ok(Asked::NoWindow) => write(sink, b"refused query 3\n", Status::QueryRefused),
        Ok(Asked::NotAlive) => write(sink, b"refused query 4\n", Status::QueryRefused),
        Err(_) => Status::NoMemory,
    }
}

/// What is to be told of the program of a query.
fn telling(query: &Query, graph: &Graph<'_>) -> Telling
    ensures word { result.word.now ≡ (row_of query.now.command).word }
    ensures steps { result.steps.number ≡ steps_of (plain_query query.now) graph.now }
    ensures report { result.report ≡ query.now.report }
    ensures journeys { result.journeys ≡ journeys_of (plain_query query.now) graph.now }
    ensures in_range { IsToldIn graph.now result.journeys }
{
    let row = row_of(query.command);
    Telling {
        word: row.word,
        steps: query.steps.unwrap_or(usual_steps(row, graph)),
        report: query.report,
        journeys: journeys_of(query, graph),
    }
}

/// How many supersteps a program of this row is allowed where the words do not say it: as many as are
/// usual for it, or else one more than the vertices have lifespans.
fn usual_steps(row: Row, graph: &Graph<'_>) -> Steps
    ensures { result.number ≡ usual_steps (number_given row.usual_steps) graph.now }
{
    match row.usual_steps {
        Some(steps) => steps,
        None => Steps::new(graph.lifespans() + 1),
    }
}

/// Writes the canonical text of a graph.
fn write_shown<K: Sink>(alloc: Global, graph: &Graph<'_>, sink: &mut K) -> Status
    ensures writes { WritesThis result (report_answer (canonical_text graph.now)) (K.written sink.old) (K.written sink.new) (K.faults sink.old) (K.faults sink.new) }
    ensures later { K.faults sink.old ≤ K.faults sink.new }
{
    let mut text = Vec::new(alloc);
    match graph.show(&mut text) {
        Ok(()) => write(sink, &text, Status::Done),
        Err(_) => Status::NoMemory,
    }
}

/// The refusal of a text.
fn refusal_of(alloc: Global, line: u32, rule: u8) -> Result<Vec<u8>, NoMemory>
    ensures { IfOk result (λ text. text.items ≡ (text_refusal line rule).text) }
{
    let mut text = Vec::from_slice(alloc, b"refused text line ")?;
    push_number(&mut text, u128::from(line))?;
    text.extend_from_slice(b" rule ")?;
    push_number(&mut text, u128::from(rule))?;
    text.extend_from_slice(b"\n")?;
    Ok(text)
}

/// Writes the refusal of a text.
fn refuse_text<K: Sink>(alloc: Global, line: u32, rule: u8, sink: &mut K) -> Status
    ensures writes { WritesThis result (text_refusal line rule) (K.written sink.old) (K.written sink.new) (K.faults sink.old) (K.faults sink.new) }
    ensures later { K.faults sink.old ≤ K.faults sink.new }
{
    match refusal_of(alloc, line, rule) {
        Ok(text) => write(sink, &text, Status::TextRefused),
        Err(_) => Status::NoMemory,
    }
}
