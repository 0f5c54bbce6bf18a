//! The answer to a program on a made graph.
ghost use Rattle.std.specs.Prelude.{◌≡◌, ◌≢◌, ◌≤◌, IfOk, Some, length};
ghost use Rattle.graphite_base.specs.Causes.{Rose};
ghost use Rattle.graphite_top.specs.Call.{Writes};
ghost use Rattle.graphite_top.specs.Output.{made_output, made_text, made_until, query_on_made, LacksVertex};
ghost use Rattle.graphite_words.specs.Query.{plain_made, plain_query};

use crate::Status;
use crate::call::answer_text;
use graphite_base::{Bytes, Sink};
use graphite_gen::made_text;
use graphite_paths::FASTEST_WINDOW;
use graphite_time::NoMemory;
use graphite_words::{Command, MadeAsk, Query, Report};
use std::alloc::Global;

/// Makes a graph, and writes the answer to the program that is run on it.
pub fn answer_made<K: Sink>(alloc: Global, made: MadeAsk, sink: &mut K) -> Status
    ensures writes { Writes result (made_output (plain_made made)) (K.written sink.old) (K.written sink.new) (K.faults sink.old) (K.faults sink.new) }
    ensures query_refused { result ≡ Status.QueryRefused → LacksVertex (Some (plain_made made)) }
    ensures words_accepted { result ≢ Status.WordsRefused }
    ensures text_accepted { result ≢ Status.TextRefused }
    ensures settled { result ≢ Status.Budget }
    ensures later { K.faults sink.old ≤ K.faults sink.new }
{
    let text = match made_text(alloc, made.seed, made.vertices, made.edges, made.horizon) {
        Ok(text) => text,
        Err(_) => return Status::NoMemory,
    };
    match query_on_made(alloc, made, text.len() as u64) {
        Ok(query) => answer_text(alloc, &query, &text, sink),
        Err(_) => Status::NoMemory,
    }
}

/// The query that runs on a made graph whose text has so many bytes.
fn query_on_made(alloc: Global, made: MadeAsk, bytes: u64) -> Result<Query, NoMemory>
    ensures { IfOk result (λ query. plain_query query ≡ query_on_made (plain_made made) bytes) }
{
    Ok(Query {
        command: made.of,
        vertex: Some(Bytes::from_slice(alloc, b"v0")?),
        key: Some(Bytes::from_slice(alloc, b"size")?),
        from: 0,
        until: made_until(made.of, made.horizon),
        steps: None,
        report: Report::Summary(bytes),
        told: None,
        made: None,
    })
}

/// Where the window ends: only that of the fastest journeys has a limit.
fn made_until(of: Command, horizon: u64) -> Option<u64>
    ensures { result ≡ made_until of horizon }
{
    match of {
        Command::Fastest => Some(horizon.min(FASTEST_WINDOW)),
        _ => None,
    }
}
