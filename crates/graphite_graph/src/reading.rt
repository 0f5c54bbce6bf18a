//! The reading of a whole text.
ghost use Rattle.std.specs.Prelude.{◌≡◌, ◌≤◌, ℕ, List, [], length, Err, IfOk, IfErr};
ghost use Rattle.graphite_text.specs.Lines.{TextLine, lines_of};
ghost use Rattle.graphite_text.specs.Reading.{Accepted, Refused, nothing_known, reading_from, reading_of, text_limit};

use crate::fault::Fault;
use crate::graph::Graph;
use crate::reader::Reader;
use crate::store::Store;
use graphite_base::TEXT_LIMIT;
use graphite_text::{LENGTH_RULE, Lines, MISSING_END_RULE};
use std::alloc::Global;
use thiserror::Error;

/// Why a text is not loaded.
#[derive(Clone, Copy, Debug, PartialEq, Eq, Error)]
pub enum LoadFault {
    /// The text is refused: `line`, counted from 1, is the first line that breaks a rule, and
    /// `rule` the least that it breaks. Line 0 is the text as a whole.
    #[error("line {line} breaks rule {rule}")]
    Rule { line: u32, rule: u8 },
    /// Out of memory.
    #[error("out of memory")]
    NoMemory,
}

impl Fault {
    ghost use Rattle.graphite_graph.specs.Load.{fault_at};

    fn at(self, line: u32) -> LoadFault
        ensures { result ≡ fault_at line self }
    {
        match self {
            Fault::Rule(rule) => LoadFault::Rule { line, rule },
            Fault::NoMemory => LoadFault::NoMemory,
        }
    }
}

ghost use Rattle.graphite_graph.specs.Load.{ExplainsLines};

/// Reads the graph of a text of at most [`graphite_base::TEXT_LIMIT`] bytes. It takes memory for the
/// graph, whose names stay in the text. `Rule` exactly where the text is refused, by its line and
/// rule; out of memory at any line before.
pub fn load(alloc: Global, text: &[u8]) -> Result<Graph<'_>, LoadFault>
    ensures accepted { IfOk result (λ graph. reading_of text.now ≡ Accepted graph) }
    ensures refused { (line rule : ℕ) → result ≡ Err (LoadFault.Rule line rule)
        → reading_of text.now ≡ Refused line rule }
{
    if text.len() > TEXT_LIMIT {
        return Err(LoadFault::Rule {
            line: 0,
            rule: LENGTH_RULE,
        });
    }
    match read_lines(alloc, text) {
        Ok(store) => Ok(Graph::of_text(store)),
        Err(fault) => Err(fault),
    }
}

fn read_lines(alloc: Global, text: &[u8]) -> Result<Store<'_>, LoadFault>
    requires { length text.now ≤ text_limit }
    ensures accepted { IfOk result (λ store. reading_from 1 nothing_known (lines_of text.now) ≡ Accepted store) }
    ensures fault { IfErr result (ExplainsLines (lines_of text.now)) }
{
    let mut reader = Reader::new(alloc);
    match take_lines(&mut reader, text) {
        Ok(next) => finished(reader, next),
        Err(fault) => Err(fault),
    }
}

/// The graph, where the lines had an end. `next` is the number of the line after the last.
fn finished(reader: Reader<'_>, next: u32) -> Result<Store<'_>, LoadFault>
    ensures accepted { IfOk result (λ store. reading_from next reader.entry [] ≡ Accepted store) }
    ensures fault { IfErr result (λ fault. (lines : List TextLine)
        → reading_from next reader.entry [] ≡ reading_from 1 nothing_known lines → ExplainsLines lines fault) }
{
    match reader.finish() {
        Some(graph) => match graph.finish() {
            Ok(store) => Ok(store),
            Err(_) => Err(LoadFault::NoMemory),
        },
        None => Err(LoadFault::Rule {
            line: next,
            rule: MISSING_END_RULE,
        }),
    }
}

/// Takes the lines of a text, and answers the number of the line after the last.
fn take_lines<'a>(reader: &mut Reader<'a>, text: &'a [u8]) -> Result<u32, LoadFault>
    requires within { length text.now ≤ text_limit }
    requires first { reader.old ≡ nothing_known }
    ensures taken { IfOk result (λ next. reading_from next reader.new [] ≡ reading_from 1 nothing_known (lines_of text.now)) }
    ensures fault { IfErr result (ExplainsLines (lines_of text.now)) }
{
    let mut next = 1;
    for line in Lines::new(text) {
        if let Err(fault) = reader.take_line(line) {
            return Err(fault.at(line.number));
        }
        next = line.number + 1;
    }
    Ok(next)
}
