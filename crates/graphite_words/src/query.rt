//! What the words ask for: a program of the table, and the options that it takes.
ghost use Rattle.std.specs.Prelude.{◌≡◌, ◌≤◌, ℕ, None, Some, map, option_map, string_bytes, IfOk, IfSome, IsErrOf, IsSome, IsTrue};
ghost use Rattle.graphite_time.specs.declared.TheConstants.{LAST};
ghost use Rattle.graphite_words.specs.Query.{plain_given, plain_query};
ghost use Rattle.graphite_words.specs.Table.{row_of, wants_vertex};
ghost use Rattle.graphite_words.specs.Words.{query_by, query_of, query_with, TellsPaths};

use crate::fault::WordsFault;
use crate::given::Given;
use crate::made::MadeAsk;
use crate::parse::{has_dashes, line_of, matches_in};
use crate::steps::Steps;
use crate::table::{Command, command_of, row_of};
use crate::values::{instant_of, report_of, steps_of};
use graphite_base::Bytes;
use graphite_time::NoMemory;
use std::alloc::Global;

/// What a report says of the answer.
#[derive(Clone, Copy, Debug, PartialEq, Eq)]
pub enum Report {
    /// The value of each vertex in each interval of its life.
    Intervals,
    /// The same, and the journey of each value, hop by hop.
    Paths,
    /// Sums of the values.
    Sums,
    /// The value of each vertex at an instant.
    At(u64),
    /// The value of one vertex at an instant, and the journey of that value, hop by hop.
    PathAt(u64),
    /// How large the text of a made graph, of so many bytes, the graph and the report of its intervals are.
    /// It is what [`Command::Made`] tells; no words ask for it otherwise.
    Summary(u64),
}

/// What the words ask for: a program with the options that it takes.
#[derive(Drop, PartialEq, Eq)]
pub struct Query {
    pub command: Command,
    /// The name of the vertex to start from, or to lead to.
    pub vertex: Option<Bytes>,
    /// The key of the property to read.
    pub key: Option<Bytes>,
    /// The first instant of the window, up to [`graphite_time::LAST`]: 0 where it is not given.
    pub from: u64,
    /// The instant that the window ends before, up to [`graphite_time::LAST`]. `None` stands for the horizon.
    pub until: Option<u64>,
    /// The number of supersteps allowed.
    pub steps: Option<Steps>,
    pub report: Report,
    /// The name of the vertex whose path is told: there where the report is [`Report::PathAt`], and else not.
    pub told: Option<Bytes>,
    /// What the graph is made from: there where the command is [`Command::Made`], and else not.
    pub made: Option<MadeAsk>,
}

/// What the words ask for, which are those after the program's own name. They are refused exactly where
/// one is `-` or `--` alone; where `clap` finds a fault in them, a request for help among those; or
/// where they name no program of the table, give an option that it does not take or the value of one in
/// no form that it has, or leave out one that it wants, or the instant of a path. A name or a key is taken as it is.
pub fn query_of(alloc: Global, words: &[String]) -> Result<Query, WordsFault>
    ensures asked { IfOk result (λ query. query_of (map string_bytes words.now) ≡ Some (plain_query query)) }
    ensures refused { IsErrOf result WordsFault.Refused → query_of (map string_bytes words.now) ≡ None }

    // What is wanted is there, and instants are in time.
    ensures vertex { IfOk result (λ query. IsTrue (wants_vertex (row_of query.command)) → IsSome query.vertex) }
    ensures key { IfOk result (λ query. IsTrue (row_of query.command).wants_key → IsSome query.key) }
    ensures wanted_until { IfOk result (λ query. IsTrue (row_of query.command).wants_until → IsSome query.until) }
    ensures from { IfOk result (λ query. query.from ≤ LAST) }
    ensures until { IfOk result (λ query. IfSome query.until (λ t. t ≤ LAST)) }
    ensures instant { (t : ℕ) → IfOk result (λ query. query.report ≡ Report.At t → t ≤ LAST) }

    // Where one path is told, its vertex is named and its instant in time; and only programs that take paths tell them.
    ensures told { IfOk result (λ query. (t : ℕ) → query.report ≡ Report.PathAt t → IsSome query.told) }
    ensures told_instant { (t : ℕ) → IfOk result (λ query. query.report ≡ Report.PathAt t → t ≤ LAST) }
    ensures paths { IfOk result (λ query. TellsPaths query.report → IsTrue (row_of query.command).takes_paths) }

    // What a graph is made from is there for `made`, and for no other program.
    ensures made { IfOk result (λ query. query.command ≡ Command.Made → IsSome query.made) }
    ensures made_alone { IfOk result (λ query. IsSome query.made → query.command ≡ Command.Made) }
{
    if has_dashes(words) {
        return Err(WordsFault::Refused);
    }
    let line = line_of(alloc, words)?;
    let matches = matches_in(alloc, &line)?;
    query_by(alloc, Given::of_matches(&matches))
}

/// What is asked for by what is given.
fn query_by(alloc: Global, given: Given<'_>) -> Result<Query, WordsFault>
    ensures asked { IfOk result (λ query. query_by (plain_given given.entry) ≡ Some (plain_query query)) }
    ensures refused { IsErrOf result WordsFault.Refused → query_by (plain_given given.entry) ≡ None }
{
    let word = given.program.ok_or(WordsFault::Refused)?;
    let command = command_of(word.as_bytes()).ok_or(WordsFault::Refused)?;
    query_with(alloc, command, given)
}

/// A program with what is given, where its row takes that.
fn query_with(alloc: Global, command: Command, given: Given<'_>) -> Result<Query, WordsFault>
    ensures asked { IfOk result (λ query. query_with command (plain_given given.entry) ≡ Some (plain_query query)) }
    ensures refused { IsErrOf result WordsFault.Refused → query_with command (plain_given given.entry) ≡ None }
{
    if !given.fits(row_of(command)) {
        return Err(WordsFault::Refused);
    }
    let from = instant_of(given.from)?.unwrap_or(0);
    let until = instant_of(given.until)?;
    let steps = steps_of(given.steps)?;
    let report = report_of(given.report, given.at, given.path).ok_or(WordsFault::Refused)?;
    let made = given.made()?;
    Ok(Query {
        command,
        vertex: bytes_of(alloc, given.vertex())?,
        key: bytes_of(alloc, given.key)?,
        from,
        until,
        steps,
        report,
        told: bytes_of(alloc, given.path)?,
        made,
    })
}

/// A text of its own, where one is given.
fn bytes_of(alloc: Global, text: Option<&str>) -> Result<Option<Bytes>, NoMemory>
    ensures { IfOk result (λ bytes. bytes ≡ option_map (λ t. t.now) text.entry) }
{
    match text {
        Some(text) => Ok(Some(Bytes::from_slice(alloc, text.as_bytes())?)),
        None => Ok(None),
    }
}
