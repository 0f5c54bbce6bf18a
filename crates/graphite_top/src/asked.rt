//! What is asked of a graph.
ghost use Rattle.std.specs.Prelude.{◌≡◌, ◌<◌, ℕ, length, IfOk, IfSome};
ghost use Rattle.graphite_text.specs.Graph.{PlainGraph};
ghost use Rattle.graphite_words.specs.Query.{plain_query};
ghost use Rattle.graphite_top.specs.Output.{asked_by, asked_of, in_graph, in_life, in_time, in_window, is_told_alive, is_told_in_time, journeys_of, key_of, path_asked, source_of, is_short, AsksJourneys, CanBeRefused, IsAskedBy, IsAskedOf, IsPath, IsRefused, IsToldIn};

use crate::told::Whose;
use graphite_api::{Kind, PathQuery};
use graphite_base::Bytes;
use graphite_graph::Graph;
use graphite_paths::FASTEST_WINDOW;
use graphite_snap::SnapQuery;
use graphite_time::NoMemory;
use graphite_words::{Command, Query, Report};
use std::alloc::Global;

/// What a query asks of a graph.
#[derive(Drop, PartialEq, Eq)]
pub enum Asked {
    /// The canonical text of the graph.
    Text,
    /// A program of snapshots.
    Snap(SnapQuery),
    /// A program of journeys.
    Path(PathQuery),
    /// To start from or to lead to a vertex that the graph does not have.
    NoVertex,
    /// To tell of an instant that is not below the graph's horizon, or to look at a window that begins or ends after it.
    NoInstant,
    /// To look at a window that holds no instant, or too many for the fastest journeys.
    NoWindow,
    /// To tell the journey of a vertex at an instant at which it is not alive.
    NotAlive,
}

/// What a query asks of a graph. Refused only where memory is short.
pub fn asked_of(alloc: Global, query: &Query, graph: &Graph<'_>) -> Result<Asked, NoMemory>
    ensures asked { IfOk result (λ asked. asked ≡ asked_of (plain_query query.now) graph.now) }
    ensures in_range { IfOk result (IsAskedOf graph.now) }
    ensures refused { IfOk result (λ asked. IsRefused asked → CanBeRefused (Some (plain_query query.now))) }
    ensures path { IfOk result (λ asked. IsPath asked → AsksJourneys (plain_query query.now)) }
{
    let until = query.until.unwrap_or(graph.horizon());
    let window = Window {
        from: query.from,
        until,
    };
    let source = source_of(query, graph);
    let asked = asked_by(alloc, query.command, source, key_of(query), window)?;
    let journeys = journeys_of(query, graph);
    let asked = in_graph(query.report, journeys, asked);
    let asked = in_time(query.report, graph.horizon(), asked);
    Ok(in_life(graph, journeys, asked))
}

/// Whose written journeys a query asks for: all, or that of one vertex of the graph at an instant.
pub fn journeys_of(query: &Query, graph: &Graph<'_>) -> Option<Whose>
    ensures journeys { result ≡ journeys_of (plain_query query.now) graph.now }
    ensures in_range { IsToldIn graph.now result }
{
    match query.report {
        Report::Paths => Some(Whose::All),
        Report::PathAt(t) => {
            let vertex = graph.find_vertex(query.told.as_ref()?.as_slice())?;
            Some(Whose::One(vertex, t))
        }
        Report::Intervals | Report::Sums | Report::At(_) | Report::Summary(_) => None,
    }
}

/// What is asked, where the vertex whose journey is to be told, if there is one, is one of the graph.
fn in_graph(report: Report, journeys: Option<Whose>, asked: Asked) -> Asked
    ensures { result ≡ in_graph report journeys asked }
{
    match (report, journeys) {
        (Report::PathAt(_), None) => Asked::NoVertex,
        _ => asked,
    }
}

/// A question about journeys, where that vertex is alive then.
fn in_life(graph: &Graph<'_>, journeys: Option<Whose>, asked: Asked) -> Asked
    requires { IsToldIn graph.now journeys }
    ensures { result ≡ in_life graph.now journeys asked }
{
    match asked {
        Asked::Path(query) => {
            if is_told_alive(graph, journeys) {
                Asked::Path(query)
            } else {
                Asked::NotAlive
            }
        }
        asked => asked,
    }
}

/// Whether the vertex whose journey is to be told, where one alone is, is alive at the instant.
fn is_told_alive(graph: &Graph<'_>, journeys: Option<Whose>) -> bool
    requires { IsToldIn graph.now journeys }
    ensures { result ≡ is_told_alive graph.now journeys }
{
    match journeys {
        Some(Whose::One(vertex, t)) => graph.vertex_life(vertex).holds(t),
        Some(Whose::All) | None => true,
    }
}

/// Whether the instant that is to be told of, where there is one, is below the horizon.
fn is_told_in_time(report: Report, horizon: u64) -> bool
    ensures { result ≡ is_told_in_time report horizon }
{
    match report {
        Report::At(t) | Report::PathAt(t) => t < horizon,
        Report::Intervals | Report::Paths | Report::Sums | Report::Summary(_) => true,
    }
}

/// What is asked, where all instants that are given are below the horizon; a window may end at it.
fn in_time(report: Report, horizon: u64, asked: Asked) -> Asked
    ensures { result ≡ in_time report horizon asked }
{
    let told = is_told_in_time(report, horizon);
    match asked {
        Asked::Snap(program) => {
            if told {
                Asked::Snap(program)
            } else {
                Asked::NoInstant
            }
        }
        Asked::Path(query) => {
            if told && query.from < horizon && query.until <= horizon {
                in_window(query)
            } else {
                Asked::NoInstant
            }
        }
        asked => asked,
    }
}

/// Whether a window of so many instants is short enough: only that of the fastest journeys has a limit.
fn is_short(kind: Kind, length: u64) -> bool
    ensures { result ≡ is_short kind length }
{
    match kind {
        Kind::Fastest => length <= FASTEST_WINDOW,
        Kind::Reach | Kind::Earliest | Kind::Cheapest | Kind::Latest => true,
    }
}

/// A question about journeys, where its window holds an instant and is short enough.
fn in_window(query: PathQuery) -> Asked
    ensures { result ≡ in_window query }
{
    let length = query.until.saturating_sub(query.from);
    if query.from < query.until && is_short(query.kind, length) {
        Asked::Path(query)
    } else {
        Asked::NoWindow
    }
}

/// The key that a query names; a query without one has the empty key, which no property has.
fn key_of(query: &Query) -> &[u8]
    ensures { result.now ≡ key_of (plain_query query.now) }
{
    match &query.key {
        Some(key) => key.as_slice(),
        None => &[],
    }
}

/// The number of the vertex that a query names, if it names one of the graph.
fn source_of(query: &Query, graph: &Graph<'_>) -> Option<u32>
    ensures number { result ≡ source_of (plain_query query.now) graph.now }
    ensures in_range { IfSome result (λ v. v < length graph.now.vertices) }
{
    let name = query.vertex.as_ref()?;
    graph.find_vertex(name.as_slice())
}

/// The instants from one on and before another.
#[derive(Clone, Copy)]
struct Window {
    from: u64,
    until: u64,
}

/// A question of this kind about the journeys from a vertex within a window.
fn path_asked(kind: Kind, source: Option<u32>, window: Window) -> Asked
    ensures { result ≡ path_asked kind source window.from window.until }
{
    match source {
        Some(vertex) => Asked::Path(PathQuery {
            kind,
            vertex,
            from: window.from,
            until: window.until,
        }),
        None => Asked::NoVertex,
    }
}

/// What a command asks, where the vertex that it was given has this number, or is not one of the graph, and
/// where it was given this key and this window.
fn asked_by(
    alloc: Global,
    command: Command,
    source: Option<u32>,
    key: &[u8],
    window: Window,
) -> Result<Asked, NoMemory>
    ensures asked { IfOk result (λ asked. asked ≡ asked_by command source key.now window.from window.until) }
    ensures in_range { (graph : PlainGraph) → IfSome source (λ v. v < length graph.vertices)
        → IfOk result (IsAskedBy graph) }
{
    Ok(match command {
        Command::Degree => Asked::Snap(SnapQuery::Degree),
        Command::Bfs => match source {
            Some(source) => Asked::Snap(SnapQuery::Bfs(source)),
            None => Asked::NoVertex,
        },
        Command::Components => Asked::Snap(SnapQuery::Components),
        Command::Max => Asked::Snap(SnapQuery::Max(Bytes::from_slice(alloc, key)?)),
        Command::Distance => match source {
            Some(source) => Asked::Snap(SnapQuery::Distance(source)),
            None => Asked::NoVertex,
        },
        Command::Rank => Asked::Snap(SnapQuery::Rank),
        Command::Reach => path_asked(Kind::Reach, source, window),
        Command::Earliest => path_asked(Kind::Earliest, source, window),
        Command::Cheapest => path_asked(Kind::Cheapest, source, window),
        Command::Fastest => path_asked(Kind::Fastest, source, window),
        Command::Latest => path_asked(Kind::Latest, source, window),
        Command::Show | Command::Made => Asked::Text,
    })
}
