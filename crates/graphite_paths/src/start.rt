//! The states that a program of journeys starts with.
ghost use Rattle.std.specs.Prelude.{◌≡◌, ◌+◌, ◌-◌, ◌<◌, ◌≤◌, ℕ, if◌then◌else◌, length, min, Some, IfOk, OnOk};
ghost use Rattle.graphite_time.specs.Interval.{start_of, end_of, holds};
ghost use Rattle.graphite_part.specs.Pieces.{value_at, last_end, AreRuns};
ghost use Rattle.graphite_api.specs.declared.kind.Kind.TheVariants.{Fastest};
ghost use Rattle.graphite_api.specs.Journey.{IsBestWithin};
ghost use Rattle.graphite_api.specs.Table.{vertex_is_alive};
ghost use Rattle.graphite_api.specs.TableHops.{IsHopOn};
ghost use Rattle.graphite_loop.specs.Journeys.{vertex_value};
ghost use Rattle.graphite_loop.specs.Progress.{AreInitial};
ghost use Rattle.graphite_paths.specs.declared.TheConstants.{FASTEST_WINDOW};
ghost use Rattle.graphite_paths.specs.Forward.{IsOnward};
ghost use Rattle.graphite_paths.specs.Start.{begun_in, value_in, value_of_waiting, values_of_source, start_values};

use graphite_api::{ArcTable, Kind, PathQuery};
use graphite_part::Partition;
use graphite_time::{Interval, Life, NoMemory};
use std::alloc::Global;

/// The values of journeys without hops, as the states that a run starts with. At each instant of its life
/// the query's vertex has the best value of those that begin within the window and wait there up to then,
/// if there is one; every other vertex has none. The kind is not [`Kind::Latest`]. For [`Kind::Fastest`] the window
/// has at most [`FASTEST_WINDOW`](crate::FASTEST_WINDOW) instants, since each of them makes a piece.
pub fn path_start(
    alloc: Global,
    table: &ArcTable,
    query: &PathQuery,
) -> Result<Vec<Partition<Option<u64>>>, NoMemory>
    requires vertex { query.now.vertex < length table.now.lives }
    requires kind { IsOnward query.now.kind }
    requires window { query.now.kind ≡ Fastest → query.now.until ≤ query.now.from + FASTEST_WINDOW }
    ensures init { IfOk result (λ init. AreInitial table.now.lives init.items) }
    ensures values { IfOk result (λ init. (v t : ℕ) → IsBestWithin (vertex_is_alive table.now.lives)
        (IsHopOn table.now.arcs) query.now 1 v t (vertex_value init.items v t)) }
{
    let mut init = Vec::with_capacity(alloc, table.vertices() as usize)?;
    for v in 0..table.vertices() {
        init.push(start_of_vertex(alloc, table, query, v)?)?;
    }
    // each life is a list of lifespans with gaps between them
    let _arcs = table.arcs();
    Ok(init)
}

/// The values of journeys without hops to a vertex.
fn start_of_vertex(
    alloc: Global,
    table: &ArcTable,
    query: &PathQuery,
    v: u32,
) -> Result<Partition<Option<u64>>, NoMemory>
    requires { v < length table.now.lives }
    ensures { IfOk result (AreRuns (start_values table.now.lives query.now v)) }
{
    let life = table.life(v);
    if v != query.vertex {
        return Partition::on_life(alloc, life, None);
    }
    start_of_source(alloc, life, query)
}

/// The values of journeys without hops from a vertex with this life to itself.
fn start_of_source(
    alloc: Global,
    life: &Life,
    query: &PathQuery,
) -> Result<Partition<Option<u64>>, NoMemory>
    ensures { IfOk result (AreRuns (values_of_source query.now life.now)) }
{
    let mut values = Partition::new(alloc);
    for span in life.spans() {
        add_lifespan(&mut values, query, *span)?;
    }
    Ok(values)
}

/// Adds the values over a lifespan: none up to the first instant at which a journey can begin in it, then
/// those of the journeys that do.
fn add_lifespan(
    values: &mut Partition<Option<u64>>,
    query: &PathQuery,
    span: Interval,
) -> Result<(), NoMemory>
    requires { last_end values.old ≤ start_of span }
    ensures values { OnOk result (AreRuns (λ t. if holds span t then Some (value_in query.now span t)
        else value_at values.old t) values.new) }
    ensures end { OnOk result (last_end values.new ≡ end_of span) }
{
    let Some(begun) = begun_in(query, span) else {
        return values.push(span, None);
    };
    if let Some(before) = Interval::new(span.a(), begun.a()) {
        values.push(before, None)?;
    }
    add_begun(values, query, begun)
}

/// The instants of a lifespan from the first one on that the window holds. `None` where it holds none.
fn begun_in(query: &PathQuery, span: Interval) -> Option<Interval>
    ensures { result ≡ begun_in query.now span }
{
    let first = span.a().max(query.from);
    if query.until <= first {
        return None;
    }
    Interval::new(first, span.b())
}

/// Adds the values over a lifespan from the first instant on at which a journey can begin in it.
fn add_begun(
    values: &mut Partition<Option<u64>>,
    query: &PathQuery,
    begun: Interval,
) -> Result<(), NoMemory>
    requires later { last_end values.old ≤ start_of begun }
    requires within { start_of begun < query.now.until }
    ensures values { OnOk result (AreRuns (λ t. if holds begun t then Some (Some (value_of_waiting query.now begun t))
        else value_at values.old t) values.new) }
    ensures end { OnOk result (last_end values.new ≡ end_of begun) }
{
    match query.kind {
        Kind::Reach | Kind::Cheapest => values.push(begun, Some(0)),
        Kind::Earliest | Kind::Latest => values.push(begun, Some(begun.a())),
        Kind::Fastest => add_starts(values, begun, query.until),
    }
}

/// Adds over such instants the latest start up to each of them, within the window that ends at `until`.
fn add_starts(
    values: &mut Partition<Option<u64>>,
    begun: Interval,
    until: u64,
) -> Result<(), NoMemory>
    requires later { last_end values.old ≤ start_of begun }
    requires within { start_of begun < until }
    ensures values { OnOk result (AreRuns (λ t. if holds begun t then Some (Some (min t (until - 1)))
        else value_at values.old t) values.new) }
    ensures end { OnOk result (last_end values.new ≡ end_of begun) }
{
    let last = begun.b().min(until) - 1;
    for start in begun.a()..last {
        let alone = Interval::new(start, start + 1).unwrap();
        values.push(alone, Some(start))?;
    }
    let rest = Interval::new(last, begun.b()).unwrap();
    values.push(rest, Some(last))
}
