//! How long the fastest journey to each vertex takes, told from its values.
ghost use Rattle.std.specs.Prelude.{◌≡◌, ℕ, All, length, Some, IfOk};
ghost use Rattle.graphite_part.specs.Pieces.{value_at};
ghost use Rattle.graphite_api.specs.Duration.{IsDurationOf};
ghost use Rattle.graphite_loop.specs.Journeys.{vertex_value};
ghost use Rattle.graphite_api.specs.declared.kind.Kind.TheVariants.{Fastest};
ghost use Rattle.graphite_paths.specs.Durations.{duration_at, shorter, AreDurationsOf, StartInTime};

use graphite_api::{Duration, Kind};
use graphite_part::Partition;
use graphite_time::NoMemory;
use std::alloc::Global;

/// The durations that are told with the values of a question of this kind: those of the fastest journeys, and none where
/// they are not asked for.
pub(crate) fn durations_for(
    alloc: Global,
    kind: Kind,
    values: &[Partition<Option<u64>>],
) -> Result<Vec<Option<Duration>>, NoMemory>
    requires in_time { kind ≡ Fastest → All StartInTime values.now }
    ensures { IfOk result (λ durations. AreDurationsOf kind (length values.now) (vertex_value values.now) durations.items) }
{
    match kind {
        Kind::Fastest => durations_of(alloc, values),
        Kind::Reach | Kind::Earliest | Kind::Cheapest | Kind::Latest => Ok(Vec::new(alloc)),
    }
}

/// The duration of the fastest journey to each vertex, of which the values are the latest starts: the least time from a
/// start to its instant, and of those as short the first. `None` where a vertex has no value. No start is after its instant.
pub(crate) fn durations_of(
    alloc: Global,
    values: &[Partition<Option<u64>>],
) -> Result<Vec<Option<Duration>>, NoMemory>
    requires in_time { All StartInTime values.now }
    ensures len { IfOk result (λ durations. length durations.items ≡ length values.now) }
    ensures durations { IfOk result (λ durations. (v : ℕ) → IsDurationOf
        (λ t x. vertex_value values.now v t ≡ Some x) (duration_at durations.items v)) }
{
    let mut durations = Vec::with_capacity(alloc, values.len())?;
    for of_vertex in values {
        durations.push(duration_of(of_vertex))?;
    }
    Ok(durations)
}

/// The duration by the values of one vertex.
fn duration_of(values: &Partition<Option<u64>>) -> Option<Duration>
    requires { StartInTime values.now }
    ensures { IsDurationOf (λ t x. value_at values.now t ≡ Some (Some x)) result }
{
    let mut shortest = None;
    for piece in values.pieces() {
        if let Some(start) = piece.value {
            let arrive = piece.over.a();
            let next = Duration {
                length: arrive - start,
                start,
                arrive,
            };
            shortest = Some(shorter(shortest, next));
        }
    }
    shortest
}

/// The shorter of two durations; where they are as long, the first.
fn shorter(first: Option<Duration>, next: Duration) -> Duration
    ensures { result ≡ shorter first next }
{
    match first {
        Some(first) if first.length <= next.length => first,
        _ => next,
    }
}
