//! The journeys without hops.
ghost use Rattle.std.specs.Prelude.{◌≡◌, ◌↔◌, ◌<◌, length, option_map, IsTrue, Some, []};
ghost use Rattle.graphite_api.specs.Journey.{journey_value};
ghost use Rattle.graphite_api.specs.Table.{vertex_is_alive};
ghost use Rattle.graphite_api.specs.TableHops.{IsHopOn};
ghost use Rattle.graphite_witness.specs.Answered.{value_for, IsAnswered};
ghost use Rattle.graphite_witness.specs.Found.{Stands};
ghost use Rattle.graphite_witness.specs.Standing.{if_between, standing_from};

use crate::Answered;
use graphite_api::{Kind, PathQuery};
use graphite_time::Interval;

/// Whether a journey without hops has the best value for `v` at `t`, which is `value`.
pub(crate) fn stands(answered: &Answered<'_>, v: u32, t: u64, value: u64) -> bool
    requires answered { IsAnswered answered.now.table.now.lives answered.now.table.now.arcs answered.now.query answered.now.values.now }
    requires vertex { v < length answered.now.table.now.lives }
    requires value { value_for answered.now.values.now v t ≡ Some value }
    ensures { IsTrue result ↔ Stands
        (vertex_is_alive answered.now.table.now.lives) (IsHopOn answered.now.table.now.arcs) answered.now.query v t }
{
    if v != answered.query.vertex {
        return false;
    }
    // each life is a list of lifespans with gaps between them
    let _arcs = answered.table.arcs();
    let Some(span) = answered.table.life(v).stay(t) else {
        return false;
    };
    let Some(at) = standing_from(&answered.query, span, t) else {
        return false;
    };
    value_of_standing(answered.query.kind, at) == value
}

/// The instant at the query's vertex of the preferred journey without hops for it at `t`, an instant of this lifespan.
fn standing_from(query: &PathQuery, span: Interval, t: u64) -> Option<u64>
    ensures { result ≡ standing_from query.now.kind query.now.from query.now.until span t }
{
    let first = span.a().max(query.from);
    let last = t.min(query.until.saturating_sub(1));
    match query.kind {
        Kind::Reach | Kind::Earliest | Kind::Cheapest => if_between(0, last, first),
        Kind::Fastest => if_between(first, t, last),
        Kind::Latest => if_between(
            t.max(query.from),
            query.until,
            span.b().min(query.until).saturating_sub(1),
        ),
    }
}

/// An instant, where it is from the first of these on and up to the last.
fn if_between(first: u64, last: u64, at: u64) -> Option<u64>
    ensures { result ≡ if_between first last at }
{
    (first <= at && at <= last).then_some(at)
}

/// The value of a journey without hops with this instant.
fn value_of_standing(kind: Kind, at: u64) -> u64
    ensures { result ≡ journey_value kind at [] }
{
    match kind {
        Kind::Reach | Kind::Cheapest => 0,
        Kind::Earliest | Kind::Fastest | Kind::Latest => at,
    }
}
