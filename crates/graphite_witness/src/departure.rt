//! Where a journey can depart along an arc.
ghost use Rattle.std.specs.Prelude.{◌≡◌, ◌≢◌, ◌<◌, ◌≤◌, ℕ, All, length, IsTrue};
ghost use Rattle.std.specs.Option.{option_flatten};
ghost use Rattle.graphite_time.specs.Interval.{start_of, end_of};
ghost use Rattle.graphite_part.specs.Pieces.{value_at, IsChain};
ghost use Rattle.graphite_api.specs.TableHops.{hop_along};
ghost use Rattle.graphite_api.specs.Hop.{Hop};
ghost use Rattle.graphite_witness.specs.Answered.{value_for};
ghost use Rattle.graphite_witness.specs.Ends.{becomes, can_end};
ghost use Rattle.graphite_witness.specs.Found.{IsFirst, IsFirstOfAll};

use crate::answered::value_of;
use graphite_api::{Arc, Kind};
use graphite_part::{Partition, Piece};
use graphite_time::Interval;

/// The first departure along the arc that can end a best journey, for an instant `t` whose best value is `value`.
pub(crate) fn departure_along(
    values: &[Partition<Option<u64>>],
    kind: Kind,
    arc: &Arc,
    t: u64,
    value: u64,
) -> Option<u64>
    requires from { arc.now.from < length values.now }
    ensures { IsFirstOfAll (λ d. can_end values.now kind t value arc.now d) result }
{
    if !arc.stay.holds(t) {
        return None;
    }
    let until = arc
        .over
        .b()
        .min((t + 1).saturating_sub(u64::from(arc.time)));
    let over = Interval::new(arc.over.a(), until)?;
    match kind {
        Kind::Earliest => departure_arriving(values, arc, over, value),
        _ => first_becoming(values[arc.from as usize].pieces(), kind, arc, over, value),
    }
}

/// The departure among these that arrives at `value`, where its vertex has a value then.
fn departure_arriving(
    values: &[Partition<Option<u64>>],
    arc: &Arc,
    over: Interval,
    value: u64,
) -> Option<u64>
    requires from { arc.now.from < length values.now }
    ensures { IsFirst (λ d. becomes Kind.Earliest value (hop_along arc.now d) (value_for values.now arc.now.from d)) (start_of over) (end_of over) result }
{
    let depart = value.checked_sub(u64::from(arc.time))?;
    let there = over.holds(depart) && value_of(values, arc.from, depart).is_some();
    there.then_some(depart)
}

/// The first of these instants at which the value becomes `value` along the arc, where the arrival does not count.
fn first_becoming(
    pieces: &[Piece<Option<u64>>],
    kind: Kind,
    arc: &Arc,
    over: Interval,
    value: u64,
) -> Option<u64>
    requires pieces { IsChain pieces.now }
    requires kind { kind ≢ Kind.Earliest }
    ensures { IsFirst (λ d. becomes kind value (hop_along arc.now d) (option_flatten (value_at pieces.now d))) (start_of over) (end_of over) result }
{
    let piece = pieces_within(pieces, over)
        .iter()
        .find(|piece| is_becoming(kind, arc.cost, piece.value, value))?;
    Some(piece.over.a().max(over.a()))
}

/// Whether a value becomes `value` along an arc of this cost, where the arrival does not count.
fn is_becoming(kind: Kind, cost: u32, before: Option<u64>, value: u64) -> bool
    requires kind { kind ≢ Kind.Earliest }
    ensures { (hop : Hop) → hop.cost ≡ cost → result ≡ becomes kind value hop before }
{
    match (kind, before) {
        (_, None) => false,
        (Kind::Reach | Kind::Earliest, Some(_)) => value == 0,
        (Kind::Cheapest, Some(before)) => value.checked_sub(u64::from(cost)) == Some(before),
        (Kind::Fastest | Kind::Latest, Some(before)) => before == value,
    }
}

/// The pieces that have an instant in common with the interval, found by halving.
fn pieces_within(pieces: &[Piece<Option<u64>>], over: Interval) -> &[Piece<Option<u64>>]
    requires { IsChain pieces.now }
    ensures chain { IsChain result.now }
    ensures values { (t : ℕ) → start_of over ≤ t → t < end_of over → value_at result.now t ≡ value_at pieces.now t }
    ensures meet { All (λ piece. (start_of piece.over < end_of over) × (start_of over < end_of piece.over)) result.now }
{
    let from = over.a();
    let until = over.b();
    let start = pieces.partition_point(|piece| piece.over.b() <= from);
    let later = &pieces[start..];
    let end = later.partition_point(|piece| piece.over.a() < until);
    &later[..end]
}
