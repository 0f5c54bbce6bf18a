//! Timelines in a table of hashes.
ghost use Rattle.std.specs.Prelude.{◌≡◌, [], OnOk, OnErr, IfOk};
ghost use Rattle.graphite_part.specs.Pieces.{value_at, painted, AreRuns};
ghost use Rattle.graphite_props.specs.Store.{timelines_of, Place, IsPainted};
ghost use Rattle.graphite_props.specs.Turn.{turn_timelines, AreInTurn};

use crate::PropRow;
use crate::hasher::PlaceHashers;
use crate::turn::place_of;
use graphite_part::Partition;
use graphite_time::{Interval, NoMemory};
use indexmap::IndexMap;
use std::alloc::Global;

/// A timeline for each place that has one.
pub(crate) type HashedPlaces = IndexMap<(u32, u32), Partition<u32>, PlaceHashers>;

/// Paints a value over the timeline of a place, which may be a new one.
pub(crate) fn paint_timeline(
    alloc: Global,
    timelines: &mut HashedPlaces,
    place: (u32, u32),
    over: Interval,
    value: u32,
) -> Result<(), NoMemory>
    ensures ok { OnOk result (IsPainted (timelines_of timelines.old) (timelines_of timelines.new) place over value) }
    ensures err { OnErr result ((other : Place) → timelines_of timelines.new other ≡ timelines_of timelines.old other) }
{
    if let Some(timeline) = timelines.get_mut(&place) {
        return timeline.paint(over, value);
    }
    timelines.insert(place, timeline_of(alloc, over, value))?;
    Ok(())
}

/// A timeline with one value.
fn timeline_of(alloc: Global, over: Interval, value: u32) -> Partition<u32>
    ensures { AreRuns (painted (value_at []) over value) result }
{
    Partition::one(alloc, over, value)
}

/// The timelines of rows in turn.
pub(crate) fn hashed_rows(alloc: Global, rows: &[PropRow]) -> Result<HashedPlaces, NoMemory>
    requires { AreInTurn rows.now }
    ensures { IfOk result (λ hashed. (place : Place) → timelines_of hashed place ≡ turn_timelines rows.now place) }
{
    let mut hashed = IndexMap::with_hasher(alloc, PlaceHashers::new());
    for row in rows {
        hashed.insert(place_of(row), Partition::one(alloc, row.over, row.value))?;
    }
    Ok(hashed)
}
