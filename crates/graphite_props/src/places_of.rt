//! The timelines of rows, painted in the order of their places and starts.
ghost use Rattle.std.specs.Prelude.{◌≡◌, ◌<◌, ◌^◌, ℕ, length, IfOk};
ghost use Rattle.graphite_props.specs.Places.{timelines_in, AreTimelinesOf};
ghost use Rattle.graphite_props.specs.Store.{timelines_of};
ghost use Rattle.graphite_props.specs.Taken.{AreRows, IsTaken, IsFound, ArePainted};

use crate::PropRow;
use crate::hashed::{HashedPlaces, paint_timeline};
use crate::hasher::PlaceHashers;
use crate::places::Places;
use crate::taken::Taken;
use crate::turn::place_of;
use graphite_time::NoMemory;
use indexmap::IndexMap;
use std::alloc::Global;

/// The timelines of rows, each of which is painted behind the earlier ones of its place.
pub(crate) fn places_of(
    alloc: Global,
    rows: &[PropRow],
    taken: &Option<Taken>,
) -> Result<Places, NoMemory>
    requires few { length rows.now < 2 ^ 32 }
    requires rows { AreRows rows.now }
    requires found { IsFound rows.now taken.now }
    ensures stand { IfOk result (AreTimelinesOf rows.now) }
    ensures painted { IfOk result (λ places. ArePainted rows.now (λ k. Unit {0}) (timelines_in rows.now places)) }
{
    match taken {
        None => places_in_order(alloc, rows),
        Some(table) => Ok(Places::Hashed(hashed_of(alloc, rows, table)?)),
    }
}

/// The timelines of rows in their own order.
fn places_in_order(alloc: Global, rows: &[PropRow]) -> Result<Places, NoMemory>
    requires { AreRows rows.now }
    ensures stand { IfOk result (AreTimelinesOf rows.now) }
    ensures painted { IfOk result (λ places. ArePainted rows.now (λ k. Unit {0}) (timelines_in rows.now places)) }
{
    let mut places = Places::new(alloc);
    for number in 0..rows.len() {
        places.paint(alloc, &rows[..number], rows[number])?;
    }
    Ok(places)
}

/// The timelines of rows in the order of a table.
fn hashed_of(alloc: Global, rows: &[PropRow], table: &Taken) -> Result<HashedPlaces, NoMemory>
    requires rows { AreRows rows.now }
    requires taken { IsTaken rows.now table.now }
    ensures { IfOk result (λ hashed. ArePainted rows.now (λ k. Unit {0}) (timelines_of hashed)) }
{
    let mut hashed = IndexMap::with_hasher(alloc, PlaceHashers::new());
    for number in table.values() {
        let row = rows[*number as usize];
        paint_timeline(alloc, &mut hashed, place_of(&row), row.over, row.value)?;
    }
    Ok(hashed)
}
