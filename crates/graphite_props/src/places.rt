//! A timeline for each place: an owner with the number of a key.
ghost use Rattle.std.specs.Prelude.{◌≡◌, [], ◌∷◌, ◌++◌, OnOk, OnErr, None};
ghost use Rattle.std.specs.Option.{option_copied};
ghost use Rattle.graphite_props.specs.Store.{Place, IsPainted};
ghost use Rattle.graphite_props.specs.Turn.{place_of};
ghost use Rattle.graphite_props.specs.Places.{timelines_in, AreTimelinesOf};

use crate::PropRow;
use crate::hashed::{HashedPlaces, hashed_rows, paint_timeline};
use crate::turn::{follows, place_of, row_at};
use graphite_part::Partition;
use graphite_time::NoMemory;
use std::alloc::Global;

/// The timelines of rows. Properties mostly come owner by owner, and those of an owner key by key, one
/// for each: then the rows say where the timelines stand, and a table of hashes is needed only from
/// the first row on that is out of turn.
#[derive(Drop)]
pub(crate) enum Places {
    InTurn(Vec<Partition<u32>>),
    Hashed(HashedPlaces),
}

impl Places {
    /// The timelines of no rows. They take no memory.
    pub(crate) fn new(alloc: Global) -> Places
        ensures kept { AreTimelinesOf [] result }
        ensures none { (place : Place) → timelines_in [] result place ≡ None }
    {
        Places::InTurn(Vec::new(alloc))
    }

    /// The timeline of a place, where a row has it.
    pub(crate) fn timeline(&self, rows: &[PropRow], place: (u32, u32)) -> Option<&Partition<u32>>
        requires { AreTimelinesOf rows.now self.now }
        ensures { option_copied result ≡ timelines_in rows.now self.now place }
    {
        match self {
            Places::InTurn(timelines) => match row_at(rows, place) {
                Some(number) => timelines.get(number),
                None => None,
            },
            Places::Hashed(timelines) => timelines.get(&place),
        }
    }

    /// Paints the value of a row that will be added behind the others over the timeline of its place.
    pub(crate) fn paint(
        &mut self,
        alloc: Global,
        rows: &[PropRow],
        row: PropRow,
    ) -> Result<(), NoMemory>
        requires { AreTimelinesOf rows.now self.old }
        ensures ok { OnOk result (AreTimelinesOf (rows.now ++ row ∷ []) self.new) }
        ensures painted { OnOk result (IsPainted (timelines_in rows.now self.old)
            (timelines_in (rows.now ++ row ∷ []) self.new) (place_of row) row.over row.value) }
        ensures err { OnErr result (AreTimelinesOf rows.now self.new) }
        ensures same { OnErr result ((other : Place)
            → timelines_in rows.now self.new other ≡ timelines_in rows.now self.old other) }
    {
        let place = place_of(&row);
        let mut hashed = match self {
            Places::Hashed(timelines) => {
                return paint_timeline(alloc, timelines, place, row.over, row.value);
            }
            Places::InTurn(timelines) => {
                if follows(rows, place) {
                    timelines.push(Partition::one(alloc, row.over, row.value))?;
                    return Ok(());
                }
                hashed_rows(alloc, rows)?
            }
        };
        paint_timeline(alloc, &mut hashed, place, row.over, row.value)?;
        *self = Places::Hashed(hashed);
        Ok(())
    }
}
