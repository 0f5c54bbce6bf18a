//! Properties with their values by instant.
ghost use Rattle.std.specs.Prelude.{◌≡◌, ◌<◌, ◌≤◌, ◌↔◌, ◌++◌, ℕ, List, [], ◌∷◌, not, true, false, length, map, slice_get, is_some, Err, Some, All, IfSome, OnOk, OnErr, IfOk};
ghost use Rattle.std.specs.List.{position_or_len};
ghost use Rattle.std.specs.Str.{bytes_eq};
ghost use Rattle.graphite_part.specs.Pieces.{value_at};
ghost use Rattle.graphite_text.specs.declared.limits.TheConstants.{PROPERTY_LIMIT};
ghost use Rattle.graphite_text.specs.Graph.{property_at};
ghost use Rattle.graphite_text.specs.Reading.{is_apart};
ghost use Rattle.graphite_text.specs.Spans.{as_span};
ghost use Rattle.graphite_props.specs.declared.fault.AddFault.TheVariants.{Overlap};
ghost use Rattle.graphite_props.specs.Properties.{has_property, keys_of, property};
ghost use Rattle.graphite_props.specs.Rows.{properties_of};

use crate::keys::{add_key, next_number};
use crate::meets::meets;
use crate::places::Places;
use crate::places_of::places_of;
use crate::{AddFault, PropRow, Rows};
use graphite_part::Partition;
use graphite_time::{Interval, NoMemory};
use indexmap::IndexSet;
use std::alloc::Global;
use std::marker::Model;

/// Properties in the order of adding, those of one owner and key without overlap. Keys are numbered
/// from 0, in the order of their first appearance, and stay in the text that they were read from.
#[derive(Drop)]
pub struct Timelines<'a> {
    keys: IndexSet<&'a [u8]>,
    rows: Vec<PropRow>,
    /// The values by instant, for each owner and number of a key that have some.
    places: Places,
}

impl<'a> Model for Timelines<'a> {
    ghost use Rattle.std.specs.Prelude.{List, map};
    ghost use Rattle.graphite_text.specs.Graph.{PlainProperty};
    ghost use Rattle.graphite_props.specs.Rows.{properties_of};
    ghost use Rattle.graphite_props.specs.Places.{AreKept};

    ghost Value = { List PlainProperty };

    ghost view = { λ kept. properties_of (map (λ key. key.now) kept.keys.keys) kept.rows.items };

    ghost invariant = { λ kept. AreKept (map (λ key. key.now) kept.keys.keys) kept.rows.items kept.places };
}

impl<'a> Timelines<'a> {
    /// No properties. It takes no memory.
    pub fn new(alloc: Global) -> Timelines<'a>
        ensures { result ≡ [] }
    {
        Timelines {
            keys: IndexSet::new(alloc),
            rows: Vec::new(alloc),
            places: Places::new(alloc),
        }
    }

    /// The same properties, with their values by instant, which are made in the order of time. Time in
    /// proportion to n log n for n rows, whatever their order.
    pub fn of_rows(rows: Rows<'a>) -> Result<Timelines<'a>, NoMemory>
        ensures { IfOk result (λ timelines. timelines ≡ rows.entry) }
    {
        let Rows { keys, rows, taken } = rows;
        let places = places_of(*rows.allocator(), &rows, &taken)?;
        Ok(Timelines { keys, rows, places })
    }

    /// Adds a property at the end. `Overlap` exactly where one of this owner and key holds at an
    /// instant of `over`: one that only touches it does not. After a refusal nothing has changed.
    pub fn add(
        &mut self,
        owner: u32,
        key: &'a [u8],
        over: Interval,
        value: u32,
    ) -> Result<(), AddFault>
        requires { length self.old < PROPERTY_LIMIT }
        ensures overlap { result ≡ Err Overlap ↔ is_apart self.old owner key.now (as_span over) ≡ false }
        ensures apart { OnOk result (is_apart self.old owner key.now (as_span over) ≡ true) }
        ensures ok { OnOk result (self.new ≡ self.old ++ property owner key.now over value ∷ []) }
        ensures err { OnErr result (self.new ≡ self.old) }
    {
        let number = self.number_of(key);
        if self.overlaps_at(owner, number, over) {
            return Err(AddFault::Overlap);
        }
        Ok(self.append(owner, key, number, over, value)?)
    }

    /// The values that an owner has under a key, by instant. `None` exactly where no property has
    /// this owner and key.
    pub fn timeline(&self, owner: u32, key: &[u8]) -> Option<&Partition<u32>>
        ensures known { is_some result ≡ has_property self.now owner key.now }
        ensures values { IfSome result (λ timeline. (t : ℕ)
            → value_at timeline.now t ≡ property_at self.now owner key.now t) }
    {
        self.timeline_at(owner, self.number_of(key))
    }

    /// The properties in the order of adding, with their keys by number.
    pub fn rows(&self) -> &[PropRow]
        ensures rows { properties_of (keys_of self.now) result.now ≡ self.now }
        ensures count { length result.now ≡ length self.now }
        ensures in_limit { length self.now ≤ PROPERTY_LIMIT }
        ensures keys { All (λ row. row.key < length (keys_of self.now)) result.now }
    {
        &self.rows
    }

    /// The key with a number.
    pub fn key_name(&self, key: u32) -> &[u8]
        requires { key < length (keys_of self.now) }
        ensures { slice_get (keys_of self.now) key ≡ Some result.now }
    {
        self.keys.as_slice()[key as usize]
    }

    /// Whether a property of this owner and key holds at an instant of `over`.
    pub fn overlaps(&self, owner: u32, key: &[u8], over: Interval) -> bool
        ensures { result ≡ not (is_apart self.now owner key.now (as_span over)) }
    {
        self.overlaps_at(owner, self.number_of(key), over)
    }

    /// The number that a key has, or that it gets when it is added.
    fn number_of(&self, key: &[u8]) -> u32
        ensures { result ≡ position_or_len (bytes_eq key.now) (keys_of self.now) }
    {
        next_number(&self.keys, key)
    }

    /// The same as `timeline`, for the key with this number.
    fn timeline_at(&self, owner: u32, number: u32) -> Option<&Partition<u32>>
        ensures known { (key : List ℕ) → number ≡ position_or_len (bytes_eq key) (keys_of self.now)
            → is_some result ≡ has_property self.now owner key }
        ensures values { (key : List ℕ) → number ≡ position_or_len (bytes_eq key) (keys_of self.now)
            → IfSome result (λ timeline. (t : ℕ) → value_at timeline.now t ≡ property_at self.now owner key t) }
    {
        self.places.timeline(&self.rows, (owner, number))
    }

    /// The same as `overlaps`, for the key with this number.
    fn overlaps_at(&self, owner: u32, number: u32, over: Interval) -> bool
        ensures { (key : List ℕ) → number ≡ position_or_len (bytes_eq key) (keys_of self.now)
            → result ≡ not (is_apart self.now owner key (as_span over)) }
    {
        match self.timeline_at(owner, number) {
            Some(timeline) => meets(timeline.pieces(), over),
            None => false,
        }
    }

    /// Adds a property that does not overlap those of its owner and key, of which it has the number.
    fn append(
        &mut self,
        owner: u32,
        key: &'a [u8],
        number: u32,
        over: Interval,
        value: u32,
    ) -> Result<(), NoMemory>
        requires room { length self.old < PROPERTY_LIMIT }
        requires number { number ≡ position_or_len (bytes_eq key.now) (keys_of self.old) }
        requires apart { is_apart self.old owner key.now (as_span over) ≡ true }
        ensures ok { OnOk result (self.new ≡ self.old ++ property owner key.now over value ∷ []) }
        ensures err { OnErr result (self.new ≡ self.old) }
    {
        self.rows.reserve(1)?;
        self.keys.reserve(1)?;
        let row = PropRow {
            owner,
            key: number,
            over,
            value,
        };
        let alloc = *self.rows.allocator();
        self.places.paint(alloc, &self.rows, row)?;
        // the room for the rest is there, so from here on nothing fails
        add_key(&mut self.keys, key, number);
        self.rows.push(row).unwrap();
        Ok(())
    }
}
