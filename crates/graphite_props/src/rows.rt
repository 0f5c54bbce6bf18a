//! Properties while a text is read: in any order of their owners and intervals, none is tried against
//! more than a few others.
ghost use Rattle.std.specs.Prelude.{◌≡◌, ◌<◌, ◌≤◌, ◌↔◌, ◌++◌, ℕ, List, [], ◌∷◌, not, true, false, length, Err, OnOk, OnErr};
ghost use Rattle.std.specs.List.{position_or_len};
ghost use Rattle.std.specs.Str.{bytes_eq};
ghost use Rattle.graphite_text.specs.declared.limits.TheConstants.{PROPERTY_LIMIT};
ghost use Rattle.graphite_text.specs.Reading.{is_apart};
ghost use Rattle.graphite_text.specs.Spans.{as_span};
ghost use Rattle.graphite_props.specs.declared.fault.AddFault.TheVariants.{Overlap};
ghost use Rattle.graphite_props.specs.Properties.{keys_of, property};
ghost use Rattle.graphite_props.specs.Rows.{properties_of};

use crate::keys::{add_key, next_number};
use crate::taken::{Taken, is_taken, take_row};
use crate::{AddFault, PropRow};
use graphite_time::{Interval, NoMemory};
use indexmap::IndexSet;
use std::alloc::Global;
use std::marker::Model;

/// Properties in the order of adding, those of one owner and key without overlap, whose values by
/// instant are not asked for yet: [`crate::Timelines::of_rows`] makes them. Keys are numbered from 0,
/// in the order of their first appearance, and stay in the text that they were read from.
#[derive(Drop)]
pub struct Rows<'a> {
    pub(crate) keys: IndexSet<&'a [u8]>,
    pub(crate) rows: Vec<PropRow>,
    /// What the rows take of time.
    pub(crate) taken: Option<Taken>,
}

impl<'a> Model for Rows<'a> {
    ghost use Rattle.std.specs.Prelude.{List, map};
    ghost use Rattle.graphite_text.specs.Graph.{PlainProperty};
    ghost use Rattle.graphite_props.specs.Rows.{properties_of};
    ghost use Rattle.graphite_props.specs.Taken.{AreTaken};

    ghost Value = { List PlainProperty };

    ghost view = { λ kept. properties_of (map (λ key. key.now) kept.keys.keys) kept.rows.items };

    ghost invariant = { λ kept. AreTaken (map (λ key. key.now) kept.keys.keys) kept.rows.items kept.taken };
}

impl<'a> Rows<'a> {
    /// No properties. It takes no memory.
    pub fn new(alloc: Global) -> Rows<'a>
        ensures { result ≡ [] }
    {
        Rows {
            keys: IndexSet::new(alloc),
            rows: Vec::new(alloc),
            taken: None,
        }
    }

    /// Adds a property at the end. `Overlap` exactly where one of this owner and key holds at an
    /// instant of `over`: one that only touches it does not. After a refusal nothing has changed.
    pub fn add(
        &mut self,
        owner: u32,
        key: &'a [u8],
        over: Interval,
        value: u32,
    ) -> Result<(), AddFault>
        requires { length self.old < PROPERTY_LIMIT }
        ensures overlap { result ≡ Err Overlap ↔ is_apart self.old owner key.now (as_span over) ≡ false }
        ensures apart { OnOk result (is_apart self.old owner key.now (as_span over) ≡ true) }
        ensures ok { OnOk result (self.new ≡ self.old ++ property owner key.now over value ∷ []) }
        ensures err { OnErr result (self.new ≡ self.old) }
    {
        let number = self.number_of(key);
        if self.overlaps_at(owner, number, over) {
            return Err(AddFault::Overlap);
        }
        Ok(self.append(owner, key, number, over, value)?)
    }

    /// Whether a property of this owner and key holds at an instant of `over`.
    pub fn overlaps(&self, owner: u32, key: &[u8], over: Interval) -> bool
        ensures { result ≡ not (is_apart self.now owner key.now (as_span over)) }
    {
        self.overlaps_at(owner, self.number_of(key), over)
    }

    /// The properties in the order of adding, with their keys by number.
    pub fn rows(&self) -> &[PropRow]
        ensures rows { properties_of (keys_of self.now) result.now ≡ self.now }
        ensures count { length result.now ≡ length self.now }
        ensures in_limit { length self.now ≤ PROPERTY_LIMIT }
    {
        &self.rows
    }

    /// The number that a key has, or that it gets when it is added.
    fn number_of(&self, key: &[u8]) -> u32
        ensures { result ≡ position_or_len (bytes_eq key.now) (keys_of self.now) }
    {
        next_number(&self.keys, key)
    }

    /// The same as `overlaps`, for the key with this number.
    fn overlaps_at(&self, owner: u32, number: u32, over: Interval) -> bool
        ensures { (key : List ℕ) → number ≡ position_or_len (bytes_eq key) (keys_of self.now)
            → result ≡ not (is_apart self.now owner key (as_span over)) }
    {
        is_taken(&self.taken, &self.rows, (owner, number), over)
    }

    /// Adds a property that does not overlap those of its owner and key, of which it has the number.
    fn append(
        &mut self,
        owner: u32,
        key: &'a [u8],
        number: u32,
        over: Interval,
        value: u32,
    ) -> Result<(), NoMemory>
        requires room { length self.old < PROPERTY_LIMIT }
        requires number { number ≡ position_or_len (bytes_eq key.now) (keys_of self.old) }
        requires apart { is_apart self.old owner key.now (as_span over) ≡ true }
        ensures ok { OnOk result (self.new ≡ self.old ++ property owner key.now over value ∷ []) }
        ensures err { OnErr result (self.new ≡ self.old) }
    {
        self.rows.reserve(1)?;
        self.keys.reserve(1)?;
        let row = PropRow {
            owner,
            key: number,
            over,
            value,
        };
        let alloc = *self.rows.allocator();
        take_row(alloc, &mut self.taken, &self.rows, row)?;
        // the room for the rest is there, so from here on nothing fails
        add_key(&mut self.keys, key, number);
        self.rows.push(row).unwrap();
        Ok(())
    }
}
