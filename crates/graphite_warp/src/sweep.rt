//! Time-warp one triple at a time: one walk over the ends of the messages.
ghost use Rattle.std.specs.Prelude.{◌≡◌, [], IfOk, OnOk};
ghost use Rattle.std.specs.List.Sorted.{IsSorted};
ghost use Rattle.graphite_part.specs.Pieces.{value_at, AreRuns};
ghost use Rattle.graphite_warp.specs.declared.touch.Touch.TheVariants.{All};
ghost use Rattle.graphite_warp.specs.Aligned.{IsNext};
ghost use Rattle.graphite_warp.specs.Warp.{warped};

use crate::Message;
use crate::changes::push_changes;
use crate::group::Group;
use crate::parts::{Changes, fill_parts};
use crate::sides::Sides;
use graphite_part::{Partition, Piece, Plain};
use graphite_time::NoMemory;
use std::alloc::Global;
use std::marker::Model;

/// The triples of a vertex, handed out one at a time, with one group at hand: so memory follows the
/// messages and the pieces, and not the groups. The memory that one vertex took serves the next.
#[derive(Drop)]
pub struct Sweep<S: Plain, M: Plain> {
    alloc: Global,
    sides: Sides<M>,
    changes: Vec<u64>,
    // the triples without their notes, of which `place` were handed out
    parts: Vec<Piece<S>>,
    place: usize,
    group: Group<M>,
}

impl<S: Plain, M: Plain> Model for Sweep<S, M> {
    ghost use Rattle.graphite_warp.specs.Aligned.{Aligned};
    ghost use Rattle.graphite_warp.specs.Parts.{triples_of, IsCarried};

    ghost Value = { Aligned S M };

    ghost view = { λ sweep. record {
      triples = triples_of M.cmp sweep.sides.starts sweep.parts.items;
      place = sweep.place;
      group = sweep.group.notes.items;
    } };

    ghost invariant = { λ sweep. IsCarried M.cmp sweep.sides.starts sweep.sides.stops
        sweep.parts.items sweep.place sweep.group.notes.items
        sweep.group.begun sweep.group.ended sweep.group.at };
}

impl<S: Plain, M: Plain> Sweep<S, M> {
    /// Nothing is aligned yet.
    pub fn new(alloc: Global) -> Sweep<S, M>
        ensures { result.triples ≡ [] }
    {
        Sweep {
            alloc,
            sides: Sides::new(alloc),
            changes: Vec::new(alloc),
            parts: Vec::new(alloc),
            place: 0,
            group: Group::new(alloc),
        }
    }

    /// Aligns states with messages, in place of what was aligned before: the triples are those of
    /// [`warp`](crate::warp) at all instants with a state. After [`NoMemory`] align anew.
    pub fn align(&mut self, states: &Partition<S>, messages: &[Message<M>]) -> Result<(), NoMemory>
        ensures triples { OnOk result (AreRuns
            (warped M.cmp All (value_at states.now) messages.now) self.new.triples) }
        ensures place { OnOk result (self.new.place ≡ 0) }
    {
        self.parts.clear();
        self.place = 0;
        self.group.restart();
        self.changes.clear();
        self.sides.load(messages)?;
        let starts = self.sides.starts();
        push_changes(self.alloc, starts, self.sides.stops(), &mut self.changes)?;
        let changes = Changes::new(starts, &self.changes);
        fill_parts(&mut self.parts, states.pieces(), &changes)
    }

    /// The interval and the state of the next triple, whose notes are in [`Sweep::group`] until the
    /// next call; none where all were handed out. At [`NoMemory`] the triples stay; align anew.
    pub fn next_part(&mut self) -> Result<Option<Piece<S>>, NoMemory>
        ensures triples { self.new.triples ≡ self.old.triples }
        ensures next { IfOk result (λ part. IsNext self.old part self.new) }
    {
        if self.place >= self.parts.len() {
            return Ok(None);
        }
        let part = self.parts[self.place];
        self.group
            .move_to(self.sides.starts(), self.sides.stops(), part.over.a())?;
        self.place += 1;
        Ok(Some(part))
    }

    /// The notes of the triple that was handed out last, in rising order, repeats kept.
    pub fn group(&self) -> &[M]
        ensures notes { result.now ≡ self.now.group }
        ensures rising { IsSorted M.cmp result.now }
    {
        &self.group.notes
    }
}
