//! What a warp gives: an interval, with the state and the notes at each of its instants.
ghost use Rattle.std.specs.Prelude.{◌≡◌, ◌↔◌, IsTrue, IfOk};

use graphite_part::{Piece, Plain};
use graphite_time::{Interval, NoMemory};
use smallvec::SmallVec;
use std::alloc::Global;
use std::marker::Model;

// so many notes stand in the triple itself: most groups are small
const PLACES: usize = 4;

/// An interval at each instant of which the same state meets the same notes.
#[derive(Drop)]
pub struct Triple<S: Plain, M: Plain> {
    over: Interval,
    state: S,
    group: SmallVec<M, PLACES>,
}

impl<S: Plain, M: Plain> Model for Triple<S, M> {
    ghost use Rattle.std.specs.Prelude.{List};
    ghost use Rattle.graphite_part.specs.declared.piece.Piece.{Piece};

    ghost Value = { Piece (S × List M) };

    ghost view = { λ triple. record { over = triple.over; value = (triple.state, triple.group.items) } };
}

impl<S: Plain, M: Plain> Triple<S, M> {
    pub(crate) fn new(alloc: Global, part: Piece<S>, group: &[M]) -> Result<Triple<S, M>, NoMemory>
        ensures { IfOk result (λ triple. triple
            ≡ record { over = part.over; value = (part.value, group.now) }) }
    {
        let group = SmallVec::from_slice(alloc, group)?;
        Ok(Triple {
            over: part.over,
            state: part.value,
            group,
        })
    }

    /// The instants.
    pub fn over(&self) -> Interval
        ensures { result ≡ self.now.over }
    {
        self.over
    }

    /// The state at each of them.
    pub fn state(&self) -> S
        ensures { result ≡ self.now.value.0 }
    {
        self.state
    }

    /// The notes of the messages that hold them, in rising order, repeats kept.
    pub fn group(&self) -> &[M]
        ensures { result.now ≡ self.now.value.1 }
    {
        self.group.as_slice()
    }
}

/// Whether two lists of notes are the same.
pub(crate) fn are_same<M: Plain>(xs: &[M], ys: &[M]) -> bool
    ensures { IsTrue result ↔ (xs.now ≡ ys.now) }
{
    xs == ys
}
