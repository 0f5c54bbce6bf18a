//! The calls of a partition that take or make another one, and `cut`.
ghost use Rattle.std.specs.Prelude.{◌≡◌, ◌≤◌, ℕ, IfOk, OnOk, OnErr};
ghost use Rattle.std.specs.Option.{ForSome};
ghost use Rattle.graphite_time.specs.declared.TheConstants.{LAST};
ghost use Rattle.graphite_part.specs.Calls.{cut_out, mirrored_values, zipped, AreAnswers};
ghost use Rattle.graphite_part.specs.Pieces.{value_at, last_end, AreRuns};

use crate::cut::cut_pieces;
use crate::fill::end_of_pieces;
use crate::map::mapped_pieces;
use crate::mirror::mirrored_pieces;
use crate::zip::zipped_pieces;
use crate::{Partition, Plain};
use graphite_time::{Interval, NoMemory};

impl<T: Plain> Partition<T> {
    /// Takes the value away at the instants of an interval. All other instants keep theirs. After
    /// [`NoMemory`] nothing has changed.
    pub fn cut(&mut self, over: Interval) -> Result<(), NoMemory>
        ensures ok { OnOk result (AreRuns (cut_out (value_at self.old) over) self.new) }
        ensures err { OnErr result (self.new ≡ self.old) }
    {
        if end_of_pieces(self.pieces()) <= over.a() {
            return Ok(());
        }
        let pieces = cut_pieces(self.allocator(), self.pieces(), over)?;
        *self = Partition::from_pieces(pieces);
        Ok(())
    }

    /// A partition with the same pieces.
    pub fn copy(&self) -> Result<Partition<T>, NoMemory>
        ensures { IfOk result (λ copy. copy ≡ self.now) }
    {
        let mut copy = Vec::with_capacity(self.allocator(), self.pieces().len())?;
        copy.extend_from_slice(self.pieces())?;
        Ok(Partition::from_pieces(copy))
    }

    /// What `f` gives of the value, at each instant that has one. No other instant has one.
    pub fn map<U: Plain, F: Fn(T) -> U>(&self, f: &F) -> Result<Partition<U>, NoMemory>
        requires { (t : ℕ) → ForSome (value_at self.now t) (F.pre f.now) }
        ensures { IfOk result (λ out. AreAnswers (F.post f.now) self.now out) }
    {
        let pieces = mapped_pieces(self.allocator(), self.pieces(), f)?;
        Ok(Partition::from_pieces(pieces))
    }

    /// The partition in the mirror of the instants below `h`, where the instant `t` is `h - 1 - t`.
    /// The last piece ends at most at `h`, which is at most [`LAST`](graphite_time::LAST). At no
    /// instant from `h` on is there a value.
    pub fn mirror(&self, h: u64) -> Result<Partition<T>, NoMemory>
        requires within { last_end self.now ≤ h }
        requires last { h ≤ LAST }
        ensures { IfOk result (λ out. AreRuns (mirrored_values (value_at self.now) h) out) }
    {
        let pieces = mirrored_pieces(self.allocator(), self.pieces(), h)?;
        Ok(Partition::from_pieces(pieces))
    }

    /// The pairs of the values of both, at exactly the instants where both have one.
    pub fn zip<U: Plain>(&self, other: &Partition<U>) -> Result<Partition<(T, U)>, NoMemory>
        ensures { IfOk result (λ out. AreRuns (zipped (value_at self.now) (value_at other.now)) out) }
    {
        let pieces = zipped_pieces(self.allocator(), self.pieces(), other.pieces())?;
        Ok(Partition::from_pieces(pieces))
    }
}
