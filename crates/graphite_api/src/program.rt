//! The trait of programs whose vertices compute and send along their arcs.
ghost use Rattle.std.specs.Prelude.{◌≡◌, ℕ, ◌+◌, ◌^◌, ◌<◌, ◌≤◌, Bool};
ghost use Rattle.std.specs.List.Sorted.{IsSorted};
ghost use Rattle.graphite_time.specs.Interval.{start_of, end_of};
ghost use Rattle.graphite_api.specs.Rules.{Rules};

use crate::{Arc, Message, Next};
use graphite_part::Plain;
use graphite_time::Interval;

/// A program of vertices that compute and send along their arcs. What it answers depends on what it
/// is asked alone, whatever was asked before; it counts the calls of `compute`, and nothing else
/// changes the count.
pub trait Program {
    /// What a vertex keeps from superstep to superstep.
    type State: Plain;
    /// What a vertex is told along an arc.
    type Note: Plain;

    /// Whether every vertex computes in every superstep, whether or not it was told something.
    const ALWAYS: bool;

    ghost ALWAYS: { Bool };

    /// What `compute` and `scatter` answer, the order of notes, and `ALWAYS`.
    ghost rules: { Rules Self.State Self.Note };

    /// How often `compute` was called.
    ghost count: { Self → ℕ };

    /// How often `compute` was called.
    fn calls(&self) -> u128
        ensures { result ≡ count self.now };

    /// The outcome of superstep `step`, which is at least 1, for a vertex that has this state and
    /// was told this group of notes, in rising order. It may be called as long as the count of
    /// calls is below 2^128 - 1.
    fn compute(&mut self, step: u32, state: Self::State, group: &[Self::Note]) -> Next<Self::State>
        requires room { count self.old + 1 < 2 ^ 128 }
        requires step { 1 ≤ step }
        requires rising { IsSorted Self.Note.cmp group.now }
        ensures next { result ≡ rules.next step state group.now }
        ensures counted { count self.new ≡ count self.old + 1 };

    /// What a vertex that has this state over an interval of the arc's instants tells the arc's
    /// target, if anything.
    fn scatter(&self, state: Self::State, arc: &Arc, over: Interval) -> Option<Message<Self::Note>>
        requires starts { start_of arc.now.over ≤ start_of over }
        requires ends { end_of over ≤ end_of arc.now.over }
        ensures { result ≡ rules.message state arc.now over };

    /// The rules order notes as they are compared.
    ghost order_is: { Self.Note.cmp ≡ rules.order };

    /// The rules say whether every vertex computes in every superstep.
    ghost always_is: { ALWAYS ≡ rules.always };
}
