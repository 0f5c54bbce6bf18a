//! Intervals of instants, and what two of them have in common.
ghost use Rattle.std.specs.Prelude.{◌≡◌, ◌<◌, ◌≤◌, ◌↔◌, ◌&&◌, ◌+◌, ℕ, false, min, IsSome, IfSome, IfNone};
ghost use Rattle.graphite_time.specs.declared.TheConstants.{LAST};

use crate::LAST;

/// The instants from a start up to an end, the end not among them. An interval holds at least one
/// instant, and ends at most at [`LAST`].
#[derive(Clone, Copy, Debug, PartialEq, Eq, PartialOrd, Ord)]
pub struct Interval {
    a: u64,
    b: u64,
    ghost proper: { (a < b) × (b ≤ LAST) },
}

/// The first instant alone: what an unused place of a list kept in place holds.
impl Default for Interval {
    fn default() -> Interval {
        Interval { a: 0, b: 1 }
    }
}

impl Interval {
    ghost use Rattle.graphite_time.specs.Interval.{start_of, end_of, holds};
    ghost use Rattle.graphite_time.specs.Meet.{interval_between, meet_of};
    ghost use Rattle.graphite_time.specs.Mirror.{mirrored, mirrored_interval};

    /// The instants from `a` to `b - 1`. `None` exactly where there are none, or `b` is past
    /// [`LAST`].
    pub fn new(a: u64, b: u64) -> Option<Interval>
        ensures proper { IsSome result ↔ ((a < b) × (b ≤ LAST)) }
        ensures start { IfSome result (λ over. start_of over ≡ a) }
        ensures end { IfSome result (λ over. end_of over ≡ b) }
        ensures between { result ≡ interval_between a b }
    {
        if a < b && b <= LAST {
            Some(Interval { a, b })
        } else {
            None
        }
    }

    /// The first instant.
    pub fn a(self) -> u64
        ensures start { result ≡ start_of self }
        ensures proper { (start_of self < end_of self) × (end_of self ≤ LAST) }
    {
        self.a
    }

    /// The instant after the last.
    pub fn b(self) -> u64
        ensures end { result ≡ end_of self }
        ensures proper { (start_of self < end_of self) × (end_of self ≤ LAST) }
    {
        self.b
    }

    /// Whether the instant is one of the interval's.
    pub fn holds(self, t: u64) -> bool
        ensures { result ≡ holds self t }
    {
        self.a <= t && t < self.b
    }

    /// The instants that both hold. `None` exactly where there are none.
    pub fn meet(self, other: Interval) -> Option<Interval>
        ensures apart { IfNone result ((t : ℕ) → (holds self t && holds other t) ≡ false) }
        ensures common { IfSome result (λ over. (t : ℕ) → holds over t ≡ holds self t && holds other t) }
        ensures meet { result ≡ meet_of self other }
    {
        Interval::new(self.a.max(other.a), self.b.min(other.b))
    }

    /// The interval `by` instants later, as far as it lies below the horizon `h`, which is at most
    /// [`LAST`]. `None` exactly where it begins at `h` or after it.
    pub fn shift(self, by: u32, h: u64) -> Option<Interval>
        requires { h ≤ LAST }
        ensures below { IsSome result ↔ (start_of self + by < h) }
        ensures start { IfSome result (λ over. start_of over ≡ start_of self + by) }
        ensures end { IfSome result (λ over. end_of over ≡ min (end_of self + by) h) }
    {
        let by = by as u64;
        Interval::new(self.a + by, h.min(self.b + by))
    }

    /// The interval `by` instants earlier. `None` exactly where it would begin before the first
    /// instant.
    pub fn back(self, by: u32) -> Option<Interval>
        ensures within { IsSome result ↔ (by ≤ start_of self) }
        ensures start { IfSome result (λ over. start_of over + by ≡ start_of self) }
        ensures end { IfSome result (λ over. end_of over + by ≡ end_of self) }
    {
        let by = by as u64;
        if by > self.a {
            return None;
        }
        Interval::new(self.a - by, self.b - by)
    }

    /// The interval in the mirror of the instants below `h`, where the instant `t` is `h - 1 - t`.
    /// The interval ends at most at `h`, which is at most [`LAST`].
    pub fn mirror(self, h: u64) -> Interval
        requires within { end_of self ≤ h }
        requires last { h ≤ LAST }
        ensures start { start_of result + end_of self ≡ h }
        ensures end { end_of result + start_of self ≡ h }
        ensures instants { (t : ℕ) → t < h → holds result t ≡ holds self (mirrored h t) }
        ensures mirror { result ≡ mirrored_interval h self }
    {
        Interval {
            a: h - self.b,
            b: h - self.a,
        }
    }
}
