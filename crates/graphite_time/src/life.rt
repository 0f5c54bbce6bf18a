//! The lives of vertices and edges, as their lifespans.
ghost use Rattle.std.specs.Prelude.{◌≡◌, ◌↔◌, ◌<◌, ◌≤◌, ◌++◌, ◌∷◌, [], ℕ, length, option_map, All, IsTrue, IsOk, IfOk, OnOk, OnErr};
ghost use Rattle.graphite_time.specs.declared.TheConstants.{LAST};
ghost use Rattle.graphite_time.specs.Interval.{start_of, end_of, holds};
ghost use Rattle.graphite_time.specs.Life.{is_held, lifespan_at, life_end, IsLife};
ghost use Rattle.graphite_time.specs.Mirror.{mirrored, mirrored_interval, mirrored_life};

use crate::{Interval, NoMemory};
use smallvec::SmallVec;
use std::alloc::Global;
use std::marker::Model;

/// When something lives: its lifespans, of which there is at least one. They rise, with a gap of
/// at least one instant between neighbours. A life of one lifespan takes no memory of the heap.
#[derive(Drop)]
pub struct Life {
    spans: SmallVec<Interval, 1>,
}

impl Model for Life {
    ghost use Rattle.std.specs.Prelude.{List};
    ghost use Rattle.graphite_time.specs.declared.interval.Interval.{Interval};
    ghost use Rattle.graphite_time.specs.Life.{IsLife};

    ghost Value = { List Interval };

    ghost view = { λ life. life.spans.items };

    ghost invariant = { λ life. IsLife life.spans.items };
}

impl Life {
    /// The life of one lifespan. It takes no memory, so it is never refused.
    pub fn one(alloc: Global, over: Interval) -> Result<Life, NoMemory>
        ensures takes_no_memory { IsOk result }
        ensures one { IfOk result (λ life. life ≡ over ∷ []) }
    {
        let spans = SmallVec::from_buf(alloc, [over]);
        Ok(Life { spans })
    }

    /// An equal life. That of one lifespan takes no memory, and is never refused.
    pub fn copy(&self) -> Result<Life, NoMemory>
        ensures same { IfOk result (λ life. life ≡ self.now) }
        ensures takes_no_memory { length self.now ≤ 1 → IsOk result }
    {
        Ok(Life {
            spans: SmallVec::from_slice(*self.spans.allocator(), self.spans())?,
        })
    }

    /// Adds a lifespan at the end. It begins after the end of the last one, with a gap of at least one
    /// instant. After [`NoMemory`] nothing has changed.
    pub fn push(&mut self, over: Interval) -> Result<(), NoMemory>
        requires { life_end self.old < start_of over }
        ensures ok { OnOk result (self.new ≡ self.old ++ over ∷ []) }
        ensures err { OnErr result (self.new ≡ self.old) }
    {
        self.spans.push(over)?;
        Ok(())
    }

    /// The life in the mirror of the instants below `h`, where the instant `t` is `h - 1 - t`: the
    /// mirrored lifespans, the last one first. The life ends at most at `h`, which is at most
    /// [`LAST`](crate::LAST).
    pub fn mirror(&self, h: u64) -> Result<Life, NoMemory>
        requires within { life_end self.now ≤ h }
        requires last { h ≤ LAST }
        ensures mirror { IfOk result (λ life. life ≡ mirrored_life h self.now) }
        ensures end { IfOk result (λ life. life_end life ≤ h) }
        ensures held { IfOk result (λ life. (t : ℕ) → t < h → is_held life t ≡ is_held self.now (mirrored h t)) }
        ensures lifespans { IfOk result (λ life. (t : ℕ) → t < h
            → lifespan_at life t ≡ option_map (mirrored_interval h) (lifespan_at self.now (mirrored h t))) }
    {
        let spans = mirrored_spans(*self.spans.allocator(), self.spans(), h)?;
        Ok(Life { spans })
    }

    /// The lifespans, in order.
    pub fn spans(&self) -> &[Interval]
        ensures spans { result.now ≡ self.now }
        ensures life { IsLife self.now }
    {
        self.spans.as_slice()
    }

    /// Whether some lifespan holds the instant.
    pub fn holds(&self, t: u64) -> bool
        ensures { result ≡ is_held self.now t }
    {
        self.stay(t).is_some()
    }

    /// The lifespan that holds the instant. `None` exactly where none does.
    pub fn stay(&self, t: u64) -> Option<Interval>
        ensures { result ≡ lifespan_at self.now t }
    {
        stay_in(self.spans(), t)
    }

    /// Whether every instant of `over` is held.
    pub fn covers(&self, over: Interval) -> bool
        ensures { IsTrue result
            ↔ ((t : ℕ) → IsTrue (holds over t) → IsTrue (is_held self.now t)) }
    {
        covers_in(self.spans(), over)
    }
}

/// The lifespans in the mirror of the instants below `h`, in rising order.
fn mirrored_spans(
    alloc: Global,
    spans: &[Interval],
    h: u64,
) -> Result<SmallVec<Interval, 1>, NoMemory>
    requires within { All (λ span. end_of span ≤ h) spans.now }
    requires last { h ≤ LAST }
    ensures { IfOk result (λ out. out.items ≡ mirrored_life h spans.now) }
{
    let mut out = SmallVec::with_capacity(alloc, spans.len())?;
    for span in spans.iter().rev() {
        out.push(span.mirror(h))?;
    }
    Ok(out)
}

/// The lifespan among these that holds the instant.
fn stay_in(spans: &[Interval], t: u64) -> Option<Interval>
    requires { IsLife spans.now }
    ensures { result ≡ lifespan_at spans.now t }
{
    // the only one that can hold `t` is the first that ends after it
    let place = spans.partition_point(|span| span.b() <= t);
    let span = spans.get(place)?;
    span.holds(t).then_some(*span)
}

/// Whether these lifespans hold every instant of `over`: since there is a gap between any two, one
/// of them has to hold them all.
fn covers_in(spans: &[Interval], over: Interval) -> bool
    requires { IsLife spans.now }
    ensures { IsTrue result
        ↔ ((t : ℕ) → IsTrue (holds over t) → IsTrue (is_held spans.now t)) }
{
    stay_in(spans, over.a()).is_some_and(|span| over.b() <= span.b())
}
