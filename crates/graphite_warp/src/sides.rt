//! The same messages in the order of their starts and in the order of their ends.
ghost use Rattle.std.specs.Prelude.{◌≡◌, [], OnOk, OnErr};
ghost use Rattle.std.specs.List.Sorted.{IsNonDecreasingBy, IsPermutation};
ghost use Rattle.graphite_time.specs.Interval.{start_of, end_of};
ghost use Rattle.graphite_warp.specs.Sweep.{AreEnds};

use crate::Message;
use graphite_part::Plain;
use graphite_time::NoMemory;
use std::alloc::Global;
use std::marker::Model;

/// Messages twice, each time in another order. The memory serves one load after the other.
#[derive(Drop)]
pub(crate) struct Sides<M: Plain> {
    starts: Vec<Message<M>>,
    stops: Vec<Message<M>>,
}

impl<M: Plain> Model for Sides<M> {
    ghost use Rattle.graphite_warp.specs.Sweep.{AreEnds, Sided};

    ghost Value = { Sided M };

    ghost view = { λ sides. record { starts = sides.starts.items; stops = sides.stops.items } };

    ghost invariant = { λ sides. AreEnds sides.starts.items sides.stops.items };
}

impl<M: Plain> Sides<M> {
    /// No message yet.
    pub(crate) fn new(alloc: Global) -> Sides<M>
        ensures { result.starts ≡ [] }
    {
        Sides {
            starts: Vec::new(alloc),
            stops: Vec::new(alloc),
        }
    }

    /// Takes copies of the messages, in place of what was there. After [`NoMemory`] none is there.
    pub(crate) fn load(&mut self, messages: &[Message<M>]) -> Result<(), NoMemory>
        ensures { OnOk result (IsPermutation messages.now self.new.starts) }
    {
        self.starts.clear();
        self.stops.clear();
        copy_both(&mut self.starts, &mut self.stops, messages)?;
        sort_by_start(&mut self.starts);
        sort_by_end(&mut self.stops);
        Ok(())
    }

    /// The messages in the order of their starts.
    pub(crate) fn starts(&self) -> &[Message<M>]
        ensures value { result.now ≡ self.now.starts }
        ensures ends { AreEnds self.now.starts self.now.stops }
    {
        &self.starts
    }

    /// The messages in the order of their ends.
    pub(crate) fn stops(&self) -> &[Message<M>]
        ensures value { result.now ≡ self.now.stops }
        ensures ends { AreEnds self.now.starts self.now.stops }
    {
        &self.stops
    }
}

/// Copies the messages into both lists, which are empty, or into neither.
fn copy_both<M: Plain>(
    starts: &mut Vec<Message<M>>,
    stops: &mut Vec<Message<M>>,
    messages: &[Message<M>],
) -> Result<(), NoMemory>
    requires no_start { starts.old.items ≡ [] }
    requires no_stop { stops.old.items ≡ [] }
    ensures starts { OnOk result (starts.new.items ≡ messages.now) }
    ensures stops { OnOk result (stops.new.items ≡ messages.now) }
    ensures no_start { OnErr result (starts.new.items ≡ []) }
    ensures no_stop { OnErr result (stops.new.items ≡ []) }
{
    stops.reserve(messages.len())?;
    starts.extend_from_slice(messages)?;
    stops.extend_from_slice(messages)?;
    Ok(())
}

/// Puts the messages in the order of their starts.
fn sort_by_start<M: Plain>(messages: &mut Vec<Message<M>>)
    ensures moved { IsPermutation messages.old.items messages.new.items }
    ensures in_order { IsNonDecreasingBy (λ m. start_of m.over) messages.new.items }
{
    messages.sort_unstable_by_key(|message| message.over.a());
}

/// Puts the messages in the order of their ends.
fn sort_by_end<M: Plain>(messages: &mut Vec<Message<M>>)
    ensures moved { IsPermutation messages.old.items messages.new.items }
    ensures in_order { IsNonDecreasingBy (λ m. end_of m.over) messages.new.items }
{
    messages.sort_unstable_by_key(|message| message.over.b());
}
