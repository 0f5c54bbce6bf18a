//! Time-warp: the triples of states and messages.
ghost use Rattle.std.specs.Prelude.{◌≡◌, ◌++◌, [], ◌∷◌, filter, if◌then◌else◌, IfOk, OnOk};
ghost use Rattle.graphite_part.specs.Pieces.{value_at, AreRuns};
ghost use Rattle.graphite_warp.specs.Asked.{asks_for};
ghost use Rattle.graphite_warp.specs.Warp.{warped};

use crate::{Message, Sweep, Touch, Triple};
use graphite_part::{Partition, Piece, Plain};
use graphite_time::NoMemory;
use std::alloc::Global;

/// Aligns states with messages. Each instant that is asked for lies in exactly one triple, with its
/// state and the notes of exactly the messages that hold it, in rising order, repeats kept. The
/// triples rise, and two that touch differ in state or notes. What messages hold outside the
/// states has no effect. Where one triple at a time is enough, [`Sweep`] takes less memory.
pub fn warp<S: Plain, M: Plain>(
    alloc: Global,
    states: &Partition<S>,
    messages: &[Message<M>],
    touch: Touch,
) -> Result<Vec<Triple<S, M>>, NoMemory>
    ensures { IfOk result (λ triples. AreRuns
        (warped M.cmp touch (value_at states.now) messages.now) triples.items) }
{
    let mut sweep = Sweep::new(alloc);
    sweep.align(states, messages)?;
    collect_asked(alloc, &mut sweep, touch)
}

/// The triples that are asked for, where none was handed out yet.
fn collect_asked<S: Plain, M: Plain>(
    alloc: Global,
    sweep: &mut Sweep<S, M>,
    touch: Touch,
) -> Result<Vec<Triple<S, M>>, NoMemory>
    requires first { sweep.old.place ≡ 0 }
    ensures { IfOk result (λ triples. triples.items
        ≡ filter (λ triple. asks_for touch triple.value.1) sweep.old.triples) }
{
    let mut out = Vec::new(alloc);
    while let Some(part) = sweep.next_part()? {
        push_asked(&mut out, part, sweep.group(), touch)?;
    }
    Ok(out)
}

/// Puts a triple behind the others, where it is asked for.
fn push_asked<S: Plain, M: Plain>(
    out: &mut Vec<Triple<S, M>>,
    part: Piece<S>,
    group: &[M],
    touch: Touch,
) -> Result<(), NoMemory>
    ensures { OnOk result (out.new.items ≡ out.old.items ++
        (if asks_for touch group.now
        then record { over = part.over; value = (part.value, group.now) } ∷ []
        else [])) }
{
    if touch.asks_for(group) {
        let triple = Triple::new(*out.allocator(), part, group)?;
        out.push(triple)?;
    }
    Ok(())
}
