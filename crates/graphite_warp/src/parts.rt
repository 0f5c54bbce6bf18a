//! The parts of states between two changes of the notes that hold.
ghost use Rattle.std.specs.Prelude.{◌≡◌, ◌≢◌, ℕ, ◌<◌, ◌≤◌, [], Some, OnOk, OnErr};
ghost use Rattle.graphite_time.specs.Interval.{start_of, end_of};
ghost use Rattle.graphite_part.specs.Fills.{EndsWith, Filled};
ghost use Rattle.graphite_part.specs.Pieces.{value_at, last_end, IsChain, AreRuns};
ghost use Rattle.graphite_warp.specs.declared.touch.Touch.TheVariants.{All};
ghost use Rattle.graphite_warp.specs.Parts.{triples_of};
ghost use Rattle.graphite_warp.specs.Sweep.{AreChanges};
ghost use Rattle.graphite_warp.specs.Warp.{notes_at, warped};

use crate::Message;
use graphite_part::{Piece, Plain, time_at};
use graphite_time::{Interval, NoMemory};
use std::marker::Model;

/// Messages, of which the instants are known at which the notes that hold change.
#[derive(Drop)]
pub(crate) struct Changes<'a, M: Plain> {
    messages: &'a [Message<M>],
    instants: &'a [u64],
}

impl<'a, M: Plain> Model for Changes<'a, M> {
    ghost use Rattle.std.specs.Prelude.{List};
    ghost use Rattle.graphite_warp.specs.declared.message.Message.{Message};
    ghost use Rattle.graphite_warp.specs.Sweep.{AreChanges};

    ghost Value = { List (Message M) };

    ghost view = { λ changes. changes.messages.now };

    ghost invariant = { λ changes. AreChanges M.cmp changes.messages.now changes.instants.now };
}

impl<'a, M: Plain> Changes<'a, M> {
    pub(crate) fn new(messages: &'a [Message<M>], instants: &'a [u64]) -> Changes<'a, M>
        requires { AreChanges M.cmp messages.now instants.now }
        ensures { result ≡ messages.now }
    {
        Changes { messages, instants }
    }

    /// The first change after `at`, or `until` where that is earlier.
    fn next_after(&self, at: u64, until: u64) -> u64
        requires order { at < until }
        ensures after { at < result }
        ensures within { result ≤ until }
        ensures steady { (t : ℕ) → at ≤ t → t < result
            → notes_at M.cmp self.now t ≡ notes_at M.cmp self.now at }
        ensures real { result < until → notes_at M.cmp self.now result ≢ notes_at M.cmp self.now at }
    {
        let place = self.instants.partition_point(|change| *change <= at);
        time_at(self.instants, place, until)
    }
}

/// Puts the parts of all pieces into `parts`, or none: together with their notes they are the triples.
pub(crate) fn fill_parts<S: Plain, M: Plain>(
    parts: &mut Vec<Piece<S>>,
    pieces: &[Piece<S>],
    changes: &Changes<M>,
) -> Result<(), NoMemory>
    requires none { parts.old.items ≡ [] }
    requires chain { IsChain pieces.now }
    ensures ok { OnOk result (AreRuns (warped M.cmp All (value_at pieces.now) changes.now)
        (triples_of M.cmp changes.now parts.new.items)) }
    ensures err { OnErr result (parts.new.items ≡ []) }
{
    if push_all_parts(parts, pieces, changes).is_err() {
        parts.clear();
        return Err(NoMemory);
    }
    Ok(())
}

/// Puts the parts of all pieces into `parts`.
fn push_all_parts<S: Plain, M: Plain>(
    parts: &mut Vec<Piece<S>>,
    pieces: &[Piece<S>],
    changes: &Changes<M>,
) -> Result<(), NoMemory>
    requires none { parts.old.items ≡ [] }
    requires chain { IsChain pieces.now }
    ensures { OnOk result (AreRuns (warped M.cmp All (value_at pieces.now) changes.now)
        (triples_of M.cmp changes.now parts.new.items)) }
{
    for piece in pieces {
        push_parts(parts, piece, changes)?;
    }
    Ok(())
}

/// Puts the parts of a piece behind others.
fn push_parts<S: Plain, M: Plain>(
    parts: &mut Vec<Piece<S>>,
    piece: &Piece<S>,
    changes: &Changes<M>,
) -> Result<(), NoMemory>
    requires chain { IsChain (triples_of M.cmp changes.now parts.old.items) }
    requires later { last_end (triples_of M.cmp changes.now parts.old.items) ≤ start_of piece.now.over }
    requires apart { EndsWith (triples_of M.cmp changes.now parts.old.items) (start_of piece.now.over)
        (piece.now.value, notes_at M.cmp changes.now (start_of piece.now.over)) → ⊥ }
    ensures { OnOk result (Filled (λ t. Some (piece.now.value, notes_at M.cmp changes.now t))
        (triples_of M.cmp changes.now parts.old.items) (triples_of M.cmp changes.now parts.new.items)
        (start_of piece.now.over) (end_of piece.now.over)) }
{
    let whole = piece.over;
    let mut at = whole.a();
    while at < whole.b() {
        let next = changes.next_after(at, whole.b());
        let over = Interval::new(at, next).unwrap();
        parts.push(Piece {
            over,
            value: piece.value,
        })?;
        at = next;
    }
    Ok(())
}
