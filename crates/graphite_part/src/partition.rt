//! Partitions: a value at each instant, or nothing.
ghost use Rattle.std.specs.Prelude.{◌≡◌, ◌≤◌, true, [], ◌∷◌, map, IfOk, OnOk, OnErr};
ghost use Rattle.graphite_time.specs.Interval.{start_of, end_of};
ghost use Rattle.graphite_part.specs.Pieces.{value_at, value_on, painted, last_end, piece_on, IsChain, AreRuns};

use crate::counts::{counted_pieces, sorted_ends, sorted_starts};
use crate::fill::{copy_between, end_of_pieces, push_piece, value_in};
use crate::pieces::{Pieces, pushed};
use crate::{Piece, Plain};
use graphite_time::{Interval, LAST, Life, NoMemory};
use std::alloc::Global;
use std::marker::Model;

/// A value at each instant, or nothing, as a list of pieces: they rise and do not overlap, and two
/// that touch have different values.
#[derive(Drop)]
pub struct Partition<T: Plain> {
    pieces: Pieces<T>,
}

impl<T: Plain> Model for Partition<T> {
    ghost use Rattle.std.specs.Prelude.{◌≡◌, true, List};
    ghost use Rattle.graphite_part.specs.declared.piece.Piece.{Piece};
    ghost use Rattle.graphite_part.specs.Kept.{items_of, IsInPlace};
    ghost use Rattle.graphite_part.specs.Pieces.{IsChain};

    ghost Value = { List (Piece T) };

    ghost view = { λ partition. items_of partition.pieces };

    ghost invariant = { λ partition. IsChain (items_of partition.pieces)
        × (IsInPlace partition.pieces → T.IN_PLACE ≡ true) };
}

impl<T: Plain> Partition<T> {
    /// No value at any instant. It takes no memory.
    pub fn new(alloc: Global) -> Partition<T>
        ensures { result ≡ [] }
    {
        Partition::from_pieces(Vec::new(alloc))
    }

    /// The value at exactly the instants of the life.
    pub fn on_life(alloc: Global, life: &Life, value: T) -> Result<Partition<T>, NoMemory>
        ensures { IfOk result (AreRuns (value_on life.now value)) }
    {
        let spans = life.spans();
        if T::IN_PLACE && spans.len() == 1 {
            let over = spans[0];
            return Ok(Partition::of_one(alloc, Piece { over, value }));
        }
        let pieces = pieces_on(alloc, spans, value)?;
        Ok(Partition::from_pieces(pieces))
    }

    /// The partition of a chain of pieces.
    pub(crate) fn from_pieces(pieces: Vec<Piece<T>>) -> Partition<T>
        requires { IsChain pieces.items }
        ensures { result ≡ pieces.items }
    {
        if T::IN_PLACE && pieces.len() == 1 {
            return Partition::of_one(*pieces.allocator(), pieces[0]);
        }
        Partition {
            pieces: Pieces::Many(pieces),
        }
    }

    /// The partition of a single piece, which is kept in place.
    fn of_one(alloc: Global, piece: Piece<T>) -> Partition<T>
        requires { T.IN_PLACE ≡ true }
        ensures { result ≡ piece ∷ [] }
    {
        Partition {
            pieces: Pieces::One { alloc, piece },
        }
    }

    /// What the pieces take their memory from.
    pub(crate) fn allocator(&self) -> Global {
        self.pieces.allocator()
    }

    /// The pieces, in order.
    pub fn pieces(&self) -> &[Piece<T>]
        ensures pieces { result.now ≡ self.now }
        ensures chain { IsChain self.now }
    {
        self.pieces.as_slice()
    }

    /// The value at the instant. `None` exactly where no piece holds it.
    pub fn at(&self, t: u64) -> Option<T>
        ensures { result ≡ value_at self.now t }
    {
        value_in(self.pieces(), t)
    }

    /// Adds a value over an interval that begins at or after the end of the last piece. After
    /// [`NoMemory`] nothing has changed.
    pub fn push(&mut self, over: Interval, value: T) -> Result<(), NoMemory>
        requires { last_end self.old ≤ start_of over }
        ensures ok { OnOk result (AreRuns (painted (value_at self.old) over value) self.new) }
        ensures end { OnOk result (last_end self.new ≡ end_of over) }
        ensures err { OnErr result (self.new ≡ self.old) }
    {
        if T::IN_PLACE && self.pieces().is_empty() {
            let first = Piece { over, value };
            *self = Partition::of_one(self.allocator(), first);
            return Ok(());
        }
        if let Pieces::Many(pieces) = &mut self.pieces {
            return push_piece(pieces, over, value);
        }
        let pieces = pushed(self.allocator(), self.pieces(), over, value)?;
        self.pieces = Pieces::Many(pieces);
        Ok(())
    }

    /// Sets the value at the instants of an interval. All other instants keep theirs. After
    /// [`NoMemory`] nothing has changed.
    pub fn paint(&mut self, over: Interval, value: T) -> Result<(), NoMemory>
        ensures ok { OnOk result (AreRuns (painted (value_at self.old) over value) self.new) }
        ensures err { OnErr result (self.new ≡ self.old) }
    {
        if end_of_pieces(self.pieces()) <= over.a() {
            return self.push(over, value);
        }
        let painted = painted_pieces(self.allocator(), self.pieces(), over, value)?;
        self.pieces = Pieces::Many(painted);
        Ok(())
    }
}

impl Partition<u32> {
    ghost use Rattle.std.specs.Prelude.{ℕ, IfSome, IsOk, length, ◌+◌, ◌^◌, ◌<◌};
    ghost use Rattle.graphite_part.specs.Counts.{counted};

    /// One value over an interval. It takes no memory.
    pub fn one(alloc: Global, over: Interval, value: u32) -> Partition<u32>
        ensures { result ≡ piece_on value over ∷ [] }
    {
        let piece = Piece { over, value };
        Partition::of_one(alloc, piece)
    }

    /// Adds to each value, at each instant, the number of `covers` that hold the instant. Instants
    /// with no value have none still. Where there are no covers it takes no memory, and after
    /// [`NoMemory`] nothing has changed.
    pub fn add_counts(&mut self, covers: &[Interval]) -> Result<(), NoMemory>
        requires { (t : ℕ) → IfSome (value_at self.old t) (λ n. n + length covers.now < 2 ^ 32) }
        ensures ok { OnOk result (AreRuns (counted (value_at self.old) covers.now) self.new) }
        ensures err { OnErr result (self.new ≡ self.old) }
        ensures no_covers { length covers.now ≡ 0 → IsOk result }
    {
        if self.pieces().is_empty() || covers.is_empty() {
            return Ok(());
        }
        let alloc = self.allocator();
        let starts = sorted_starts(alloc, covers)?;
        let ends = sorted_ends(alloc, covers)?;
        let counted = counted_pieces(alloc, self.pieces(), &starts, &ends)?;
        self.pieces = Pieces::Many(counted);
        Ok(())
    }
}

/// A piece for each lifespan, with room for no others: most lives have only one.
fn pieces_on<T: Plain>(
    alloc: Global,
    spans: &[Interval],
    value: T,
) -> Result<Vec<Piece<T>>, NoMemory>
    ensures { IfOk result (λ pieces. pieces.items ≡ map (piece_on value) spans.now) }
{
    let mut pieces = Vec::with_capacity(alloc, spans.len())?;
    for over in spans {
        pieces.push(Piece { over: *over, value })?;
    }
    Ok(pieces)
}

/// The pieces, with a value painted over an interval.
fn painted_pieces<T: Plain>(
    alloc: Global,
    pieces: &[Piece<T>],
    over: Interval,
    value: T,
) -> Result<Vec<Piece<T>>, NoMemory>
    requires { IsChain pieces.now }
    ensures { IfOk result (λ out. AreRuns (painted (value_at pieces.now) over value) out.items) }
{
    let mut out = Vec::with_capacity(alloc, pieces.len())?;
    copy_between(&mut out, pieces, 0, over.a())?;
    push_piece(&mut out, over, value)?;
    copy_between(&mut out, pieces, over.b(), LAST)?;
    Ok(out)
}
