//! Where a partition keeps its pieces.
ghost use Rattle.std.specs.Prelude.{◌≡◌, ◌≤◌, true, IfOk};
ghost use Rattle.graphite_time.specs.Interval.{start_of};
ghost use Rattle.graphite_part.specs.Fills.{Pushed};
ghost use Rattle.graphite_part.specs.Kept.{items_of, IsInPlace};
ghost use Rattle.graphite_part.specs.Pieces.{last_end, IsChain};

use crate::fill::push_piece;
use crate::{Piece, Plain};
use graphite_time::{Interval, NoMemory};
use std::alloc::Global;
use std::slice;

/// A list of pieces. A single one may be kept in place, and then takes no memory of the heap.
#[derive(Drop)]
pub(crate) enum Pieces<T: Plain> {
    One { alloc: Global, piece: Piece<T> },
    Many(Vec<Piece<T>>),
}

impl<T: Plain> Pieces<T> {
    pub(crate) fn as_slice(&self) -> &[Piece<T>]
        requires { IsInPlace self.now → T.IN_PLACE ≡ true }
        ensures { result.now ≡ items_of self.now }
    {
        match self {
            Pieces::One { piece, .. } => slice::from_ref(piece),
            Pieces::Many(pieces) => pieces,
        }
    }

    pub(crate) fn allocator(&self) -> Global {
        match self {
            Pieces::One { alloc, .. } => *alloc,
            Pieces::Many(pieces) => *pieces.allocator(),
        }
    }
}

/// A few pieces with one more at the end.
pub(crate) fn pushed<T: Plain>(
    alloc: Global,
    pieces: &[Piece<T>],
    over: Interval,
    value: T,
) -> Result<Vec<Piece<T>>, NoMemory>
    requires chain { IsChain pieces.now }
    requires later { last_end pieces.now ≤ start_of over }
    ensures { IfOk result (λ out. Pushed pieces.now out.items over value) }
{
    let mut out = Vec::with_capacity(alloc, 2)?;
    out.extend_from_slice(pieces)?;
    push_piece(&mut out, over, value)?;
    Ok(out)
}
