//! The pieces of a function's values.
ghost use Rattle.std.specs.Prelude.{◌≡◌, ℕ, All, IfOk};
ghost use Rattle.graphite_part.specs.Calls.{AreAnswers};
ghost use Rattle.graphite_part.specs.Pieces.{IsChain};

use crate::fill::push_piece;
use crate::{Piece, Plain};
use graphite_time::NoMemory;
use std::alloc::Global;

/// What `f` gives of each value, at the instants of that value.
pub(crate) fn mapped_pieces<T: Plain, U: Plain, F: Fn(T) -> U>(
    alloc: Global,
    pieces: &[Piece<T>],
    f: &F,
) -> Result<Vec<Piece<U>>, NoMemory>
    requires chain { IsChain pieces.now }
    requires callable { All (λ piece. F.pre f.now piece.value) pieces.now }
    ensures { IfOk result (λ out. AreAnswers (F.post f.now) pieces.now out.items) }
{
    let mut out = Vec::with_capacity(alloc, pieces.len())?;
    for piece in pieces {
        let value = f(piece.value);
        push_piece(&mut out, piece.over, value)?;
    }
    Ok(out)
}
