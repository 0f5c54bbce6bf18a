//! Pieces in the mirror of time.
ghost use Rattle.std.specs.Prelude.{◌≤◌, IfOk};
ghost use Rattle.graphite_time.specs.declared.TheConstants.{LAST};
ghost use Rattle.graphite_part.specs.Calls.{mirrored_values};
ghost use Rattle.graphite_part.specs.Pieces.{value_at, last_end, IsChain, AreRuns};

use crate::{Piece, Plain};
use graphite_time::NoMemory;
use std::alloc::Global;

/// The pieces in the mirror of the instants below `h`, from the last one to the first.
pub(crate) fn mirrored_pieces<T: Plain>(
    alloc: Global,
    pieces: &[Piece<T>],
    h: u64,
) -> Result<Vec<Piece<T>>, NoMemory>
    requires chain { IsChain pieces.now }
    requires within { last_end pieces.now ≤ h }
    requires last { h ≤ LAST }
    ensures { IfOk result (λ out. AreRuns (mirrored_values (value_at pieces.now) h) out.items) }
{
    let mut out = Vec::with_capacity(alloc, pieces.len())?;
    for piece in pieces.iter().rev() {
        let over = piece.over.mirror(h);
        out.push(Piece {
            over,
            value: piece.value,
        })?;
    }
    Ok(out)
}
