//! Pieces without what lies in an interval.
ghost use Rattle.std.specs.Prelude.{IfOk};
ghost use Rattle.graphite_part.specs.Calls.{cut_out};
ghost use Rattle.graphite_part.specs.Pieces.{value_at, IsChain, AreRuns};

use crate::fill::copy_between;
use crate::{Piece, Plain};
use graphite_time::{Interval, LAST, NoMemory};
use std::alloc::Global;

/// The pieces before an interval and those after it.
pub(crate) fn cut_pieces<T: Plain>(
    alloc: Global,
    pieces: &[Piece<T>],
    over: Interval,
) -> Result<Vec<Piece<T>>, NoMemory>
    requires { IsChain pieces.now }
    ensures { IfOk result (λ out. AreRuns (cut_out (value_at pieces.now) over) out.items) }
{
    let mut out = Vec::with_capacity(alloc, pieces.len())?;
    copy_between(&mut out, pieces, 0, over.a())?;
    copy_between(&mut out, pieces, over.b(), LAST)?;
    Ok(out)
}
