//! Pairs of the values of two lists of pieces, in one pass over both.
ghost use Rattle.std.specs.Prelude.{◌≤◌, max, IfOk, OnOk};
ghost use Rattle.graphite_time.specs.Interval.{start_of};
ghost use Rattle.graphite_part.specs.Calls.{zipped};
ghost use Rattle.graphite_part.specs.Fills.{PairPushed};
ghost use Rattle.graphite_part.specs.Pieces.{value_at, last_end, IsChain, AreRuns};

use crate::fill::push_piece;
use crate::{Piece, Plain};
use graphite_time::NoMemory;
use std::alloc::Global;

/// The pairs of the values of both, at the instants where both have one.
pub(crate) fn zipped_pieces<T: Plain, U: Plain>(
    alloc: Global,
    left: &[Piece<T>],
    right: &[Piece<U>],
) -> Result<Vec<Piece<(T, U)>>, NoMemory>
    requires left { IsChain left.now }
    requires right { IsChain right.now }
    ensures { IfOk result (λ out. AreRuns (zipped (value_at left.now) (value_at right.now)) out.items) }
{
    let mut out = Vec::with_capacity(alloc, left.len().max(right.len()))?;
    let mut i = 0;
    let mut j = 0;
    while i < left.len() && j < right.len() {
        let x = left[i];
        let y = right[j];
        push_pair(&mut out, x, y)?;
        // the one that ends first meets no later piece of the other
        if x.over.b() <= y.over.b() {
            i += 1;
        } else {
            j += 1;
        }
    }
    Ok(out)
}

/// Puts the pair of the values at the end of `out`, at the instants that both hold.
fn push_pair<T: Plain, U: Plain>(
    out: &mut Vec<Piece<(T, U)>>,
    x: Piece<T>,
    y: Piece<U>,
) -> Result<(), NoMemory>
    requires chain { IsChain out.old.items }
    requires later { last_end out.old.items ≤ max (start_of x.over) (start_of y.over) }
    ensures { OnOk result (PairPushed out.old.items out.new.items x y) }
{
    let Some(over) = x.over.meet(y.over) else {
        return Ok(());
    };
    push_piece(out, over, (x.value, y.value))?;
    Ok(())
}
