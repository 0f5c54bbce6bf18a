//! Lists of pieces that are written from the first instant to the last.
ghost use Rattle.std.specs.Prelude.{◌≡◌, ◌≤◌, OnOk, OnErr};
ghost use Rattle.graphite_time.specs.Interval.{start_of};
ghost use Rattle.graphite_part.specs.Pieces.{value_at, IsChain, last_end};
ghost use Rattle.graphite_part.specs.Fills.{Filled, Pushed};

use crate::{Piece, Plain, append};
use graphite_time::{Interval, NoMemory};

/// Adds a piece at the end. Where it touches the last one with the same value, that is lengthened.
pub(crate) fn push_piece<T: Plain>(
    pieces: &mut Vec<Piece<T>>,
    over: Interval,
    value: T,
) -> Result<(), NoMemory>
    requires chain { IsChain pieces.old.items }
    requires later { last_end pieces.old.items ≤ start_of over }
    ensures ok { OnOk result (Pushed pieces.old.items pieces.new.items over value) }
    ensures err { OnErr result (pieces.new.items ≡ pieces.old.items) }
{
    append(pieces, Piece { over, value })
}

/// Copies what the pieces have from one instant up to another to the end of `out`.
pub(crate) fn copy_between<T: Plain>(
    out: &mut Vec<Piece<T>>,
    pieces: &[Piece<T>],
    from: u64,
    until: u64,
) -> Result<(), NoMemory>
    requires out_chain { IsChain out.old.items }
    requires out_end { last_end out.old.items ≤ from }
    requires order { from ≤ until }
    requires chain { IsChain pieces.now }
    ensures { OnOk result (Filled (value_at pieces.now) out.old.items out.new.items from until) }
{
    for piece in pieces {
        let a = piece.over.a().max(from);
        let b = piece.over.b().min(until);
        if let Some(part) = Interval::new(a, b) {
            push_piece(out, part, piece.value)?;
        }
    }
    Ok(())
}

/// The instant where the last piece ends, or 0.
pub(crate) fn end_of_pieces<T: Plain>(pieces: &[Piece<T>]) -> u64
    ensures { result ≡ last_end pieces.now }
{
    pieces.last().map_or(0, |piece| piece.over.b())
}

/// The value of the piece that holds the instant.
pub(crate) fn value_in<T: Plain>(pieces: &[Piece<T>], t: u64) -> Option<T>
    requires { IsChain pieces.now }
    ensures { result ≡ value_at pieces.now t }
{
    // the only one that can hold `t` is the first that ends after it
    let place = pieces.partition_point(|piece| piece.over.b() <= t);
    let piece = pieces.get(place)?;
    piece.over.holds(t).then_some(piece.value)
}
