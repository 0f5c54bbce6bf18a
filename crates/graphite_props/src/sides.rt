//! Values, and beside each the value that others have at its instants, in one pass over both.
ghost use Rattle.std.specs.Prelude.{◌≡◌, ◌≤◌, ◌<◌, max, length, slice_get, false, Some, IsTrue, IfSome, IsSomeAnd, IfOk, OnOk};
ghost use Rattle.graphite_time.specs.declared.TheConstants.{LAST};
ghost use Rattle.graphite_time.specs.Interval.{start_of, end_of};
ghost use Rattle.graphite_part.specs.Fills.{Filled};
ghost use Rattle.graphite_part.specs.Pieces.{value_at, last_end, IsChain, AreRuns};
ghost use Rattle.graphite_props.specs.Beside.{beside, held, ArePast, PieceBeside};

use graphite_part::{Partition, Piece, Plain};
use graphite_time::{Interval, NoMemory};
use std::alloc::Global;

/// At each instant of the base its value, and beside it the value that the other pieces have then, if
/// any. Where the base has gaps, the others within them are passed by a search: so a few pieces of the base
/// cost little beside many others.
pub fn beside<T: Plain, U: Plain>(
    alloc: Global,
    base: &[Piece<T>],
    others: &[Piece<U>],
) -> Result<Partition<(T, Option<U>)>, NoMemory>
    requires base { IsChain base.now }
    requires others { IsChain others.now }
    ensures { IfOk result (AreRuns (beside (value_at base.now) (value_at others.now))) }
{
    let mut out = Partition::new(alloc);
    let mut place = 0;
    for piece in base {
        let first = pass(others, place, piece.over.a());
        place = put_piece(&mut out, *piece, others, first)?;
    }
    Ok(out)
}

/// A number of pieces that are past at an instant, given one at whose place is the first that may not be.
fn pass<U: Plain>(pieces: &[Piece<U>], place: usize, t: u64) -> usize
    requires chain { IsChain pieces.now }
    requires past { ArePast pieces.now place t }
    ensures { ArePast pieces.now result t }
{
    // mostly the next one ends later, and then nothing is searched
    match piece_at(pieces, place) {
        Some(next) => if next.over.b() <= t {
            past_at(pieces, t)
        } else {
            place
        },
        None => place,
    }
}

/// How many of the pieces are past at an instant.
fn past_at<U: Plain>(pieces: &[Piece<U>], t: u64) -> usize
    requires { IsChain pieces.now }
    ensures { ArePast pieces.now result t }
{
    pieces.partition_point(|piece| piece.over.b() <= t)
}

/// Writes a piece of the base behind `out`, given how many of the others are past where it starts. Answers
/// how many of them are past where it ends.
fn put_piece<T: Plain, U: Plain>(
    out: &mut Partition<(T, Option<U>)>,
    piece: Piece<T>,
    others: &[Piece<U>],
    place: usize,
) -> Result<usize, NoMemory>
    requires chain { IsChain out.old }
    requires later { last_end out.old ≤ start_of piece.over }
    requires others { IsChain others.now }
    requires past { ArePast others.now place (start_of piece.over) }
    ensures { IfOk result (PieceBeside others.now out.old out.new piece) }
{
    let end = piece.over.b();
    let mut from = piece.over.a();
    let mut place = place;
    while ends_by(others, place, end) {
        let next = others[place];
        let until = next.over.b().max(from);
        fill(out, from, until, Some(next), piece.value)?;
        from = until;
        place += 1;
    }
    // the next one, if any, ends after the piece
    fill(out, from, end, piece_at(others, place), piece.value)?;
    Ok(place)
}

/// The piece with a number, if there is one.
fn piece_at<U: Plain>(pieces: &[Piece<U>], place: usize) -> Option<Piece<U>>
    ensures { result ≡ slice_get pieces.now place }
{
    pieces.get(place).copied()
}

/// Whether there is a piece with a number, and it does not end after the instant.
fn ends_by<U: Plain>(pieces: &[Piece<U>], place: usize, end: u64) -> bool
    ensures there { IsTrue result → place < length pieces.now }
    ensures within { IsTrue result → IsSomeAnd (slice_get pieces.now place) (λ next. end_of next.over ≤ end) }
    ensures past { result ≡ false → IfSome (slice_get pieces.now place) (λ next. end < end_of next.over) }
{
    match piece_at(pieces, place) {
        Some(next) => next.over.b() <= end,
        None => false,
    }
}

/// Writes a value from one instant up to another behind `out`, and beside it that of the next piece, which
/// does not end in between, where it holds.
fn fill<T: Plain, U: Plain>(
    out: &mut Partition<(T, Option<U>)>,
    from: u64,
    until: u64,
    next: Option<Piece<U>>,
    value: T,
) -> Result<(), NoMemory>
    requires chain { IsChain out.old }
    requires later { last_end out.old ≤ from }
    requires order { from ≤ until }
    requires in_range { until ≤ LAST }
    requires lasts { IfSome next (λ piece. until ≤ max from (end_of piece.over)) }
    ensures { OnOk result (Filled (λ t. Some (value, held next t)) out.old out.new from until) }
{
    let Some(piece) = next else {
        return fill_with(out, from, until, (value, None));
    };
    let start = piece.over.a().max(from).min(until);
    fill_with(out, from, start, (value, None))?;
    fill_with(out, start, until, (value, Some(piece.value)))
}

/// Writes one value from one instant up to another behind `out`.
fn fill_with<T: Plain>(
    out: &mut Partition<T>,
    from: u64,
    until: u64,
    value: T,
) -> Result<(), NoMemory>
    requires chain { IsChain out.old }
    requires later { last_end out.old ≤ from }
    requires order { from ≤ until }
    requires in_range { until ≤ LAST }
    ensures { OnOk result (Filled (λ _. Some value) out.old out.new from until) }
{
    let Some(over) = Interval::new(from, until) else {
        return Ok(());
    };
    out.push(over, value)
}
