//! Counts of the intervals that hold an instant, in one sweep over their starts and ends.
ghost use Rattle.std.specs.Prelude.{◌≡◌, ◌+◌, ◌^◌, ◌<◌, ◌≤◌, ℕ, All, List, Some, map, min, option_map, slice_index_or, IfOk};
ghost use Rattle.std.specs.List.Sorted.{IsNonDecreasing, IsPermutation};
ghost use Rattle.graphite_time.specs.Interval.{start_of, end_of};
ghost use Rattle.graphite_part.specs.Sweep.{open_at, AreSwept, ArePassed, HavePassed};
ghost use Rattle.graphite_part.specs.Fills.{Filled};
ghost use Rattle.graphite_part.specs.Pieces.{value_at, last_end, IsChain, AreRuns};

use crate::Piece;
use crate::fill::push_piece;
use graphite_time::{Interval, NoMemory};
use std::alloc::Global;

/// The starts of the intervals, in rising order.
pub(crate) fn sorted_starts(alloc: Global, covers: &[Interval]) -> Result<Vec<u64>, NoMemory>
    ensures starts { IfOk result (λ starts. IsPermutation (map start_of covers.now) starts.items) }
    ensures rise { IfOk result (λ starts. IsNonDecreasing starts.items) }
{
    let mut starts: Vec<u64> = covers.iter().map(|over| over.a()).collect(alloc)?;
    starts.sort_unstable();
    Ok(starts)
}

/// The ends of the intervals, in rising order.
pub(crate) fn sorted_ends(alloc: Global, covers: &[Interval]) -> Result<Vec<u64>, NoMemory>
    ensures ends { IfOk result (λ ends. IsPermutation (map end_of covers.now) ends.items) }
    ensures rise { IfOk result (λ ends. IsNonDecreasing ends.items) }
{
    let mut ends: Vec<u64> = covers.iter().map(|over| over.b()).collect(alloc)?;
    ends.sort_unstable();
    Ok(ends)
}

/// How many of the starts and of the ends lie at or before an instant.
#[derive(Clone, Copy)]
pub(crate) struct Passed {
    starts: usize,
    ends: usize,
}

/// The pieces, each value with the number of intervals that have started and not ended.
pub(crate) fn counted_pieces(
    alloc: Global,
    pieces: &[Piece<u32>],
    starts: &[u64],
    ends: &[u64],
) -> Result<Vec<Piece<u32>>, NoMemory>
    requires chain { IsChain pieces.now }
    requires swept { AreSwept starts.now ends.now }
    requires fit { All (λ piece. (t : ℕ) → piece.value + open_at starts.now ends.now t < 2 ^ 32)
        pieces.now }
    ensures { IfOk result (λ out. AreRuns
        (λ t. option_map (λ n. n + open_at starts.now ends.now t) (value_at pieces.now t)) out.items) }
{
    // each piece, start and end begins one at most
    let most = pieces.len().saturating_add(starts.len());
    let mut out = Vec::with_capacity(alloc, most.saturating_add(ends.len()))?;
    let mut passed = Passed { starts: 0, ends: 0 };
    for piece in pieces {
        passed = fill_counted(&mut out, *piece, starts, ends, passed)?;
    }
    Ok(out)
}

/// Puts the piece at the end of `out`, its value with the number of intervals that have started and
/// not ended. `passed` is how many had at or before the piece's start, and the result at its end.
fn fill_counted(
    out: &mut Vec<Piece<u32>>,
    piece: Piece<u32>,
    starts: &[u64],
    ends: &[u64],
    passed: Passed,
) -> Result<Passed, NoMemory>
    requires out_chain { IsChain out.old.items }
    requires out_end { last_end out.old.items ≤ start_of piece.over }
    requires swept { AreSwept starts.now ends.now }
    requires fits { (t : ℕ) → piece.value + open_at starts.now ends.now t < 2 ^ 32 }
    requires started { ArePassed starts.now passed.starts (start_of piece.over) }
    requires ended { ArePassed ends.now passed.ends (start_of piece.over) }
    ensures filled { IfOk result (λ _. Filled (λ t. Some (piece.value + open_at starts.now ends.now t))
        out.old.items out.new.items (start_of piece.over) (end_of piece.over)) }
    ensures started { IfOk result (λ passed. ArePassed starts.now passed.starts (end_of piece.over)) }
    ensures ended { IfOk result (λ passed. ArePassed ends.now passed.ends (end_of piece.over)) }
{
    let mut at = piece.over.a();
    let mut started = passed.starts;
    let mut ended = passed.ends;
    while at < piece.over.b() {
        started = pass(starts, started, at);
        ended = pass(ends, ended, at);
        let next = time_at(ends, ended, time_at(starts, started, piece.over.b()));
        let over = Interval::new(at, next).unwrap();
        push_piece(out, over, piece.value + (started - ended) as u32)?;
        at = next;
    }
    Ok(Passed {
        starts: started,
        ends: ended,
    })
}

/// How many of the rising times are at or before the instant, where the first `from` are.
fn pass(times: &[u64], from: usize, t: u64) -> usize
    requires { ArePassed times.now from t }
    ensures { HavePassed times.now result t }
{
    let mut passed = from;
    while passed < times.len() && times[passed] <= t {
        passed += 1;
    }
    passed
}

/// The instant at this place of a list, or `until` where that is earlier or there is none.
pub fn time_at(times: &[u64], place: usize, until: u64) -> u64
    ensures { result ≡ min (slice_index_or times.now place until) until }
{
    times.get(place).map_or(until, |time| until.min(*time))
}
