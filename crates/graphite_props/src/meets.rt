//! Whether an interval meets the pieces of a timeline.
ghost use Rattle.std.specs.Prelude.{◌≡◌, not, is_none};
ghost use Rattle.graphite_part.specs.Pieces.{value_at, IsChain, last_end};
ghost use Rattle.graphite_text.specs.Reading.{throughout};
ghost use Rattle.graphite_text.specs.Spans.{as_span};

use graphite_part::Piece;
use graphite_time::Interval;

/// Whether some piece has a value at an instant of the interval.
pub(crate) fn meets(pieces: &[Piece<u32>], over: Interval) -> bool
    requires { IsChain pieces.now }
    ensures { result ≡ not (throughout (λ t. is_none (value_at pieces.now t)) (as_span over)) }
{
    // intervals mostly come in order, and then nothing is searched
    over.a() < end_of_pieces(pieces) && is_met(pieces, over)
}

/// The instant where the last piece ends, or 0.
fn end_of_pieces(pieces: &[Piece<u32>]) -> u64
    ensures { result ≡ last_end pieces.now }
{
    pieces.last().map_or(0, |piece| piece.over.b())
}

/// The same as `meets`, by a search among all pieces.
fn is_met(pieces: &[Piece<u32>], over: Interval) -> bool
    requires { IsChain pieces.now }
    ensures { result ≡ not (throughout (λ t. is_none (value_at pieces.now t)) (as_span over)) }
{
    // of those that end after the start of `over`, the first starts first
    let place = pieces.partition_point(|piece| piece.over.b() <= over.a());
    match pieces.get(place) {
        Some(piece) => piece.over.a() < over.b(),
        None => false,
    }
}
