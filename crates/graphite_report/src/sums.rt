//! What is added up over the pieces of a vertex.
ghost use Rattle.std.specs.Prelude.{◌≡◌, ◌≤◌, ◌+◌, sum_by};
ghost use Rattle.graphite_time.specs.declared.TheConstants.{LAST};
ghost use Rattle.graphite_part.specs.Pieces.{IsChain};
ghost use Rattle.graphite_report.specs.Sums.{alive_weight, counts, lasting, number_weight, valued_weight, AreAtMost};

use graphite_part::Piece;

/// At how many instants a vertex is alive, at how many of them it has a number, and the sum of its
/// numbers over these.
#[derive(Clone, Copy, Debug, PartialEq, Eq)]
pub struct Totals {
    pub alive: u64,
    pub valued: u64,
    pub sum: u128,
}

/// The totals with those of one piece more.
fn with_piece(totals: Totals, piece: Piece<Option<u64>>) -> Totals
    requires room { totals.alive + lasting piece ≤ LAST }
    requires most { AreAtMost totals.alive totals.valued totals.sum }
    ensures alive { result.alive ≡ totals.alive + counts alive_weight piece }
    ensures valued { result.valued ≡ totals.valued + counts valued_weight piece }
    ensures sum { result.sum ≡ totals.sum + counts number_weight piece }
    ensures most { AreAtMost result.alive result.valued result.sum }
{
    let lasting = piece.over.b() - piece.over.a();
    let alive = totals.alive + lasting;
    match piece.value {
        Some(number) => Totals {
            alive,
            valued: totals.valued + lasting,
            sum: totals.sum + u128::from(lasting) * u128::from(number),
        },
        None => Totals {
            alive,
            valued: totals.valued,
            sum: totals.sum,
        },
    }
}

/// The totals of these pieces.
pub fn totals_of(pieces: &[Piece<Option<u64>>]) -> Totals
    requires { IsChain pieces.now }
    ensures alive { result.alive ≡ sum_by (counts alive_weight) pieces.now }
    ensures valued { result.valued ≡ sum_by (counts valued_weight) pieces.now }
    ensures sum { result.sum ≡ sum_by (counts number_weight) pieces.now }
{
    let mut totals = Totals {
        alive: 0,
        valued: 0,
        sum: 0,
    };
    for piece in pieces {
        totals = with_piece(totals, *piece);
    }
    totals
}
