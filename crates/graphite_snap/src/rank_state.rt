//! What a vertex keeps whose rank is counted.
ghost use Rattle.std.specs.Prelude.{◌≡◌, ◌≤◌, ◌↔◌, true, IsSome, IfSome};

use graphite_part::Plain;

/// What a vertex keeps: its rank, in billionths, the number of edges that are alive and lead out of it,
/// and the number of vertices that are alive, at least 1.
#[derive(Clone, Copy, Debug, PartialEq, Eq, PartialOrd, Ord)]
pub struct RankState {
    rank: u32,
    outdegree: u32,
    n: u32,
    ghost proper: { 1 ≤ n },
}

/// One vertex that is alive, with the rank 0: what stands where no state is given.
impl Default for RankState {
    fn default() -> RankState {
        RankState::alone()
    }
}

impl Plain for RankState {
    ghost use Rattle.std.proofs.Common.{lit<};
    ghost use Rattle.graphite_snap.specs.RankLaws.{rank_exact};

    ghost exact = { rank_exact };

    const IN_PLACE: bool = true;

    ghost IN_PLACE = { true };

    ghost fits = { λ _. lit< tt };

    const OPTION_IN_PLACE: bool = true;

    ghost OPTION_IN_PLACE = { true };

    ghost option_fits = { λ _. lit< tt };
}

impl RankState {
    ghost use Rattle.graphite_snap.specs.RankLaws.{alone, begun_with, state_with};

    /// The state of a vertex with this rank and out-degree, where `n` vertices are alive. `None` exactly
    /// where `n` is 0.
    pub fn new(rank: u32, outdegree: u32, n: u32) -> Option<RankState>
        ensures proper { IsSome result ↔ (1 ≤ n) }
        ensures rank { IfSome result (λ state. state.rank ≡ rank) }
        ensures outdegree { IfSome result (λ state. state.outdegree ≡ outdegree) }
        ensures n { IfSome result (λ state. state.n ≡ n) }
        ensures with { result ≡ state_with rank outdegree n }
    {
        if 1 <= n {
            Some(RankState { rank, outdegree, n })
        } else {
            None
        }
    }

    /// One vertex that is alive, with the rank 0.
    fn alone() -> RankState
        ensures { result ≡ alone }
    {
        RankState {
            rank: 0,
            outdegree: 0,
            n: 1,
        }
    }

    /// The state that a vertex starts with, where `n` vertices are alive, itself among them.
    pub(crate) fn begun_with(rank: u32, outdegree: u32, n: u32) -> RankState
        ensures { result ≡ begun_with rank outdegree n }
    {
        match RankState::new(rank, outdegree, n) {
            Some(state) => state,
            None => RankState::alone(),
        }
    }

    /// The rank, in billionths.
    pub fn rank(self) -> u32
        ensures { result ≡ self.rank }
    {
        self.rank
    }

    /// The number of edges that are alive and lead out of the vertex.
    pub fn outdegree(self) -> u32
        ensures { result ≡ self.outdegree }
    {
        self.outdegree
    }

    /// The number of vertices that are alive.
    pub fn n(self) -> u32
        ensures n { result ≡ self.n }
        ensures proper { 1 ≤ self.n }
    {
        self.n
    }

    /// The same with another rank.
    pub(crate) fn with_rank(self, rank: u32) -> RankState
        ensures { result ≡ record self { rank = rank } }
    {
        RankState {
            rank,
            outdegree: self.outdegree,
            n: self.n,
        }
    }
}
