//! The least and the greatest of some notes.
ghost use Rattle.std.specs.Prelude.{◌≡◌};
ghost use Rattle.std.specs.List.Sorted.{IsSorted};
ghost use Rattle.std.specs.Ordering.{nat_cmp};
ghost use Rattle.graphite_snap.specs.Least.{least, greatest};

/// The least of the notes, which is the first of them, since they rise. `None` exactly where there are
/// none.
#[tactic(auto, using(crate::proofs::RisingLemmas::least_rising))]
pub(crate) fn least(notes: &[u32]) -> Option<u32>
    requires rising { IsSorted nat_cmp notes.now }
    ensures { result ≡ least notes.now }
{
    notes.first().copied()
}

/// The same of sums of costs.
#[tactic(auto, using(crate::proofs::RisingLemmas::least_rising))]
pub(crate) fn least_sum(notes: &[u64]) -> Option<u64>
    requires rising { IsSorted nat_cmp notes.now }
    ensures { result ≡ least notes.now }
{
    notes.first().copied()
}

/// The greatest of the notes, which is the last of them, since they rise. `None` exactly where there are
/// none.
#[tactic(auto, using(crate::proofs::RisingLemmas::greatest_rising))]
pub(crate) fn greatest(notes: &[u32]) -> Option<u32>
    requires rising { IsSorted nat_cmp notes.now }
    ensures { result ≡ greatest notes.now }
{
    notes.last().copied()
}
