//! Partitions of other values.
ghost use Rattle.std.specs.Prelude.{◌≡◌, ◌<◌, ℕ, length, slice_index_or, [], IfOk};
ghost use Rattle.std.specs.Option.{ForSome};
ghost use Rattle.graphite_part.specs.Calls.{AreAnswers};
ghost use Rattle.graphite_part.specs.Pieces.{value_at};

use graphite_part::{Partition, Plain};
use graphite_time::NoMemory;
use std::alloc::Global;

/// What `f` gives of the values of each partition, at their instants. Each old partition is given up
/// as soon as its new one is made.
pub(crate) fn map_all<T: Plain, U: Plain, F: Fn(T) -> U>(
    alloc: Global,
    old: Vec<Partition<T>>,
    f: &F,
) -> Result<Vec<Partition<U>>, NoMemory>
    requires { (v t : ℕ) → ForSome (value_at (slice_index_or old.items v []) t) (F.pre f.now) }
    ensures len { IfOk result (λ new. length new.items ≡ length old.items) }
    ensures answers { IfOk result (λ new. (v : ℕ) → v < length old.items
        → AreAnswers (F.post f.now) (slice_index_or old.items v []) (slice_index_or new.items v [])) }
{
    let mut new = Vec::with_capacity(alloc, old.len())?;
    for partition in old {
        new.push(partition.map(f)?)?;
    }
    Ok(new)
}
