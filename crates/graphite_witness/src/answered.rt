//! A question about journeys, with its answer.
ghost use Rattle.std.specs.Prelude.{◌≡◌, ◌<◌, length};
ghost use Rattle.graphite_witness.specs.Answered.{value_for};

use graphite_api::{ArcTable, PathQuery};
use graphite_part::Partition;

/// A question about journeys on a table, and its answer: for each vertex its best values over its life.
#[derive(Clone, Copy)]
pub struct Answered<'t> {
    pub table: &'t ArcTable,
    pub query: PathQuery,
    pub values: &'t [Partition<Option<u64>>],
}

/// The value of `v` at `t`: none where it has none, and none where it is not alive.
pub(crate) fn value_of(values: &[Partition<Option<u64>>], v: u32, t: u64) -> Option<u64>
    requires { v < length values.now }
    ensures { result ≡ value_for values.now v t }
{
    values[v as usize].at(t).flatten()
}
