//! What a graph is made from.
ghost use Rattle.std.specs.Prelude.{◌≡◌, ◌≤◌, true};
ghost use Rattle.graphite_base.specs.declared.reading.TheConstants.{MADE_LIMIT};
ghost use Rattle.graphite_time.specs.declared.TheConstants.{LAST};
ghost use Rattle.graphite_words.specs.Table.{row_of};

use crate::table::Command;

/// What a graph is made from: a seed, how many vertices and edges it has, up to
/// [`graphite_base::MADE_LIMIT`] each and no edge without a vertex, its horizon in instants, from 1 to
/// [`graphite_time::LAST`], and the program to run on it, which has a report.
#[derive(Clone, Copy, Debug, PartialEq, Eq)]
pub struct MadeAsk {
    pub seed: u64,
    pub vertices: u32,
    pub edges: u32,
    pub horizon: u64,
    pub of: Command,
    ghost few: { (vertices ≤ MADE_LIMIT) × (edges ≤ MADE_LIMIT) },
    ghost in_time: { (1 ≤ horizon) × (horizon ≤ LAST) },
    ghost has_ends: { vertices ≡ 0 → edges ≡ 0 },
    ghost has_report: { (row_of of).takes_report ≡ true },
}
