//! The arcs along which vertices send.
ghost use Rattle.std.proofs.Common.{true, lit<};
ghost use Rattle.graphite_api.specs.ArcOrder.{arc_exact};

use graphite_part::Plain;
use graphite_time::Interval;

/// An edge of the graph, over an interval of instants at which it can be taken, with its time and
/// cost there. One edge can have several arcs. Arcs are ordered by their fields, in this order: by
/// source, by edge, by interval, and then by the rest.
#[derive(Clone, Copy, Debug, Default, PartialEq, Eq, PartialOrd, Ord)]
pub struct Arc {
    /// The number of the vertex that it leads out of.
    pub from: u32,
    /// The number of the edge.
    pub edge: u32,
    /// The instants at which it can be taken.
    pub over: Interval,
    /// The number of the vertex that it leads to.
    pub to: u32,
    /// How many instants it takes, at least 1 in a table.
    pub time: u32,
    /// What it costs.
    pub cost: u32,
    /// The instants of the target at which what is told may hold: for journeys the lifespan that every
    /// arrival is in, for snapshots the instants of `over`.
    pub stay: Interval,
}

impl Plain for Arc {
    ghost exact = { arc_exact };

    const IN_PLACE: bool = true;

    ghost IN_PLACE = { true };

    ghost fits = { λ _. lit< tt };

    const OPTION_IN_PLACE: bool = true;

    ghost OPTION_IN_PLACE = { true };

    ghost option_fits = { λ _. lit< tt };
}
