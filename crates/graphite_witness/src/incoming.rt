//! The arcs of a table by the vertices that they lead into.
ghost use Rattle.std.specs.Prelude.{◌≡◌, ◌≢◌, ◌+◌, ◌^◌, ◌<◌, ◌≤◌, All, length, IfOk};
ghost use Rattle.std.specs.List.{AllWithin};
ghost use Rattle.std.specs.List.Sorted.{IsNonDecreasingBy, IsPermutation};
ghost use Rattle.graphite_api.specs.declared.kind.Kind.TheVariants.{Latest};
ghost use Rattle.graphite_witness.specs.ByTarget.{target_key, AreByTarget, IsEntry, AreEntries};
ghost use Rattle.graphite_witness.specs.Incoming.{arcs_into, AreByEdge, IsIncomingOf};

use graphite_api::{Arc, ArcTable, Kind};
use graphite_time::NoMemory;
use std::alloc::Global;
use std::marker::Model;

/// The arcs of a table by the vertices that they lead into, then by edge, and then by the start of their interval. Only
/// written journeys look at them so, and a table does not keep them in this order.
#[derive(Drop)]
pub struct IncomingArcs {
    arcs: Vec<Arc>,
    // where the arcs into each vertex start, and where those into the last one end
    starts: Vec<usize>,
}

impl Model for IncomingArcs {
    ghost use Rattle.std.specs.Prelude.{length, ◌-◌};
    ghost use Rattle.graphite_witness.specs.ByTarget.{AreByTarget, AreEntries};
    ghost use Rattle.graphite_witness.specs.Incoming.{Incoming};

    ghost Value = { Incoming };

    ghost view = { λ incoming. record { vertices = length incoming.starts.items - 1; arcs = incoming.arcs.items } };

    ghost invariant = { λ incoming. AreByTarget incoming.arcs.items
        × AreEntries incoming.arcs.items (length incoming.starts.items - 1) incoming.starts.items };
}

impl IncomingArcs {
    /// The arcs of a table that the written journeys of a kind look at so: all of them, but none for [`Kind::Latest`], whose
    /// journeys are told by the arcs out of each vertex.
    pub fn new(alloc: Global, table: &ArcTable, kind: Kind) -> Result<IncomingArcs, NoMemory>
        ensures { IfOk result (λ incoming. IsIncomingOf table.now kind incoming) }
    {
        let mut arcs = arcs_for(alloc, table, kind)?;
        see_edges(&arcs);
        sort_by_target(&mut arcs);
        let starts = starts_of(alloc, &arcs, table.vertices())?;
        Ok(IncomingArcs { arcs, starts })
    }

    /// The arcs that lead into a vertex, by edge and then by the start of their interval.
    pub fn into_of(&self, v: u32) -> &[Arc]
        requires { v < self.now.vertices }
        ensures arcs { result.now ≡ arcs_into self.now.arcs v }
        ensures by_edge { AreByEdge result.now }
    {
        let start = self.starts[v as usize];
        let end = self.starts[v as usize + 1];
        into_between(&self.arcs, v, start, end)
    }
}

/// The arcs into a vertex, given where they start and where those into the next one do.
fn into_between(arcs: &[Arc], v: u32, start: usize, end: usize) -> &[Arc]
    requires by_target { AreByTarget arcs.now }
    requires start { IsEntry arcs.now v start }
    requires end { IsEntry arcs.now (v + 1) end }
    requires order { start ≤ end }
    ensures arcs { result.now ≡ arcs_into arcs.now v }
    ensures by_edge { AreByEdge result.now }
{
    &arcs[start..end]
}

/// A copy of the arcs of the table, if the journeys of the kind are told by the arcs into each vertex.
fn arcs_for(alloc: Global, table: &ArcTable, kind: Kind) -> Result<Vec<Arc>, NoMemory>
    ensures arcs { IfOk result (λ arcs. kind ≢ Latest → arcs.items ≡ table.now.arcs) }
    ensures none { IfOk result (λ arcs. kind ≡ Latest → length arcs.items ≡ 0) }
{
    match kind {
        Kind::Latest => Ok(Vec::new(alloc)),
        Kind::Reach | Kind::Earliest | Kind::Cheapest | Kind::Fastest => {
            Ok(Vec::from_slice(alloc, table.arcs())?)
        }
    }
}

/// Shows that the number of an edge has 32 bits.
fn see_edge(arc: &Arc)
    ensures { arc.now.edge < 2 ^ 32 }
{
    let _edge = arc.edge;
}

/// Shows it of the edges of all arcs.
fn see_edges(arcs: &[Arc])
    ensures { All (λ arc. arc.edge < 2 ^ 32) arcs.now }
{
    for arc in arcs {
        see_edge(arc);
    }
}

/// One number that orders arcs by their targets, then by edge, and then by the start of their interval.
fn key_of(arc: &Arc) -> u128
    ensures { result ≡ target_key arc.now }
{
    let target = u128::from(arc.to);
    let edge = u128::from(arc.edge);
    (target * (1 << 32) + edge) * (1 << 64) + u128::from(arc.over.a())
}

/// Puts the arcs in the order of their targets. Repeats stay.
fn sort_by_target(arcs: &mut Vec<Arc>)
    requires { All (λ arc. arc.edge < 2 ^ 32) arcs.old.items }
    ensures by_target { AreByTarget arcs.new.items }
    ensures rise { IsNonDecreasingBy (λ arc. arc.to) arcs.new.items }
    ensures moved { IsPermutation arcs.old.items arcs.new.items }
{
    arcs.sort_unstable_by_key(|arc| key_of(arc));
}

/// Where the arcs into each vertex start in a list that is in the order of the targets.
fn starts_of(alloc: Global, arcs: &[Arc], vertices: u32) -> Result<Vec<usize>, NoMemory>
    requires { IsNonDecreasingBy (λ arc. arc.to) arcs.now }
    ensures { IfOk result (λ starts. AreEntries arcs.now vertices starts.items) }
{
    let mut starts = Vec::with_capacity(alloc, vertices as usize + 1)?;
    let mut start = 0;
    for v in 0..=vertices {
        start = next_start(arcs, v, start);
        starts.push(start)?;
    }
    Ok(starts)
}

/// How many of the arcs have a target below `v`, where those of the first `start` do.
fn next_start(arcs: &[Arc], v: u32, start: usize) -> usize
    requires rise { IsNonDecreasingBy (λ arc. arc.to) arcs.now }
    requires within { start ≤ length arcs.now }
    requires passed { AllWithin (λ arc. arc.to < v) arcs.now 0 start }
    ensures { IsEntry arcs.now v result }
{
    let mut place = start;
    while place < arcs.len() && arcs[place].to < v {
        place += 1;
    }
    place
}
