//! The table of lives and arcs that a program runs on.
ghost use Rattle.std.specs.Prelude.{◌≡◌, ◌+◌, ◌^◌, ◌<◌, ◌≤◌, All, length, IfOk};
ghost use Rattle.std.specs.List.Sorted.{IsNonDecreasingBy, IsPermutation};
ghost use Rattle.std.specs.List.{AllWithin};
ghost use Rattle.graphite_time.specs.Life.{IsLife};
ghost use Rattle.graphite_warp.specs.Sorted.{sorted};
ghost use Rattle.graphite_api.specs.ArcOrder.{arc_order};
ghost use Rattle.graphite_api.specs.Table.{life_of, arcs_out, IsArcOn, IsTable, IsStart, AreStarts};

use crate::Arc;
use graphite_time::{Life, NoMemory};
use std::alloc::Global;
use std::marker::Model;

/// The lives of all vertices, and the arcs between them, by their sources.
#[derive(Drop)]
pub struct ArcTable {
    lives: Vec<Life>,
    arcs: Vec<Arc>,
    // where the arcs out of each vertex start, and where those of the last one end
    starts: Vec<usize>,
}

impl Model for ArcTable {
    ghost use Rattle.std.specs.Prelude.{length};
    ghost use Rattle.graphite_api.specs.Table.{Table, IsTable, AreStarts};

    ghost Value = { Table };

    ghost view = { λ table. record { lives = table.lives.items; arcs = table.arcs.items } };

    ghost invariant = { λ table. IsTable table.lives.items table.arcs.items
        × AreStarts table.arcs.items (length table.lives.items) table.starts.items };
}

impl ArcTable {
    /// A table of arcs between vertices with these lives, which are fewer than 2^32. Each arc is
    /// between two of the vertices, its time is at least 1, and its source is alive while it can be
    /// taken. At [`NoMemory`] both lists are given up.
    pub fn new(alloc: Global, lives: Vec<Life>, arcs: Vec<Arc>) -> Result<ArcTable, NoMemory>
        requires few { length lives.items < 2 ^ 32 }
        requires arcs_on { All (IsArcOn lives.items) arcs.items }
        ensures lives { IfOk result (λ table. table.lives ≡ lives.items) }
        ensures arcs { IfOk result (λ table. table.arcs ≡ sorted arc_order arcs.items) }
    {
        let mut arcs = arcs;
        sort_arcs(&mut arcs);
        see_lives(&lives);
        see_costs(&arcs);
        let starts = starts_of(alloc, &arcs, lives.len() as u32)?;
        Ok(ArcTable {
            lives,
            arcs,
            starts,
        })
    }

    /// How many vertices there are. They are numbered from 0.
    pub fn vertices(&self) -> u32
        ensures vertices { result ≡ length self.now.lives }
        ensures few { length self.now.lives < 2 ^ 32 }
    {
        self.lives.len() as u32
    }

    /// The life of a vertex.
    pub fn life(&self, v: u32) -> &Life
        requires { v < length self.now.lives }
        ensures life { result.now ≡ life_of self.now.lives v }
        ensures lifespans { IsLife result.now }
    {
        &self.lives[v as usize]
    }

    /// All arcs, in order.
    pub fn arcs(&self) -> &[Arc]
        ensures arcs { result.now ≡ self.now.arcs }
        ensures table { IsTable self.now.lives self.now.arcs }
    {
        &self.arcs
    }

    /// The arcs that lead out of a vertex, in order.
    pub fn arcs_of(&self, v: u32) -> &[Arc]
        requires { v < length self.now.lives }
        ensures { result.now ≡ arcs_out self.now.arcs v }
    {
        let start = self.starts[v as usize];
        let end = self.starts[v as usize + 1];
        arcs_between(&self.arcs, v, start, end)
    }
}

/// The arcs out of a vertex, given where they start and where those of the next one do.
fn arcs_between(arcs: &[Arc], v: u32, start: usize, end: usize) -> &[Arc]
    requires start { IsStart arcs.now v start }
    requires end { IsStart arcs.now (v + 1) end }
    requires order { start ≤ end }
    ensures { result.now ≡ arcs_out arcs.now v }
{
    &arcs[start..end]
}

/// Shows what every life keeps: its lifespans rise, with gaps.
fn see_lives(lives: &[Life])
    ensures { All IsLife lives.now }
{
    for life in lives {
        let _spans = life.spans();
    }
}

/// Shows that a cost is a number of 32 bits.
fn see_cost(arc: &Arc)
    ensures { arc.now.cost < 2 ^ 32 }
{
    let _cost = arc.cost;
}

/// Shows it of the costs of all arcs.
fn see_costs(arcs: &[Arc])
    ensures { All (λ arc. arc.cost < 2 ^ 32) arcs.now }
{
    for arc in arcs {
        see_cost(arc);
    }
}

/// Puts the arcs in order. Repeats stay.
fn sort_arcs(arcs: &mut Vec<Arc>)
    ensures sorted { arcs.new.items ≡ sorted arc_order arcs.old.items }
    ensures in_order { sorted arc_order arcs.new.items ≡ arcs.new.items }
    ensures rise { IsNonDecreasingBy (λ arc. arc.from) arcs.new.items }
    ensures moved { IsPermutation arcs.old.items arcs.new.items }
{
    arcs.sort_unstable();
}

/// Where the arcs out of each vertex start in a list that is in the order of the sources.
fn starts_of(alloc: Global, arcs: &[Arc], vertices: u32) -> Result<Vec<usize>, NoMemory>
    requires { IsNonDecreasingBy (λ arc. arc.from) arcs.now }
    ensures { IfOk result (λ starts. AreStarts arcs.now vertices starts.items) }
{
    let mut starts = Vec::with_capacity(alloc, vertices as usize + 1)?;
    let mut start = 0;
    for v in 0..=vertices {
        start = next_start(arcs, v, start);
        starts.push(start)?;
    }
    Ok(starts)
}

/// How many of the arcs have a source below `v`, where those of the first `start` do.
fn next_start(arcs: &[Arc], v: u32, start: usize) -> usize
    requires rise { IsNonDecreasingBy (λ arc. arc.from) arcs.now }
    requires within { start ≤ length arcs.now }
    requires passed { AllWithin (λ arc. arc.from < v) arcs.now 0 start }
    ensures { IsStart arcs.now v result }
{
    let mut place = start;
    while place < arcs.len() && arcs[place].from < v {
        place += 1;
    }
    place
}
