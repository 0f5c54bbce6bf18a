//! What is made of the facts of one vertex.
ghost use Rattle.std.specs.Prelude.{◌≡◌, ◌<◌, ◌^◌, ℕ, [], None, length, unwrap_or, IfOk};
ghost use Rattle.std.specs.Option.{ForSome};
ghost use Rattle.graphite_time.specs.Life.{IsLife};
ghost use Rattle.graphite_part.specs.Pieces.{AreRuns, IsChain};
ghost use Rattle.graphite_graph.specs.Covered.{facts_with, covered_facts, counted_on};
ghost use Rattle.graphite_graph.specs.Facts.{AreMadeOf};

use crate::Facts;
use graphite_part::{Partition, Piece, Plain};
use graphite_props::beside;
use graphite_time::{Interval, Life, NoMemory};
use std::alloc::Global;

/// What `f` makes of the facts of a vertex, where the covers are the lifespans of the edges out of it,
/// the numbers those of all vertices alive, if they are asked, and `property` its values under the asked key.
pub(crate) fn made_of_vertex<T: Plain, F: Fn(Facts) -> T>(
    alloc: Global,
    v: u32,
    life: &Life,
    covers: &[Interval],
    numbers: &[Piece<u32>],
    property: &[Piece<u32>],
    f: &F,
) -> Result<Partition<T>, NoMemory>
    requires callable { (t : ℕ) → ForSome (covered_facts v life.now covers.now numbers.now property.now t) (F.pre f.now) }
    requires life { IsLife life.now }
    requires few { length covers.now < 2 ^ 32 }
    requires numbers { IsChain numbers.now }
    requires property { IsChain property.now }
    ensures { IfOk result (AreMadeOf (F.post f.now)
        (covered_facts v life.now covers.now numbers.now property.now)) }
{
    if property.is_empty() {
        return made_without_property(alloc, v, life, covers, numbers, f);
    }
    made_of_all(alloc, v, life, covers, numbers, property, f)
}

/// The same of a vertex without a property.
fn made_without_property<T: Plain, F: Fn(Facts) -> T>(
    alloc: Global,
    v: u32,
    life: &Life,
    covers: &[Interval],
    numbers: &[Piece<u32>],
    f: &F,
) -> Result<Partition<T>, NoMemory>
    requires callable { (t : ℕ) → ForSome (covered_facts v life.now covers.now numbers.now [] t) (F.pre f.now) }
    requires life { IsLife life.now }
    requires few { length covers.now < 2 ^ 32 }
    requires numbers { IsChain numbers.now }
    ensures { IfOk result (AreMadeOf (F.post f.now) (covered_facts v life.now covers.now numbers.now [])) }
{
    if numbers.is_empty() {
        return made_of_covers(alloc, v, life, covers, f);
    }
    made_of_numbers(alloc, v, life, covers, numbers, f)
}

/// The same where no numbers are asked.
fn made_of_covers<T: Plain, F: Fn(Facts) -> T>(
    alloc: Global,
    v: u32,
    life: &Life,
    covers: &[Interval],
    f: &F,
) -> Result<Partition<T>, NoMemory>
    requires callable { (t : ℕ) → ForSome (covered_facts v life.now covers.now [] [] t) (F.pre f.now) }
    requires life { IsLife life.now }
    requires few { length covers.now < 2 ^ 32 }
    ensures { IfOk result (AreMadeOf (F.post f.now) (covered_facts v life.now covers.now [] [])) }
{
    // many vertices have no edge out of them, or none is asked for: `f` is then called once
    if covers.is_empty() {
        return Partition::on_life(alloc, life, f(Facts::with(v, 0, 0, None)));
    }
    made_of_counts(alloc, v, life, covers, f)
}

/// The same by counting the covers.
fn made_of_counts<T: Plain, F: Fn(Facts) -> T>(
    alloc: Global,
    v: u32,
    life: &Life,
    covers: &[Interval],
    f: &F,
) -> Result<Partition<T>, NoMemory>
    requires callable { (t : ℕ) → ForSome (covered_facts v life.now covers.now [] [] t) (F.pre f.now) }
    requires few { length covers.now < 2 ^ 32 }
    ensures { IfOk result (AreMadeOf (F.post f.now) (covered_facts v life.now covers.now [] [])) }
{
    let outdegrees = counted(alloc, life, covers)?;
    let make = |outdegree: u32| -> T
        requires { F.pre f.now (facts_with v outdegree 0 None) }
        ensures { F.post f.entry.now (facts_with v outdegree 0 None) result }
    { f(Facts::with(v, outdegree, 0, None)) };
    outdegrees.map(&make)
}

/// What `f` makes of the facts with the numbers of vertices alive and without a property.
fn made_of_numbers<T: Plain, F: Fn(Facts) -> T>(
    alloc: Global,
    v: u32,
    life: &Life,
    covers: &[Interval],
    numbers: &[Piece<u32>],
    f: &F,
) -> Result<Partition<T>, NoMemory>
    requires callable { (t : ℕ) → ForSome (covered_facts v life.now covers.now numbers.now [] t) (F.pre f.now) }
    requires few { length covers.now < 2 ^ 32 }
    requires numbers { IsChain numbers.now }
    ensures { IfOk result (AreMadeOf (F.post f.now) (covered_facts v life.now covers.now numbers.now [])) }
{
    let outdegrees = counted(alloc, life, covers)?;
    let both = beside(alloc, outdegrees.pieces(), numbers)?;
    let make = |pair: (u32, Option<u32>)| -> T
        requires { F.pre f.now (facts_with v pair.0 (unwrap_or pair.1 0) None) }
        ensures { F.post f.entry.now (facts_with v pair.0 (unwrap_or pair.1 0) None) result }
    { f(Facts::with(v, pair.0, pair.1.unwrap_or(0), None)) };
    both.map(&make)
}

/// What `f` makes of the facts with a property.
fn made_of_all<T: Plain, F: Fn(Facts) -> T>(
    alloc: Global,
    v: u32,
    life: &Life,
    covers: &[Interval],
    numbers: &[Piece<u32>],
    property: &[Piece<u32>],
    f: &F,
) -> Result<Partition<T>, NoMemory>
    requires callable { (t : ℕ) → ForSome (covered_facts v life.now covers.now numbers.now property.now t) (F.pre f.now) }
    requires few { length covers.now < 2 ^ 32 }
    requires numbers { IsChain numbers.now }
    requires property { IsChain property.now }
    ensures { IfOk result (AreMadeOf (F.post f.now)
        (covered_facts v life.now covers.now numbers.now property.now)) }
{
    let outdegrees = counted(alloc, life, covers)?;
    let both = beside(alloc, outdegrees.pieces(), numbers)?;
    let all = beside(alloc, both.pieces(), property)?;
    let make = |row: ((u32, Option<u32>), Option<u32>)| -> T
        requires { F.pre f.now (facts_with v row.0.0 (unwrap_or row.0.1 0) row.1) }
        ensures { F.post f.entry.now (facts_with v row.0.0 (unwrap_or row.0.1 0) row.1) result }
    { f(Facts::with(v, row.0.0, row.0.1.unwrap_or(0), row.1)) };
    all.map(&make)
}

/// How many of the covers hold each instant of a life.
fn counted(alloc: Global, life: &Life, covers: &[Interval]) -> Result<Partition<u32>, NoMemory>
    requires { length covers.now < 2 ^ 32 }
    ensures { IfOk result (AreRuns (counted_on life.now covers.now)) }
{
    let mut counts = Partition::on_life(alloc, life, 0)?;
    counts.add_counts(covers)?;
    Ok(counts)
}
