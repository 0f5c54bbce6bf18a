//! The calls of a partition, and a caller that cites what `map` gives.
ghost use Rattle.std.specs.Prelude.{◌≡◌, IfOk, option_map};
ghost use Rattle.graphite_part.specs.Pieces.{value_at, AreRuns};

use crate::lives::interval;
use graphite_part::{Partition, Plain, answers_are_runs};
use graphite_time::{Life, NoMemory};
use std::alloc::Global;
use std::fmt::Debug;
use std::process::Abort;
use std::test::Fail;

fn assert_pieces<T: Plain + Debug>(
    rt: &impl Abort,
    partition: &Partition<T>,
    expected: &[(u64, u64, T)],
) {
    let pieces = partition.pieces();
    assert_eq!(rt; pieces.len(), expected.len());
    for (piece, (a, b, value)) in pieces.iter().zip(expected) {
        assert_eq!(rt; piece.over.a(), *a);
        assert_eq!(rt; piece.over.b(), *b);
        assert_eq!(rt; piece.value, *value);
    }
}

/// 7 at the instants from 0 to 5, but 1 at 2.
fn painted(alloc: Global) -> Result<Partition<u32>, Fail> {
    let whole = interval(0, 6)?;
    let part = interval(2, 3)?;
    let mut partition = Partition::new(alloc);
    partition.paint(whole, 7)?;
    partition.paint(part, 1)?;
    Ok(partition)
}

#[test]
fn calls_on_two_pieces(rt: HostRuntime) -> Result<(), Fail> {
    let mut left = painted(rt.alloc())?;
    left.cut(interval(1, 5)?)?;
    assert_pieces(&rt, &left, &[(0, 1, 7), (5, 6, 7)]);
    let mut right = Partition::new(rt.alloc());
    right.push(interval(0, 6)?, 9u32)?;
    let pairs = left.zip(&right)?;
    assert_pieces(&rt, &pairs, &[(0, 1, (7, 9)), (5, 6, (7, 9))]);
    let zeros = zeros(&left)?;
    assert_pieces(&rt, &zeros, &[(0, 1, 0), (5, 6, 0)]);
    Ok(())
}

#[test]
fn the_mirror_of_two_pieces(rt: HostRuntime) -> Result<(), Fail> {
    let mut pieces = Partition::new(rt.alloc());
    pieces.push(interval(0, 1)?, 7u32)?;
    pieces.push(interval(5, 6)?, 7)?;
    let mirror = pieces.mirror(10)?;
    assert_pieces(&rt, &mirror, &[(4, 5, 7), (9, 10, 7)]);
    Ok(())
}

/// 0 at each instant that has a value, by the law of what `map` gives.
fn zeros(partition: &Partition<u32>) -> Result<Partition<u64>, NoMemory>
    ensures { IfOk result (λ out. AreRuns
        (λ t. option_map (λ _. 0) (value_at partition.now t)) out) }
{
    let zero = |_value: u32| 0u64;
    answers_are_runs(&zero);
    partition.map(&zero)
}

#[test]
fn a_copy_goes_on_alone(rt: HostRuntime) -> Result<(), Fail> {
    let mut left = painted(rt.alloc())?;
    left.cut(interval(1, 5)?)?;
    let mut longer = left.copy()?;
    longer.paint(interval(6, 8)?, 7)?;
    assert_pieces(&rt, &longer, &[(0, 1, 7), (5, 8, 7)]);
    assert_pieces(&rt, &left, &[(0, 1, 7), (5, 6, 7)]);
    Ok(())
}

#[test]
fn painted_pieces_join_and_split(rt: HostRuntime) -> Result<(), Fail> {
    let mut partition = Partition::new(rt.alloc());
    partition.paint(interval(0, 4)?, 7u32)?;
    partition.paint(interval(4, 6)?, 7)?;
    assert_pieces(&rt, &partition, &[(0, 6, 7)]);
    partition.paint(interval(2, 3)?, 1)?;
    assert_pieces(&rt, &partition, &[(0, 2, 7), (2, 3, 1), (3, 6, 7)]);
    assert_eq!(rt; partition.at(2), Some(1));
    assert_eq!(rt; partition.at(5), Some(7));
    assert_eq!(rt; partition.at(6), None);
    Ok(())
}

#[test]
fn counts_are_added(rt: HostRuntime) -> Result<(), Fail> {
    let life = Life::one(rt.alloc(), interval(0, 6)?)?;
    let covers = [interval(0, 4)?, interval(2, 6)?];
    let mut partition = Partition::on_life(rt.alloc(), &life, 0)?;
    partition.add_counts(&covers)?;
    assert_pieces(&rt, &partition, &[(0, 2, 1), (2, 4, 2), (4, 6, 1)]);
    Ok(())
}

fn pushed_twice<T: Plain>(alloc: Global, x: T, y: T) -> Result<usize, Fail> {
    let first = interval(0, 1)?;
    let second = interval(1, 2)?;
    let mut partition = Partition::new(alloc);
    partition.push(first, x)?;
    partition.paint(second, y)?;
    Ok(partition.pieces().len())
}

#[test]
fn plain_values_join_where_they_are_equal(rt: HostRuntime) -> Result<(), Fail> {
    assert_eq!(rt; pushed_twice(rt.alloc(), true, true)?, 1);
    assert_eq!(rt; pushed_twice(rt.alloc(), 1u64, 2)?, 2);
    assert_eq!(rt; pushed_twice(rt.alloc(), Some(1u32), None)?, 2);
    assert_eq!(rt;
        pushed_twice(rt.alloc(), (1u32, Some(false)), (1, Some(false)))?,
        1
    );
    Ok(())
}
