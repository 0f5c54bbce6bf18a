//! Aligned states and messages, and a caller that cites the laws.
ghost use Rattle.std.specs.Prelude.{◌≡◌, IfOk};
ghost use Rattle.std.specs.List.Sorted.{IsPermutation};

use crate::lives::interval;
use graphite_part::{Partition, Plain};
use graphite_time::NoMemory;
use graphite_warp::{Message, Touch, Triple, order_is_free, triples_are_unique, warp};
use std::alloc::Global;
use std::process::Abort;
use std::test::Fail;

fn message(a: u64, b: u64, note: u64) -> Result<Message<u64>, Fail> {
    let over = interval(a, b)?;
    Ok(Message { over, note })
}

/// The state 0 at the instants from 0 to 5.
fn states(alloc: Global) -> Result<Partition<u32>, Fail> {
    let over = interval(0, 6)?;
    let mut states = Partition::new(alloc);
    states.push(over, 0)?;
    Ok(states)
}

fn assert_triples(rt: &impl Abort, triples: &[Triple<u32, u64>], expected: &[(u64, u64, &[u64])]) {
    assert_eq!(rt; triples.len(), expected.len());
    for (triple, (a, b, group)) in triples.iter().zip(expected) {
        assert_eq!(rt; triple.over().a(), *a);
        assert_eq!(rt; triple.over().b(), *b);
        assert_eq!(rt; triple.state(), 0);
        assert_eq!(rt; triple.group(), *group);
    }
}

#[test]
fn notes_that_overlap_are_kept_twice(rt: HostRuntime) -> Result<(), Fail> {
    let states = states(rt.alloc())?;
    let messages = [message(0, 4, 1)?, message(2, 6, 1)?];
    let triples = warp(rt.alloc(), &states, &messages, Touch::Touched)?;
    assert_triples(
        &rt,
        &triples,
        &[(0, 2, &[1]), (2, 4, &[1, 1]), (4, 6, &[1])],
    );
    Ok(())
}

#[test]
fn touching_parts_of_equal_notes_are_one(rt: HostRuntime) -> Result<(), Fail> {
    let states = states(rt.alloc())?;
    let messages = [message(0, 3, 1)?, message(3, 6, 1)?];
    let triples = warp(rt.alloc(), &states, &messages, Touch::Touched)?;
    assert_triples(&rt, &triples, &[(0, 6, &[1])]);
    Ok(())
}

#[test]
fn a_long_message_meets_short_ones(rt: HostRuntime) -> Result<(), Fail> {
    let states = states(rt.alloc())?;
    let messages = [
        message(4, 6, 1)?,
        message(0, 9, 5)?,
        message(2, 3, 1)?,
        message(4, 5, 1)?,
    ];
    let triples = warp(rt.alloc(), &states, &messages, Touch::Touched)?;
    assert_triples(
        &rt,
        &triples,
        &[
            (0, 2, &[5]),
            (2, 3, &[1, 5]),
            (3, 4, &[5]),
            (4, 5, &[1, 1, 5]),
            (5, 6, &[1, 5]),
        ],
    );
    Ok(())
}

#[test]
fn very_many_messages_that_overlap(rt: HostRuntime) -> Result<(), Fail> {
    let over = interval(0, 400_001)?;
    let mut states = Partition::new(rt.alloc());
    states.push(over, 0)?;
    let mut messages = Vec::new(rt.alloc());
    for start in 0..400_000 {
        messages.push(message(start, start + 2, 0)?)?;
    }
    let triples = warp(rt.alloc(), &states, &messages, Touch::Touched)?;
    assert_triples(
        &rt,
        &triples,
        &[
            (0, 1, &[0]),
            (1, 400_000, &[0, 0]),
            (400_000, 400_001, &[0]),
        ],
    );
    Ok(())
}

#[test]
fn all_instants_without_messages(rt: HostRuntime) -> Result<(), Fail> {
    let states = states(rt.alloc())?;
    let (triples, again) = warped_in_two_orders(rt.alloc(), &states, &[], &[], Touch::All)?;
    assert_triples(&rt, &triples, &[(0, 6, &[])]);
    assert_triples(&rt, &again, &[(0, 6, &[])]);
    Ok(())
}

/// The triples by the messages in one order and in another: the same.
fn warped_in_two_orders<S: Plain, M: Plain>(
    alloc: Global,
    states: &Partition<S>,
    messages: &[Message<M>],
    others: &[Message<M>],
    touch: Touch,
) -> Result<(Vec<Triple<S, M>>, Vec<Triple<S, M>>), NoMemory>
    requires { IsPermutation messages.now others.now }
    ensures { IfOk result (λ both. both.0.items ≡ both.1.items) }
{
    triples_are_unique::<S, M>();
    order_is_free::<S, M>();
    let triples = warp(alloc, states, messages, touch)?;
    let again = warp(alloc, states, others, touch)?;
    Ok((triples, again))
}
