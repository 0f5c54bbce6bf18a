//! A superstep over all vertices that compute.
ghost use Rattle.std.specs.Prelude.{◌≡◌, ℕ, ◌+◌, ◌^◌, ◌<◌, ◌≤◌, [], IfOk, IfSome, IfNone, OnOk, OnErr, drop, length, map, take};
ghost use Rattle.graphite_api.specs.Rules.{computes};
ghost use Rattle.graphite_loop.specs.Deliveries.{inbox_of, message_of, standing_of, AreRising};
ghost use Rattle.graphite_loop.specs.Progress.{IsReady};
ghost use Rattle.graphite_loop.specs.Superstep.{list_at, IsSuperstep};
ghost use Rattle.graphite_loop.specs.Vertex.{IsVertexStep, IsIdle, NoMoreCalls};
ghost use Rattle.graphite_loop.specs.Walk.{IsWalked, IsGivenUp};

use crate::Delivery;
use crate::order::sort_deliveries;
use crate::scatter::scatter;
use crate::vertex::{Outcome, compute_vertex, set_states};
use graphite_api::{Arc, ArcTable, Message, Program};
use graphite_part::{Partition, Plain};
use graphite_time::NoMemory;
use graphite_warp::Sweep;
use std::alloc::Global;

/// What a superstep makes: the states and the deliveries after it, and whether a vertex sends.
#[derive(Drop)]
pub(crate) struct Made<S: Plain, M: Plain> {
    pub states: Vec<Partition<S>>,
    pub deliveries: Vec<Delivery<M>>,
    pub sends: bool,
}

/// What is lent from vertex to vertex, so that the memory that one took serves the next.
#[derive(Drop)]
struct Buffers<S: Plain, M: Plain> {
    sweep: Sweep<S, M>,
    messages: Vec<Message<M>>,
    outcome: Outcome<S>,
}

/// Makes superstep `step`: only the vertices that compute, and the arcs of those that send, are
/// looked at.
fn walk<P: Program>(
    alloc: Global,
    table: &ArcTable,
    program: &mut P,
    step: u32,
    states: Vec<Partition<P::State>>,
    deliveries: &[Delivery<P::Note>],
) -> Result<Made<P::State, P::Note>, NoMemory>
    requires step { 1 ≤ step }
    requires room { P.count program.old + 2 ^ 96 < 2 ^ 128 }
    requires ready { IsReady (length table.now.lives) states.items deliveries.now }
    requires few { length table.now.lives < 2 ^ 32 }
    ensures made { IfOk result (λ made. IsWalked
        P.rules table.now.arcs step
        (standing_of states.items deliveries.now) (length states.items) made.states.items
        made.deliveries.items made.sends (P.count program.old) (P.count program.new)) }
    ensures given_up { OnErr result (IsGivenUp
        P.rules step
        (standing_of states.items deliveries.now) (P.count program.old) (P.count program.new)) }
    ensures few { P.count program.new ≤ P.count program.old + 2 ^ 96 }
{
    // mostly about as many are sent as were read
    let outgoing = Vec::with_capacity(alloc, deliveries.len())?;
    let mut made = Made {
        states,
        deliveries: outgoing,
        sends: false,
    };
    let mut buffers = Buffers {
        sweep: Sweep::new(alloc),
        messages: Vec::new(alloc),
        outcome: Outcome::new(alloc),
    };
    let mut rest = deliveries;
    let mut next = 0;
    while let Some(v) = next_vertex::<P>(step, rest, next, table.vertices()) {
        let own = deliveries_to(rest, v);
        step_vertex(
            &mut buffers,
            table.arcs_of(v),
            program,
            step,
            v,
            &rest[..own],
            &mut made,
        )?;
        rest = &rest[own..];
        next = v + 1;
    }
    Ok(made)
}

/// The first vertex from `next` on that computes, where these are the deliveries to those vertices.
fn next_vertex<P: Program>(
    step: u32,
    deliveries: &[Delivery<P::Note>],
    next: u32,
    vertices: u32,
) -> Option<u32>
    requires rising { AreRising next deliveries.now }
    ensures after { IfSome result (λ v. next ≤ v) }
    ensures within { IfSome result (λ v. v < vertices) }
    ensures rising { IfSome result (λ v. AreRising v deliveries.now) }
    ensures idle { IfSome result (λ v. (w : ℕ) → next ≤ w → w < v
        → IsIdle P.rules step (inbox_of deliveries.now w)) }
    ensures none { IfNone result ((w : ℕ) → next ≤ w → w < vertices
        → IsIdle P.rules step (inbox_of deliveries.now w)) }
{
    let v = if all_compute::<P>(step) {
        next
    } else {
        deliveries.first()?.to
    };
    (v < vertices).then_some(v)
}

/// Whether every vertex computes in a superstep, whatever is in its inbox.
fn all_compute<P: Program>(step: u32) -> bool
    ensures { result ≡ computes P.rules step [] }
{
    step == 1 || P::ALWAYS
}

/// How many deliveries are to the vertex, where none is to an earlier one.
fn deliveries_to<M: Plain>(deliveries: &[Delivery<M>], v: u32) -> usize
    requires { AreRising v deliveries.now }
    ensures within { result ≤ length deliveries.now }
    ensures own { inbox_of deliveries.now v ≡ map message_of (take result deliveries.now) }
    ensures rest { (w : ℕ) → v < w → inbox_of deliveries.now w ≡ inbox_of (drop result deliveries.now) w }
    ensures rising { AreRising (v + 1) (drop result deliveries.now) }
{
    let mut count = 0;
    while count < deliveries.len() && deliveries[count].to == v {
        count += 1;
    }
    count
}

/// Makes a superstep at a vertex, to which these are the deliveries and out of which these arcs lead.
fn step_vertex<P: Program>(
    buffers: &mut Buffers<P::State, P::Note>,
    arcs: &[Arc],
    program: &mut P,
    step: u32,
    v: u32,
    deliveries: &[Delivery<P::Note>],
    made: &mut Made<P::State, P::Note>,
) -> Result<(), NoMemory>
    requires step { 1 ≤ step }
    requires vertex { v < length made.old.states.items }
    requires room { P.count program.old + 2 ^ 64 < 2 ^ 128 }
    ensures step { OnOk result (IsVertexStep P.rules
        arcs.now step v (map message_of deliveries.now) made.old.states.items made.new.states.items
        made.old.deliveries.items made.new.deliveries.items made.old.sends made.new.sends
        (P.count program.old) (P.count program.new)) }
    ensures at_most { OnErr result (NoMoreCalls
        P.rules step
        (list_at made.old.states.items v) (map message_of deliveries.now)
        (P.count program.old) (P.count program.new)) }
    ensures few { P.count program.new ≤ P.count program.old + 2 ^ 64 }
{
    let alloc = *made.deliveries.allocator();
    copy_messages(&mut buffers.messages, deliveries)?;
    compute_vertex(
        program,
        step,
        &made.states[v as usize],
        &buffers.messages,
        &mut buffers.sweep,
        &mut buffers.outcome,
    )?;
    set_states(&mut made.states[v as usize], alloc, &buffers.outcome.states)?;
    scatter(program, arcs, &buffers.outcome.sent, &mut made.deliveries)?;
    made.sends = made.sends || !buffers.outcome.sent.is_empty();
    Ok(())
}

/// Puts the messages in deliveries in place of others.
fn copy_messages<M: Plain>(
    messages: &mut Vec<Message<M>>,
    deliveries: &[Delivery<M>],
) -> Result<(), NoMemory>
    ensures { OnOk result (messages.new.items ≡ map message_of deliveries.now) }
{
    messages.clear();
    messages.extend(deliveries.iter().map(|delivery| delivery.message))?;
    Ok(())
}

/// Makes superstep `step` from these states and deliveries, which it takes.
pub(crate) fn make_superstep<P: Program>(
    alloc: Global,
    table: &ArcTable,
    program: &mut P,
    step: u32,
    states: Vec<Partition<P::State>>,
    deliveries: Vec<Delivery<P::Note>>,
) -> Result<Made<P::State, P::Note>, NoMemory>
    requires step { 1 ≤ step }
    requires room { P.count program.old + 2 ^ 96 < 2 ^ 128 }
    requires ready { IsReady (length table.now.lives) states.items deliveries.items }
    ensures made { IfOk result (λ made. IsSuperstep
        P.rules table.now.arcs step
        (standing_of states.items deliveries.items) (standing_of made.states.items made.deliveries.items)
        made.sends (P.count program.old) (P.count program.new)) }
    ensures ready { IfOk result (λ made. IsReady (length table.now.lives) made.states.items
        made.deliveries.items) }
    ensures given_up { OnErr result (IsGivenUp
        P.rules step
        (standing_of states.items deliveries.items) (P.count program.old) (P.count program.new)) }
    ensures few { P.count program.new ≤ P.count program.old + 2 ^ 96 }
{
    // the arcs are in order, so the deliveries come in the order of the arcs
    let _arcs = table.arcs();
    let mut made = walk(alloc, table, program, step, states, &deliveries)?;
    sort_deliveries(&mut made.deliveries)?;
    Ok(made)
}
