//! A superstep at one vertex.
ghost use Rattle.std.specs.Prelude.{◌≡◌, ◌+◌, ◌^◌, ◌<◌, ◌≤◌, [], true, if◌then◌else◌, length, IfOk, OnOk, OnErr};
ghost use Rattle.std.specs.List.Sorted.{IsSorted};
ghost use Rattle.graphite_time.specs.Interval.{start_of};
ghost use Rattle.graphite_part.specs.Fills.{Pushed};
ghost use Rattle.graphite_part.specs.Pieces.{IsChain, AreRuns, last_end};
ghost use Rattle.graphite_api.specs.Rules.{computes, outcome_with, state_of};
ghost use Rattle.graphite_loop.specs.Sweep.{sent_of};
ghost use Rattle.graphite_loop.specs.Vertex.{outcome_of, outcome_of_pair, next_state, sent_state, inputs_of, Put, AreMade, Calls, NoMoreCalls};

use graphite_api::{Message, Next, Program};
use graphite_part::{Partition, Piece, Plain, append, is_same};
use graphite_time::{Interval, NoMemory};
use graphite_warp::Sweep;
use std::alloc::Global;

/// The outcome of a superstep for a vertex: its states, and those of them that it sends. The memory
/// that one vertex took serves the next.
#[derive(Drop)]
pub(crate) struct Outcome<S: Plain> {
    pub states: Vec<Piece<S>>,
    pub sent: Vec<Piece<S>>,
}

impl<S: Plain> Outcome<S> {
    /// Of no vertex yet.
    pub(crate) fn new(alloc: Global) -> Outcome<S> {
        Outcome {
            states: Vec::new(alloc),
            sent: Vec::new(alloc),
        }
    }

    /// Makes room for the next vertex.
    fn clear(&mut self)
        ensures states { self.new.states.items ≡ [] }
        ensures sent { self.new.sent.items ≡ [] }
    {
        self.states.clear();
        self.sent.clear();
    }
}

/// Makes a superstep at a vertex that has these states and these messages. The sweep and the outcome
/// are lent: what they had before does not matter.
pub(crate) fn compute_vertex<P: Program>(
    program: &mut P,
    step: u32,
    states: &Partition<P::State>,
    messages: &[Message<P::Note>],
    sweep: &mut Sweep<P::State, P::Note>,
    outcome: &mut Outcome<P::State>,
) -> Result<(), NoMemory>
    requires step { 1 ≤ step }
    requires room { P.count program.old + 2 ^ 64 < 2 ^ 128 }
    ensures states { OnOk result (AreRuns (λ t. state_of (outcome_of
        P.rules step states.now messages.now t)) outcome.new.states.items) }
    ensures sent { OnOk result (AreRuns (λ t. sent_of (outcome_of
        P.rules step states.now messages.now t)) outcome.new.sent.items) }
    ensures counted { OnOk result (Calls
        P.rules step states.now messages.now
        (P.count program.old) (P.count program.new)) }
    ensures at_most { OnErr result (NoMoreCalls
        P.rules step states.now messages.now
        (P.count program.old) (P.count program.new)) }
    ensures few { P.count program.new ≤ P.count program.old + 2 ^ 64 }
{
    sweep.align(states, messages)?;
    outcome.clear();
    compute_parts(program, step, sweep, outcome)
}

/// Makes a superstep at a vertex whose states were aligned with its messages, one triple at a time.
fn compute_parts<P: Program>(
    program: &mut P,
    step: u32,
    sweep: &mut Sweep<P::State, P::Note>,
    outcome: &mut Outcome<P::State>,
) -> Result<(), NoMemory>
    requires step { 1 ≤ step }
    requires room { P.count program.old + 2 ^ 64 < 2 ^ 128 }
    requires chain { IsChain sweep.old.triples }
    requires none_yet { sweep.old.place ≡ 0 }
    requires no_states { outcome.old.states.items ≡ [] }
    requires none_sent { outcome.old.sent.items ≡ [] }
    ensures states { OnOk result (AreMade (λ pair. next_state (outcome_of_pair
        P.rules step pair)) sweep.old.triples outcome.new.states.items) }
    ensures sent { OnOk result (AreMade (λ pair. sent_state (outcome_of_pair
        P.rules step pair)) sweep.old.triples outcome.new.sent.items) }
    ensures counted { OnOk result (P.count program.new ≡ P.count program.old
        + length (inputs_of P.rules step sweep.old.triples)) }
    ensures at_most { P.count program.new ≤ P.count program.old
        + length (inputs_of P.rules step sweep.old.triples) }
    ensures few { P.count program.new ≤ P.count program.old + 2 ^ 64 }
{
    while let Some(part) = sweep.next_part()? {
        let next = compute_part(program, step, part.value, sweep.group());
        push_part(outcome, part.over, next)?;
    }
    Ok(())
}

/// The outcome of a vertex at instants at which it has this state and this group.
fn compute_part<P: Program>(
    program: &mut P,
    step: u32,
    state: P::State,
    group: &[P::Note],
) -> Next<P::State>
    requires step { 1 ≤ step }
    requires room { P.count program.old + 1 < 2 ^ 128 }
    requires rising { IsSorted P.Note.cmp group.now }
    ensures next { result ≡ outcome_with P.rules
        step state group.now }
    ensures counted { P.count program.new ≡ P.count program.old
        + (if computes P.rules step group.now then 1 else 0) }
{
    if computes::<P>(step, group) {
        program.compute(step, state, group)
    } else {
        Next { state, send: false }
    }
}

/// Whether a vertex with this group computes in a superstep.
fn computes<P: Program>(step: u32, group: &[P::Note]) -> bool
    ensures { result ≡ computes P.rules step group.now }
{
    step == 1 || P::ALWAYS || !group.is_empty()
}

/// Adds the outcome of a vertex over an interval that comes after the others.
fn push_part<S: Plain>(
    outcome: &mut Outcome<S>,
    over: Interval,
    next: Next<S>,
) -> Result<(), NoMemory>
    requires states_chain { IsChain outcome.old.states.items }
    requires states { last_end outcome.old.states.items ≤ start_of over }
    requires sent_chain { IsChain outcome.old.sent.items }
    requires sent { last_end outcome.old.sent.items ≤ start_of over }
    ensures states { OnOk result (Put outcome.old.states.items outcome.new.states.items over (next_state next)) }
    ensures sent { OnOk result (Put outcome.old.sent.items outcome.new.sent.items over (sent_state next)) }
{
    push_piece(&mut outcome.states, over, next.state)?;
    if next.send {
        push_piece(&mut outcome.sent, over, next.state)?;
    }
    Ok(())
}

/// Puts a value over an interval behind the pieces. A last piece that touches it with the same value
/// is lengthened.
fn push_piece<S: Plain>(
    pieces: &mut Vec<Piece<S>>,
    over: Interval,
    value: S,
) -> Result<(), NoMemory>
    requires chain { IsChain pieces.old.items }
    requires later { last_end pieces.old.items ≤ start_of over }
    ensures { OnOk result (Pushed pieces.old.items pieces.new.items over value) }
{
    append(pieces, Piece { over, value })
}

/// Gives a vertex other states. Where they are the same nothing is made anew.
pub(crate) fn set_states<S: Plain>(
    states: &mut Partition<S>,
    alloc: Global,
    pieces: &[Piece<S>],
) -> Result<(), NoMemory>
    requires { IsChain pieces.now }
    ensures { OnOk result (states.new ≡ pieces.now) }
{
    if are_same(states.pieces(), pieces) {
        return Ok(());
    }
    *states = partition_of(alloc, pieces)?;
    Ok(())
}

/// The partition with these pieces.
fn partition_of<S: Plain>(alloc: Global, pieces: &[Piece<S>]) -> Result<Partition<S>, NoMemory>
    requires { IsChain pieces.now }
    ensures { IfOk result (λ partition. partition ≡ pieces.now) }
{
    let mut partition = Partition::new(alloc);
    for piece in pieces {
        partition.push(piece.over, piece.value)?;
    }
    Ok(partition)
}

/// Whether two lists of pieces are the same, as far as one look at each piece tells.
fn are_same<S: Plain>(xs: &[Piece<S>], ys: &[Piece<S>]) -> bool
    ensures { result ≡ true → xs.now ≡ ys.now }
{
    if xs.len() != ys.len() {
        return false;
    }
    for place in 0..xs.len() {
        if !is_same_piece(&xs[place], &ys[place]) {
            return false;
        }
    }
    true
}

/// Whether two pieces hold the same value at the same instants.
fn is_same_piece<S: Plain>(x: &Piece<S>, y: &Piece<S>) -> bool
    ensures { result ≡ true → x.now ≡ y.now }
{
    x.over.a() == y.over.a() && x.over.b() == y.over.b() && is_same(x.value, y.value)
}
