//! Supersteps at one instant, written plainly: what is told is gathered for each vertex, and then
//! each vertex computes.
ghost use Rattle.std.specs.Prelude.{◌≡◌, ◌≢◌, ◌++◌, ◌∷◌, [], false, true, ◌+◌, ◌^◌, ◌<◌, ◌≤◌, ℕ, All, List, Option, map, filter, not, length, slice_get, option_map, is_some, count_by, if◌then◌else◌, IfOk, OnOk, IsTrue};
ghost use Rattle.std.specs.List.{range_with_len};
ghost use Rattle.std.specs.List.Sorted.{IsSorted};
ghost use Rattle.std.specs.Bool.{OnTrue, OnFalse};
ghost use Rattle.graphite_time.specs.declared.TheConstants.{LAST};
ghost use Rattle.graphite_time.specs.Interval.{start_of, end_of, holds};
ghost use Rattle.graphite_time.specs.Life.{is_held};
ghost use Rattle.graphite_warp.specs.Sorted.{sorted};
ghost use Rattle.graphite_api.specs.Table.{vertex_is_alive};
ghost use Rattle.graphite_api.specs.Snapshot.{link_of, arcs_at, start_at};
ghost use Rattle.graphite_api.specs.Rules.{point_rules, computes, idle, outcome_with, outcome_at, state_of, input_of};
ghost use Rattle.graphite_api.specs.Supersteps.{note_along, notes_to, group_of, superstep, sends};
ghost use Rattle.graphite_api.specs.Outcomes.{entry_of, list_of, IsTaken};

use crate::groups::Groups;
use crate::{Arc, ArcTable, Next, PointProgram, RanAt};
use graphite_part::Plain;
use graphite_time::{Interval, Life, NoMemory};
use std::alloc::Global;

/// What a vertex with this outcome tells along an arc at the instants of an interval.
fn note_of<P: PointProgram>(
    program: &P,
    outcome: Option<Next<P::State>>,
    arc: &Arc,
    now: Interval,
) -> Option<P::Note>
    requires starts { start_of arc.now.over ≤ start_of now }
    requires ends { end_of now ≤ end_of arc.now.over }
    ensures { result ≡ note_along P.plan outcome (link_of arc.now) }
{
    let sender = outcome?;
    if !sender.send {
        return None;
    }
    let message = program.scatter(sender.state, arc, now)?;
    Some(message.note)
}

/// Whether a vertex with this group computes in superstep `step`.
fn is_computing<P: PointProgram>(step: u32, group: &[P::Note]) -> bool
    ensures { result ≡ computes (point_rules P.plan) step group.now }
{
    if step == 1 {
        return true;
    }
    if P::ALWAYS {
        return true;
    }
    !group.is_empty()
}

/// The outcome of superstep `step` for a vertex.
fn next_of<P: PointProgram>(
    program: &mut P,
    step: u32,
    state: P::State,
    group: &[P::Note],
) -> Next<P::State>
    requires room { P.count program.old + 1 < 2 ^ 128 }
    requires step { 1 ≤ step }
    requires rising { IsSorted P.Note.cmp group.now }
    ensures next { result ≡ outcome_with (point_rules P.plan) step state group.now }
    ensures calls { P.count program.new
        ≡ P.count program.old + (if computes (point_rules P.plan) step group.now then 1 else 0) }
{
    if !is_computing::<P>(step, group) {
        return Next { state, send: false };
    }
    program.compute(step, state, group)
}

/// The outcome of superstep `step` for a vertex, from the one before.
fn advance_one<P: PointProgram>(
    program: &mut P,
    step: u32,
    outcome: Option<Next<P::State>>,
    group: &[P::Note],
) -> Option<Next<P::State>>
    requires room { P.count program.old + 1 < 2 ^ 128 }
    requires step { 1 ≤ step }
    requires rising { IsSorted P.Note.cmp group.now }
    ensures next { result ≡ outcome_at (point_rules P.plan) step (state_of outcome) group.now }
    ensures calls { P.count program.new ≡ P.count program.old
        + (if is_some (input_of (point_rules P.plan) step (state_of outcome) group.now) then 1 else 0) }
{
    let own = outcome?;
    Some(next_of(program, step, own.state, group))
}

/// The outcomes of superstep `step`, from those before and the groups.
fn advance<P: PointProgram>(
    alloc: Global,
    program: &mut P,
    step: u32,
    outcomes: &[Option<Next<P::State>>],
    groups: &Groups<P::Note>,
) -> Result<Vec<Option<Next<P::State>>>, NoMemory>
    requires groups { length groups.now ≡ length outcomes.now }
    requires rising { (v : ℕ) → IsSorted P.Note.cmp (list_of groups.now v) }
    requires room { P.count program.old + length outcomes.now < 2 ^ 128 }
    requires step { 1 ≤ step }
    ensures len { IfOk result (λ new. length new.items ≡ length outcomes.now) }
    ensures next { IfOk result (λ new. (v : ℕ) → entry_of new.items v
        ≡ superstep P.plan step (entry_of outcomes.now) (list_of groups.now) v) }
    ensures calls { OnOk result (P.count program.new ≡ P.count program.old
        + count_by (λ v. is_some (input_of (point_rules P.plan) step (state_of (entry_of outcomes.now v)) (list_of groups.now v)))
        (range_with_len 0 (length outcomes.now))) }
    ensures no_fewer { P.count program.old ≤ P.count program.new }
    ensures no_more { P.count program.new ≤ P.count program.old + length outcomes.now }
{
    let mut new = Vec::with_capacity(alloc, outcomes.len())?;
    for (v, own) in outcomes.iter().enumerate() {
        let next = advance_one(program, step, *own, groups.notes(v));
        new.push(next)?;
    }
    Ok(new)
}

/// The entry of a vertex.
fn outcome_of<S: Plain>(outcomes: &[Option<Next<S>>], v: u32) -> Option<Next<S>>
    ensures { result ≡ entry_of outcomes.now v }
{
    outcomes.get(v as usize).copied().flatten()
}

/// Adds to the group of each vertex what it is told along the arcs.
fn deliver<P: PointProgram>(
    program: &P,
    arcs: &[Arc],
    now: Interval,
    outcomes: &[Option<Next<P::State>>],
    groups: &mut Groups<P::Note>,
) -> Result<(), NoMemory>
    requires { All (IsTaken now (length groups.old)) arcs.now }
    ensures len { length groups.new ≡ length groups.old }
    ensures told { OnOk result ((v : ℕ) → list_of groups.new v ≡ list_of groups.old v
        ++ notes_to P.plan (map link_of arcs.now) (entry_of outcomes.now) v) }
{
    for arc in arcs {
        let Some(note) = note_of(program, outcome_of(outcomes, arc.from), arc, now) else {
            continue;
        };
        groups.add(arc.to, note)?;
    }
    Ok(())
}

/// The group of each vertex, from the outcomes.
fn groups_at<P: PointProgram>(
    alloc: Global,
    program: &P,
    arcs: &[Arc],
    now: Interval,
    outcomes: &[Option<Next<P::State>>],
) -> Result<Groups<P::Note>, NoMemory>
    requires { All (IsTaken now (length outcomes.now)) arcs.now }
    ensures len { IfOk result (λ groups. length groups ≡ length outcomes.now) }
    ensures groups { IfOk result (λ groups. (v : ℕ) → list_of groups v
        ≡ group_of P.plan (map link_of arcs.now) (entry_of outcomes.now) v) }
    ensures rising { IfOk result (λ groups. (v : ℕ) → IsSorted P.Note.cmp (list_of groups v)) }
{
    let mut groups = Groups::empty(alloc, outcomes.len())?;
    deliver(program, arcs, now, outcomes, &mut groups)?;
    groups.sort();
    Ok(groups)
}

/// The outcomes of superstep `step`, from those before.
pub(crate) fn superstep_at<P: PointProgram>(
    alloc: Global,
    program: &mut P,
    arcs: &[Arc],
    now: Interval,
    step: u32,
    outcomes: &[Option<Next<P::State>>],
) -> Result<Vec<Option<Next<P::State>>>, NoMemory>
    requires arcs { All (IsTaken now (length outcomes.now)) arcs.now }
    requires room { P.count program.old + length outcomes.now < 2 ^ 128 }
    requires step { 1 ≤ step }
    ensures len { IfOk result (λ new. length new.items ≡ length outcomes.now) }
    ensures next { IfOk result (λ new. (v : ℕ) → entry_of new.items v
        ≡ superstep P.plan step (entry_of outcomes.now)
        (group_of P.plan (map link_of arcs.now) (entry_of outcomes.now)) v) }
    ensures calls { OnOk result (P.count program.new ≡ P.count program.old
        + count_by (λ v. is_some (input_of (point_rules P.plan) step (state_of (entry_of outcomes.now v))
        (group_of P.plan (map link_of arcs.now) (entry_of outcomes.now) v)))
        (range_with_len 0 (length outcomes.now))) }
    ensures no_fewer { P.count program.old ≤ P.count program.new }
    ensures no_more { P.count program.new ≤ P.count program.old + length outcomes.now }
{
    let groups = groups_at(alloc, program, arcs, now, outcomes)?;
    advance(alloc, program, step, outcomes, &groups)
}

/// The arcs that hold the instant, in order.
pub(crate) fn arcs_that_hold(alloc: Global, arcs: &[Arc], t: u64) -> Result<Vec<Arc>, NoMemory>
    ensures { IfOk result (λ held. held.items ≡ arcs_at arcs.now t) }
{
    Ok(
        arcs.iter()
            .filter(|arc| arc.over.holds(t))
            .copied()
            .collect(alloc)?,
    )
}

/// The state that each vertex starts with which is alive at the instant.
pub(crate) fn starts_at<S: Plain>(
    alloc: Global,
    table: &ArcTable,
    start: &[S],
    t: u64,
) -> Result<Vec<Option<Next<S>>>, NoMemory>
    requires { length start.now ≡ length table.now.lives }
    ensures len { IfOk result (λ outcomes. length outcomes.items ≡ length table.now.lives) }
    ensures start { IfOk result (λ outcomes. (v : ℕ) → entry_of outcomes.items v
        ≡ option_map idle (start_at table.now.lives (λ w _. slice_get start.now w) t v)) }
{
    let mut outcomes = Vec::with_capacity(alloc, start.len())?;
    for v in 0..table.vertices() {
        let own = idle_at(table.life(v), start[v as usize], t);
        outcomes.push(own)?;
    }
    Ok(outcomes)
}

/// A vertex with its starting state, where it is alive at the instant.
fn idle_at<S: Plain>(life: &Life, state: S, t: u64) -> Option<Next<S>>
    ensures { result ≡ (if is_held life.now t then Some (idle state) else None) }
{
    life.holds(t).then_some(Next { state, send: false })
}

/// Whether the outcome of a vertex says that it sends.
fn is_sending<S: Plain>(outcome: Option<Next<S>>) -> bool
    ensures { result ≡ sends outcome }
{
    outcome.is_some_and(|own| own.send)
}

/// Whether no vertex sends.
fn is_silent<S: Plain>(outcomes: &[Option<Next<S>>]) -> bool
    ensures silent { OnTrue result ((v : ℕ) → sends (entry_of outcomes.now v) ≡ false) }
    ensures sending { OnFalse result
        ((v : ℕ) × ((v < length outcomes.now) × (sends (entry_of outcomes.now v) ≡ true))) }
{
    for own in outcomes {
        if is_sending(*own) {
            return false;
        }
    }
    true
}

/// Whether the supersteps stop here: every later one would change nothing.
pub(crate) fn is_over<P: PointProgram>(outcomes: &[Option<Next<P::State>>]) -> bool
    ensures always { OnTrue result (P.plan.always ≡ false) }
    ensures silent { OnTrue result ((v : ℕ) → sends (entry_of outcomes.now v) ≡ false) }
    ensures sending { OnFalse result (P.plan.always ≡ false
        → (v : ℕ) × ((v < length outcomes.now) × (sends (entry_of outcomes.now v) ≡ true))) }
{
    if P::ALWAYS {
        return false;
    }
    is_silent(outcomes)
}

/// The interval of one instant.
pub(crate) fn only(t: u64) -> Interval
    requires { t < LAST }
    ensures start { start_of result ≡ t }
    ensures end { end_of result ≡ t + 1 }
{
    Interval::new(t, t + 1).unwrap()
}

/// The states, and how many supersteps were made.
pub(crate) fn ran<S: Plain>(
    alloc: Global,
    outcomes: &[Option<Next<S>>],
    made: u32,
) -> Result<RanAt<S>, NoMemory>
    ensures made { IfOk result (λ ran. ran.made ≡ made) }
    ensures states { IfOk result (λ ran. ran.states.items ≡ map state_of outcomes.now) }
{
    let states = outcomes
        .iter()
        .map(|own| own.map(|own| own.state))
        .collect(alloc)?;
    Ok(RanAt { states, made })
}
