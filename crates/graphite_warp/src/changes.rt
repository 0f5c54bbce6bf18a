//! The instants at which the notes that hold are others than at the instant before.
ghost use Rattle.std.specs.Prelude.{◌≡◌, ◌↔◌, ◌⊎◌, ◌<◌, ◌≤◌, ◌++◌, ◌∷◌, [], map, length, IsTrue, OnOk, IfOk, if◌then◌else◌};
ghost use Rattle.std.specs.List.{AllWithin, HoldsAt};
ghost use Rattle.std.specs.List.Sorted.{IsNonDecreasingBy};
ghost use Rattle.graphite_time.specs.Interval.{start_of, end_of};
ghost use Rattle.graphite_warp.specs.Sorted.{sorted};
ghost use Rattle.graphite_warp.specs.Sweep.{AreEnds, AreChanges};

use crate::Message;
use crate::sort::sort_notes;
use crate::triple::are_same;
use graphite_part::{Plain, is_same};
use graphite_time::NoMemory;
use std::alloc::Global;

/// Adds the instants at which the notes that hold change. A list of them is changed where those
/// that begin at an instant and those that end there differ.
pub(crate) fn push_changes<M: Plain>(
    alloc: Global,
    starts: &[Message<M>],
    stops: &[Message<M>],
    changes: &mut Vec<u64>,
) -> Result<(), NoMemory>
    requires ends { AreEnds starts.now stops.now }
    requires none { changes.old.items ≡ [] }
    ensures { OnOk result (AreChanges M.cmp starts.now changes.new.items) }
{
    let mut start = 0;
    let mut stop = 0;
    // the last message to end ends after all have begun
    while stop < stops.len() {
        let t = next_instant(starts, start, stops, stop);
        let next_start = starts_until(starts, start, t);
        let next_stop = stops_until(stops, stop, t);
        let begun = &starts[start..next_start];
        let ended = &stops[stop..next_stop];
        let same = have_same_notes(alloc, begun, ended)?;
        push_unless(changes, same, t)?;
        start = next_start;
        stop = next_stop;
    }
    Ok(())
}

/// The first instant at which one of the messages from `start` on starts, or one of those from
/// `stop` on ends.
fn next_instant<M: Plain>(
    starts: &[Message<M>],
    start: usize,
    stops: &[Message<M>],
    stop: usize,
) -> u64
    requires by_start { IsNonDecreasingBy (λ m. start_of m.over) starts.now }
    requires by_end { IsNonDecreasingBy (λ m. end_of m.over) stops.now }
    requires within { stop < length stops.now }
    ensures starts { AllWithin (λ m. result ≤ start_of m.over) starts.now start (length starts.now) }
    ensures stops { AllWithin (λ m. result ≤ end_of m.over) stops.now stop (length stops.now) }
    ensures met { ((start < length starts.now) × HoldsAt (λ m. start_of m.over ≤ result) starts.now start)
        ⊎ HoldsAt (λ m. end_of m.over ≤ result) stops.now stop }
{
    let end = stops[stop].over.b();
    if start < starts.len() {
        end.min(starts[start].over.a())
    } else {
        end
    }
}

/// How far the messages that start at the instant go.
fn starts_until<M: Plain>(messages: &[Message<M>], from: usize, t: u64) -> usize
    requires by_start { IsNonDecreasingBy (λ m. start_of m.over) messages.now }
    requires within { from ≤ length messages.now }
    requires from_then { AllWithin (λ m. t ≤ start_of m.over) messages.now from (length messages.now) }
    ensures order { from ≤ result }
    ensures within { result ≤ length messages.now }
    ensures at { AllWithin (λ m. start_of m.over ≡ t) messages.now from result }
    ensures later { AllWithin (λ m. t < start_of m.over) messages.now result (length messages.now) }
{
    for place in from..messages.len() {
        if messages[place].over.a() != t {
            return place;
        }
    }
    messages.len()
}

/// How far the messages that end at the instant go.
fn stops_until<M: Plain>(messages: &[Message<M>], from: usize, t: u64) -> usize
    requires by_end { IsNonDecreasingBy (λ m. end_of m.over) messages.now }
    requires within { from ≤ length messages.now }
    requires from_then { AllWithin (λ m. t ≤ end_of m.over) messages.now from (length messages.now) }
    ensures order { from ≤ result }
    ensures within { result ≤ length messages.now }
    ensures at { AllWithin (λ m. end_of m.over ≡ t) messages.now from result }
    ensures later { AllWithin (λ m. t < end_of m.over) messages.now result (length messages.now) }
{
    for place in from..messages.len() {
        if messages[place].over.b() != t {
            return place;
        }
    }
    messages.len()
}

/// Whether two lists of messages have the same notes, each as often. Nothing is copied where one
/// look tells.
fn have_same_notes<M: Plain>(
    alloc: Global,
    xs: &[Message<M>],
    ys: &[Message<M>],
) -> Result<bool, NoMemory>
    ensures { IfOk result (λ same. IsTrue same
        ↔ (sorted M.cmp (map (λ m. m.note) xs.now) ≡ sorted M.cmp (map (λ m. m.note) ys.now))) }
{
    if xs.len() != ys.len() {
        return Ok(false);
    }
    if xs.len() == 1 {
        return Ok(is_same(xs[0].note, ys[0].note));
    }
    let first = sorted_notes(alloc, xs)?;
    let second = sorted_notes(alloc, ys)?;
    Ok(are_same(&first, &second))
}

/// The notes of the messages in rising order.
fn sorted_notes<M: Plain>(alloc: Global, messages: &[Message<M>]) -> Result<Vec<M>, NoMemory>
    ensures { IfOk result (λ notes. notes.items ≡ sorted M.cmp (map (λ m. m.note) messages.now)) }
{
    let mut notes = notes_of(alloc, messages)?;
    sort_notes(&mut notes);
    Ok(notes)
}

/// The notes of the messages in their order.
fn notes_of<M: Plain>(alloc: Global, messages: &[Message<M>]) -> Result<Vec<M>, NoMemory>
    ensures { IfOk result (λ notes. notes.items ≡ map (λ m. m.note) messages.now) }
{
    Ok(messages.iter().map(|message| message.note).collect(alloc)?)
}

/// Adds the instant, unless the notes are the same.
fn push_unless(changes: &mut Vec<u64>, same: bool, t: u64) -> Result<(), NoMemory>
    ensures { OnOk result (changes.new.items
        ≡ (if same then changes.old.items else changes.old.items ++ t ∷ [])) }
{
    if !same {
        changes.push(t)?;
    }
    Ok(())
}
