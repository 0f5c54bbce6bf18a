//! What a source or a sink is told to do at each call.
ghost use Rattle.std.specs.Prelude.{◌≡◌, ◌+◌, ◌-◌, ◌^◌, ◌<◌, ◌≤◌, IfOk, IfSome, All, if◌then◌else◌, min};
ghost use Rattle.graphite_base.specs.Ends.{is_listed, most_at};

use graphite_time::NoMemory;
use std::alloc::Global;
use std::marker::Model;

/// Which calls fail, and the greatest pieces of the first calls. Calls are counted from 1, failing
/// calls among them.
#[derive(Drop)]
pub struct Script {
    pieces: Vec<u32>,
    fails: Vec<u32>,
    calls: u64,
}

impl Model for Script {
    ghost use Rattle.std.specs.Prelude.{◌≤◌, All};
    ghost use Rattle.graphite_base.specs.Ends as ends;

    ghost Value = { ends.Script };

    ghost view = { λ s. record { pieces = s.pieces.items; fails = s.fails.items; calls = s.calls } };

    ghost invariant = { λ s. All (λ piece. 1 ≤ piece) s.pieces.items };
}

impl Script {
    /// No call was made.
    pub fn new(alloc: Global, pieces: &[u32], fails: &[u32]) -> Result<Script, NoMemory>
        requires { All (λ piece. 1 ≤ piece) pieces.now }
        ensures pieces { IfOk result (λ script. script.pieces ≡ pieces.now) }
        ensures fails { IfOk result (λ script. script.fails ≡ fails.now) }
        ensures calls { IfOk result (λ script. script.calls ≡ 0) }
    {
        Ok(Script {
            pieces: Vec::from_slice(alloc, pieces)?,
            fails: Vec::from_slice(alloc, fails)?,
            calls: 0,
        })
    }

    /// The next call: none where it fails, or else the greatest piece of it, in bytes.
    pub fn next_call(&mut self, room: usize) -> Option<usize>
        requires { 0 < room }
        ensures calls { self.new.calls ≡ min (self.old.calls + 1) (2 ^ 64 - 1) }
        ensures pieces { self.new.pieces ≡ self.old.pieces }
        ensures fails { self.new.fails ≡ self.old.fails }
        ensures answer { result ≡ (if is_listed self.old.fails self.new.calls then None
            else Some (most_at self.old.pieces self.new.calls room)) }
        ensures within { IfSome result (λ most. (1 ≤ most) × (most ≤ room)) }
    {
        self.calls = self.calls.saturating_add(1);
        if is_listed(&self.fails, self.calls) {
            return None;
        }
        Some(most_at(&self.pieces, self.calls, room))
    }
}

fn is_listed(calls: &[u32], call: u64) -> bool
    ensures { result ≡ is_listed calls.now call }
{
    calls.iter().any(|listed| u64::from(*listed) == call)
}

fn most_at(pieces: &[u32], call: u64, room: usize) -> usize
    requires call { 1 ≤ call }
    requires pieces { All (λ piece. 1 ≤ piece) pieces.now }
    requires room { 0 < room }
    ensures most { result ≡ most_at pieces.now call room }
    ensures within { (1 ≤ result) × (result ≤ room) }
{
    match pieces.get((call - 1) as usize) {
        Some(piece) => room.min(*piece as usize),
        None => room,
    }
}
