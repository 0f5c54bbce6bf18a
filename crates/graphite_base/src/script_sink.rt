//! A sink that takes and fails as it is told.
ghost use Rattle.std.specs.Prelude.{◌≡◌, ◌+◌, ◌-◌, ◌^◌, ◌<◌, ◌≤◌, ℕ, List, [], Option, Some, IfOk, All, if◌then◌else◌, min, length};
ghost use Rattle.graphite_base.specs.Answers.{PutFits, PutMoves};
ghost use Rattle.graphite_base.specs.Causes.{faults_after_write};
ghost use Rattle.graphite_base.specs.Ends.{put_of, is_listed, most_at};

use crate::script::Script;
use crate::vec_sink::append_fitting;
use crate::{Put, Sink};
use graphite_time::NoMemory;
use std::alloc::Global;
use std::marker::Model;

/// A sink that holds its bytes, up to a number, takes them in the pieces that it is told, and fails
/// at the calls that it is told. It takes no memory after it was made.
#[derive(Drop)]
pub struct ScriptSink {
    bytes: Vec<u8>,
    room: usize,
    script: Script,
    faults: u64,
}

impl Model for ScriptSink {
    ghost use Rattle.std.specs.Prelude.{◌≤◌, vec_len, vec_capacity};
    ghost use Rattle.graphite_base.specs.Ends.{Recording};

    ghost Value = { Recording };

    ghost view = { λ s. record { bytes = s.bytes.items; room = s.room; script = s.script; faults = s.faults } };

    ghost invariant = { λ s. (vec_len s.bytes ≤ s.room) × (s.room ≤ vec_capacity s.bytes) };
}

impl ScriptSink {
    /// Nothing is written, and there is room for `room` bytes. Calls of `write` are counted from 1,
    /// failing calls among them. Call k fails where `fails` has k, or no room is left. Else it takes
    /// at most `takes[k - 1]` bytes, or as many as there is room for where there is no such number.
    pub fn new(
        alloc: Global,
        room: usize,
        takes: &[u32],
        fails: &[u32],
    ) -> Result<ScriptSink, NoMemory>
        requires { All (λ take. 1 ≤ take) takes.now }
        ensures written { IfOk result (λ sink. sink.bytes ≡ []) }
        ensures room { IfOk result (λ sink. sink.room ≡ room) }
        ensures takes { IfOk result (λ sink. sink.script.pieces ≡ takes.now) }
        ensures fails { IfOk result (λ sink. sink.script.fails ≡ fails.now) }
        ensures calls { IfOk result (λ sink. sink.script.calls ≡ 0) }
        ensures faults { IfOk result (λ sink. sink.faults ≡ 0) }
    {
        Ok(ScriptSink {
            bytes: Vec::with_capacity(alloc, room)?,
            room,
            script: Script::new(alloc, takes, fails)?,
            faults: 0,
        })
    }

    /// The bytes that were written.
    pub fn written(&self) -> &[u8]
        ensures { result.now ≡ self.now.bytes }
    {
        &self.bytes
    }
}

impl Sink for ScriptSink {
    ghost written = { λ s. Some s.bytes };

    ghost faults = { λ s. s.faults };

    /// As the script says for this call.
    fn write(&mut self, piece: &[u8]) -> Put
        requires { 0 < length piece.now }
        ensures answer { let call = self.new.script.calls in
            result ≡ (if is_listed self.old.script.fails call then Put.Failed
            else put_of (self.old.room - length self.old.bytes)
            (most_at self.old.script.pieces call (length piece.now))) }
        ensures calls { self.new.script.calls ≡ min (self.old.script.calls + 1) (2 ^ 64 - 1) }
        ensures takes { self.new.script.pieces ≡ self.old.script.pieces }
        ensures fails { self.new.script.fails ≡ self.old.script.fails }
        ensures room { self.new.room ≡ self.old.room }
        ensures counted { self.new.faults ≡ faults_after_write result self.old.faults }
        ensures fits { PutFits result piece.now }
        ensures moves { PutMoves (Some self.old.bytes) (Some self.new.bytes) result piece.now }
        ensures later { self.old.faults ≤ self.new.faults }
    {
        let put = match self.script.next_call(piece.len()) {
            Some(most) => append_fitting(&mut self.bytes, self.room, &piece[..most]),
            None => Put::Failed,
        };
        if put == Put::Failed {
            self.faults = self.faults.saturating_add(1);
        }
        put
    }
}
