//! A sink that holds its bytes.
ghost use Rattle.std.specs.Prelude.{◌≡◌, ◌-◌, ◌<◌, ◌≤◌, ℕ, List, [], Option, Some, IfOk, length, vec_len, vec_capacity};
ghost use Rattle.graphite_base.specs.Answers.{PutFits, PutMoves};
ghost use Rattle.graphite_base.specs.Causes.{faults_after_write};
ghost use Rattle.graphite_base.specs.Ends.{put_of};

use crate::{Put, Sink};
use graphite_time::NoMemory;
use std::alloc::Global;
use std::marker::Model;

/// A sink that holds its bytes, up to a number. It takes no memory after it was made.
#[derive(Drop)]
pub struct VecSink {
    bytes: Vec<u8>,
    room: usize,
    faults: u64,
}

impl Model for VecSink {
    ghost use Rattle.std.specs.Prelude.{◌≤◌, vec_len, vec_capacity};
    ghost use Rattle.graphite_base.specs.Ends.{Held};

    ghost Value = { Held };

    ghost view = { λ s. record { bytes = s.bytes.items; room = s.room; faults = s.faults } };

    ghost invariant = { λ s. (vec_len s.bytes ≤ s.room) × (s.room ≤ vec_capacity s.bytes) };
}

impl VecSink {
    /// Nothing is written, and there is room for `room` bytes.
    pub fn new(alloc: Global, room: usize) -> Result<VecSink, NoMemory>
        ensures written { IfOk result (λ sink. sink.bytes ≡ []) }
        ensures room { IfOk result (λ sink. sink.room ≡ room) }
        ensures faults { IfOk result (λ sink. sink.faults ≡ 0) }
    {
        let bytes = Vec::with_capacity(alloc, room)?;
        Ok(VecSink {
            bytes,
            room,
            faults: 0,
        })
    }

    /// The bytes that were written.
    pub fn written(&self) -> &[u8]
        ensures { result.now ≡ self.now.bytes }
    {
        &self.bytes
    }
}

impl Sink for VecSink {
    ghost written = { λ s. Some s.bytes };

    ghost faults = { λ s. s.faults };

    /// As many bytes as there is room for. It fails exactly where there is no room left.
    fn write(&mut self, piece: &[u8]) -> Put
        requires { 0 < length piece.now }
        ensures answer { result ≡ put_of (self.old.room - length self.old.bytes) (length piece.now) }
        ensures room { self.new.room ≡ self.old.room }
        ensures counted { self.new.faults ≡ faults_after_write result self.old.faults }
        ensures fits { PutFits result piece.now }
        ensures moves { PutMoves (Some self.old.bytes) (Some self.new.bytes) result piece.now }
        ensures later { self.old.faults ≤ self.new.faults }
    {
        let put = append_fitting(&mut self.bytes, self.room, piece);
        if put == Put::Failed {
            self.faults = self.faults.saturating_add(1);
        }
        put
    }
}

// Appends as much of a piece as there is room for, in memory that is there already.
pub(crate) fn append_fitting(bytes: &mut Vec<u8>, room: usize, piece: &[u8]) -> Put
    requires within { vec_len bytes.old ≤ room }
    requires reserved { room ≤ vec_capacity bytes.old }
    requires some { 0 < length piece.now }
    ensures answer { result ≡ put_of (room - length bytes.old.items) (length piece.now) }
    ensures fits { PutFits result piece.now }
    ensures moves { PutMoves (Some bytes.old.items) (Some bytes.new.items) result piece.now }
    ensures within { vec_len bytes.new ≤ room }
    ensures reserved { room ≤ vec_capacity bytes.new }
{
    let count = piece.len().min(room - bytes.len());
    if count == 0 {
        return Put::Failed;
    }
    bytes.extend_from_slice(&piece[..count]).unwrap();
    Put::Took(count)
}
