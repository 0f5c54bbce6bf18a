//! A writer of std as a sink.
ghost use Rattle.std.specs.Prelude.{◌≡◌, ◌<◌, ◌≤◌, ℕ, List, Option, None, IfOk, OnErr, length, take};
ghost use Rattle.std.specs.Io.KnownBytes.{Appends};
ghost use Rattle.graphite_base.specs.Known.{AppendsSome};
ghost use Rattle.graphite_base.specs.Answers.{PutFits, PutMoves, PutReaches};
ghost use Rattle.graphite_base.specs.Causes.{faults_after_write};

use crate::{Put, Sink};
use std::io;
use std::io::Write;
use std::marker::Model;

/// A sink over a writer of std. It tells no bytes. Contracts see what the writer holds, where that is
/// known, and the count of faults.
#[derive(Drop)]
pub struct StdSink<W: Write> {
    writer: W,
    faults: u64,
}

impl<W: Write> Model for StdSink<W> {
    ghost use Rattle.graphite_base.specs.Ends.{Writing};

    ghost Value = { Writing };

    ghost view = { λ s. record { contents = W.contents s.writer; faults = s.faults } };
}

impl<W: Write> StdSink<W> {
    /// No fault is counted. It takes no memory.
    pub fn new(writer: W) -> StdSink<W>
        ensures writer { result.contents ≡ W.contents writer }
        ensures faults { result.faults ≡ 0 }
    {
        StdSink { writer, faults: 0 }
    }
}

impl<W: Write> Sink for StdSink<W> {
    ghost written = { λ _. None };

    ghost faults = { λ s. s.faults };

    /// One write, and then a flush. An error of either, and a write that takes 0 bytes, is a fault.
    fn write(&mut self, piece: &[u8]) -> Put
        requires { 0 < length piece.now }
        ensures writer { PutReaches self.old.contents self.new.contents result piece.now }
        ensures counted { self.new.faults ≡ faults_after_write result self.old.faults }
        ensures fits { PutFits result piece.now }
        ensures moves { PutMoves None None result piece.now }
        ensures later { self.old.faults ≤ self.new.faults }
    {
        match write_and_flush(&mut self.writer, piece) {
            Ok(count) if count > 0 => Put::Took(count),
            _ => {
                self.faults = self.faults.saturating_add(1);
                Put::Failed
            }
        }
    }
}

// The count of bytes that were taken. Where an error comes, any prefix may have been taken.
fn write_and_flush<W: Write>(writer: &mut W, piece: &[u8]) -> io::Result<usize>
    ensures within { IfOk result (λ count. count ≤ length piece.now) }
    ensures taken { IfOk result (λ count.
        Appends (W.contents writer.old) (W.contents writer.new) (take count piece.now)) }
    ensures part { OnErr result (AppendsSome (W.contents writer.old) (W.contents writer.new) piece.now) }
{
    let count = writer.write(piece)?;
    writer.flush()?;
    Ok(count)
}
