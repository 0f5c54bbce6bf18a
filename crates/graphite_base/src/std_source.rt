//! A reader of std as a source.
ghost use Rattle.std.specs.Prelude.{◌≡◌, ◌<◌, ◌≤◌, ℕ, List, Option, None, length};
ghost use Rattle.graphite_base.specs.Answers.{GotFits, GotMoves};
ghost use Rattle.graphite_base.specs.Causes.{faults_after_read};

use crate::{Got, Source};
use std::io::{ErrorKind, Read};
use std::marker::Model;

/// How often an interrupted read is tried again in one call.
const RETRIES: u32 = 1_024;

/// A source over a reader of std. It tells no bytes. Contracts see what the reader has left, where
/// that is known, and the count of faults.
#[derive(Drop)]
pub struct StdSource<R: Read> {
    reader: R,
    faults: u64,
}

impl<R: Read> Model for StdSource<R> {
    ghost use Rattle.graphite_base.specs.Ends.{Reading};

    ghost Value = { Reading };

    ghost view = { λ s. record { remaining = R.remaining s.reader; faults = s.faults } };
}

impl<R: Read> StdSource<R> {
    /// No fault is counted. It takes no memory.
    pub fn new(reader: R) -> StdSource<R>
        ensures reader { result.remaining ≡ R.remaining reader }
        ensures faults { result.faults ≡ 0 }
    {
        StdSource { reader, faults: 0 }
    }
}

impl<R: Read> Source for StdSource<R> {
    ghost left = { λ _. None };

    ghost faults = { λ s. s.faults };

    /// One read, tried again where it is interrupted, at most 1,024 times. A read of 0 bytes is the
    /// end; any other error, and one interruption more, is a fault.
    fn read(&mut self, into: &mut [u8]) -> Got
        requires { 0 < length into.old }
        ensures reader { GotMoves self.old.remaining self.new.remaining result into.new }
        ensures counted { self.new.faults ≡ faults_after_read result self.old.faults }
        ensures fits { GotFits result into.old }
        ensures moves { GotMoves None None result into.new }
        ensures later { self.old.faults ≤ self.new.faults }
    {
        for _turn in 0..=RETRIES {
            match self.reader.read(into) {
                Ok(0) => return Got::End,
                Ok(count) => return Got::Bytes(count),
                Err(error) => {
                    if error.kind() != ErrorKind::Interrupted {
                        break;
                    }
                }
            }
        }
        self.faults = self.faults.saturating_add(1);
        Got::Failed
    }
}
