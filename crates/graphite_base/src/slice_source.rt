//! A source over a slice.
ghost use Rattle.std.specs.Prelude.{◌≡◌, ◌<◌, ◌≤◌, ℕ, List, Option, Some, length, take, drop};
ghost use Rattle.graphite_base.specs.Causes.{Rose, faults_after_read};
ghost use Rattle.graphite_base.specs.Answers.{GotFits, GotMoves};
ghost use Rattle.graphite_base.specs.Ends.{got_of};

use crate::{Got, Source};
use std::marker::Model;

/// A source that gives the bytes of a slice. It never fails. Contracts see it as the bytes that are
/// left.
#[derive(Drop)]
pub struct SliceSource<'a> {
    rest: &'a [u8],
}

impl<'a> Model for SliceSource<'a> {
    ghost use Rattle.std.specs.Prelude.{ℕ, List};

    ghost Value = { List ℕ };

    ghost view = { λ s. s.rest.now };
}

impl<'a> SliceSource<'a> {
    /// All of `bytes` are to come.
    pub fn new(bytes: &'a [u8]) -> SliceSource<'a>
        ensures left { result ≡ bytes.now }
    {
        SliceSource { rest: bytes }
    }
}

impl<'a> Source for SliceSource<'a> {
    ghost left = { λ s. Some s };

    ghost faults = { λ _. 0 };

    /// As many bytes as fit, then the end.
    fn read(&mut self, into: &mut [u8]) -> Got
        requires { 0 < length into.old }
        ensures answer { result ≡ got_of self.old (length into.old) }
        ensures fits { GotFits result into.old }
        ensures moves { GotMoves (Some self.old) (Some self.new) result into.new }
        ensures counted { 0 ≡ faults_after_read result 0 }
        ensures later { 0 ≤ 0 }
        ensures failed { result ≡ Got.Failed → Rose 0 0 }
    {
        if self.rest.is_empty() {
            return Got::End;
        }
        let count = self.rest.len().min(into.len());
        let (now, later) = self.rest.split_at(count);
        into[..count].copy_from_slice(now);
        self.rest = later;
        Got::Bytes(count)
    }
}
