//! A source that gives and fails as it is told.
ghost use Rattle.std.specs.Prelude.{◌≡◌, ◌+◌, ◌-◌, ◌^◌, ◌<◌, ◌≤◌, ℕ, List, Option, Some, IfOk, All, if◌then◌else◌, min, length};
ghost use Rattle.graphite_base.specs.Answers.{GotFits, GotMoves};
ghost use Rattle.graphite_base.specs.Causes.{faults_after_read};
ghost use Rattle.graphite_base.specs.Ends.{got_of, is_listed, most_at};

use crate::script::Script;
use crate::{Got, Source};
use graphite_time::NoMemory;
use std::alloc::Global;
use std::marker::Model;

/// A source that gives its bytes in the pieces that it is told, and fails at the calls that it is
/// told. Contracts see the bytes that are left, the script with the number of calls made, and the
/// count of faults.
#[derive(Drop)]
pub struct ScriptSource {
    bytes: Vec<u8>,
    at: usize,
    script: Script,
    faults: u64,
}

impl Model for ScriptSource {
    ghost use Rattle.std.specs.Prelude.{◌≤◌, drop, vec_len};
    ghost use Rattle.graphite_base.specs.Ends.{Playing};

    ghost Value = { Playing };

    ghost view = { λ s. record { left = drop s.at s.bytes.items; script = s.script; faults = s.faults } };

    ghost invariant = { λ s. s.at ≤ vec_len s.bytes };
}

impl ScriptSource {
    /// Calls of `read` are counted from 1, failing calls among them. Call k fails where `fails` has
    /// k. Else it gives at most `cuts[k - 1]` bytes, or as many as fit where there is no such cut.
    pub fn new(
        alloc: Global,
        bytes: &[u8],
        cuts: &[u32],
        fails: &[u32],
    ) -> Result<ScriptSource, NoMemory>
        requires { All (λ cut. 1 ≤ cut) cuts.now }
        ensures left { IfOk result (λ source. source.left ≡ bytes.now) }
        ensures cuts { IfOk result (λ source. source.script.pieces ≡ cuts.now) }
        ensures fails { IfOk result (λ source. source.script.fails ≡ fails.now) }
        ensures calls { IfOk result (λ source. source.script.calls ≡ 0) }
        ensures faults { IfOk result (λ source. source.faults ≡ 0) }
    {
        Ok(ScriptSource {
            bytes: Vec::from_slice(alloc, bytes)?,
            at: 0,
            script: Script::new(alloc, cuts, fails)?,
            faults: 0,
        })
    }
}

impl Source for ScriptSource {
    ghost left = { λ s. Some s.left };

    ghost faults = { λ s. s.faults };

    /// As the script says for this call.
    fn read(&mut self, into: &mut [u8]) -> Got
        requires { 0 < length into.old }
        ensures answer { let call = self.new.script.calls in
            result ≡ (if is_listed self.old.script.fails call then Got.Failed
            else got_of self.old.left (most_at self.old.script.pieces call (length into.old))) }
        ensures calls { self.new.script.calls ≡ min (self.old.script.calls + 1) (2 ^ 64 - 1) }
        ensures cuts { self.new.script.pieces ≡ self.old.script.pieces }
        ensures fails { self.new.script.fails ≡ self.old.script.fails }
        ensures counted { self.new.faults ≡ faults_after_read result self.old.faults }
        ensures fits { GotFits result into.old }
        ensures moves { GotMoves (Some self.old.left) (Some self.new.left) result into.new }
        ensures later { self.old.faults ≤ self.new.faults }
    {
        let Some(most) = self.script.next_call(into.len()) else {
            self.faults = self.faults.saturating_add(1);
            return Got::Failed;
        };
        let left = &self.bytes[self.at..];
        if left.is_empty() {
            return Got::End;
        }
        let count = left.len().min(most);
        into[..count].copy_from_slice(&left[..count]);
        self.at += count;
        Got::Bytes(count)
    }
}
