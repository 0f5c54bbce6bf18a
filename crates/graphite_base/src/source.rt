//! Where bytes come from.
ghost use Rattle.std.specs.Prelude.{◌≡◌, ◌<◌, ◌≤◌, ℕ, List, Option, length};
ghost use Rattle.graphite_base.specs.Causes.{Rose, faults_after_read};
ghost use Rattle.graphite_base.specs.Answers.{GotFits, GotMoves};

/// What one read answers.
#[derive(Clone, Copy, Debug, PartialEq, Eq)]
pub enum Got {
    /// So many bytes came, at least one.
    Bytes(usize),
    /// All bytes have come.
    End,
    /// The read failed, and a fault was counted.
    Failed,
}

/// Bytes that come in, in order.
pub trait Source {
    /// The bytes that are still to come, where the source tells them.
    ghost left: { Self → Option (List ℕ) };

    /// How many reads have failed. The count stays at the last value of a `u64`.
    ghost faults: { Self → ℕ };

    /// Moves the next bytes to the start of `into`. One fault is counted at [`Got::Failed`], and none
    /// else.
    fn read(&mut self, into: &mut [u8]) -> Got
        requires { 0 < length into.old }
        ensures fits { GotFits result into.old }
        ensures moves { GotMoves (left self.old) (left self.new) result into.new }
        ensures counted { faults self.new ≡ faults_after_read result (faults self.old) }
        ensures later { faults self.old ≤ faults self.new }
        ensures failed { result ≡ Got.Failed → Rose (faults self.old) (faults self.new) };
}
