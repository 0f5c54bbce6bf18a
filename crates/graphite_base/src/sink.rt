//! Where bytes go to.
ghost use Rattle.std.specs.Prelude.{◌≡◌, ◌<◌, ◌≤◌, ℕ, List, Option, length};
ghost use Rattle.graphite_base.specs.Causes.{Rose, faults_after_write};
ghost use Rattle.graphite_base.specs.Answers.{PutFits, PutMoves};

/// What one write answers.
#[derive(Clone, Copy, Debug, PartialEq, Eq)]
pub enum Put {
    /// So many bytes were taken, at least one.
    Took(usize),
    /// The write failed, and a fault was counted.
    Failed,
}

/// Bytes that go out, in order.
pub trait Sink {
    /// The bytes that were written, where the sink tells them.
    ghost written: { Self → Option (List ℕ) };

    /// How many writes have failed. The count stays at the last value of a `u64`.
    ghost faults: { Self → ℕ };

    /// Takes the first bytes of `piece`. One fault is counted at [`Put::Failed`], and none else.
    fn write(&mut self, piece: &[u8]) -> Put
        requires { 0 < length piece.now }
        ensures fits { PutFits result piece.now }
        ensures moves { PutMoves (written self.old) (written self.new) result piece.now }
        ensures counted { faults self.new ≡ faults_after_write result (faults self.old) }
        ensures later { faults self.old ≤ faults self.new }
        ensures failed { result ≡ Put.Failed → Rose (faults self.old) (faults self.new) };
}
