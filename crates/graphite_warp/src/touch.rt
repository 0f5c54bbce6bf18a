//! Which instants a warp is asked for.
ghost use Rattle.std.specs.Prelude.{◌≡◌};
ghost use Rattle.graphite_warp.specs.Asked.{asks_for};

/// Which instants a warp is asked for.
#[derive(Clone, Copy, Debug, PartialEq, Eq)]
pub enum Touch {
    /// All that have a state.
    All,
    /// Those that have a state and that a message holds.
    Touched,
}

impl Touch {
    /// Whether an instant with a state and these notes is one of them.
    pub(crate) fn asks_for<M>(self, notes: &[M]) -> bool
        ensures { result ≡ asks_for self notes.now }
    {
        match self {
            Touch::All => true,
            Touch::Touched => !notes.is_empty(),
        }
    }
}
