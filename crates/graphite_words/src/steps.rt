//! The number of supersteps that the words may allow.
ghost use Rattle.std.specs.Prelude.{◌≡◌, ◌≤◌};
ghost use Rattle.graphite_api.specs.declared.TheConstants.{STEP_LIMIT};

/// How many supersteps a program may make: from 1 to [`graphite_api::STEP_LIMIT`].
#[derive(Clone, Copy, Debug, PartialEq, Eq)]
pub struct Steps {
    pub number: u32,
    ghost in_range: { (1 ≤ number) × (number ≤ STEP_LIMIT) },
}

impl Steps {
    /// So many supersteps.
    pub fn new(number: u32) -> Steps
        requires some { 1 ≤ number }
        requires few { number ≤ STEP_LIMIT }
        ensures { result.number ≡ number }
    {
        Steps { number }
    }
}
