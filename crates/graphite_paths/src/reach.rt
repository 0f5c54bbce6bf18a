//! Whether a vertex is reached.
ghost use Rattle.std.specs.Prelude.{◌≡◌, false, refl};
ghost use Rattle.graphite_api.specs.Values.{journey_rules};
ghost use Rattle.graphite_api.specs.KindValues.{reach_values};
ghost use Rattle.graphite_api.proofs.KindLemmas.{reach_is_lawful};

use crate::best::{least_next, note_on_arrival};
use graphite_api::{Arc, JourneyProgram, Message, Next, Program};
use graphite_time::Interval;
use std::marker::Model;

/// Which vertices are reached from a source: a vertex that is reached has the value 0 from then on as long as
/// it lives, and one that is not has none. Its states start with 0 where a journey without hops reaches the vertex.
#[derive(Drop)]
pub struct Reach {
    calls: u128,
}

/// Contracts see how often it was called.
impl Model for Reach {
    ghost use Rattle.std.specs.Prelude.{ℕ};

    ghost Value = { ℕ };

    ghost view = { λ reach. reach.calls };
}

impl Reach {
    /// A program that was not called yet. It takes no memory.
    pub fn new() -> Reach
        ensures { result ≡ 0 }
    {
        Reach { calls: 0 }
    }
}

impl Program for Reach {
    type State = Option<u64>;

    type Note = u64;

    const ALWAYS: bool = false;

    ghost ALWAYS = { false };

    ghost rules = { journey_rules reach_values };

    ghost count = { λ calls. calls };

    fn calls(&self) -> u128 {
        self.calls
    }

    fn compute(&mut self, step: u32, state: Option<u64>, group: &[u64]) -> Next<Option<u64>> {
        self.calls += 1;
        least_next(step, state, group)
    }

    fn scatter(&self, state: Option<u64>, arc: &Arc, over: Interval) -> Option<Message<u64>> {
        let _reached = state?;
        note_on_arrival(arc, over, 0)
    }

    ghost order_is = { refl };

    ghost always_is = { refl };
}

impl JourneyProgram for Reach {
    ghost values = { reach_values };

    ghost rules_are = { refl };

    ghost lawful = { reach_is_lawful };
}
