//! The earliest arrival at a vertex.
ghost use Rattle.std.specs.Prelude.{◌≡◌, false, refl};
ghost use Rattle.graphite_api.specs.Values.{journey_rules};
ghost use Rattle.graphite_api.specs.KindValues.{earliest_values};
ghost use Rattle.graphite_api.proofs.KindLemmas.{earliest_is_lawful};

use crate::best::{least_next, note_on_arrival};
use graphite_api::{Arc, JourneyProgram, Message, Next, Program};
use graphite_time::Interval;
use std::marker::Model;

/// The earliest arrival, as an instant, of a journey from a source to each vertex. Its states start with the first
/// instant of a journey without hops, where there is one.
#[derive(Drop)]
pub struct Earliest {
    calls: u128,
}

/// Contracts see how often it was called.
impl Model for Earliest {
    ghost use Rattle.std.specs.Prelude.{ℕ};

    ghost Value = { ℕ };

    ghost view = { λ earliest. earliest.calls };
}

impl Earliest {
    /// A program that was not called yet. It takes no memory.
    pub fn new() -> Earliest
        ensures { result ≡ 0 }
    {
        Earliest { calls: 0 }
    }
}

impl Program for Earliest {
    type State = Option<u64>;

    type Note = u64;

    const ALWAYS: bool = false;

    ghost ALWAYS = { false };

    ghost rules = { journey_rules earliest_values };

    ghost count = { λ calls. calls };

    fn calls(&self) -> u128 {
        self.calls
    }

    fn compute(&mut self, step: u32, state: Option<u64>, group: &[u64]) -> Next<Option<u64>> {
        self.calls += 1;
        least_next(step, state, group)
    }

    fn scatter(&self, state: Option<u64>, arc: &Arc, over: Interval) -> Option<Message<u64>> {
        let _arrived = state?;
        note_on_arrival(arc, over, over.a() + u64::from(arc.time))
    }

    ghost order_is = { refl };

    ghost always_is = { refl };
}

impl JourneyProgram for Earliest {
    ghost values = { earliest_values };

    ghost rules_are = { refl };

    ghost lawful = { earliest_is_lawful };
}
