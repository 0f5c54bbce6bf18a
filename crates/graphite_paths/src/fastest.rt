//! The latest start of a journey to a vertex, from which the fastest one is told.
ghost use Rattle.std.specs.Prelude.{◌≡◌, false, refl};
ghost use Rattle.graphite_api.specs.Values.{journey_rules};
ghost use Rattle.graphite_api.specs.KindValues.{fastest_values};
ghost use Rattle.graphite_api.proofs.KindLemmas.{fastest_is_lawful};

use crate::best::{greatest_next, note_on_arrival};
use graphite_api::{Arc, JourneyProgram, Message, Next, Program};
use graphite_time::Interval;
use std::marker::Model;

/// The latest start, as an instant, of a journey from a source that has come to each vertex by each instant. A journey
/// that arrives at that instant is the fastest of those that do. Its states start with the latest start of a journey
/// without hops, where there is one.
#[derive(Drop)]
pub struct Fastest {
    calls: u128,
}

/// Contracts see how often it was called.
impl Model for Fastest {
    ghost use Rattle.std.specs.Prelude.{ℕ};

    ghost Value = { ℕ };

    ghost view = { λ fastest. fastest.calls };
}

impl Fastest {
    /// A program that was not called yet. It takes no memory.
    pub fn new() -> Fastest
        ensures { result ≡ 0 }
    {
        Fastest { calls: 0 }
    }
}

impl Program for Fastest {
    type State = Option<u64>;

    type Note = u64;

    const ALWAYS: bool = false;

    ghost ALWAYS = { false };

    ghost rules = { journey_rules fastest_values };

    ghost count = { λ calls. calls };

    fn calls(&self) -> u128 {
        self.calls
    }

    fn compute(&mut self, step: u32, state: Option<u64>, group: &[u64]) -> Next<Option<u64>> {
        self.calls += 1;
        greatest_next(step, state, group)
    }

    fn scatter(&self, state: Option<u64>, arc: &Arc, over: Interval) -> Option<Message<u64>> {
        let start = state?;
        note_on_arrival(arc, over, start)
    }

    ghost order_is = { refl };

    ghost always_is = { refl };
}

impl JourneyProgram for Fastest {
    ghost values = { fastest_values };

    ghost rules_are = { refl };

    ghost lawful = { fastest_is_lawful };
}
