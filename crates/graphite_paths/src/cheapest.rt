//! The least cost of a journey to a vertex.
ghost use Rattle.std.specs.Prelude.{◌≡◌, false, refl};
ghost use Rattle.graphite_api.specs.Values.{journey_rules};
ghost use Rattle.graphite_api.specs.KindValues.{saturating_values};
ghost use Rattle.graphite_api.proofs.KindLemmas.{saturating_is_lawful};

use crate::best::{least_next, note_on_arrival};
use graphite_api::{Arc, JourneyProgram, Message, Next, Program};
use graphite_time::Interval;
use std::marker::Model;

/// The least sum of the costs of the hops of a journey from a source to each vertex. A sum stops at 2^64 - 1,
/// which fewer than 2^21 hops never reach. Its states start with 0 where there is a journey without hops.
#[derive(Drop)]
pub struct Cheapest {
    calls: u128,
}

/// Contracts see how often it was called.
impl Model for Cheapest {
    ghost use Rattle.std.specs.Prelude.{ℕ};

    ghost Value = { ℕ };

    ghost view = { λ cheapest. cheapest.calls };
}

impl Cheapest {
    /// A program that was not called yet. It takes no memory.
    pub fn new() -> Cheapest
        ensures { result ≡ 0 }
    {
        Cheapest { calls: 0 }
    }
}

impl Program for Cheapest {
    type State = Option<u64>;

    type Note = u64;

    const ALWAYS: bool = false;

    ghost ALWAYS = { false };

    ghost rules = { journey_rules saturating_values };

    ghost count = { λ calls. calls };

    fn calls(&self) -> u128 {
        self.calls
    }

    fn compute(&mut self, step: u32, state: Option<u64>, group: &[u64]) -> Next<Option<u64>> {
        self.calls += 1;
        least_next(step, state, group)
    }

    fn scatter(&self, state: Option<u64>, arc: &Arc, over: Interval) -> Option<Message<u64>> {
        let sum = state?;
        note_on_arrival(arc, over, sum.saturating_add(u64::from(arc.cost)))
    }

    ghost order_is = { refl };

    ghost always_is = { refl };
}

impl JourneyProgram for Cheapest {
    ghost values = { saturating_values };

    ghost rules_are = { refl };

    ghost lawful = { saturating_is_lawful };
}
