//! A hop that is taken, as a step and the vertex at its other end.
ghost use Rattle.std.specs.Prelude.{◌≡◌, ◌<◌, ◌+◌, ◌^◌};
ghost use Rattle.graphite_api.specs.TableHops.{hop_along};
ghost use Rattle.graphite_witness.specs.Steps.{step_of};

use crate::Step;
use graphite_api::Arc;

/// A hop that is taken from a vertex on, backwards or forwards: its step, and the vertex at its other end.
#[derive(Clone, Copy)]
pub(crate) struct Taken {
    pub step: Step,
    pub other: u32,
}

impl Taken {
    /// The hop along the arc at an instant, taken backwards.
    pub fn back(arc: &Arc, depart: u64) -> Taken
        requires { depart + arc.now.time < 2 ^ 64 }
        ensures { result ≡ record { step = step_of (hop_along arc.now depart); other = arc.now.from } }
    {
        Taken {
            step: step_along(arc, depart),
            other: arc.from,
        }
    }

    /// The hop along the arc at an instant, taken forwards.
    pub fn onward(arc: &Arc, depart: u64) -> Taken
        requires { depart + arc.now.time < 2 ^ 64 }
        ensures { result ≡ record { step = step_of (hop_along arc.now depart); other = arc.now.to } }
    {
        Taken {
            step: step_along(arc, depart),
            other: arc.to,
        }
    }
}

/// The step along the arc at an instant.
fn step_along(arc: &Arc, depart: u64) -> Step
    requires { depart + arc.now.time < 2 ^ 64 }
    ensures { result ≡ step_of (hop_along arc.now depart) }
{
    Step {
        edge: arc.edge,
        depart,
        arrive: depart + u64::from(arc.time),
        cost: arc.cost,
    }
}
