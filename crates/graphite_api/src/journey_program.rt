//! The law of programs of journeys.
ghost use Rattle.std.specs.Prelude.{◌≡◌};
ghost use Rattle.graphite_api.specs.Values.{Values, AreLawful, journey_rules};

use crate::Program;

/// The law of a program of journeys. In the first superstep a vertex sends its value, if it has one; later it
/// keeps the best of its value and what it was told, and sends where that is better. What it tells over an
/// interval is what its value becomes by the hop at the interval's first instant, from the arrival to the
/// end of the lifespan that the arc names.
pub trait JourneyProgram: Program<State = Option<u64>, Note = u64> {
    /// How values are compared and carried along hops, and which can stand at an instant.
    ghost values: { Values };

    /// What the program answers is what the values say.
    ghost rules_are: { Self.rules ≡ journey_rules values };

    /// The values meet the laws.
    ghost lawful: { AreLawful values };
}
