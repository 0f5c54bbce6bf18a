//! The law of programs that see one instant at a time.
ghost use Rattle.std.specs.Prelude.{◌≡◌};
ghost use Rattle.graphite_api.specs.Plan.{Plan};
ghost use Rattle.graphite_api.specs.Rules.{point_rules};

use crate::Program;

/// The law of a program of snapshots: it computes and scatters by plain functions, which see one
/// instant at a time, and what is told over an interval holds at exactly its instants.
pub trait PointProgram: Program {
    /// The plain functions, the order of notes, and `ALWAYS`.
    ghost plan: { Plan Self.State Self.Note };

    /// What the program answers is what the plan says.
    ghost rules_are: { Self.rules ≡ point_rules plan };
}
