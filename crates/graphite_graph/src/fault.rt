//! Why the reading of a text stops at a line.
ghost use Rattle.std.specs.Prelude.{◌≡◌};
ghost use Rattle.graphite_graph.specs.declared.fault.Fault.TheVariants.{NoMemory as no_memory};

use graphite_props::AddFault;
use graphite_text::OVERLAP_RULE;
use graphite_time::NoMemory;

/// Why the reading of a text stops at a line.
#[derive(Clone, Copy, Debug, PartialEq, Eq)]
pub(crate) enum Fault {
    /// The line breaks this rule, and no lesser one.
    Rule(u8),
    NoMemory,
}

impl From<NoMemory> for Fault {
    ghost from_gives = { λ _ fault. fault ≡ no_memory };

    fn from(_error: NoMemory) -> Fault {
        Fault::NoMemory
    }
}

impl From<AddFault> for Fault {
    ghost use Rattle.graphite_graph.specs.Step.{fault_of_add};

    ghost from_gives = { λ added fault. fault ≡ fault_of_add added };

    fn from(added: AddFault) -> Fault {
        match added {
            AddFault::Overlap => Fault::Rule(OVERLAP_RULE),
            AddFault::NoMemory => Fault::NoMemory,
        }
    }
}
