//! Why a property is not added.
ghost use Rattle.std.specs.Prelude.{◌≡◌};
ghost use Rattle.graphite_props.specs.declared.fault.AddFault.TheVariants.{NoMemory as no_memory};

use graphite_time::NoMemory;

/// Why a property is not added.
#[derive(Clone, Copy, Debug, PartialEq, Eq)]
pub enum AddFault {
    /// A property of this owner and key holds at an instant of the new one.
    Overlap,
    /// Out of memory.
    NoMemory,
}

impl From<NoMemory> for AddFault {
    ghost from_gives = { λ _ fault. fault ≡ no_memory };

    fn from(_error: NoMemory) -> AddFault {
        AddFault::NoMemory
    }
}
