//! Why a report was not written whole.
ghost use Rattle.graphite_report.specs.Faults.{IsMemory, IsWrite};

use graphite_base::WriteFailed;
use graphite_time::NoMemory;
use std::alloc::AllocError;
use thiserror::Error;

/// Why a report was not written whole.
#[derive(Clone, Copy, Debug, PartialEq, Eq, Error)]
pub enum ReportFault {
    /// The sink failed.
    #[error("the report could not be written")]
    WriteFailed,
    /// Out of memory.
    #[error("out of memory")]
    NoMemory,
}

impl From<NoMemory> for ReportFault {
    ghost from_gives = { λ _. IsMemory };

    fn from(_fault: NoMemory) -> ReportFault {
        ReportFault::NoMemory
    }
}

impl From<AllocError> for ReportFault {
    ghost from_gives = { λ _. IsMemory };

    fn from(_fault: AllocError) -> ReportFault {
        ReportFault::NoMemory
    }
}

impl From<WriteFailed> for ReportFault {
    ghost from_gives = { λ _. IsWrite };

    fn from(_fault: WriteFailed) -> ReportFault {
        ReportFault::WriteFailed
    }
}
