// Why a log was not opened, and why a record was not added.
ghost use Rattle.std.specs.Prelude.{◌≡◌};
ghost use Rattle.rc_log.specs.declared.fault.OpenFault.TheVariants.{NoMemory as OpenNoMemory, Failed as OpenFailed};
ghost use Rattle.rc_log.specs.declared.fault.AppendFault.TheVariants.{NoMemory as AppendNoMemory};

use rc_ids::NoMemory;
use rc_ports::Failed;
use std::alloc::{AllocError, AllocFailed};
use thiserror::Error;

/// Why there is no log.
#[derive(Clone, Copy, Debug, PartialEq, Eq, Error)]
pub enum OpenFault {
    /// There was no memory.
    #[error("out of memory")]
    NoMemory,
    /// The disk failed. Its count of faults rose in that call.
    #[error("the disk failed")]
    Failed,
    /// At this place there is no gate, or an open one whose frame goes past the end.
    #[error("the log is damaged at {place}")]
    Damaged { place: u64 },
}

impl From<NoMemory> for OpenFault {
    ghost from_gives = { λ _ e. e ≡ OpenNoMemory };

    fn from(_fault: NoMemory) -> Self {
        OpenFault::NoMemory
    }
}

impl From<AllocError> for OpenFault {
    ghost from_gives = { λ _ e. e ≡ OpenNoMemory };

    fn from(_error: AllocError) -> Self {
        OpenFault::NoMemory
    }
}

impl<T: Drop> From<AllocFailed<T>> for OpenFault {
    ghost from_gives = { λ _ e. e ≡ OpenNoMemory };

    fn from(_error: AllocFailed<T>) -> Self {
        OpenFault::NoMemory
    }
}

impl From<Failed> for OpenFault {
    ghost from_gives = { λ _ e. e ≡ OpenFailed };

    fn from(_fault: Failed) -> Self {
        OpenFault::Failed
    }
}

/// Why a record was not added.
#[derive(Clone, Copy, Debug, PartialEq, Eq, Error)]
pub enum AppendFault {
    /// There was no memory. All is as before.
    #[error("out of memory")]
    NoMemory,
    /// The disk failed. Its count of faults rose in that call. The log holds the record or not.
    #[error("the disk failed")]
    Failed,
    /// The log would be longer than its limit. All is as before.
    #[error("the log is full")]
    Full,
}

impl From<NoMemory> for AppendFault {
    ghost from_gives = { λ _ e. e ≡ AppendNoMemory };

    fn from(_fault: NoMemory) -> Self {
        AppendFault::NoMemory
    }
}
