// Why a log is not replayed.
use rc_ids::NoMemory;
use thiserror::Error;

/// Why a log gives nothing back.
#[derive(Clone, Copy, Debug, PartialEq, Eq, Error)]
pub enum ReplayFault {
    /// There was no memory.
    #[error("out of memory")]
    NoMemory,
    /// The record at this place, counted from 0, is none, or not one that may stand there.
    #[error("record {index} is refused")]
    BadRecord { index: u64 },
    /// The log is of another node or world.
    #[error("the log is of another world")]
    OtherWorld,
}

impl From<NoMemory> for ReplayFault {
    ghost use Rattle.std.specs.Prelude.{◌≡◌};
    ghost use Rattle.rc_record.specs.declared.fault.ReplayFault.TheVariants.{NoMemory as OutOfMemory};

    ghost from_gives = { λ _ e. e ≡ OutOfMemory };

    fn from(_error: NoMemory) -> Self {
        ReplayFault::NoMemory
    }
}
