// Why an entry is refused.
use std::alloc::AllocFailed;
use thiserror::Error;

/// Why an entry is not added to a body.
#[derive(Clone, Copy, Debug, PartialEq, Eq, Error)]
pub enum BodyFault {
    /// There was no memory.
    #[error("out of memory")]
    NoMemory,
    /// There are 32 keys.
    #[error("there are 32 keys")]
    TooManyKeys,
    /// The key is written, and no version comes after the one that was read.
    #[error("no version comes after the one that was read")]
    KeyWornOut,
}

impl<T: Drop> From<AllocFailed<T>> for BodyFault {
    ghost use Rattle.std.specs.Prelude.{◌≡◌};
    ghost use Rattle.rc_body.specs.declared.fault.BodyFault.TheVariants.{NoMemory as OutOfMemory};

    ghost from_gives = { λ _ e. e ≡ OutOfMemory };

    fn from(_error: AllocFailed<T>) -> Self {
        BodyFault::NoMemory
    }
}

impl From<rc_ids::NoMemory> for BodyFault {
    ghost use Rattle.std.specs.Prelude.{◌≡◌};
    ghost use Rattle.rc_body.specs.declared.fault.BodyFault.TheVariants.{NoMemory as OutOfMemory};

    ghost from_gives = { λ _ e. e ≡ OutOfMemory };

    fn from(_error: rc_ids::NoMemory) -> Self {
        BodyFault::NoMemory
    }
}
