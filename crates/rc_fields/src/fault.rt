// Why fields and values could not be read.
use std::alloc::AllocFailed;
use thiserror::Error;

/// Why no field of the wanted kind stands first.
#[derive(Clone, Copy, Debug, PartialEq, Eq, Error)]
pub enum FieldFault {
    /// There are fewer bytes than the field takes.
    #[error("there are too few bytes")]
    Short,
    /// A length is above its maximum.
    #[error("a length is too large")]
    TooLong,
    /// A tag is above its maximum.
    #[error("there is no such tag")]
    BadTag,
}

/// Why a value could not be read.
#[derive(Clone, Copy, Debug, PartialEq, Eq, Error)]
pub enum ReadFault {
    /// There was no memory.
    #[error("out of memory")]
    NoMemory,
    /// No spelling of such a value stands first.
    #[error("no such value stands first")]
    NotThere,
}

impl<T: Drop> From<AllocFailed<T>> for ReadFault {
    ghost use Rattle.std.specs.Prelude.{◌≡◌};
    ghost use Rattle.rc_fields.specs.declared.fault.ReadFault.TheVariants.{NoMemory as OutOfMemory};

    ghost from_gives = { λ _ e. e ≡ OutOfMemory };

    fn from(_error: AllocFailed<T>) -> Self {
        ReadFault::NoMemory
    }
}

impl From<rc_ids::NoMemory> for ReadFault {
    ghost use Rattle.std.specs.Prelude.{◌≡◌};
    ghost use Rattle.rc_fields.specs.declared.fault.ReadFault.TheVariants.{NoMemory as OutOfMemory};

    ghost from_gives = { λ _ e. e ≡ OutOfMemory };

    fn from(_error: rc_ids::NoMemory) -> Self {
        ReadFault::NoMemory
    }
}

impl From<FieldFault> for ReadFault {
    ghost use Rattle.std.specs.Prelude.{◌≡◌};
    ghost use Rattle.rc_fields.specs.declared.fault.ReadFault.TheVariants.{NotThere as IsNotThere};

    ghost from_gives = { λ _ e. e ≡ IsNotThere };

    fn from(_error: FieldFault) -> Self {
        ReadFault::NotThere
    }
}
