//! Why a script could not be read.
ghost use Rattle.std.specs.Prelude.{◌≡◌};
ghost use Rattle.rc_script.specs.declared.fault.ScriptFault.TheVariants.{NoMemory as OutOfMemory};

use rc_ids::NoMemory;
use std::alloc::{AllocError, AllocFailed};
use thiserror::Error;

/// Why bytes are no script.
#[derive(Debug, Drop, Error)]
pub enum ScriptFault {
    /// There was no memory for the commands.
    #[error("out of memory")]
    NoMemory,
    /// This line, counted from 1, is the first outside the grammar.
    #[error("line {number} is outside the grammar")]
    Line { number: u32 },
    /// There are more lines than a script may have.
    #[error("too many lines")]
    TooManyLines,
}

impl From<NoMemory> for ScriptFault {
    ghost from_gives = { λ _ e. e ≡ OutOfMemory };

    fn from(_error: NoMemory) -> Self {
        ScriptFault::NoMemory
    }
}

impl From<AllocError> for ScriptFault {
    ghost from_gives = { λ _ e. e ≡ OutOfMemory };

    fn from(_error: AllocError) -> Self {
        ScriptFault::NoMemory
    }
}

impl<T: Drop> From<AllocFailed<T>> for ScriptFault {
    ghost from_gives = { λ _ e. e ≡ OutOfMemory };

    fn from(_error: AllocFailed<T>) -> Self {
        ScriptFault::NoMemory
    }
}
