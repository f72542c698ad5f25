//! What a program is asked to do.
ghost use Rattle.std.specs.Prelude.{◌≡◌};
ghost use Rattle.rc_config.specs.declared.mode.WordsFault.TheVariants.{NoMemory as OutOfMemory};

use rc_ids::NoMemory;
use rc_ports::Word;
use std::alloc::{AllocError, AllocFailed};
use thiserror::Error;

/// What the words ask for.
#[derive(Debug, Drop)]
pub enum Mode {
    /// To play a script over disks in memory.
    Plain,
    /// To play a script over the logs in this directory.
    Logs(Word),
    /// To play the script of so many transactions that the number draws.
    Generate { number: u32, size: u32 },
}

/// Why words could not be read.
#[derive(Clone, Copy, Debug, PartialEq, Eq, Error)]
pub enum WordsFault {
    /// There was no memory.
    #[error("out of memory")]
    NoMemory,
    /// The words are none of the forms.
    #[error("the words are none of the forms")]
    BadWords,
}

impl From<NoMemory> for WordsFault {
    ghost from_gives = { λ _ e. e ≡ OutOfMemory };

    fn from(_error: NoMemory) -> Self {
        WordsFault::NoMemory
    }
}

impl From<AllocError> for WordsFault {
    ghost from_gives = { λ _ e. e ≡ OutOfMemory };

    fn from(_error: AllocError) -> Self {
        WordsFault::NoMemory
    }
}

impl<T: Drop> From<AllocFailed<T>> for WordsFault {
    ghost from_gives = { λ _ e. e ≡ OutOfMemory };

    fn from(_error: AllocFailed<T>) -> Self {
        WordsFault::NoMemory
    }
}
