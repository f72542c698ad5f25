// What a take gives, and why a post is refused.
ghost use Rattle.std.specs.Prelude.{◌≡◌};
ghost use Rattle.rc_wire.specs.declared.fault.PostFault.TheVariants.{NoMemory as WithoutMemory};

use rc_ids::{Blob, NoMemory, Party};
use std::alloc::AllocError;
use thiserror::Error;

/// What a take gives.
#[derive(Debug, Drop)]
pub enum Taken {
    /// The oldest message that is wanted, with its number and its sender.
    Mail {
        number: u32,
        from: Party,
        bytes: Blob,
    },
    /// None is pending, and some may still come.
    Empty,
    /// None comes any more: the wire is quiescent or halted.
    Closed,
    /// There was no memory. The message is pending still.
    NoMemory,
}

/// Why a post was refused. The wire is as before.
#[derive(Clone, Copy, Debug, PartialEq, Eq, Error)]
pub enum PostFault {
    #[error("out of memory")]
    NoMemory,
    /// The messages, or the bytes of all messages, would pass the limit.
    #[error("the wire is full")]
    WireFull,
}

impl From<NoMemory> for PostFault {
    ghost from_gives = { λ _ e. e ≡ WithoutMemory };

    fn from(_fault: NoMemory) -> Self {
        PostFault::NoMemory
    }
}

impl From<AllocError> for PostFault {
    ghost from_gives = { λ _ e. e ≡ WithoutMemory };

    fn from(_error: AllocError) -> Self {
        PostFault::NoMemory
    }
}
