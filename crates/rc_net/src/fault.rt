// Why a call of the network was refused.
ghost use Rattle.std.specs.Prelude.{◌≡◌};
ghost use Rattle.rc_net.specs.declared.fault.NetFault.TheVariants.{NoMemory as WithoutMemory};

use rc_ids::NoMemory;
use std::alloc::{AllocError, AllocFailed};
use thiserror::Error;

/// Why a call of the network was refused. All is as before.
#[derive(Clone, Copy, Debug, PartialEq, Eq, Error)]
pub enum NetFault {
    /// There was no memory.
    #[error("out of memory")]
    NoMemory,
    /// The messages, or the bytes of all messages, would pass the limit.
    #[error("the wire is full")]
    WireFull,
    /// No message has this number.
    #[error("no such message")]
    NoSuchMessage,
    /// The message was delivered or lost before.
    #[error("the message is not pending")]
    NotPending,
}

impl From<NoMemory> for NetFault {
    ghost from_gives = { λ _ e. e ≡ WithoutMemory };

    fn from(_fault: NoMemory) -> Self {
        NetFault::NoMemory
    }
}

impl From<AllocError> for NetFault {
    ghost from_gives = { λ _ e. e ≡ WithoutMemory };

    fn from(_error: AllocError) -> Self {
        NetFault::NoMemory
    }
}

impl<T: Drop> From<AllocFailed<T>> for NetFault {
    ghost from_gives = { λ _ e. e ≡ WithoutMemory };

    fn from(_error: AllocFailed<T>) -> Self {
        NetFault::NoMemory
    }
}
