// Why a client does not do what is asked of it.
use rc_ids::NoMemory;
use thiserror::Error;

/// Why a client did not do what was asked of it. The client, its messages and its lines are then as before.
#[derive(Clone, Copy, Debug, PartialEq, Eq, Error)]
pub enum ClientFault {
    /// The client does not read, write, commit and cancel any more.
    #[error("the transaction is not open")]
    NotOpen,
    /// The transaction has 32 keys, and this would be one more.
    #[error("more than 32 keys")]
    TooManyKeys,
    /// The client would commit a write to a key whose version has no next one.
    #[error("no version comes after the one that was read")]
    KeyWornOut,
    /// There was no memory.
    #[error("out of memory")]
    NoMemory,
}

impl From<NoMemory> for ClientFault {
    ghost use Rattle.std.specs.Prelude.{◌≡◌};
    ghost use Rattle.rc_client.specs.declared.fault.ClientFault.TheVariants.{NoMemory as OutOfMemory};

    ghost from_gives = { λ _ e. e ≡ OutOfMemory };

    fn from(_error: NoMemory) -> Self {
        ClientFault::NoMemory
    }
}
