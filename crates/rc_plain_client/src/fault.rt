// Why a client's row does not end.
use rc_ids::NoMemory;
use thiserror::Error;

/// Why a client did not do what an event asks of it.
#[derive(Clone, Copy, Debug, PartialEq, Eq, Error)]
pub enum ClientFault {
    /// There was no memory. Nothing is promised of what the client, its messages and its lines are then.
    #[error("out of memory")]
    NoMemory,
    /// The client would commit a write to a key whose version has no next one.
    #[error("no version comes after the one that was read")]
    KeyWornOut,
}

impl From<NoMemory> for ClientFault {
    ghost use Rattle.std.specs.Prelude.{◌≡◌};
    ghost use Rattle.rc_plain_client.specs.declared.fault.ClientFault.TheVariants.{NoMemory as OutOfMemory};

    ghost from_gives = { λ _ e. e ≡ OutOfMemory };

    fn from(_error: NoMemory) -> Self {
        ClientFault::NoMemory
    }
}
