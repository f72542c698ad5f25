// Why a message is not handled.
use rc_ids::NoMemory as WantOfMemory;
use thiserror::Error;

/// Why a coordinator does not handle a message.
#[derive(Clone, Copy, Debug, PartialEq, Eq, Error)]
pub enum CoordFault {
    /// There was no memory.
    #[error("out of memory")]
    NoMemory,
    /// A take-over would need a ballot above the last one.
    #[error("no ballot is left for a take-over")]
    BallotsSpent,
}

impl From<WantOfMemory> for CoordFault {
    ghost use Rattle.std.specs.Prelude.{◌≡◌};
    ghost use Rattle.rc_plain_coord.specs.declared.fault.CoordFault.TheVariants.{NoMemory as OutOfMemory};

    ghost from_gives = { λ _ e. e ≡ OutOfMemory };

    fn from(_error: WantOfMemory) -> Self {
        CoordFault::NoMemory
    }
}
