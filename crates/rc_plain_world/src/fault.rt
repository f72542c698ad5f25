// Why an event does not happen.
ghost use Rattle.std.specs.Prelude.{◌≡◌};
ghost use Rattle.rc_plain_world.specs.declared.fault.SessionFault.TheVariants.{NoMemory as OutOfMemory};
ghost use Rattle.rc_plain_world.specs.declared.fault.ActFault.TheVariants.{NoMemory as ActOutOfMemory};
ghost use Rattle.rc_plain_world.specs.Acted.{fault_of_client, fault_of_coord};
ghost use Rattle.rc_plain_world.specs.Sessions.{fault_of_act, fault_of_limit};
ghost use Rattle.rc_plain_world.specs.declared.fault.LimitFault.TheVariants.{NoMemory as LimitOutOfMemory};

use rc_ids::NoMemory;
use rc_plain_client::ClientFault;
use rc_plain_coord::CoordFault;
use rc_report::{Which, Wrong};
use std::alloc::{AllocError, AllocFailed};

/// Why a line of a script ends early.
#[derive(Clone, Copy, Debug, PartialEq, Eq)]
pub enum SessionFault {
    /// There was no memory.
    NoMemory,
    /// It names something wrongly.
    Naming(Wrong),
    /// It would pass a limit.
    Limit(Which),
}

impl From<NoMemory> for SessionFault {
    ghost from_gives = { λ _ e. e ≡ OutOfMemory };

    fn from(_: NoMemory) -> Self {
        SessionFault::NoMemory
    }
}

impl From<AllocError> for SessionFault {
    ghost from_gives = { λ _ e. e ≡ OutOfMemory };

    fn from(_: AllocError) -> Self {
        SessionFault::NoMemory
    }
}

impl<T: Drop> From<AllocFailed<T>> for SessionFault {
    ghost from_gives = { λ _ e. e ≡ OutOfMemory };

    fn from(_: AllocFailed<T>) -> Self {
        SessionFault::NoMemory
    }
}

/// Why a party refuses an event.
#[derive(Clone, Copy, Debug, PartialEq, Eq)]
pub(crate) enum ActFault {
    /// There was no memory.
    NoMemory,
    /// A version that is written has no next one.
    VersionSpent,
    /// No ballot is left.
    BallotsSpent,
}

impl From<NoMemory> for ActFault {
    ghost from_gives = { λ _ e. e ≡ ActOutOfMemory };

    fn from(_: NoMemory) -> Self {
        ActFault::NoMemory
    }
}

impl From<ClientFault> for ActFault {
    ghost from_gives = { λ fault e. e ≡ fault_of_client fault };

    fn from(fault: ClientFault) -> Self {
        match fault {
            ClientFault::NoMemory => ActFault::NoMemory,
            ClientFault::KeyWornOut => ActFault::VersionSpent,
        }
    }
}

impl From<CoordFault> for ActFault {
    ghost from_gives = { λ fault e. e ≡ fault_of_coord fault };

    fn from(fault: CoordFault) -> Self {
        match fault {
            CoordFault::NoMemory => ActFault::NoMemory,
            CoordFault::BallotsSpent => ActFault::BallotsSpent,
        }
    }
}

/// Why an event that names nothing wrongly does not happen.
#[derive(Clone, Copy, Debug, PartialEq, Eq)]
pub(crate) enum LimitFault {
    /// There was no memory.
    NoMemory,
    /// It would pass a limit.
    Limit(Which),
}

impl From<NoMemory> for LimitFault {
    ghost from_gives = { λ _ e. e ≡ LimitOutOfMemory };

    fn from(_: NoMemory) -> Self {
        LimitFault::NoMemory
    }
}

impl From<ActFault> for LimitFault {
    ghost from_gives = { λ fault e. e ≡ fault_of_act fault };

    fn from(fault: ActFault) -> Self {
        match fault {
            ActFault::NoMemory => LimitFault::NoMemory,
            ActFault::VersionSpent => LimitFault::Limit(Which::Version),
            ActFault::BallotsSpent => LimitFault::Limit(Which::Ballots),
        }
    }
}

impl From<LimitFault> for SessionFault {
    ghost from_gives = { λ fault e. e ≡ fault_of_limit fault };

    fn from(fault: LimitFault) -> Self {
        match fault {
            LimitFault::NoMemory => SessionFault::NoMemory,
            LimitFault::Limit(which) => SessionFault::Limit(which),
        }
    }
}
