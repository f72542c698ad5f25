// Why a world refuses an event.
use rc_ids::{NoMemory, NodeId};
use rc_report::{LogFault, Which, Wrong};
use thiserror::Error;

/// Why a world could not be made, or an event did not happen.
#[derive(Clone, Copy, Debug, PartialEq, Eq, Error)]
pub enum WorldFault {
    /// There was no memory. All is as before, unless a node stopped inside the event and its log could not be read for want of memory:
    /// then the world is spent.
    #[error("out of memory")]
    NoMemory,
    /// A disk could not be had, or failed as a log was created, headed or opened. The world is spent.
    #[error("a disk failed")]
    Farm,
    /// A log cannot be read. The world is spent.
    #[error("the log of a node is refused")]
    Log { node: NodeId, fault: LogFault },
    /// The event would pass a limit. The world is spent.
    #[error("a limit is met")]
    Limit(Which),
    /// The event names something wrongly. All is as before.
    #[error("a name is wrong")]
    Naming(Wrong),
}

impl From<NoMemory> for WorldFault {
    ghost use Rattle.std.specs.Prelude.{◌≡◌};
    ghost use Rattle.rc_begin.specs.declared.fault.WorldFault.TheVariants.{NoMemory as OutOfMemory};

    ghost from_gives = { λ _ e. e ≡ OutOfMemory };

    fn from(_error: NoMemory) -> Self {
        WorldFault::NoMemory
    }
}
