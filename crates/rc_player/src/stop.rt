// Why the text of a script was not written whole.
ghost use Rattle.std.specs.Prelude.{◌≡◌};
ghost use Rattle.rc_player.specs.declared.stop.Stop.TheVariants.{Failed as SinkFailed, NoMemory as OutOfMemory};

use rc_ids::NoMemory;
use rc_ports::Failed;

/// Why the text of a script was not written whole.
#[derive(Clone, Copy, Debug, PartialEq, Eq)]
pub enum Stop {
    /// The sink failed.
    Failed,
    /// There was no memory.
    NoMemory,
}

impl From<Failed> for Stop {
    ghost from_gives = { λ _ e. e ≡ SinkFailed };

    fn from(_: Failed) -> Self {
        Stop::Failed
    }
}

impl From<NoMemory> for Stop {
    ghost from_gives = { λ _ e. e ≡ OutOfMemory };

    fn from(_: NoMemory) -> Self {
        Stop::NoMemory
    }
}
