// What the history of a wire is made of.
use rc_ids::{Party, Sends};

/// How a post ends the step of its party.
#[derive(Clone, Copy, Debug, PartialEq, Eq)]
pub enum StepEnd {
    /// The message that was taken is handled.
    Handled,
    /// The party stopped inside the step.
    Stopped,
    /// The party runs again. `kept`: its log, as it was opened again, holds the record of the step that stopped.
    Restarted { kept: bool },
    /// A client's command, which no message began.
    Idle,
}

/// Why a party halts the wire.
#[derive(Debug, Drop)]
pub enum HaltCause {
    NoMemory,
    /// These messages would have passed the limit.
    WireFull(Sends),
    Farm,
    BallotsSpent,
    VersionSpent,
}

/// What a party did.
#[derive(Debug, Drop)]
pub enum Act {
    /// It took the message of this number.
    Took(u32),
    /// It sent these messages, which ends its step.
    Posted { end: StepEnd, sends: Sends },
    /// It waits; or it has ended for good.
    Rested { ended: bool },
    Halted(HaltCause),
}

/// An entry of the history: what one party did in one turn.
#[derive(Debug, Drop)]
pub struct Turn {
    pub party: Party,
    pub act: Act,
}
