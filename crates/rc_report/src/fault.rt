// What ends a run of a script early.
use rc_ids::{NodeId, TxId};

/// What a line of a script names wrongly.
#[derive(Clone, Copy, Debug, PartialEq, Eq)]
pub enum Wrong {
    /// The transaction was not begun.
    NotBegun(TxId),
    /// The transaction was begun already.
    BegunTwice(TxId),
    /// The client is gone.
    Vanished(TxId),
    /// The client is past the phase in which it reads, writes and commits.
    NotOpen(TxId),
    /// The transaction has 32 keys, and this would be one more.
    TooManyKeys(TxId),
    /// The node is stopped.
    Down(NodeId),
    /// The node is not stopped.
    Up(NodeId),
    /// No message has the number.
    NotSent(u32),
    /// The message was delivered or lost already.
    NotPending(u32),
}

/// A counted quantity that would pass its limit.
#[derive(Clone, Copy, Debug, PartialEq, Eq)]
pub enum Which {
    /// 1,024 begun transactions.
    Transactions,
    /// 2,000,000 events.
    Events,
    /// 4,000,000 messages sent.
    Messages,
    /// 2^30 bytes in messages.
    MessageBytes,
    /// 2^30 bytes of text.
    TextBytes,
    /// Versions are below 2^62.
    Version,
    /// Ballots are at most 2^31.
    Ballots,
    /// 2^28 bytes in the log of the node, where a head is owed at its opening.
    Log(NodeId),
}

/// What is wrong with a node's log.
#[derive(Clone, Copy, Debug, PartialEq, Eq)]
pub enum LogFault {
    /// No frame can stand at this place.
    Damaged(u64),
    /// The record at this index, counted from 0, is outside the grammar or of the wrong kind.
    BadRecord(u64),
    /// The log is of another world.
    OtherWorld,
}
