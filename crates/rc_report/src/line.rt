// The kinds of printed lines.
ghost use Rattle.std.specs.Prelude.{◌≡◌};

use crate::{LogFault, Which, Wrong};
use rc_body::Reason;
use rc_ids::{DcId, Key, NodeId, Outcome, TxId, Val, Version};
use rc_msg::Envelope;
use std::marker::Model;

/// Whether a transaction holds a key exclusively.
#[derive(Clone, Copy, Debug, PartialEq, Eq)]
pub enum Hold {
    Free,
    Held,
}

/// Where a transaction without an outcome stands at the end.
#[derive(Clone, Copy, Debug, PartialEq, Eq)]
pub enum Rest {
    /// The client vanished.
    Gone,
    /// The client still waits for a read or its outcome.
    Unknown,
    /// The client's operations ended without a commit.
    Open,
}

/// What is counted in a summary.
#[derive(Clone, Copy, Debug, PartialEq, Eq)]
pub enum Count {
    Transactions,
    Committed,
    Aborted,
    Deliveries,
}

/// Transactions, in order.
#[derive(Drop)]
pub struct Txs {
    items: Vec<TxId>,
}

impl Model for Txs {
    ghost use Rattle.std.specs.Prelude.{List, ℕ};

    ghost Value = { List ℕ };

    ghost view = { λ t. t.items.items };
}

impl Txs {
    /// These transactions.
    pub fn new(items: Vec<TxId>) -> Self
        ensures { result ≡ items.items }
    {
        Txs { items }
    }

    /// The transactions, in order.
    pub fn as_slice(&self) -> &[TxId]
        ensures { result.now ≡ self.now }
    {
        self.items.as_slice()
    }
}

/// A printed line.
#[derive(Drop)]
pub enum Line {
    /// A read is complete; no value at version 0.
    Read(TxId, Key, Version, Option<Val>),
    /// A read of a key that the transaction itself wrote.
    Own(TxId, Key, Val),
    /// A datacentre refused the client's proposal.
    Refused(TxId, DcId, Reason),
    /// The client learned the outcome.
    Learned(TxId, Outcome),
    /// So many messages were delivered until none was pending.
    Settled(u64),
    /// The committed transactions, in the order in which their commit became chosen.
    Order(Txs),
    /// A node stopped.
    Stopped(NodeId),
    /// A node was started again.
    Up(NodeId),
    /// A pending message, with its number.
    Pending(u32, Envelope),
    /// A key at a shard; no value at version 0.
    Row(NodeId, Key, Version, Hold, Option<Val>),
    /// A stopped shard, in place of its rows.
    Down(NodeId),
    /// This line of the script, counted from 1, is outside the grammar.
    Outside(u32),
    /// This line names something wrongly.
    Named(u32, Wrong),
    /// In this line a quantity would pass its limit; of a node's log the node is named in place of the line.
    Limit(u32, Which),
    /// The script has too many bytes.
    ScriptBytes,
    /// The script has too many lines.
    ScriptLines,
    /// In a run without a script a quantity would pass its limit.
    Full(Which),
    /// A node's log is refused.
    Log(NodeId, LogFault),
    /// The workload is refused.
    Workload,
    /// A transaction has no outcome.
    Left(TxId, Rest),
    /// A line of a summary.
    Counted(Count, u64),
}
