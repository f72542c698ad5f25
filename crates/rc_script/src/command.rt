//! The commands of a script.
ghost use Rattle.std.specs.Prelude.{◌≡◌, vec_len};

use rc_ids::{DcId, Key, NodeId, TxId, Val};
use std::marker::Model;

/// The weights that a `world` line gives, one for each datacentre.
#[derive(Debug, Drop)]
pub struct Weights {
    items: Vec<u8>,
}

impl Model for Weights {
    ghost use Rattle.std.specs.Prelude.{List, ℕ};

    ghost Value = { List ℕ };

    ghost view = { λ w. w.items.items };
}

impl Weights {
    /// These weights.
    pub fn new(items: Vec<u8>) -> Self
        ensures { result ≡ items.items }
    {
        Weights { items }
    }

    /// The weights, by datacentre.
    pub fn as_slice(&self) -> &[u8]
        ensures { result.now ≡ self.now }
    {
        self.items.as_slice()
    }

    /// The weights, by datacentre, with their memory.
    pub fn into_vec(self) -> Vec<u8>
        ensures { result.items ≡ self }
    {
        self.items
    }
}

/// The numbers of the messages that a line names.
#[derive(Debug, Drop)]
pub struct Numbers {
    items: Vec<u32>,
}

impl Model for Numbers {
    ghost use Rattle.std.specs.Prelude.{List, ℕ};

    ghost Value = { List ℕ };

    ghost view = { λ n. n.items.items };
}

impl Numbers {
    /// These numbers.
    pub fn new(items: Vec<u32>) -> Self
        ensures { result ≡ items.items }
    {
        Numbers { items }
    }

    /// The numbers, in the order of the line.
    pub fn as_slice(&self) -> &[u32]
        ensures { result.now ≡ self.now }
    {
        self.items.as_slice()
    }
}

/// What one line of a script asks for.
#[derive(Debug, Drop)]
pub enum Command {
    /// Makes the nodes. Without weights all are 1.
    World {
        dcs: u8,
        shards: u8,
        weights: Option<Weights>,
    },
    /// The next split key.
    Split(Key),
    /// A new client.
    Begin(TxId),
    /// The client asks for the key, or prints at once what it has.
    Read(TxId, Key),
    /// The client buffers the value.
    Write(TxId, Key, Val),
    /// The client buffers the deletion of the key.
    Delete(TxId, Key),
    /// The client reads what it wrote and did not read, then proposes.
    Commit(TxId),
    /// Drops a read that is under way.
    Cancel(TxId, Key),
    /// Sends again what the client waits for.
    Retry(TxId),
    /// The client is gone.
    Vanish(TxId),
    /// Delivers the oldest pending message so many times, or until none is pending.
    Step(u32),
    /// Delivers the oldest pending message until none is pending.
    Settle,
    /// Delivers each of these messages in turn.
    Deliver(Numbers),
    /// Loses each of these messages in turn.
    Lose(Numbers),
    /// Stops the node between messages.
    Crash(NodeId),
    /// Cuts the node's power at its disk's write or sync of this number from now on.
    CrashAt {
        node: NodeId,
        call: u32,
        pick: u8,
    },
    /// Starts the node from its log.
    Restart(NodeId),
    /// The datacentre takes the transaction over.
    Take(DcId, TxId),
    /// The node catches up.
    Catch(NodeId),
    /// Prints the pending messages.
    Pending,
    /// Prints the rows of the datacentre's shards.
    Show(DcId),
    /// Prints the committed transactions.
    Order,
}
