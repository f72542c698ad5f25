// What may happen in a world.
use rc_ids::{DcId, Key, NodeId, TxId, Val};

/// One atomic action of one node or client.
#[derive(Drop)]
pub enum Event {
    /// A new client begins a transaction.
    Begin(TxId),
    /// A client asks for a key.
    Read(TxId, Key),
    /// A client buffers a write; a deletion writes the gone value.
    Write(TxId, Key, Val),
    /// A client commits.
    Commit(TxId),
    /// A client drops a read that is under way.
    Cancel(TxId, Key),
    /// A client sends again what it waits for.
    Retry(TxId),
    /// A client is gone from now on.
    Vanish(TxId),
    /// A datacentre's coordinator takes a transaction over.
    Take(DcId, TxId),
    /// A node catches up.
    Catch(NodeId),
    /// A message is delivered, named by its number.
    Deliver(u32),
    /// A pending message is lost.
    Lose(u32),
    /// A node stops between messages.
    Crash(NodeId),
    /// The power of a node's disk is to be cut at its k-th write or sync from now on; `pick` says what that leaves.
    CrashAt { node: NodeId, k: u32, pick: u8 },
    /// A stopped node starts from its log.
    Restart(NodeId),
}
