// Why a node did nothing at a message or a command.
ghost use Rattle.std.specs.Prelude.{◌≡◌};
ghost use Rattle.rc_node.specs.declared.fault.NodeFault.TheVariants.{NoMemory as OutOfMemory};

use rc_ids::NoMemory;

/// Why a node did nothing at a message or a command. Its state and its outbox are as before.
#[derive(Clone, Copy, Debug, PartialEq, Eq)]
pub enum NodeFault {
    /// There was no memory.
    NoMemory,
    /// The journal's disk failed. The node is stopped; its log holds the record or not.
    Failed,
    /// The log would be longer than its limit. The node is stopped.
    Full,
    /// The datacentre has no ballot left for the transaction. Of shard servers this never comes.
    BallotsSpent,
}

impl From<NoMemory> for NodeFault {
    ghost from_gives = { λ _ fault. fault ≡ OutOfMemory };

    fn from(_fault: NoMemory) -> Self {
        NodeFault::NoMemory
    }
}
