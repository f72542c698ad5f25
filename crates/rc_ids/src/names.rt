// Nodes, parties and outcomes.
ghost use Rattle.std.specs.Prelude.{◌≡◌};
ghost use Rattle.rc_ids.specs.Parties.{is_same_node, is_same_party};

use crate::{DcId, ShardId, TxId};

/// A node: the coordinator of a datacentre, or one of its shard servers.
#[derive(Clone, Copy, Debug, PartialEq, Eq, PartialOrd, Ord, Hash)]
pub enum NodeId {
    Coord(DcId),
    Shard(DcId, ShardId),
}

impl NodeId {
    /// Whether both are one node.
    pub fn is(&self, other: &NodeId) -> bool
        ensures { result ≡ is_same_node self.now other.now }
    {
        match self {
            NodeId::Coord(dc) => match other {
                NodeId::Coord(other_dc) => dc == other_dc,
                NodeId::Shard(_, _) => false,
            },
            NodeId::Shard(dc, shard) => match other {
                NodeId::Coord(_) => false,
                NodeId::Shard(other_dc, other_shard) => dc == other_dc && shard == other_shard,
            },
        }
    }
}

/// Who sends and receives messages: a node, or the client of a transaction.
#[derive(Clone, Copy, Debug, PartialEq, Eq, PartialOrd, Ord, Hash)]
pub enum Party {
    Node(NodeId),
    Client(TxId),
}

impl Party {
    /// Whether both are one party.
    pub fn is(&self, other: &Party) -> bool
        ensures { result ≡ is_same_party self.now other.now }
    {
        match self {
            Party::Node(node) => match other {
                Party::Node(other_node) => node.is(other_node),
                Party::Client(_) => false,
            },
            Party::Client(tx) => match other {
                Party::Node(_) => false,
                Party::Client(other_tx) => tx == other_tx,
            },
        }
    }
}

/// How a transaction ended.
#[derive(Clone, Copy, Debug, PartialEq, Eq, PartialOrd, Ord, Hash)]
pub enum Outcome {
    Commit,
    Abort,
}
