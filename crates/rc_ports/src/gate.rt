// Where steps of threads may be held up.
use rc_ids::{Key, NodeId, TxId};

/// What is called before steps and polls of threads. A test may hold a thread up in it.
pub trait Gate: Sync {
    /// Called before a node handles a message that it took.
    fn before_step(&self, node: NodeId);

    /// Called at the beginning of each look of a majority read for its next grant.
    fn before_poll(&self, tx: TxId, key: &Key);
}

/// Holds no thread up.
#[derive(Clone, Copy, Debug, PartialEq, Eq)]
pub struct OpenGate;

impl Gate for OpenGate {
    fn before_step(&self, _node: NodeId) {}

    fn before_poll(&self, _tx: TxId, _key: &Key) {}
}
