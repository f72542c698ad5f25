// What is explained, and what is wrong in it.
use rc_body::Body;
use rc_ids::{Key, TxId, Version};

/// A committed transaction, with the keys that it read and wrote.
#[derive(Drop)]
pub struct Committed {
    pub tx: TxId,
    pub body: Body,
}

/// The first read that the one map does not give: the place of its transaction in the order, counted from 0, the key, the version
/// that the map has there, and the one that was read.
#[derive(Debug, Drop)]
pub struct FirstWrong {
    pub place: u32,
    pub key: Key,
    pub expected: Version,
    pub read: Version,
}
