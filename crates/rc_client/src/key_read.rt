// The read of a key.
use crate::grants::Grants;
use rc_ids::{Val, Version};

/// How far the read of a key is.
#[derive(Drop)]
pub enum KeyRead {
    /// The key was not read.
    NotRead,
    /// The read is under way: whether a line is printed at its end, and the grants so far.
    UnderWay(bool, Grants),
    /// The version and the value that were read; no value at version 0.
    Complete(Version, Option<Val>),
}
