//! The names of the store: datacentres, shards, transactions, ballots, versions, keys and values.
#![tactic(auto)]

mod cluster;
mod fault;
mod key;
mod lists;
mod memory;
mod names;
mod numbers;
mod quorum;
mod sends;
mod sets;
#[cfg(test)]
mod tests;
mod texts;
mod val;

pub use cluster::Cluster;
pub use fault::{ClusterFault, TextFault};
pub use key::Key;
pub use lists::{Blob, Blobs, Keys, Text};
pub use memory::NoMemory;
pub use names::{NodeId, Outcome, Party};
pub use numbers::{Ballot, DcId, ShardId, TxId, Version};
pub use quorum::{Quorum, quorum_laws};
pub use sends::{Letter, Sends};
pub use sets::{DcSet, ShardSet};
pub use texts::{check_key, check_text, is_key_byte, is_value_byte};
pub use val::Val;
