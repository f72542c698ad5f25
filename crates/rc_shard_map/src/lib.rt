//! The shard of each key.
#![tactic(auto)]

mod map;
#[cfg(test)]
mod tests;

pub use map::ShardMap;
