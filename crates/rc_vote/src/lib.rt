//! The votes of a datacentre's shards on a transaction, gathered.
#![tactic(auto)]

mod gather;
mod left;
#[cfg(test)]
mod tests;

pub use gather::{Gather, Gathered, gather_laws};
