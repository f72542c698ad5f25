//! A shard server: what it keeps of its keys and of the transactions that touch them, and what it does at each message.
#![tactic(auto)]

mod durable;
mod entries;
mod finished;
mod grants;
mod log;
mod marks;
mod pages;
mod parts;
mod prepared;
mod reasons;
mod shard;
mod shown;
mod volatile;
mod waiting;

pub use shard::Shard;
