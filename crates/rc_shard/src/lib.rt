//! A shard server: its tables, its journal, and what it does at each message.
#![tactic(auto)]

mod answering;
mod applying;
mod finishing;
mod grants;
mod handling;
mod home;
mod laws;
mod pages;
mod plan;
mod preparing;
mod reading;
mod rows;
mod settling;
mod shard;
mod starting;
mod tables;

pub use laws::replay_laws;
pub use shard::Shard;
