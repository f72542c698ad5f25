//! Reads of a key from a quorum of datacentres.
#![tactic(auto)]

mod inbox;
mod left;
mod majority;
mod state;
#[cfg(test)]
mod tests;

pub use inbox::{Inbox, one_wait_more};
pub use majority::MajorityRead;
pub use state::{Grant, ReadDone, ReadState, read_laws};
