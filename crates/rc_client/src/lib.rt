//! The client of a transaction: it buffers its writes, reads from a quorum and proposes its own commit at ballot 0.
#![tactic(auto)]

mod cancelling;
mod client;
mod committing;
mod fault;
mod granting;
mod grants;
mod hearing;
mod key_read;
mod phase;
mod posting;
mod progress;
mod reading;
mod retrying;
mod slot;
mod slot_list;
mod slots;
mod voting;
mod writing;

pub use client::Client;
pub use fault::ClientFault;
pub use phase::Phase;
