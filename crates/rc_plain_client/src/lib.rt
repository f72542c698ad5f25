//! The rows of a client: it buffers its writes, reads from a quorum and proposes its own commit at ballot 0.
#![tactic(auto)]

mod client;
mod fault;
mod grant;
mod phase;
mod read;
mod sends;
mod slot;
mod slots;

pub use client::Client;
pub use fault::ClientFault;
pub use phase::Phase;
