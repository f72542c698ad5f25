//! The messages that were sent, and which of them are pending.
#![tactic(auto)]

mod fault;
mod marks;
mod net;
mod parcel;
#[cfg(test)]
mod tests;

pub use fault::NetFault;
pub use net::{Net, Sent, same_party};
