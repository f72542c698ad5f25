//! The messages between clients, coordinators and shard servers, and their bytes.
#![tactic(auto)]

mod kinds;
mod messages;
mod msg;
mod outbox;
mod reading;
#[cfg(test)]
mod tests;
mod writing;

pub use messages::Messages;
pub use msg::{Envelope, Msg};
pub use outbox::Outbox;
pub use reading::{decode, message_laws};
pub use writing::encode;
