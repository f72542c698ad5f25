//! A ticket lock: who draws a ticket waits for its turn, and then has the guarded value to itself.
#![tactic(auto)]

mod lock;
mod rule;
#[cfg(test)]
mod tests;

pub use lock::TicketLock;
pub use rule::{Card, Guarded, Place, View};
