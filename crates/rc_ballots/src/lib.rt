//! The acceptor of a transaction, and its votes, counted at each ballot.
#![tactic(auto)]

mod acceptor;
mod rows;
mod standings;
mod tally;
#[cfg(test)]
mod tests;

pub use acceptor::Acceptor;
pub use standings::{Standing, Standings};
pub use tally::{Tally, tally_laws};
