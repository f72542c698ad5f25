//! The order of the committed transactions, kept from the votes as they are made.
#![tactic(auto)]

mod order;
#[cfg(test)]
mod tests;

pub use order::{Order, count_laws, log_laws};
