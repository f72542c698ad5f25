//! What both kinds of node share: why a node did nothing, its records, and its tables by transaction.
#![tactic(auto)]

mod fault;
mod logging;
mod numbered;
#[cfg(test)]
mod tests;

pub use fault::NodeFault;
pub use logging::append;
pub use numbered::Numbered;
