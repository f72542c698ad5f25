//! The outcomes that a datacentre knows, in the order in which they came, and their pages.
#![tactic(auto)]

mod outcomes;
#[cfg(test)]
mod tests;

pub use outcomes::Outcomes;
