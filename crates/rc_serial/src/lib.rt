//! One map, to which committed transactions are applied in an order, and the first read that it does not explain.
#![tactic(auto)]

mod committed;
mod one_map;
#[cfg(test)]
mod tests;
mod versions;

pub use committed::{Committed, FirstWrong};
pub use one_map::{MapRows, explain};
