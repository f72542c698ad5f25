//! What a coordinator keeps of open transactions, seen as the step table's tables.
#![tactic(auto)]

mod gathers;
mod places;
mod takeovers;
#[cfg(test)]
mod tests;
mod votes;

pub use gathers::{Asked, Gathers};
pub use places::Places;
pub use takeovers::Takeovers;
pub use votes::Votes;
