//! Take-overs: what a coordinator proposes at a ballot of its own, by what the datacentres report.
#![tactic(auto)]

mod answers;
mod choice;
mod fault;
mod reports;
mod takeover;
#[cfg(test)]
mod tests;

pub use answers::{Heard, Would};
pub use fault::BallotsSpent;
pub use takeover::{Takeover, takeover_laws};
