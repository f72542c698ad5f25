//! The version and the value of each key of a shard, of which the newest wins.
#![tactic(auto)]

mod headed;
mod page;
mod pages;
mod places;
mod rows;
mod spares;
#[cfg(test)]
mod tests;
mod versions;

pub use headed::HeadedKey;
pub use rows::Rows;
pub use versions::Versions;
