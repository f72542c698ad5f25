//! Logs: lists of records on a disk, kept over crashes at any moment.
#![tactic(auto)]

mod fault;
mod journal;
mod list;
mod log;
mod opening;
mod reading;
#[cfg(test)]
mod tests;
mod writing;

pub use fault::{AppendFault, OpenFault};
pub use journal::Journal;
pub use list::ListJournal;
pub use log::Log;
