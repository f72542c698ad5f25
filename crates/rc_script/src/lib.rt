//! The script: commands, one on a line, read from bytes.
#![tactic(auto)]

mod command;
mod fault;
mod line;
mod numbers;
mod parsing;
mod reading;
mod script;
mod stage;
mod verb;
pub mod words;

pub use command::{Command, Numbers, Weights};
pub use fault::ScriptFault;
pub use parsing::parse;
pub use script::{NumberedCommand, Script};

#[cfg(test)]
mod tests;
