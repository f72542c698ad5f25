//! The wire: a network that many threads share, with the history of what was taken and sent.
#![tactic(auto)]

mod fault;
mod history;
mod hub;
mod mail;
#[cfg(test)]
mod pairs;
mod pass;
mod post;
#[cfg(test)]
mod riding;
mod rules;
mod standing;
#[cfg(test)]
mod tests;
mod turn;
mod want;
mod wire;

pub use fault::{PostFault, Taken};
pub use history::History;
pub use pass::{Known, Names, Pass, Passes, WireName};
pub use rules::Rules;
pub use standing::{Desk, Standing};
pub use turn::{Act, HaltCause, StepEnd, Turn};
pub use want::Want;
pub use wire::{Blank, Wire};
