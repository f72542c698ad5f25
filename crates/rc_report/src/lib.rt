//! The printed lines.
#![tactic(auto)]

mod fault;
mod faults;
mod line;
mod lines;
mod messages;
mod piece;
mod reasons;
mod texts;

pub use fault::{LogFault, Which, Wrong};
pub use line::{Count, Hold, Line, Rest, Txs};
pub use lines::Lines;
pub use texts::render;
