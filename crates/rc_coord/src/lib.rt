//! The coordinator of a datacentre: its tables, its journal, and what it does at each message and command.
#![tactic(auto)]

mod accepting;
mod asked;
mod asking;
mod catching;
mod coord;
mod handling;
mod home;
mod laws;
mod learning;
mod overtaking;
mod pages;
mod posting;
mod preparing;
mod promising;
mod proposing;
mod starting;
mod tables;
mod voting;

pub use coord::Coord;
pub use laws::coord_laws;
