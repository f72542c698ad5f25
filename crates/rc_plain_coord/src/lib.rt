//! The rows of a coordinator: the gather of two-phase commit, the acceptor, the tally of votes, take-overs, and catch-up.
#![tactic(auto)]

mod acceptor;
mod catching;
mod coord;
mod counts;
mod fault;
mod gather;
mod overtaking;
mod places;
mod proposals;
mod replay;
mod rows;
mod sending;
mod takeover;
mod takeovers;
mod volatile;
mod votes;
mod voting;

pub use coord::Coord;
pub use fault::CoordFault;
