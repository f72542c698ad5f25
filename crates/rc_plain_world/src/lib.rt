//! A world of nodes with their disks, clients and the network between them: one event on all, and the lines of a script.
#![tactic(auto)]

mod clients;
mod coord_host;
mod coords;
mod disk;
mod fault;
mod lengths;
mod lines;
mod network;
mod order;
mod parties;
mod session;
mod shard_host;
mod shards;
mod starts;
mod world;

pub use fault::SessionFault;
pub use session::Session;
