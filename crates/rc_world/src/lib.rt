//! A world of nodes on their disks, clients and the network between them: one event on all.
#![tactic(auto)]

mod clients;
mod closing;
mod commands;
mod coords;
mod events;
mod mail;
mod nodes;
mod noting;
mod pendings;
mod places;
mod powering;
mod receiving;
mod restarting;
mod rows;
mod sending;
mod shards;
mod showing;
mod shown;
mod standing;
mod starting;
mod stopping;
mod turns;
mod votes;
mod world;

pub use rc_begin::WorldFault;
pub use world::World;
