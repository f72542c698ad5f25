//! The nodes of a world begin, on the disks that a farm lends, and what their logs say together.
#![tactic(auto)]

mod beginning;
mod closing;
mod dcs_begin;
mod fault;
mod gathering;
mod hosts;
mod named;
mod nodes_begin;
mod opening;
mod orders;

pub use closing::{give_coords_back, give_shards_back};
pub use dcs_begin::begin_dc;
pub use fault::WorldFault;
pub use gathering::give_back;
pub use hosts::{CoordHost, ShardHost};
pub use named::names_of_logs;
pub use nodes_begin::Gathered;
pub use opening::begin_all;
pub use orders::order_of_logs;
