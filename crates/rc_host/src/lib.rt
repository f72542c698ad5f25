//! Hosts: a node and its disk, whether the node is up or down.
#![tactic(auto)]

mod begins;
mod coord;
mod host;
mod node;
mod rejoins;
mod restarts;
mod shard;
mod stops;

pub use begins::{BeginFault, begin};
pub use host::{Course, Host, HostFault, MOST_LOG_BYTES, act};
pub use node::{Cause, Node};
pub use rejoins::rejoin;
pub use restarts::{RestartFault, restart};
pub use stops::{arm, crash, into_disk};
