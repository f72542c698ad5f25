//! The outside of the store: where bytes come from, where they go, what runs threads, and how a run
//! ends.
#![tactic(auto)]

mod beside;
mod failed;
mod front;
mod gate;
mod host;
mod lane;
#[cfg(test)]
mod lane_tests;
mod memory;
mod spawner;
mod status;
mod stream;
mod sure;
#[cfg(test)]
mod tests;
mod whole;
mod word;

pub use failed::Failed;
pub use gate::{Gate, OpenGate};
pub use host::{HostSink, HostSource};
pub use lane::Lane;
pub use memory::{MemSink, MemSource};
pub use spawner::{FailingSpawner, Spawner, ThreadSpawner};
pub use status::Status;
pub use stream::{Sink, Source};
pub use sure::{SureSink, SureSource};
pub use whole::{ReadFault, read_all, write_all};
pub use word::Word;
