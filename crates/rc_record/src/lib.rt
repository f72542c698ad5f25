//! What nodes write to their logs, and what a log gives back.
#![tactic(auto)]

mod accepted;
mod coord;
mod fault;
mod finished;
mod head;
mod kinds;
mod outcomes;
mod promises;
mod reading;
mod record;
mod replay;
mod rows;
mod shard;
#[cfg(test)]
mod tests;
mod unread;
mod writing;

pub use accepted::Acceptances;
pub use coord::CoordDurable;
pub use fault::ReplayFault;
pub use finished::FinishedTxs;
pub use head::Head;
pub use outcomes::Outcomes;
pub use promises::Promises;
pub use reading::{decode, record_laws};
pub use record::Record;
pub use replay::{newest_head, replay_coord, replay_shard};
pub use rows::Rows;
pub use shard::{ShardDurable, order_laws};
pub use writing::{encode, encode_finished, encode_prepared};
