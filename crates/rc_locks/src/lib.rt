//! The locks of a shard: who holds a key, who waits for it, and whether a part of a transaction may be prepared.
#![tactic(auto)]

mod answers;
mod cells;
mod checks;
mod entries;
mod flags;
mod frees;
mod halves;
mod indexed;
mod marks;
mod moves;
mod parts;
mod plain;
mod reasons;
mod run;
mod table;
#[cfg(test)]
mod tests;

pub use answers::{Answer, Asked, Freed};
pub use indexed::Locks;
pub use parts::Prepared;
pub use plain::PlainLocks;
pub use run::{Answers, LockAnswer, LockCall, run_locks};
pub use table::LockTable;
