// What the calls of a lock table answer.
use rc_body::Reason;
use rc_ids::{Key, TxId};

/// What becomes of a read.
#[derive(Clone, Copy, Debug, PartialEq, Eq)]
pub enum Asked {
    /// It has a plain lock.
    Granted,
    /// Another transaction holds the key exclusively; the read waits.
    Waits,
    /// The transaction is prepared here, or lost its lock on the key.
    Ignored,
}

/// Whether a part may be prepared.
#[derive(Debug, Drop)]
pub enum Answer {
    Yes,
    /// Why not.
    No(Reason),
}

/// The reads that a finish granted, in order of arrival.
pub type Freed = Vec<(Key, TxId)>;
