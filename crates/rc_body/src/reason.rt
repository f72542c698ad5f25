// Why a proposal is refused.
ghost use Rattle.std.specs.Prelude.{◌≡◌};

use rc_ids::{Ballot, Key, TxId, Version};

/// Why a shard or a coordinator says no.
#[derive(Debug, Drop)]
pub enum Reason {
    /// Another transaction holds the key.
    Locked(Key, TxId),
    /// A prepare of another transaction took the read lock on the key.
    Lost(Key),
    /// The key has a newer version here.
    Stale(Key, Version),
    /// A higher ballot was promised.
    Promised(Ballot),
}

impl Reason {
    /// A copy of the reason.
    pub fn copy(&self) -> Reason
        ensures { result ≡ self.now }
    {
        match self {
            Reason::Locked(key, holder) => Reason::Locked(key.copy(), *holder),
            Reason::Lost(key) => Reason::Lost(key.copy()),
            Reason::Stale(key, version) => Reason::Stale(key.copy(), *version),
            Reason::Promised(ballot) => Reason::Promised(*ballot),
        }
    }
}
