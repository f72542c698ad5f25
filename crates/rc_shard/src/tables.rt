// What a shard server has beside its journal.
ghost use Rattle.std.specs.Prelude.{◌≡◌, []};
ghost use Rattle.rc_locks.specs.LockSets.{no_locks};

use rc_ids::Outcome;
use rc_locks::LockTable;
use rc_node::Numbered;
use rc_versions::Versions;
use std::alloc::Global;

/// The rows, the locks, the outcomes of finished transactions, and how far the coordinator's list of outcomes was caught up with.
#[derive(Drop)]
pub(crate) struct Tables<L: LockTable> {
    pub(crate) versions: Versions,
    pub(crate) locks: L,
    pub(crate) finished: Numbered<Outcome>,
    pub(crate) place: u32,
}

impl<L: LockTable> Tables<L> {
    /// Nothing yet.
    pub(crate) fn new(alloc: Global) -> Tables<L>
        ensures rows { result.versions.rows ≡ [] }
        ensures locks { L.state result.locks ≡ no_locks }
        ensures finished { result.finished.table ≡ [] }
        ensures place { result.place ≡ 0 }
    {
        Tables {
            versions: Versions::new(alloc),
            locks: L::new(alloc),
            finished: Numbered::new(alloc),
            place: 0,
        }
    }
}
