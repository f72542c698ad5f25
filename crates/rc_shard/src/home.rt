// Where a shard server stands.
use rc_ids::{Cluster, DcId, ShardId};
use std::alloc::Global;

/// A shard server's cluster, its name in it, and the memory that it takes.
#[derive(Drop)]
pub(crate) struct Home {
    pub(crate) alloc: Global,
    pub(crate) cluster: Cluster,
    pub(crate) dc: DcId,
    pub(crate) shard: ShardId,
}
