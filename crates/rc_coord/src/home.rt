// Which coordinator it is.
ghost use Rattle.std.specs.Prelude.{◌≡◌};
ghost use Rattle.rc_ids.specs.Cluster.{is_dc as is_of_world, is_shard as is_in_world};

use rc_ids::{Cluster, DcId, ShardId};
use std::alloc::Global;

/// The allocator of a coordinator, its world, and the datacentre that it serves.
#[derive(Drop)]
pub(crate) struct Home {
    pub(crate) alloc: Global,
    pub(crate) cluster: Cluster,
    pub(crate) dc: DcId,
}

/// Whether the datacentre is of the world.
pub(crate) fn is_dc(cluster: &Cluster, dc: DcId) -> bool
    ensures { result ≡ is_of_world cluster.now dc }
{
    1 <= dc.0 && dc.0 <= cluster.dcs()
}

/// Whether a datacentre of the world has the shard.
pub(crate) fn is_shard(cluster: &Cluster, shard: ShardId) -> bool
    ensures { result ≡ is_in_world cluster.now shard }
{
    1 <= shard.0 && shard.0 <= cluster.shards()
}
