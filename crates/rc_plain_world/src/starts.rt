// New nodes with their disks.
ghost use Rattle.std.specs.Prelude.{◌≡◌, ℕ, ◌≤◌, ◌++◌, OnOk, IfOk};
ghost use Rattle.rc_ids.specs.declared.names.NodeId.TheVariants.{Coord as CoordOf, Shard as ShardOf};
ghost use Rattle.rc_plain_world.specs.Starts.{Begins, coord_site, shard_site, coord_sites, shard_sites_of, shard_sites};

use crate::coord_host::CoordHost;
use crate::disk::new_disk;
use crate::shard_host::ShardHost;
use rc_ids::{Cluster, DcId, NoMemory, NodeId, ShardId};
use std::alloc::Global;

/// A new coordinator.
fn new_coord(alloc: Global, cluster: &Cluster, dc: DcId) -> Result<CoordHost, NoMemory>
    ensures site { IfOk result (λ h. h ≡ coord_site cluster.now dc) }
    ensures begins { OnOk result (Begins cluster.now (CoordOf dc)) }
{
    let disk = new_disk(alloc, &NodeId::Coord(dc), cluster)?;
    Ok(CoordHost::new(alloc, disk))
}

/// A new shard server.
fn new_shard(
    alloc: Global,
    cluster: &Cluster,
    dc: DcId,
    shard: ShardId,
) -> Result<ShardHost, NoMemory>
    ensures site { IfOk result (λ h. h ≡ shard_site cluster.now dc shard) }
    ensures begins { OnOk result (Begins cluster.now (ShardOf dc shard)) }
{
    let disk = new_disk(alloc, &NodeId::Shard(dc, shard), cluster)?;
    Ok(ShardHost::new(alloc, disk))
}

/// New coordinators.
pub(crate) fn new_coords(alloc: Global, cluster: &Cluster) -> Result<Vec<CoordHost>, NoMemory>
    ensures sites { IfOk result (λ hosts. hosts.items ≡ coord_sites cluster.now cluster.now.dcs) }
    ensures begin { OnOk result ((d : ℕ) → 1 ≤ d → d ≤ cluster.now.dcs → Begins cluster.now (CoordOf d)) }
{
    let dcs = cluster.dcs();
    let mut hosts = Vec::new(alloc);
    for count in 0..dcs {
        hosts.push(new_coord(alloc, cluster, DcId(count + 1))?)?;
    }
    Ok(hosts)
}

/// Adds the new shard servers of a datacentre.
fn push_shards(
    alloc: Global,
    cluster: &Cluster,
    dc: DcId,
    hosts: &mut Vec<ShardHost>,
) -> Result<(), NoMemory>
    ensures sites { OnOk result (hosts.new.items ≡ hosts.old.items ++ shard_sites_of cluster.now cluster.now.shards dc) }
    ensures begin { OnOk result ((s : ℕ) → 1 ≤ s → s ≤ cluster.now.shards → Begins cluster.now (ShardOf dc s)) }
{
    let shards = cluster.shards();
    for count in 0..shards {
        hosts.push(new_shard(alloc, cluster, dc, ShardId(count + 1))?)?;
    }
    Ok(())
}

/// New shard servers.
pub(crate) fn new_shards(alloc: Global, cluster: &Cluster) -> Result<Vec<ShardHost>, NoMemory>
    ensures sites { IfOk result (λ hosts. hosts.items ≡ shard_sites cluster.now cluster.now.dcs) }
    ensures begin { OnOk result ((d s : ℕ) → 1 ≤ d → d ≤ cluster.now.dcs → 1 ≤ s → s ≤ cluster.now.shards → Begins cluster.now (ShardOf d s)) }
{
    let dcs = cluster.dcs();
    let mut hosts = Vec::new(alloc);
    for count in 0..dcs {
        push_shards(alloc, cluster, DcId(count + 1), &mut hosts)?;
    }
    Ok(hosts)
}
