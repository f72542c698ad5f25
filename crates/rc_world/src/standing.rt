// Which nodes are up.
ghost use Rattle.std.specs.Prelude.{◌≡◌, false, Some, None, OnOk, IfErr, if◌then◌else◌};
ghost use Rattle.rc_ids.specs.Cluster.{is_dc};
ghost use Rattle.rc_protocol.specs.Nodes.{coord_index, shard_index};
ghost use Rattle.rc_host.specs.Hosts.{is_up as is_host_up};
ghost use Rattle.rc_runs.specs.Session.{Session};
ghost use Rattle.rc_runs.specs.World.{is_up, is_shard_of as is_of_world};
ghost use Rattle.rc_runs.specs.Refusals.{wants_up};
ghost use Rattle.rc_begin.specs.Hosts.{views};
ghost use Rattle.rc_world.specs.Words.{parts_of};
ghost use Rattle.rc_begin.specs.Hosts.{Runs, is_up_at};
ghost use Rattle.rc_world.specs.Worlds.{IsWorld};

use crate::WorldFault;
use crate::shards::{is_shard_of, place_of};
use crate::world::World;
use rc_begin::{CoordHost, ShardHost};
use rc_disk::{Disk, Farm};
use rc_host::Host;
use rc_ids::{Cluster, DcId, NodeId, ShardId};
use rc_log::{Journal, Log};
use rc_report::Wrong;

/// Whether the node on the host is up.
fn is_host_up<N, J, D>(host: &Host<N, J, D>) -> bool
    ensures { result ≡ is_host_up host.now }
{
    match host {
        Host::Up(_) => true,
        Host::Opened(_, _) => false,
        Host::Down(_) => false,
        Host::Lent => false,
    }
}

/// Whether the coordinator of a datacentre is up.
fn is_coord_up<D: Disk>(cluster: &Cluster, coords: &[CoordHost<D>], dc: DcId) -> bool
    ensures { result ≡ (if is_dc cluster.now dc then is_up_at coords.now (coord_index dc) else false) }
{
    if dc.0 > cluster.dcs() {
        return false;
    }
    match coords.get(dc.0 as usize - 1) {
        None => false,
        Some(host) => is_host_up(host),
    }
}

/// Whether a shard server is up.
fn is_shard_up<D: Disk>(
    cluster: &Cluster,
    shards: &[ShardHost<D>],
    dc: DcId,
    shard: ShardId,
) -> bool
    ensures { result ≡ (if is_of_world cluster.now dc shard then is_up_at shards.now (shard_index cluster.now dc shard) else false) }
{
    if !is_shard_of(cluster, dc, shard) {
        return false;
    }
    match shards.get(place_of(cluster, dc, shard)) {
        None => false,
        Some(host) => is_host_up(host),
    }
}

impl<F: Farm> World<F> {
    /// Whether the node is one of the world and up.
    pub(crate) fn is_up(&self, node: &NodeId) -> bool
        ensures { (r : Runs) (z : Session) → IsWorld (views ⟦<Log<F::D> as Journal>⟧.state F.D.told F.D.content F.D.power) r (parts_of self.now) z → result ≡ is_up z.world.parties node.now }
    {
        match node {
            NodeId::Coord(dc) => is_coord_up(&self.cluster, self.coords.as_slice(), *dc),
            NodeId::Shard(dc, shard) => {
                is_shard_up(&self.cluster, self.shards.as_slice(), *dc, *shard)
            }
        }
    }

    /// Refuses a node that is not up.
    pub(crate) fn wants_up(&self, node: &NodeId) -> Result<(), WorldFault>
        ensures ok { (r : Runs) (z : Session) → IsWorld (views ⟦<Log<F::D> as Journal>⟧.state F.D.told F.D.content F.D.power) r (parts_of self.now) z → OnOk result (wants_up z.world.parties node.now ≡ None) }
        ensures err { (r : Runs) (z : Session) → IsWorld (views ⟦<Log<F::D> as Journal>⟧.state F.D.told F.D.content F.D.power) r (parts_of self.now) z
            → IfErr result (λ fault. (fault ≡ WorldFault.Naming (Wrong.Down node.now)) × (wants_up z.world.parties node.now ≡ Some (Wrong.Down node.now))) }
    {
        if self.is_up(node) {
            Ok(())
        } else {
            Err(WorldFault::Naming(Wrong::Down(*node)))
        }
    }
}
