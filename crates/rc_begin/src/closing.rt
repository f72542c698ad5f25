// The farm has the disks of all nodes back.
ghost use Rattle.std.specs.Prelude.{◌≡◌, ◌≢◌, ◌<◌, ◌≤◌, ◌*◌, ℕ, length, false, true, IsTrue};
ghost use Rattle.std.specs.List.{list_all};
ghost use Rattle.rc_ids.specs.declared.names.NodeId.{NodeId as NodeName};
ghost use Rattle.rc_disk.specs.declared.power.Power.TheVariants.{On};
ghost use Rattle.rc_host.specs.AnyNode.{coord_seen, shard_seen};
ghost use Rattle.rc_host.specs.Hosts.{sight};
ghost use Rattle.rc_begin.specs.Wells.{is_well};
ghost use Rattle.rc_begin.specs.Places.{coord_name, shard_name};
ghost use Rattle.rc_begin.specs.Hosts.{Runs, CoordsAreTold, ShardsAreTold};
ghost use Rattle.rc_begin.specs.Starts.{StandsKept};

use crate::gathering::give_back;
use crate::hosts::{CoordHost, ShardHost};
use rc_coord::Coord;
use rc_disk::{Disk, Farm};
use rc_ids::{Cluster, DcId, NodeId, ShardId};
use rc_locks::Locks;
use rc_log::{Journal, Log};
use rc_shard::Shard;

/// The farm has the disks of the coordinators d1, d2 and so on back, with their power on.
pub fn give_coords_back<F: Farm>(farm: &mut F, coords: Vec<CoordHost<F::D>>)
    requires few { length coords.items ≤ 7 }
    requires well { IsTrue (list_all (is_well (λ n. n.stopped)) coords.items) }
    requires lent { (place : ℕ) → place < length coords.items → F.is_lent farm.old (coord_name place) ≡ true }
    ensures lent { (place : ℕ) → place < length coords.items → F.is_lent farm.new (coord_name place) ≡ false }
    ensures told { (r : Runs) → ((place : ℕ) → place < length coords.items → StandsKept r (F.stands farm.new) (coord_name place)) → CoordsAreTold (sight coord_seen ⟦<Log<F::D> as Journal>⟧.state F.D.told F.D.content F.D.power) r coords.items }
    ensures on { (place : ℕ) → place < length coords.items → (F.stands farm.new (coord_name place)).power ≡ On }
    ensures others_lent { (n : NodeName) → ((place : ℕ) → place < length coords.items → n ≢ coord_name place) → F.is_lent farm.new n ≡ F.is_lent farm.old n }
    ensures others { (n : NodeName) → ((place : ℕ) → place < length coords.items → n ≢ coord_name place) → F.stands farm.new n ≡ F.stands farm.old n }
    ensures start { (n : NodeName) → F.start farm.new n ≡ F.start farm.old n }
    ensures faults { F.faults farm.new ≡ F.faults farm.old }
{
    let mut dc = 0;
    for coord in coords {
        dc += 1;
        give_back::<F, Coord<Log<F::D>>>(farm, NodeId::Coord(DcId(dc)), coord);
    }
}

/// The shard server at a place of the order d1.s1, d1.s2 and so on, then those of d2.
fn server_at(cluster: &Cluster, place: usize) -> NodeId
    requires { place < cluster.now.dcs * cluster.now.shards }
    ensures { result ≡ shard_name cluster.now place }
{
    let shards = cluster.shards() as usize;
    let dc = (place / shards) as u8;
    let shard = (place % shards) as u8;
    NodeId::Shard(DcId(dc + 1), ShardId(shard + 1))
}

/// The farm has the disks of the shard servers d1.s1, d1.s2 and so on, then those of d2 and so on back, with their power on.
pub fn give_shards_back<F: Farm>(farm: &mut F, cluster: &Cluster, shards: Vec<ShardHost<F::D>>)
    requires few { length shards.items ≤ cluster.now.dcs * cluster.now.shards }
    requires well { IsTrue (list_all (is_well (λ n. n.stopped)) shards.items) }
    requires lent { (place : ℕ) → place < length shards.items → F.is_lent farm.old (shard_name cluster.now place) ≡ true }
    ensures lent { (place : ℕ) → place < length shards.items → F.is_lent farm.new (shard_name cluster.now place) ≡ false }
    ensures told { (r : Runs) → r.cluster ≡ cluster.now → ((place : ℕ) → place < length shards.items → StandsKept r (F.stands farm.new) (shard_name r.cluster place)) → ShardsAreTold (sight shard_seen ⟦<Log<F::D> as Journal>⟧.state F.D.told F.D.content F.D.power) r shards.items }
    ensures on { (place : ℕ) → place < length shards.items → (F.stands farm.new (shard_name cluster.now place)).power ≡ On }
    ensures others_lent { (n : NodeName) → ((place : ℕ) → place < length shards.items → n ≢ shard_name cluster.now place) → F.is_lent farm.new n ≡ F.is_lent farm.old n }
    ensures others { (n : NodeName) → ((place : ℕ) → place < length shards.items → n ≢ shard_name cluster.now place) → F.stands farm.new n ≡ F.stands farm.old n }
    ensures start { (n : NodeName) → F.start farm.new n ≡ F.start farm.old n }
    ensures faults { F.faults farm.new ≡ F.faults farm.old }
{
    let mut place = 0;
    for host in shards {
        let node = server_at(cluster, place);
        give_back::<F, Shard<Log<F::D>, Locks>>(farm, node, host);
        place += 1;
    }
}
