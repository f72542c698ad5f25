// A coordinator and a shard server of a world begin at their places.
ghost use Rattle.std.specs.Prelude.{◌≡◌, ◌≢◌, ◌≤◌, ◌++◌, ◌+◌, [], ◌∷◌, ℕ, List, false, true, length, take, OnOk, OnErr, IfErr, IfSome, IsTrue};
ghost use Rattle.std.specs.List.{list_all};
ghost use Rattle.rc_ids.specs.Cluster.{is_dc};
ghost use Rattle.rc_ids.specs.declared.names.NodeId.{NodeId as NodeName};
ghost use Rattle.rc_ids.specs.declared.names.NodeId.TheVariants.{Coord as Coordinator, Shard as ShardServer};
ghost use Rattle.rc_runs.specs.Stored.{Place, begins_node};
ghost use Rattle.rc_devices.specs.Disks.{IsKept};
ghost use Rattle.rc_disk.specs.declared.power.Power.TheVariants.{On};
ghost use Rattle.rc_begin.specs.Wells.{is_well};
ghost use Rattle.rc_begin.specs.Places.{coord_name, shard_name};
ghost use Rattle.rc_begin.specs.Hosts.{Runs, run_at, CoordsAreTold, ShardsAreTold};
ghost use Rattle.rc_begin.specs.Hosts.{views};
ghost use Rattle.rc_begin.specs.Beginnings.{IsStartOf, BeginRefused};
ghost use Rattle.rc_begin.specs.Gatherings.{AreGathered};
ghost use Rattle.rc_begin.specs.Starts.{AllAreTold};

use crate::WorldFault;
use crate::gathering::begin_next;
use crate::hosts::{CoordHost, ShardHost};
use rc_coord::Coord;
use rc_disk::{Disk, Farm};
use rc_ids::{Blobs, Cluster, DcId, NodeId, ShardId};
use rc_locks::Locks;
use rc_log::{Journal, Log};
use rc_shard::Shard;
use std::alloc::Global;

/// The nodes of a world that have begun, on their hosts, and the records that their logs had.
#[derive(Drop)]
pub struct Gathered<F: Farm> {
    pub coords: Vec<CoordHost<F::D>>,
    pub coord_logs: Vec<Blobs>,
    pub shards: Vec<ShardHost<F::D>>,
    pub shard_logs: Vec<Blobs>,
}

/// The coordinator of a datacentre begins at the next place. At each fault the farm has its disk back, and no host was added.
pub(crate) fn begin_coord<F: Farm>(
    alloc: Global,
    farm: &mut F,
    cluster: &Cluster,
    dc: DcId,
    all: &mut Gathered<F>,
) -> Result<(), WorldFault>
    requires dc { IsTrue (is_dc cluster.now dc) }
    requires free { F.is_lent farm.old (Coordinator dc) ≡ false }
    requires well { IsTrue (list_all (is_well (λ n. n.stopped)) all.old.coords.items) }
    ensures ok { (r : Runs) (p : Place) (nodes : List NodeName) → r.cluster ≡ cluster.now → coord_name (length all.old.coords.items) ≡ Coordinator dc → p.lend_fails (Coordinator dc) ≡ false → IsStartOf p (run_at r (Coordinator dc)) (F.stands farm.old (Coordinator dc))
        → AreGathered (views ⟦<Log<F::D> as Journal>⟧.state F.D.told F.D.content F.D.power) r p nodes all.old.coords.items all.old.coord_logs.items all.old.shards.items all.old.shard_logs.items → CoordsAreTold (views ⟦<Log<F::D> as Journal>⟧.state F.D.told F.D.content F.D.power).coords r all.new.coords.items
        → OnOk result (AreGathered (views ⟦<Log<F::D> as Journal>⟧.state F.D.told F.D.content F.D.power) r p (nodes ++ Coordinator dc ∷ []) all.new.coords.items all.new.coord_logs.items all.new.shards.items all.new.shard_logs.items) }
    ensures err { (r : Runs) (p : Place) → r.cluster ≡ cluster.now → p.lend_fails (Coordinator dc) ≡ false → IsStartOf p (run_at r (Coordinator dc)) (F.stands farm.old (Coordinator dc))
        → IfErr result (λ fault. IfSome (F.stands farm.new (Coordinator dc)).told (λ t. IsKept t (r.ended (Coordinator dc))) → BeginRefused (F.faults farm.old) (F.faults farm.new) (begins_node p r.cluster (Coordinator dc)) fault) }
    ensures grew { (r : Runs) → r.cluster ≡ cluster.now → coord_name (length all.old.coords.items) ≡ Coordinator dc → AllAreTold (views ⟦<Log<F::D> as Journal>⟧.state F.D.told F.D.content F.D.power) r (F.is_lent farm.new) (F.stands farm.new) all.new.coords.items all.new.shards.items → AllAreTold (views ⟦<Log<F::D> as Journal>⟧.state F.D.told F.D.content F.D.power) r (F.is_lent farm.old) (F.stands farm.old) all.old.coords.items all.old.shards.items }
    ensures on { OnErr result ((F.stands farm.old (Coordinator dc)).power ≡ On → (F.stands farm.new (Coordinator dc)).power ≡ On) }
    ensures more { OnOk result (length all.new.coords.items ≡ length all.old.coords.items + 1) }
    ensures front { OnOk result (take (length all.old.coords.items) all.new.coords.items ≡ all.old.coords.items) }
    ensures kept { OnErr result (all.new.coords.items ≡ all.old.coords.items) }
    ensures rest { all.new.shards.items ≡ all.old.shards.items }
    ensures rest_logs { all.new.shard_logs.items ≡ all.old.shard_logs.items }
    ensures well { IsTrue (list_all (is_well (λ n. n.stopped)) all.new.coords.items) }
    ensures lent { OnOk result (F.is_lent farm.new (Coordinator dc) ≡ true) }
    ensures not_lent { OnErr result (F.is_lent farm.new (Coordinator dc) ≡ false) }
    ensures others_lent { (n : NodeName) → n ≢ Coordinator dc → F.is_lent farm.new n ≡ F.is_lent farm.old n }
    ensures others { (n : NodeName) → n ≢ Coordinator dc → F.stands farm.new n ≡ F.stands farm.old n }
    ensures start { (n : NodeName) → F.start farm.new n ≡ F.start farm.old n }
    ensures later { F.faults farm.old ≤ F.faults farm.new }
{
    let node = NodeId::Coord(dc);
    begin_next::<F, Coord<Log<F::D>>>(
        alloc,
        farm,
        &node,
        cluster,
        &mut all.coords,
        &mut all.coord_logs,
    )
}

/// A shard server begins at the next place. At each fault the farm has its disk back, and no host was added.
pub(crate) fn begin_shard<F: Farm>(
    alloc: Global,
    farm: &mut F,
    cluster: &Cluster,
    dc: DcId,
    shard: ShardId,
    all: &mut Gathered<F>,
) -> Result<(), WorldFault>
    requires free { F.is_lent farm.old (ShardServer dc shard) ≡ false }
    requires well { IsTrue (list_all (is_well (λ n. n.stopped)) all.old.shards.items) }
    ensures ok { (r : Runs) (p : Place) (nodes : List NodeName) → r.cluster ≡ cluster.now → shard_name r.cluster (length all.old.shards.items) ≡ ShardServer dc shard → p.lend_fails (ShardServer dc shard) ≡ false → IsStartOf p (run_at r (ShardServer dc shard)) (F.stands farm.old (ShardServer dc shard))
        → AreGathered (views ⟦<Log<F::D> as Journal>⟧.state F.D.told F.D.content F.D.power) r p nodes all.old.coords.items all.old.coord_logs.items all.old.shards.items all.old.shard_logs.items → ShardsAreTold (views ⟦<Log<F::D> as Journal>⟧.state F.D.told F.D.content F.D.power).shards r all.new.shards.items
        → OnOk result (AreGathered (views ⟦<Log<F::D> as Journal>⟧.state F.D.told F.D.content F.D.power) r p (nodes ++ ShardServer dc shard ∷ []) all.new.coords.items all.new.coord_logs.items all.new.shards.items all.new.shard_logs.items) }
    ensures err { (r : Runs) (p : Place) → r.cluster ≡ cluster.now → p.lend_fails (ShardServer dc shard) ≡ false → IsStartOf p (run_at r (ShardServer dc shard)) (F.stands farm.old (ShardServer dc shard))
        → IfErr result (λ fault. IfSome (F.stands farm.new (ShardServer dc shard)).told (λ t. IsKept t (r.ended (ShardServer dc shard))) → BeginRefused (F.faults farm.old) (F.faults farm.new) (begins_node p r.cluster (ShardServer dc shard)) fault) }
    ensures grew { (r : Runs) → r.cluster ≡ cluster.now → shard_name r.cluster (length all.old.shards.items) ≡ ShardServer dc shard → AllAreTold (views ⟦<Log<F::D> as Journal>⟧.state F.D.told F.D.content F.D.power) r (F.is_lent farm.new) (F.stands farm.new) all.new.coords.items all.new.shards.items → AllAreTold (views ⟦<Log<F::D> as Journal>⟧.state F.D.told F.D.content F.D.power) r (F.is_lent farm.old) (F.stands farm.old) all.old.coords.items all.old.shards.items }
    ensures on { OnErr result ((F.stands farm.old (ShardServer dc shard)).power ≡ On → (F.stands farm.new (ShardServer dc shard)).power ≡ On) }
    ensures more { OnOk result (length all.new.shards.items ≡ length all.old.shards.items + 1) }
    ensures front { OnOk result (take (length all.old.shards.items) all.new.shards.items ≡ all.old.shards.items) }
    ensures kept { OnErr result (all.new.shards.items ≡ all.old.shards.items) }
    ensures rest { all.new.coords.items ≡ all.old.coords.items }
    ensures rest_logs { all.new.coord_logs.items ≡ all.old.coord_logs.items }
    ensures well { IsTrue (list_all (is_well (λ n. n.stopped)) all.new.shards.items) }
    ensures lent { OnOk result (F.is_lent farm.new (ShardServer dc shard) ≡ true) }
    ensures not_lent { OnErr result (F.is_lent farm.new (ShardServer dc shard) ≡ false) }
    ensures others_lent { (n : NodeName) → n ≢ ShardServer dc shard → F.is_lent farm.new n ≡ F.is_lent farm.old n }
    ensures others { (n : NodeName) → n ≢ ShardServer dc shard → F.stands farm.new n ≡ F.stands farm.old n }
    ensures start { (n : NodeName) → F.start farm.new n ≡ F.start farm.old n }
    ensures later { F.faults farm.old ≤ F.faults farm.new }
{
    let node = NodeId::Shard(dc, shard);
    begin_next::<F, Shard<Log<F::D>, Locks>>(
        alloc,
        farm,
        &node,
        cluster,
        &mut all.shards,
        &mut all.shard_logs,
    )
}
