// The nodes of a datacentre begin, one after another.
ghost use Rattle.std.specs.Prelude.{◌≡◌, ◌≢◌, ◌≤◌, ◌+◌, ◌-◌, ◌*◌, ◌++◌, ℕ, List, length, take, false, nat_lt, OnOk, IfErr, IsTrue};
ghost use Rattle.std.specs.List.{list_all};
ghost use Rattle.rc_ids.specs.Cluster.{is_dc, is_shard};
ghost use Rattle.rc_ids.specs.declared.names.NodeId.{NodeId as NodeName};
ghost use Rattle.rc_ids.specs.declared.names.NodeId.TheVariants.{Coord as Coordinator, Shard as ShardServer};
ghost use Rattle.rc_runs.specs.Stored.{Place, nodes_of_dc, begins_all};
ghost use Rattle.rc_disk.specs.declared.power.Power.TheVariants.{On};
ghost use Rattle.rc_begin.specs.Beginnings.{BeginRefused};
ghost use Rattle.rc_begin.specs.Starts.{AllAreTold};
ghost use Rattle.rc_begin.specs.Wells.{is_well};
ghost use Rattle.rc_begin.specs.Places.{coord_name};
ghost use Rattle.rc_begin.specs.Hosts.{Runs, CoordsAreTold, ShardsAreTold};
ghost use Rattle.rc_begin.specs.Hosts.{views};
ghost use Rattle.rc_begin.specs.Gatherings.{AreGathered, IsLendable, are_lent, servers};

use crate::WorldFault;
use crate::nodes_begin::{Gathered, begin_coord, begin_shard};
use rc_disk::{Disk, Farm};
use rc_ids::{Cluster, DcId, ShardId};
use rc_log::{Journal, Log};
use std::alloc::Global;

/// The shard servers of a datacentre begin, one after another. At a fault the farm has the disk back at which it came, and those that began
/// before are on their hosts.
fn begin_shards<F: Farm>(
    alloc: Global,
    farm: &mut F,
    cluster: &Cluster,
    dc: DcId,
    all: &mut Gathered<F>,
) -> Result<(), WorldFault>
    requires dc { IsTrue (is_dc cluster.now dc) }
    requires free { (sh : ℕ) → F.is_lent farm.old (ShardServer dc sh) ≡ false }
    requires well { IsTrue (list_all (is_well (λ n. n.stopped)) all.old.shards.items) }
    ensures ok { (r : Runs) (p : Place) (nodes : List NodeName) → r.cluster ≡ cluster.now → length all.old.shards.items ≡ (dc - 1) * cluster.now.shards
        → ((sh : ℕ) → IsTrue (is_shard cluster.now sh) → IsLendable p r (F.stands farm.old) (ShardServer dc sh))
        → AreGathered (views ⟦<Log<F::D> as Journal>⟧.state F.D.told F.D.content F.D.power) r p nodes all.old.coords.items all.old.coord_logs.items all.old.shards.items all.old.shard_logs.items → ShardsAreTold (views ⟦<Log<F::D> as Journal>⟧.state F.D.told F.D.content F.D.power).shards r all.new.shards.items
        → OnOk result (AreGathered (views ⟦<Log<F::D> as Journal>⟧.state F.D.told F.D.content F.D.power) r p (nodes ++ servers dc cluster.now.shards) all.new.coords.items all.new.coord_logs.items all.new.shards.items all.new.shard_logs.items) }
    ensures err { (r : Runs) (p : Place) (nodes : List NodeName) → r.cluster ≡ cluster.now → length all.old.shards.items ≡ (dc - 1) * cluster.now.shards
        → ((sh : ℕ) → IsTrue (is_shard cluster.now sh) → IsLendable p r (F.stands farm.old) (ShardServer dc sh))
        → AreGathered (views ⟦<Log<F::D> as Journal>⟧.state F.D.told F.D.content F.D.power) r p nodes all.old.coords.items all.old.coord_logs.items all.old.shards.items all.old.shard_logs.items → AllAreTold (views ⟦<Log<F::D> as Journal>⟧.state F.D.told F.D.content F.D.power) r (F.is_lent farm.new) (F.stands farm.new) all.new.coords.items all.new.shards.items
        → IfErr result (λ fault. BeginRefused (F.faults farm.old) (F.faults farm.new) (begins_all p r.cluster (nodes ++ servers dc cluster.now.shards)) fault) }
    ensures grew { (r : Runs) → r.cluster ≡ cluster.now → length all.old.shards.items ≡ (dc - 1) * cluster.now.shards → AllAreTold (views ⟦<Log<F::D> as Journal>⟧.state F.D.told F.D.content F.D.power) r (F.is_lent farm.new) (F.stands farm.new) all.new.coords.items all.new.shards.items → AllAreTold (views ⟦<Log<F::D> as Journal>⟧.state F.D.told F.D.content F.D.power) r (F.is_lent farm.old) (F.stands farm.old) all.old.coords.items all.old.shards.items }
    ensures on { (n : NodeName) → F.is_lent farm.new n ≡ false → (F.stands farm.old n).power ≡ On → (F.stands farm.new n).power ≡ On }
    ensures rest { all.new.coords.items ≡ all.old.coords.items }
    ensures rest_logs { all.new.coord_logs.items ≡ all.old.coord_logs.items }
    ensures more { OnOk result (length all.new.shards.items ≡ length all.old.shards.items + cluster.now.shards) }
    ensures few { length all.new.shards.items ≤ length all.old.shards.items + cluster.now.shards }
    ensures many { length all.old.shards.items ≤ length all.new.shards.items }
    ensures front { take (length all.old.shards.items) all.new.shards.items ≡ all.old.shards.items }
    ensures well { IsTrue (list_all (is_well (λ n. n.stopped)) all.new.shards.items) }
    ensures lent { (sh : ℕ) → F.is_lent farm.new (ShardServer dc sh) ≡ are_lent (length all.new.shards.items - length all.old.shards.items) sh }
    ensures others_lent { (n : NodeName) → ((sh : ℕ) → n ≢ ShardServer dc sh) → F.is_lent farm.new n ≡ F.is_lent farm.old n }
    ensures others { (n : NodeName) → ((sh : ℕ) → IsTrue (is_shard cluster.now sh) → n ≢ ShardServer dc sh) → F.stands farm.new n ≡ F.stands farm.old n }
    ensures start { (n : NodeName) → F.start farm.new n ≡ F.start farm.old n }
    ensures later { F.faults farm.old ≤ F.faults farm.new }
{
    for count in 0..cluster.shards() {
        begin_shard(alloc, farm, cluster, dc, ShardId(count + 1), all)?;
    }
    Ok(())
}

/// The nodes of a datacentre begin, first its coordinator. At a fault the farm has the disk back at which it came, and those that began before
/// are on their hosts.
pub fn begin_dc<F: Farm>(
    alloc: Global,
    farm: &mut F,
    cluster: &Cluster,
    dc: DcId,
    all: &mut Gathered<F>,
) -> Result<(), WorldFault>
    requires dc { IsTrue (is_dc cluster.now dc) }
    requires free { F.is_lent farm.old (Coordinator dc) ≡ false }
    requires free_shards { (sh : ℕ) → F.is_lent farm.old (ShardServer dc sh) ≡ false }
    requires well { IsTrue (list_all (is_well (λ n. n.stopped)) all.old.coords.items) }
    requires well_shards { IsTrue (list_all (is_well (λ n. n.stopped)) all.old.shards.items) }
    ensures ok { (r : Runs) (p : Place) (nodes : List NodeName) → r.cluster ≡ cluster.now → coord_name (length all.old.coords.items) ≡ Coordinator dc → length all.old.shards.items ≡ (dc - 1) * cluster.now.shards
        → IsLendable p r (F.stands farm.old) (Coordinator dc) → ((sh : ℕ) → IsTrue (is_shard cluster.now sh) → IsLendable p r (F.stands farm.old) (ShardServer dc sh))
        → AreGathered (views ⟦<Log<F::D> as Journal>⟧.state F.D.told F.D.content F.D.power) r p nodes all.old.coords.items all.old.coord_logs.items all.old.shards.items all.old.shard_logs.items
        → CoordsAreTold (views ⟦<Log<F::D> as Journal>⟧.state F.D.told F.D.content F.D.power).coords r all.new.coords.items → ShardsAreTold (views ⟦<Log<F::D> as Journal>⟧.state F.D.told F.D.content F.D.power).shards r all.new.shards.items
        → OnOk result (AreGathered (views ⟦<Log<F::D> as Journal>⟧.state F.D.told F.D.content F.D.power) r p (nodes ++ nodes_of_dc cluster.now dc) all.new.coords.items all.new.coord_logs.items all.new.shards.items all.new.shard_logs.items) }
    ensures err { (r : Runs) (p : Place) (nodes : List NodeName) → r.cluster ≡ cluster.now → coord_name (length all.old.coords.items) ≡ Coordinator dc → length all.old.shards.items ≡ (dc - 1) * cluster.now.shards
        → IsLendable p r (F.stands farm.old) (Coordinator dc) → ((sh : ℕ) → IsTrue (is_shard cluster.now sh) → IsLendable p r (F.stands farm.old) (ShardServer dc sh))
        → AreGathered (views ⟦<Log<F::D> as Journal>⟧.state F.D.told F.D.content F.D.power) r p nodes all.old.coords.items all.old.coord_logs.items all.old.shards.items all.old.shard_logs.items → AllAreTold (views ⟦<Log<F::D> as Journal>⟧.state F.D.told F.D.content F.D.power) r (F.is_lent farm.new) (F.stands farm.new) all.new.coords.items all.new.shards.items
        → IfErr result (λ fault. BeginRefused (F.faults farm.old) (F.faults farm.new) (begins_all p r.cluster (nodes ++ nodes_of_dc cluster.now dc)) fault) }
    ensures grew { (r : Runs) → r.cluster ≡ cluster.now → coord_name (length all.old.coords.items) ≡ Coordinator dc → length all.old.shards.items ≡ (dc - 1) * cluster.now.shards → AllAreTold (views ⟦<Log<F::D> as Journal>⟧.state F.D.told F.D.content F.D.power) r (F.is_lent farm.new) (F.stands farm.new) all.new.coords.items all.new.shards.items → AllAreTold (views ⟦<Log<F::D> as Journal>⟧.state F.D.told F.D.content F.D.power) r (F.is_lent farm.old) (F.stands farm.old) all.old.coords.items all.old.shards.items }
    ensures on { (n : NodeName) → F.is_lent farm.new n ≡ false → (F.stands farm.old n).power ≡ On → (F.stands farm.new n).power ≡ On }
    ensures few { length all.new.coords.items ≤ length all.old.coords.items + 1 }
    ensures many { length all.old.coords.items ≤ length all.new.coords.items }
    ensures few_shards { length all.new.shards.items ≤ length all.old.shards.items + cluster.now.shards }
    ensures many_shards { length all.old.shards.items ≤ length all.new.shards.items }
    ensures more { OnOk result (length all.new.coords.items ≡ length all.old.coords.items + 1) }
    ensures more_shards { OnOk result (length all.new.shards.items ≡ length all.old.shards.items + cluster.now.shards) }
    ensures front { OnOk result (take (length all.old.coords.items) all.new.coords.items ≡ all.old.coords.items) }
    ensures front_shards { OnOk result (take (length all.old.shards.items) all.new.shards.items ≡ all.old.shards.items) }
    ensures well { IsTrue (list_all (is_well (λ n. n.stopped)) all.new.coords.items) }
    ensures well_shards { IsTrue (list_all (is_well (λ n. n.stopped)) all.new.shards.items) }
    ensures lent { F.is_lent farm.new (Coordinator dc) ≡ nat_lt (length all.old.coords.items) (length all.new.coords.items) }
    ensures lent_shards { (sh : ℕ) → F.is_lent farm.new (ShardServer dc sh) ≡ are_lent (length all.new.shards.items - length all.old.shards.items) sh }
    ensures others_lent { (n : NodeName) → n ≢ Coordinator dc → ((sh : ℕ) → n ≢ ShardServer dc sh) → F.is_lent farm.new n ≡ F.is_lent farm.old n }
    ensures others { (n : NodeName) → n ≢ Coordinator dc → ((sh : ℕ) → IsTrue (is_shard cluster.now sh) → n ≢ ShardServer dc sh) → F.stands farm.new n ≡ F.stands farm.old n }
    ensures start { (n : NodeName) → F.start farm.new n ≡ F.start farm.old n }
    ensures later { F.faults farm.old ≤ F.faults farm.new }
{
    begin_coord(alloc, farm, cluster, dc, all)?;
    begin_shards(alloc, farm, cluster, dc, all)
}
