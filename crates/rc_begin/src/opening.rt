// All nodes of a world begin.
ghost use Rattle.std.specs.Prelude.{◌≡◌, ◌≤◌, ◌*◌, [], length, false, true, OnOk, OnErr, IfOk, IfErr, IsTrue};
ghost use Rattle.std.specs.List.{list_all};
ghost use Rattle.rc_ids.specs.declared.names.NodeId.{NodeId as NodeName};
ghost use Rattle.rc_disk.specs.declared.power.Power.TheVariants.{On};
ghost use Rattle.rc_runs.specs.Stored.{Place, begins_all, nodes_of};
ghost use Rattle.rc_begin.specs.Wells.{is_well};
ghost use Rattle.rc_begin.specs.Hosts.{Runs, CoordsAreTold, ShardsAreTold};
ghost use Rattle.rc_begin.specs.Hosts.{views};
ghost use Rattle.rc_begin.specs.Beginnings.{BeginRefused};
ghost use Rattle.rc_begin.specs.Gatherings.{AreGathered};
ghost use Rattle.rc_begin.specs.Starts.{is_node_of, AreLendable, AllStandKept, AllAreTold, AreLentFirst};

use crate::WorldFault;
use crate::closing::{give_coords_back, give_shards_back};
use crate::dcs_begin::begin_dc;
use crate::nodes_begin::Gathered;
use rc_disk::{Disk, Farm};
use rc_ids::{Cluster, DcId};
use rc_log::{Journal, Log};
use std::alloc::Global;

/// No node has begun yet.
fn none_yet<F: Farm>(alloc: Global) -> Gathered<F>
    ensures coords { result.coords.items ≡ [] }
    ensures coord_logs { result.coord_logs.items ≡ [] }
    ensures shards { result.shards.items ≡ [] }
    ensures shard_logs { result.shard_logs.items ≡ [] }
{
    Gathered {
        coords: Vec::new(alloc),
        coord_logs: Vec::new(alloc),
        shards: Vec::new(alloc),
        shard_logs: Vec::new(alloc),
    }
}

/// The nodes of all datacentres begin. At a fault the farm has the disk back at which it came, and those that began before are on their hosts.
fn begin_dcs<F: Farm>(
    alloc: Global,
    farm: &mut F,
    cluster: &Cluster,
    all: &mut Gathered<F>,
) -> Result<(), WorldFault>
    requires free { (n : NodeName) → F.is_lent farm.old n ≡ false }
    requires no_coords { all.old.coords.items ≡ [] }
    requires no_coord_logs { all.old.coord_logs.items ≡ [] }
    requires no_shards { all.old.shards.items ≡ [] }
    requires no_shard_logs { all.old.shard_logs.items ≡ [] }
    ensures ok { (r : Runs) (p : Place) → r.cluster ≡ cluster.now → AreLendable p r (F.stands farm.old) → AllAreTold (views ⟦<Log<F::D> as Journal>⟧.state F.D.told F.D.content F.D.power) r (F.is_lent farm.new) (F.stands farm.new) all.new.coords.items all.new.shards.items
        → OnOk result (AreGathered (views ⟦<Log<F::D> as Journal>⟧.state F.D.told F.D.content F.D.power) r p (nodes_of cluster.now) all.new.coords.items all.new.coord_logs.items all.new.shards.items all.new.shard_logs.items) }
    ensures err { (r : Runs) (p : Place) → r.cluster ≡ cluster.now → AreLendable p r (F.stands farm.old) → AllAreTold (views ⟦<Log<F::D> as Journal>⟧.state F.D.told F.D.content F.D.power) r (F.is_lent farm.new) (F.stands farm.new) all.new.coords.items all.new.shards.items
        → IfErr result (λ fault. BeginRefused (F.faults farm.old) (F.faults farm.new) (begins_all p r.cluster (nodes_of r.cluster)) fault) }
    ensures grew { (r : Runs) → r.cluster ≡ cluster.now → AllAreTold (views ⟦<Log<F::D> as Journal>⟧.state F.D.told F.D.content F.D.power) r (F.is_lent farm.new) (F.stands farm.new) all.new.coords.items all.new.shards.items → AllStandKept r (F.stands farm.old) }
    ensures on { (n : NodeName) → F.is_lent farm.new n ≡ false → (F.stands farm.old n).power ≡ On → (F.stands farm.new n).power ≡ On }
    ensures coords { OnOk result (length all.new.coords.items ≡ cluster.now.dcs) }
    ensures shards { OnOk result (length all.new.shards.items ≡ cluster.now.dcs * cluster.now.shards) }
    ensures few { length all.new.coords.items ≤ cluster.now.dcs }
    ensures few_shards { length all.new.shards.items ≤ cluster.now.dcs * cluster.now.shards }
    ensures well { IsTrue (list_all (is_well (λ n. n.stopped)) all.new.coords.items) }
    ensures well_shards { IsTrue (list_all (is_well (λ n. n.stopped)) all.new.shards.items) }
    ensures lent { AreLentFirst (F.is_lent farm.new) cluster.now (length all.new.coords.items) (length all.new.shards.items) }
    ensures others { (n : NodeName) → is_node_of cluster.now n ≡ false → F.stands farm.new n ≡ F.stands farm.old n }
    ensures start { (n : NodeName) → F.start farm.new n ≡ F.start farm.old n }
    ensures later { F.faults farm.old ≤ F.faults farm.new }
{
    for count in 0..cluster.dcs() {
        begin_dc(alloc, farm, cluster, DcId(count + 1), all)?;
    }
    Ok(())
}

/// The farm has the disks of all nodes that began back, with their power on.
fn give_all_back<F: Farm>(farm: &mut F, cluster: &Cluster, all: Gathered<F>)
    requires few { length all.coords.items ≤ cluster.now.dcs }
    requires few_shards { length all.shards.items ≤ cluster.now.dcs * cluster.now.shards }
    requires well { IsTrue (list_all (is_well (λ n. n.stopped)) all.coords.items) }
    requires well_shards { IsTrue (list_all (is_well (λ n. n.stopped)) all.shards.items) }
    requires lent { AreLentFirst (F.is_lent farm.old) cluster.now (length all.coords.items) (length all.shards.items) }
    ensures lent { (n : NodeName) → F.is_lent farm.new n ≡ false }
    ensures told { (r : Runs) → r.cluster ≡ cluster.now → AllStandKept r (F.stands farm.new) → AllAreTold (views ⟦<Log<F::D> as Journal>⟧.state F.D.told F.D.content F.D.power) r (F.is_lent farm.old) (F.stands farm.old) all.coords.items all.shards.items }
    ensures on { (n : NodeName) → F.is_lent farm.old n ≡ true → (F.stands farm.new n).power ≡ On }
    ensures others { (n : NodeName) → F.is_lent farm.old n ≡ false → F.stands farm.new n ≡ F.stands farm.old n }
    ensures start { (n : NodeName) → F.start farm.new n ≡ F.start farm.old n }
    ensures faults { F.faults farm.new ≡ F.faults farm.old }
{
    let Gathered { coords, shards, .. } = all;
    let _dcs = cluster.dcs();
    give_coords_back(farm, coords);
    give_shards_back(farm, cluster, shards);
}

/// All nodes of a world begin, datacentre by datacentre, in each first its coordinator. At a fault the farm has all disks back.
pub fn begin_all<F: Farm>(
    alloc: Global,
    farm: &mut F,
    cluster: &Cluster,
) -> Result<Gathered<F>, WorldFault>
    requires { (n : NodeName) → F.is_lent farm.old n ≡ false }
    ensures ok { (r : Runs) (p : Place) → r.cluster ≡ cluster.now → AreLendable p r (F.stands farm.old)
        → IfOk result (λ all. CoordsAreTold (views ⟦<Log<F::D> as Journal>⟧.state F.D.told F.D.content F.D.power).coords r all.coords.items → ShardsAreTold (views ⟦<Log<F::D> as Journal>⟧.state F.D.told F.D.content F.D.power).shards r all.shards.items
        → AreGathered (views ⟦<Log<F::D> as Journal>⟧.state F.D.told F.D.content F.D.power) r p (nodes_of cluster.now) all.coords.items all.coord_logs.items all.shards.items all.shard_logs.items) }
    ensures err { (r : Runs) (p : Place) → r.cluster ≡ cluster.now → AreLendable p r (F.stands farm.old) → AllStandKept r (F.stands farm.new)
        → IfErr result (λ fault. BeginRefused (F.faults farm.old) (F.faults farm.new) (begins_all p r.cluster (nodes_of r.cluster)) fault) }
    ensures coords { IfOk result (λ all. length all.coords.items ≡ cluster.now.dcs) }
    ensures shards { IfOk result (λ all. length all.shards.items ≡ cluster.now.dcs * cluster.now.shards) }
    ensures well { IfOk result (λ all. IsTrue (list_all (is_well (λ n. n.stopped)) all.coords.items)) }
    ensures well_shards { IfOk result (λ all. IsTrue (list_all (is_well (λ n. n.stopped)) all.shards.items)) }
    ensures grew { IfOk result (λ all. (r : Runs) → r.cluster ≡ cluster.now → CoordsAreTold (views ⟦<Log<F::D> as Journal>⟧.state F.D.told F.D.content F.D.power).coords r all.coords.items → ShardsAreTold (views ⟦<Log<F::D> as Journal>⟧.state F.D.told F.D.content F.D.power).shards r all.shards.items → AllStandKept r (F.stands farm.old)) }
    ensures grew_err { OnErr result ((r : Runs) → r.cluster ≡ cluster.now → AllStandKept r (F.stands farm.new) → AllStandKept r (F.stands farm.old)) }
    ensures lent { OnOk result ((n : NodeName) → F.is_lent farm.new n ≡ is_node_of cluster.now n) }
    ensures not_lent { OnErr result ((n : NodeName) → F.is_lent farm.new n ≡ false) }
    ensures on { OnErr result ((n : NodeName) → (F.stands farm.old n).power ≡ On → (F.stands farm.new n).power ≡ On) }
    ensures others { (n : NodeName) → is_node_of cluster.now n ≡ false → F.stands farm.new n ≡ F.stands farm.old n }
    ensures start { (n : NodeName) → F.start farm.new n ≡ F.start farm.old n }
    ensures later { F.faults farm.old ≤ F.faults farm.new }
{
    let mut all = none_yet::<F>(alloc);
    match begin_dcs(alloc, farm, cluster, &mut all) {
        Ok(()) => Ok(all),
        Err(fault) => {
            give_all_back(farm, cluster, all);
            Err(fault)
        }
    }
}
