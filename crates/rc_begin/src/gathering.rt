// The nodes of a world begin, one behind another.
ghost use Rattle.std.specs.Prelude.{◌≡◌, ◌≢◌, ◌≤◌, ◌++◌, ◌+◌, [], ◌∷◌, length, take, false, true, OnOk, OnErr, IfErr, IfSome, IsTrue};
ghost use Rattle.std.specs.List.{list_all};
ghost use Rattle.rc_ids.specs.declared.names.NodeId.{NodeId as NodeName};
ghost use Rattle.rc_runs.specs.Stored.{Place, begins_node};
ghost use Rattle.rc_devices.specs.Disks.{IsKept};
ghost use Rattle.rc_disk.specs.declared.power.Power.TheVariants.{On};
ghost use Rattle.rc_disk.specs.Calls.{Told};
ghost use Rattle.rc_host.specs.Hosts.{Run, IfUp, IsThere, IsToldBy, sight};
ghost use Rattle.rc_begin.specs.declared.fault.WorldFault.TheVariants.{NoMemory as OutOfMemory};
ghost use Rattle.rc_begin.specs.Wells.{is_well};
ghost use Rattle.rc_begin.specs.Beginnings.{IsStartOf, IsNext, BeginRefused, LastGrew};

use crate::WorldFault;
use crate::beginning::begin_at;
use rc_disk::{Disk, Farm};
use rc_host::{Host, Node, into_disk};
use rc_ids::{Blobs, Cluster, NodeId};
use rc_log::{Journal, Log};
use std::alloc::{AllocFailed, Global};

/// The farm has the disk of a host back.
pub fn give_back<F: Farm, N: Node<Log<F::D>>>(
    farm: &mut F,
    node: NodeId,
    host: Host<N, Log<F::D>, F::D>,
)
    requires there { IsThere host }
    requires lent { F.is_lent farm.old node ≡ true }
    ensures lent { F.is_lent farm.new node ≡ false }
    ensures told { (ended : Told) → IfSome (F.stands farm.new node).told (λ t. IsKept t ended) → IsToldBy (sight N.seen ⟦<Log<F::D> as Journal>⟧.state F.D.told F.D.content F.D.power) host ended }
    ensures on { (F.stands farm.new node).power ≡ On }
    ensures others_lent { (n : NodeName) → n ≢ node → F.is_lent farm.new n ≡ F.is_lent farm.old n }
    ensures others { (n : NodeName) → n ≢ node → F.stands farm.new n ≡ F.stands farm.old n }
    ensures start { (n : NodeName) → F.start farm.new n ≡ F.start farm.old n }
    ensures faults { F.faults farm.new ≡ F.faults farm.old }
{
    let disk = into_disk(host);
    farm.back(node, disk);
}

/// A host and the records of its log come behind those before. Where there is no memory, the farm has its disk back.
fn add_begun<F: Farm, N: Node<Log<F::D>>>(
    farm: &mut F,
    node: NodeId,
    begun: (Host<N, Log<F::D>, F::D>, Blobs),
    hosts: &mut Vec<Host<N, Log<F::D>, F::D>>,
    logs: &mut Vec<Blobs>,
) -> Result<(), WorldFault>
    requires there { IsThere begun.0 }
    requires up { IfUp begun.0 (λ node. (N.seen node).stopped ≡ false) }
    requires lent { F.is_lent farm.old node ≡ true }
    requires well { IsTrue (list_all (is_well (λ n. (N.seen n).stopped)) hosts.old.items) }
    ensures hosts { OnOk result (hosts.new.items ≡ hosts.old.items ++ begun.0 ∷ []) }
    ensures logs { OnOk result (logs.new.items ≡ logs.old.items ++ begun.1 ∷ []) }
    ensures err { IfErr result (λ fault. fault ≡ OutOfMemory) }
    ensures told { OnErr result ((ended : Told) → IfSome (F.stands farm.new node).told (λ t. IsKept t ended) → IsToldBy (sight N.seen ⟦<Log<F::D> as Journal>⟧.state F.D.told F.D.content F.D.power) begun.0 ended) }
    ensures on { OnErr result ((F.stands farm.new node).power ≡ On) }
    ensures kept { OnErr result (hosts.new.items ≡ hosts.old.items) }
    ensures well { IsTrue (list_all (is_well (λ n. (N.seen n).stopped)) hosts.new.items) }
    ensures lent { OnOk result (F.is_lent farm.new node ≡ true) }
    ensures not_lent { OnErr result (F.is_lent farm.new node ≡ false) }
    ensures others_lent { (n : NodeName) → n ≢ node → F.is_lent farm.new n ≡ F.is_lent farm.old n }
    ensures others { (n : NodeName) → n ≢ node → F.stands farm.new n ≡ F.stands farm.old n }
    ensures start { (n : NodeName) → F.start farm.new n ≡ F.start farm.old n }
    ensures faults { F.faults farm.new ≡ F.faults farm.old }
{
    let (host, log) = begun;
    if logs.push(log).is_err() {
        give_back::<F, N>(farm, node, host);
        return Err(WorldFault::NoMemory);
    }
    match hosts.push(host) {
        Ok(()) => Ok(()),
        Err(AllocFailed { value }) => {
            give_back::<F, N>(farm, node, value);
            Err(WorldFault::NoMemory)
        }
    }
}

/// A node begins behind those that have begun. At each fault the farm has its disk back, and no host was added.
pub(crate) fn begin_next<F: Farm, N: Node<Log<F::D>>>(
    alloc: Global,
    farm: &mut F,
    node: &NodeId,
    cluster: &Cluster,
    hosts: &mut Vec<Host<N, Log<F::D>, F::D>>,
    logs: &mut Vec<Blobs>,
) -> Result<(), WorldFault>
    requires kind { N.is_kind node.now cluster.now }
    requires free { F.is_lent farm.old node.now ≡ false }
    requires well { IsTrue (list_all (is_well (λ n. (N.seen n).stopped)) hosts.old.items) }
    ensures ok { (run : Run) (p : Place) → run.node ≡ node.now → run.cluster ≡ cluster.now → p.lend_fails run.node ≡ false → IsStartOf p run (F.stands farm.old run.node)
        → OnOk result (IsNext (sight N.seen ⟦<Log<F::D> as Journal>⟧.state F.D.told F.D.content F.D.power) (N.back run.node run.cluster) run (begins_node p run.cluster run.node) hosts.old.items hosts.new.items logs.old.items logs.new.items) }
    ensures err { (run : Run) (p : Place) → run.node ≡ node.now → run.cluster ≡ cluster.now → p.lend_fails run.node ≡ false → IsStartOf p run (F.stands farm.old run.node)
        → IfErr result (λ fault. IfSome (F.stands farm.new run.node).told (λ t. IsKept t run.ended)
        → BeginRefused (F.faults farm.old) (F.faults farm.new) (begins_node p run.cluster run.node) fault) }
    ensures grew { OnOk result (LastGrew (sight N.seen ⟦<Log<F::D> as Journal>⟧.state F.D.told F.D.content F.D.power) hosts.old.items hosts.new.items (F.stands farm.old node.now).told) }
    ensures grew_err { OnErr result ((ended : Told) → IfSome (F.stands farm.new node.now).told (λ t. IsKept t ended) → IfSome (F.stands farm.old node.now).told (λ t. IsKept t ended)) }
    ensures on { OnErr result ((F.stands farm.old node.now).power ≡ On → (F.stands farm.new node.now).power ≡ On) }
    ensures more { OnOk result (length hosts.new.items ≡ length hosts.old.items + 1) }
    ensures front { OnOk result (take (length hosts.old.items) hosts.new.items ≡ hosts.old.items) }
    ensures kept { OnErr result (hosts.new.items ≡ hosts.old.items) }
    ensures well { IsTrue (list_all (is_well (λ n. (N.seen n).stopped)) hosts.new.items) }
    ensures lent { OnOk result (F.is_lent farm.new node.now ≡ true) }
    ensures not_lent { OnErr result (F.is_lent farm.new node.now ≡ false) }
    ensures others_lent { (n : NodeName) → n ≢ node.now → F.is_lent farm.new n ≡ F.is_lent farm.old n }
    ensures others { (n : NodeName) → n ≢ node.now → F.stands farm.new n ≡ F.stands farm.old n }
    ensures start { (n : NodeName) → F.start farm.new n ≡ F.start farm.old n }
    ensures later { F.faults farm.old ≤ F.faults farm.new }
{
    match begin_at::<F, N>(alloc, farm, *node, cluster) {
        Ok(begun) => add_begun::<F, N>(farm, *node, begun, hosts, logs),
        Err(fault) => Err(fault),
    }
}
