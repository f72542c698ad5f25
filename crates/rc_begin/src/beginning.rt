// A node begins on a disk that the farm lends.
ghost use Rattle.std.specs.Prelude.{◌≡◌, ◌≢◌, ◌≤◌, false, true, OnOk, OnErr, IfOk, IfErr, IfSome};
ghost use Rattle.rc_ids.specs.declared.names.NodeId.{NodeId as NodeName};
ghost use Rattle.rc_disk.specs.declared.power.Power.TheVariants.{On};
ghost use Rattle.rc_disk.specs.Calls.{Told};
ghost use Rattle.rc_record.specs.Heads.{new_head};
ghost use Rattle.rc_record.specs.Spelling.{HasHead};
ghost use Rattle.rc_runs.specs.Stored.{Place, begins_node};
ghost use Rattle.rc_devices.specs.Disks.{IsKept};
ghost use Rattle.rc_host.specs.Hosts.{Run, IfUp, IsThere, IsToldBy, sight};
ghost use Rattle.rc_host.specs.Begins.{HasBegun};
ghost use Rattle.rc_begin.specs.Beginnings.{IsStartOf, BeginRefused};
ghost use Rattle.rc_begin.specs.Beginnings as beginnings;

use crate::WorldFault;
use rc_disk::{DeviceRefusal, Disk, Farm};
use rc_host::{BeginFault, Host, Node, begin};
use rc_ids::{Blobs, Cluster, NodeId};
use rc_log::{Journal, Log};
use rc_report::Which;
use std::alloc::Global;

/// What a refusal of the farm is to the world.
fn lend_fault(refusal: DeviceRefusal) -> WorldFault
    ensures { result ≡ beginnings.lend_fault refusal }
{
    match refusal {
        DeviceRefusal::NoMemory => WorldFault::NoMemory,
        DeviceRefusal::Failed => WorldFault::Farm,
    }
}

/// What the fault of a node that begins is to its world.
fn begin_fault(node: NodeId, fault: BeginFault) -> WorldFault
    ensures { result ≡ beginnings.begin_fault node fault }
{
    match fault {
        BeginFault::NoMemory => WorldFault::NoMemory,
        BeginFault::DiskFailed => WorldFault::Farm,
        BeginFault::Refused(fault) => WorldFault::Log { node, fault },
        BeginFault::Limit => WorldFault::Limit(Which::Log(node)),
    }
}

/// A head of the newest format can be spelt for the node in this world.
fn has_head(node: &NodeId, cluster: &Cluster)
    ensures { HasHead (new_head node.now cluster.now) }
{
    let _dcs = cluster.dcs();
    match node {
        NodeId::Coord(dc) => {
            let _dc = dc.0;
        }
        NodeId::Shard(dc, shard) => {
            let _dc = dc.0;
            let _shard = shard.0;
        }
    }
}

/// A node begins a run on its disk, which the farm lends: its log is created or opened, tested, and gets the head that it owes. The blobs are
/// the records that the log had before. At each fault the farm has the disk back.
pub(crate) fn begin_at<F: Farm, N: Node<Log<F::D>>>(
    alloc: Global,
    farm: &mut F,
    node: NodeId,
    cluster: &Cluster,
) -> Result<(Host<N, Log<F::D>, F::D>, Blobs), WorldFault>
    requires kind { N.is_kind node cluster.now }
    requires free { F.is_lent farm.old node ≡ false }
    ensures ok { (run : Run) (p : Place) → run.node ≡ node → run.cluster ≡ cluster.now → p.lend_fails run.node ≡ false → IsStartOf p run (F.stands farm.old run.node)
        → IfOk result (λ b. IsToldBy (sight N.seen ⟦<Log<F::D> as Journal>⟧.state F.D.told F.D.content F.D.power) b.0 run.ended
        → HasBegun (sight N.seen ⟦<Log<F::D> as Journal>⟧.state F.D.told F.D.content F.D.power) (N.back run.node run.cluster) run (begins_node p run.cluster run.node) b.0 b.1) }
    ensures err { (run : Run) (p : Place) → run.node ≡ node → run.cluster ≡ cluster.now → p.lend_fails run.node ≡ false → IsStartOf p run (F.stands farm.old run.node)
        → IfErr result (λ fault. IfSome (F.stands farm.new run.node).told (λ t. IsKept t run.ended)
        → BeginRefused (F.faults farm.old) (F.faults farm.new) (begins_node p run.cluster run.node) fault) }
    ensures grew { IfOk result (λ b. (ended : Told) → IsToldBy (sight N.seen ⟦<Log<F::D> as Journal>⟧.state F.D.told F.D.content F.D.power) b.0 ended → IfSome (F.stands farm.old node).told (λ t. IsKept t ended)) }
    ensures grew_err { OnErr result ((ended : Told) → IfSome (F.stands farm.new node).told (λ t. IsKept t ended) → IfSome (F.stands farm.old node).told (λ t. IsKept t ended)) }
    ensures on { OnErr result ((F.stands farm.old node).power ≡ On → (F.stands farm.new node).power ≡ On) }
    ensures up { IfOk result (λ b. IfUp b.0 (λ node. (N.seen node).stopped ≡ false)) }
    ensures there { IfOk result (λ b. IsThere b.0) }
    ensures lent { OnOk result (F.is_lent farm.new node ≡ true) }
    ensures not_lent { OnErr result (F.is_lent farm.new node ≡ false) }
    ensures others_lent { (n : NodeName) → n ≢ node → F.is_lent farm.new n ≡ F.is_lent farm.old n }
    ensures others { (n : NodeName) → n ≢ node → F.stands farm.new n ≡ F.stands farm.old n }
    ensures start { (n : NodeName) → F.start farm.new n ≡ F.start farm.old n }
    ensures later { F.faults farm.old ≤ F.faults farm.new }
{
    has_head(&node, cluster);
    match farm.disk(node) {
        Ok(disk) => match begin::<F::D, N>(alloc, node, cluster, disk) {
            Ok(begun) => Ok(begun),
            Err((fault, disk)) => {
                farm.back(node, disk);
                Err(begin_fault(node, fault))
            }
        },
        Err(refusal) => Err(lend_fault(refusal)),
    }
}
