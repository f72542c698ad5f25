// A node that is down starts again.
ghost use Rattle.std.specs.Prelude.{◌≡◌, ℕ, List, false, true, Ok, IfOk, IfErr, IfSome};
ghost use Rattle.rc_disk.specs.Calls.{Told};
ghost use Rattle.rc_runs.specs.Devices.{Device};
ghost use Rattle.rc_devices.specs.Disks.{IsKept};
ghost use Rattle.rc_host.specs.Standing.{Standing, started_again};
ghost use Rattle.rc_host.specs.declared.restarts.RestartFault.TheVariants.{NoMemory as OutOfMemory};
ghost use Rattle.rc_host.specs.Hosts.{IsThere, Run, sight, is_up, IfUp, IsHost, IsOpened, IsDown, IsToldBy};
ghost use Rattle.rc_host.specs.Restarts.{HasStarted, HasNotStarted, restart_fault};

use crate::{Host, MOST_LOG_BYTES, Node};
use rc_disk::Disk;
use rc_ids::{Blobs, Cluster, NoMemory, NodeId};
use rc_log::{Journal, Log, OpenFault};
use rc_record::ReplayFault;
use rc_report::LogFault;
use std::alloc::Global;
use std::mem;
use thiserror::Error;

/// Why a node that is down did not start.
#[derive(Clone, Copy, Debug, PartialEq, Eq, Error)]
pub enum RestartFault {
    /// There was no memory. The node is down still; its log may be open.
    #[error("out of memory")]
    NoMemory,
    /// The disk failed as the log was to be opened.
    #[error("the disk failed")]
    DiskFailed,
    /// The log is damaged, or has a record that is refused.
    #[error("the log is refused")]
    Refused(LogFault),
}

/// What is wrong with a log that is not replayed.
fn refused(fault: ReplayFault) -> RestartFault
    ensures { result ≡ restart_fault fault }
{
    match fault {
        ReplayFault::NoMemory => RestartFault::NoMemory,
        ReplayFault::BadRecord { index } => RestartFault::Refused(LogFault::BadRecord(index)),
        ReplayFault::OtherWorld => RestartFault::Refused(LogFault::OtherWorld),
    }
}

/// A node starts from its log, which is open, and from what the records of this gave back.
fn put_up<D: Disk, N: Node<Log<D>>>(
    alloc: Global,
    node: NodeId,
    cluster: &Cluster,
    log: Log<D>,
    records: Blobs,
    durable: N::Durable,
) -> (Host<N, Log<D>, D>, Result<(), RestartFault>)
    requires kind { N.is_kind node cluster.now }
    requires sound { (⟦<Log<D> as Journal>⟧.state log).failed ≡ false }
    ensures ok { (run : Run) (x : Standing) (d : Device) → run.node ≡ node → run.cluster ≡ cluster.now → IsOpened ⟦<Log<D> as Journal>⟧.state (N.back run.node run.cluster) run log records x d → N.gives durable ≡ x.durable
        → IfOk result.1 (λ _. IsHost (sight N.seen ⟦<Log<D> as Journal>⟧.state D.told D.content D.power) (N.back run.node run.cluster) run result.0 (started_again x) d) }
    ensures err { (run : Run) (x : Standing) (d : Device) → run.node ≡ node → run.cluster ≡ cluster.now → IsOpened ⟦<Log<D> as Journal>⟧.state (N.back run.node run.cluster) run log records x d → N.gives durable ≡ x.durable
        → IfErr result.1 (λ fault. (fault ≡ OutOfMemory) × IsHost (sight N.seen ⟦<Log<D> as Journal>⟧.state D.told D.content D.power) (N.back run.node run.cluster) run result.0 x d) }
    ensures up { IfUp result.0 (λ node. (N.seen node).stopped ≡ false) }
    ensures there { IsThere result.0 }
    ensures grew { (ended : Told) → IsToldBy (sight N.seen ⟦<Log<D> as Journal>⟧.state D.told D.content D.power) result.0 ended → IfSome (⟦<Log<D> as Journal>⟧.state log).told (λ t. IsKept t ended) }
{
    match N::restart(alloc, node, cluster, log, durable) {
        Ok(node) => (Host::Up(node), Ok(())),
        Err((NoMemory, log)) => (Host::Opened(log, records), Err(RestartFault::NoMemory)),
    }
}

/// A node starts from its log, which is open, and from the records that this has.
fn start<D: Disk, N: Node<Log<D>>>(
    alloc: Global,
    node: &NodeId,
    cluster: &Cluster,
    log: Log<D>,
    records: Blobs,
) -> (Host<N, Log<D>, D>, Result<(), RestartFault>)
    requires kind { N.is_kind node.now cluster.now }
    requires sound { (⟦<Log<D> as Journal>⟧.state log).failed ≡ false }
    ensures ok { (run : Run) (x : Standing) (d : Device) → run.node ≡ node.now → run.cluster ≡ cluster.now → IsOpened ⟦<Log<D> as Journal>⟧.state (N.back run.node run.cluster) run log records x d
        → IfOk result.1 (λ _. IsHost (sight N.seen ⟦<Log<D> as Journal>⟧.state D.told D.content D.power) (N.back run.node run.cluster) run result.0 (started_again x) d) }
    ensures err { (run : Run) (x : Standing) (d : Device) → run.node ≡ node.now → run.cluster ≡ cluster.now → IsOpened ⟦<Log<D> as Journal>⟧.state (N.back run.node run.cluster) run log records x d
        → IfErr result.1 (λ fault. (fault ≡ OutOfMemory) × IsHost (sight N.seen ⟦<Log<D> as Journal>⟧.state D.told D.content D.power) (N.back run.node run.cluster) run result.0 x d) }
    ensures up { IfUp result.0 (λ node. (N.seen node).stopped ≡ false) }
    ensures there { IsThere result.0 }
    ensures grew { (ended : Told) → IsToldBy (sight N.seen ⟦<Log<D> as Journal>⟧.state D.told D.content D.power) result.0 ended → IfSome (⟦<Log<D> as Journal>⟧.state log).told (λ t. IsKept t ended) }
{
    match N::replay(alloc, *node, cluster, &records) {
        Ok(durable) => put_up(alloc, *node, cluster, log, records, durable),
        Err(fault) => (Host::Opened(log, records), Err(refused(fault))),
    }
}

/// Opens the log of a node that is down, and starts it.
fn open_and_start<D: Disk, N: Node<Log<D>>>(
    alloc: Global,
    node: &NodeId,
    cluster: &Cluster,
    disk: D,
) -> (Host<N, Log<D>, D>, Result<(), RestartFault>)
    requires { N.is_kind node.now cluster.now }
    ensures ok { (run : Run) (x : Standing) (d : Device) → run.node ≡ node.now → run.cluster ≡ cluster.now → IsDown D.told D.content D.power (N.back run.node run.cluster) run disk x d
        → IsToldBy (sight N.seen ⟦<Log<D> as Journal>⟧.state D.told D.content D.power) result.0 run.ended
        → IfOk result.1 (λ _. HasStarted (sight N.seen ⟦<Log<D> as Journal>⟧.state D.told D.content D.power) (N.back run.node run.cluster) run result.0 x d) }
    ensures err { (run : Run) (x : Standing) (d : Device) → run.node ≡ node.now → run.cluster ≡ cluster.now → IsDown D.told D.content D.power (N.back run.node run.cluster) run disk x d
        → IsToldBy (sight N.seen ⟦<Log<D> as Journal>⟧.state D.told D.content D.power) result.0 run.ended
        → IfErr result.1 (λ fault. HasNotStarted (sight N.seen ⟦<Log<D> as Journal>⟧.state D.told D.content D.power) (N.back run.node run.cluster) run fault result.0 x d) }
    ensures up { IfUp result.0 (λ node. (N.seen node).stopped ≡ false) }
    ensures there { IsThere result.0 }
    ensures grew { (ended : Told) → IsToldBy (sight N.seen ⟦<Log<D> as Journal>⟧.state D.told D.content D.power) result.0 ended → IfSome (D.told disk) (λ t. IsKept t ended) }
{
    let mut disk = disk;
    disk.power_on();
    match Log::open(alloc, disk, MOST_LOG_BYTES) {
        Ok((log, records)) => start(alloc, node, cluster, log, records),
        Err((OpenFault::NoMemory, disk)) => (Host::Down(disk), Err(RestartFault::NoMemory)),
        Err((OpenFault::Failed, disk)) => (Host::Down(disk), Err(RestartFault::DiskFailed)),
        Err((OpenFault::Damaged { place }, disk)) => {
            let fault = RestartFault::Refused(LogFault::Damaged(place));
            (Host::Down(disk), Err(fault))
        }
    }
}

/// Starts a node whose log was opened since it stopped. A log whose append failed is opened once more.
fn start_opened<D: Disk, N: Node<Log<D>>>(
    alloc: Global,
    node: &NodeId,
    cluster: &Cluster,
    log: Log<D>,
    records: Blobs,
) -> (Host<N, Log<D>, D>, Result<(), RestartFault>)
    requires { N.is_kind node.now cluster.now }
    ensures ok { (run : Run) (x : Standing) (d : Device) → run.node ≡ node.now → run.cluster ≡ cluster.now → IsOpened ⟦<Log<D> as Journal>⟧.state (N.back run.node run.cluster) run log records x d
        → IfOk result.1 (λ _. HasStarted (sight N.seen ⟦<Log<D> as Journal>⟧.state D.told D.content D.power) (N.back run.node run.cluster) run result.0 x d) }
    ensures err { (run : Run) (x : Standing) (d : Device) → run.node ≡ node.now → run.cluster ≡ cluster.now → IsOpened ⟦<Log<D> as Journal>⟧.state (N.back run.node run.cluster) run log records x d
        → IfErr result.1 (λ fault. HasNotStarted (sight N.seen ⟦<Log<D> as Journal>⟧.state D.told D.content D.power) (N.back run.node run.cluster) run fault result.0 x d) }
    ensures up { IfUp result.0 (λ node. (N.seen node).stopped ≡ false) }
    ensures there { IsThere result.0 }
    ensures grew { (ended : Told) → IsToldBy (sight N.seen ⟦<Log<D> as Journal>⟧.state D.told D.content D.power) result.0 ended → IfSome (⟦<Log<D> as Journal>⟧.state log).told (λ t. IsKept t ended) }
{
    if log.failed() {
        return open_and_start(alloc, node, cluster, log.into_disk());
    }
    start(alloc, node, cluster, log, records)
}

/// A node that is down starts from its log, with nothing that a stop loses; the log is opened first, unless that was done since the node
/// stopped. A node that is up stays as it is. After `NoMemory` the node is down still, and its log may be open; after `DiskFailed` the host
/// has its disk.
pub fn restart<D: Disk, N: Node<Log<D>>>(
    alloc: Global,
    node: NodeId,
    cluster: &Cluster,
    host: &mut Host<N, Log<D>, D>,
) -> Result<(), RestartFault>
    requires { N.is_kind node cluster.now }
    ensures ok { (run : Run) (x : Standing) (d : Device) → run.node ≡ node → run.cluster ≡ cluster.now → is_up host.old ≡ false → IsHost (sight N.seen ⟦<Log<D> as Journal>⟧.state D.told D.content D.power) (N.back run.node run.cluster) run host.old x d
        → IsToldBy (sight N.seen ⟦<Log<D> as Journal>⟧.state D.told D.content D.power) host.new run.ended
        → IfOk result (λ _. HasStarted (sight N.seen ⟦<Log<D> as Journal>⟧.state D.told D.content D.power) (N.back run.node run.cluster) run host.new x d) }
    ensures err { (run : Run) (x : Standing) (d : Device) → run.node ≡ node → run.cluster ≡ cluster.now → is_up host.old ≡ false → IsHost (sight N.seen ⟦<Log<D> as Journal>⟧.state D.told D.content D.power) (N.back run.node run.cluster) run host.old x d
        → IsToldBy (sight N.seen ⟦<Log<D> as Journal>⟧.state D.told D.content D.power) host.new run.ended
        → IfErr result (λ fault. HasNotStarted (sight N.seen ⟦<Log<D> as Journal>⟧.state D.told D.content D.power) (N.back run.node run.cluster) run fault host.new x d) }
    ensures idle { is_up host.old ≡ true → (host.new ≡ host.old) × (result ≡ Ok tt) }
    ensures up { IfUp host.old (λ node. (N.seen node).stopped ≡ false) → IfUp host.new (λ node. (N.seen node).stopped ≡ false) }
    ensures there { IsThere host.old → IsThere host.new }
    ensures grew { (ended : Told) → IsToldBy (sight N.seen ⟦<Log<D> as Journal>⟧.state D.told D.content D.power) host.new ended → IsToldBy (sight N.seen ⟦<Log<D> as Journal>⟧.state D.told D.content D.power) host.old ended }
{
    match mem::replace(host, Host::Lent) {
        Host::Opened(log, records) => {
            let (next, outcome) = start_opened(alloc, &node, cluster, log, records);
            *host = next;
            outcome
        }
        Host::Down(disk) => {
            let (next, outcome) = open_and_start(alloc, &node, cluster, disk);
            *host = next;
            outcome
        }
        other => {
            *host = other;
            Ok(())
        }
    }
}
