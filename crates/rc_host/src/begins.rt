// A node begins a run, on what its disk has.
ghost use Rattle.std.specs.Prelude.{◌≡◌, ℕ, List, [], ◌∷◌, false, true, Ok, IfOk, IfErr, IfSome, OnOk};
ghost use Rattle.std.specs.Option.{option_map};
ghost use Rattle.rc_disk.specs.declared.power.Power.TheVariants.{On};
ghost use Rattle.rc_disk.specs.Calls.{Told, powered as powered_disk};
ghost use Rattle.rc_record.specs.Heads.{new_head};
ghost use Rattle.rc_record.specs.Spelling.{HasHead};
ghost use Rattle.rc_record.specs.Replay.{newest_head as last_head};
ghost use Rattle.rc_node.specs.Acts.{Enters};
ghost use Rattle.rc_runs.specs.Devices.{Device};
ghost use Rattle.rc_runs.specs.Stored as stored;
ghost use Rattle.rc_devices.specs.Disks.{IsKept};
ghost use Rattle.rc_host.specs.Standing.{Standing};
ghost use Rattle.rc_host.specs.declared.begins.BeginFault.TheVariants.{NoMemory as OutOfMemory};
ghost use Rattle.rc_host.specs.Hosts.{Run, sight, IfUp, IsThere, IsHost, HasLog, IsToldBy};
ghost use Rattle.rc_host.specs.AnyNode.{new_volatile};
ghost use Rattle.rc_host.specs.Begins.{newest_bytes, HeadFault, IsStored, IsReady, HasBegun, HasNotBegun, IsAtStart, OwedFault, begin_fault};

use crate::{Host, MOST_LOG_BYTES, Node};
use rc_disk::Disk;
use rc_ids::{Blob, Blobs, Cluster, NoMemory, NodeId};
use rc_log::{AppendFault, Journal, Log, OpenFault};
use rc_record::{Head, Record, ReplayFault, encode, newest_head};
use rc_report::LogFault;
use std::alloc::Global;
use thiserror::Error;

/// Why a node did not begin.
#[derive(Clone, Copy, Debug, PartialEq, Eq, Error)]
pub enum BeginFault {
    /// There was no memory.
    #[error("out of memory")]
    NoMemory,
    /// The disk failed as the log was to be created or opened, or as its head was to be added.
    #[error("the disk failed")]
    DiskFailed,
    /// The log is damaged, has a record that is refused, or is of another world.
    #[error("the log is refused")]
    Refused(LogFault),
    /// The log owes a head, and would be longer than its limit with it.
    #[error("the log is full")]
    Limit,
}

/// The head of the newest format, as bytes.
fn head_bytes(alloc: Global, node: NodeId, cluster: &Cluster) -> Result<Blob, NoMemory>
    ensures { IfOk result (λ bytes. bytes ≡ newest_bytes node cluster.now) }
{
    let head = Head::new(node, cluster)?;
    encode(alloc, &Record::Head(head))
}

/// Whether a log with these records owes a head of the newest format.
fn owes_head(alloc: Global, records: &Blobs) -> Result<bool, NoMemory>
    ensures { IfOk result (λ owes. owes ≡ stored.owes_head records.now) }
{
    match newest_head(alloc, records)? {
        Some(head) => Ok(head.format() != Head::NEWEST),
        None => Ok(true),
    }
}

/// Adds a head of the newest format to a log.
fn add_head<D: Disk>(
    alloc: Global,
    node: NodeId,
    cluster: &Cluster,
    log: &mut Log<D>,
) -> Result<(), BeginFault>
    requires { (⟦<Log<D> as Journal>⟧.state log.old).failed ≡ false }
    ensures ok { OnOk result (Enters (⟦<Log<D> as Journal>⟧.state log.old) (⟦<Log<D> as Journal>⟧.state log.new) (newest_bytes node cluster.now)) }
    ensures err { IfErr result (λ fault. HeadFault fault (⟦<Log<D> as Journal>⟧.state log.old) (⟦<Log<D> as Journal>⟧.state log.new) (newest_bytes node cluster.now)) }
{
    let Ok(bytes) = head_bytes(alloc, node, cluster) else {
        return Err(BeginFault::NoMemory);
    };
    match log.append(bytes.as_bytes()) {
        Ok(()) => Ok(()),
        Err(AppendFault::NoMemory) => Err(BeginFault::NoMemory),
        Err(AppendFault::Failed) => Err(BeginFault::DiskFailed),
        Err(AppendFault::Full) => Err(BeginFault::Limit),
    }
}

/// Adds a head to a log that owes one.
fn add_owed<D: Disk>(
    alloc: Global,
    node: NodeId,
    cluster: &Cluster,
    log: &mut Log<D>,
    records: &Blobs,
) -> Result<(), BeginFault>
    requires { (⟦<Log<D> as Journal>⟧.state log.old).failed ≡ false }
    ensures owes { OnOk result (stored.owes_head records.now ≡ true → Enters (⟦<Log<D> as Journal>⟧.state log.old) (⟦<Log<D> as Journal>⟧.state log.new) (newest_bytes node cluster.now)) }
    ensures has { OnOk result (stored.owes_head records.now ≡ false → ⟦<Log<D> as Journal>⟧.state log.new ≡ ⟦<Log<D> as Journal>⟧.state log.old) }
    ensures err { IfErr result (λ fault. OwedFault fault (stored.owes_head records.now) (⟦<Log<D> as Journal>⟧.state log.old) (⟦<Log<D> as Journal>⟧.state log.new) (newest_bytes node cluster.now)) }
    ensures sound { OnOk result ((⟦<Log<D> as Journal>⟧.state log.new).failed ≡ false) }
{
    let Ok(owes) = owes_head(alloc, records) else {
        return Err(BeginFault::NoMemory);
    };
    if owes {
        return add_head(alloc, node, cluster, log);
    }
    Ok(())
}

/// What is wrong with a log that is not replayed.
fn refused(fault: ReplayFault) -> BeginFault
    ensures { result ≡ begin_fault fault }
{
    match fault {
        ReplayFault::NoMemory => BeginFault::NoMemory,
        ReplayFault::BadRecord { index } => BeginFault::Refused(LogFault::BadRecord(index)),
        ReplayFault::OtherWorld => BeginFault::Refused(LogFault::OtherWorld),
    }
}

/// What the log of a node that begins gives it, and the head that the log owes.
fn prepare<D: Disk, N: Node<Log<D>>>(
    alloc: Global,
    node: &NodeId,
    cluster: &Cluster,
    log: &mut Log<D>,
    records: &Blobs,
) -> Result<N::Durable, BeginFault>
    requires kind { N.is_kind node.now cluster.now }
    requires sound { (⟦<Log<D> as Journal>⟧.state log.old).failed ≡ false }
    ensures ok { (run : Run) (d : Device) → run.node ≡ node.now → run.cluster ≡ cluster.now → HasHead (new_head run.node run.cluster) → IsStored run (⟦<Log<D> as Journal>⟧.state log.old) records.now d → IfSome (⟦<Log<D> as Journal>⟧.state log.new).told (λ t. IsKept t run.ended)
        → IfOk result (λ durable. IsReady (N.back run.node run.cluster) run (stored.takes_log run.cluster run.node d records.now) (⟦<Log<D> as Journal>⟧.state log.new) records.now (N.gives durable)) }
    ensures err { (run : Run) (d : Device) → run.node ≡ node.now → run.cluster ≡ cluster.now → IsStored run (⟦<Log<D> as Journal>⟧.state log.old) records.now d → IfSome (⟦<Log<D> as Journal>⟧.state log.new).told (λ t. IsKept t run.ended)
        → IfErr result (λ fault. HasNotBegun run (stored.takes_log run.cluster run.node d records.now) fault) }
    ensures grew { (ended : Told) → IfSome (⟦<Log<D> as Journal>⟧.state log.new).told (λ t. IsKept t ended) → IfSome (⟦<Log<D> as Journal>⟧.state log.old).told (λ t. IsKept t ended) }
    ensures sound { IfOk result (λ durable. (⟦<Log<D> as Journal>⟧.state log.new).failed ≡ false) }
{
    match N::replay(alloc, *node, cluster, records) {
        Ok(durable) => match add_owed(alloc, *node, cluster, log, records) {
            Ok(()) => Ok(durable),
            Err(fault) => Err(fault),
        },
        Err(fault) => Err(refused(fault)),
    }
}

/// The disk of a log, with its power on.
fn closed<D: Disk>(log: Log<D>) -> D
    ensures on { D.power result ≡ On }
    ensures told { D.told result ≡ option_map powered_disk (⟦<Log<D> as Journal>⟧.state log).told }
{
    let mut disk = log.into_disk();
    disk.power_on();
    disk
}

/// A node starts on its log, from what the records of this gave back. At the refusal the disk comes back.
fn take_up<D: Disk, N: Node<Log<D>>>(
    alloc: Global,
    node: NodeId,
    cluster: &Cluster,
    log: Log<D>,
    durable: N::Durable,
) -> Result<Host<N, Log<D>, D>, (BeginFault, D)>
    requires kind { N.is_kind node cluster.now }
    requires sound { (⟦<Log<D> as Journal>⟧.state log).failed ≡ false }
    ensures ok { (run : Run) (x : Standing) (d : Device) (blobs : List (List ℕ)) → run.node ≡ node → run.cluster ≡ cluster.now → HasLog (N.back run.node run.cluster) run (⟦<Log<D> as Journal>⟧.state log) blobs x d → x.up ≡ true → N.gives durable ≡ x.durable → x.volatile ≡ new_volatile x.durable
        → IfOk result (λ host. IsHost (sight N.seen ⟦<Log<D> as Journal>⟧.state D.told D.content D.power) (N.back run.node run.cluster) run host x d) }
    ensures err { IfErr result (λ e. (e.0 ≡ OutOfMemory) × (D.power e.1 ≡ On) × (D.told e.1 ≡ option_map powered_disk (⟦<Log<D> as Journal>⟧.state log).told)) }
    ensures up { IfOk result (λ host. IfUp host (λ node. (N.seen node).stopped ≡ false)) }
    ensures there { IfOk result (λ host. IsThere host) }
    ensures grew { IfOk result (λ host. (ended : Told) → IsToldBy (sight N.seen ⟦<Log<D> as Journal>⟧.state D.told D.content D.power) host ended → IfSome (⟦<Log<D> as Journal>⟧.state log).told (λ t. IsKept t ended)) }
{
    match N::restart(alloc, node, cluster, log, durable) {
        Ok(node) => Ok(Host::Up(node)),
        Err((NoMemory, log)) => Err((BeginFault::NoMemory, closed(log))),
    }
}

/// A node begins on its log, which is open and has these records.
fn begin_on<D: Disk, N: Node<Log<D>>>(
    alloc: Global,
    node: &NodeId,
    cluster: &Cluster,
    log: Log<D>,
    records: Blobs,
) -> Result<(Host<N, Log<D>, D>, Blobs), (BeginFault, D)>
    requires kind { N.is_kind node.now cluster.now }
    requires sound { (⟦<Log<D> as Journal>⟧.state log).failed ≡ false }
    ensures ok { (run : Run) (d : Device) → run.node ≡ node.now → run.cluster ≡ cluster.now → HasHead (new_head run.node run.cluster) → IsStored run (⟦<Log<D> as Journal>⟧.state log) records d
        → IfOk result (λ b. IsToldBy (sight N.seen ⟦<Log<D> as Journal>⟧.state D.told D.content D.power) b.0 run.ended → HasBegun (sight N.seen ⟦<Log<D> as Journal>⟧.state D.told D.content D.power) (N.back run.node run.cluster) run (stored.takes_log run.cluster run.node d records) b.0 b.1) }
    ensures err { (run : Run) (d : Device) → run.node ≡ node.now → run.cluster ≡ cluster.now → IsStored run (⟦<Log<D> as Journal>⟧.state log) records d
        → IfErr result (λ e. IfSome (D.told e.1) (λ t. IsKept t run.ended) → HasNotBegun run (stored.takes_log run.cluster run.node d records) e.0) }
    ensures on { IfErr result (λ e. D.power e.1 ≡ On) }
    ensures up { IfOk result (λ b. IfUp b.0 (λ node. (N.seen node).stopped ≡ false)) }
    ensures there { IfOk result (λ b. IsThere b.0) }
    ensures grew { IfOk result (λ b. (ended : Told) → IsToldBy (sight N.seen ⟦<Log<D> as Journal>⟧.state D.told D.content D.power) b.0 ended → IfSome (⟦<Log<D> as Journal>⟧.state log).told (λ t. IsKept t ended)) }
    ensures grew_err { IfErr result (λ e. (ended : Told) → IfSome (D.told e.1) (λ t. IsKept t ended) → IfSome (⟦<Log<D> as Journal>⟧.state log).told (λ t. IsKept t ended)) }
{
    let mut log = log;
    match prepare::<D, N>(alloc, node, cluster, &mut log, &records) {
        Ok(durable) => match take_up(alloc, *node, cluster, log, durable) {
            Ok(host) => Ok((host, records)),
            Err((fault, disk)) => Err((fault, disk)),
        },
        Err(fault) => Err((fault, closed(log))),
    }
}

/// The disk with its power on.
fn powered<D: Disk>(disk: D) -> D
    ensures on { D.power result ≡ On }
    ensures told { D.told result ≡ option_map powered_disk (D.told disk) }
{
    let mut disk = disk;
    disk.power_on();
    disk
}

/// A node begins on an empty disk.
fn create_and_begin<D: Disk, N: Node<Log<D>>>(
    alloc: Global,
    node: &NodeId,
    cluster: &Cluster,
    disk: D,
) -> Result<(Host<N, Log<D>, D>, Blobs), (BeginFault, D)>
    requires kind { N.is_kind node.now cluster.now }
    requires empty { D.length_of disk ≡ 0 }
    ensures ok { (run : Run) (d : Device) → run.node ≡ node.now → run.cluster ≡ cluster.now → HasHead (new_head run.node run.cluster) → IsAtStart D.told D.content D.power run disk [] d
        → IfOk result (λ b. IsToldBy (sight N.seen ⟦<Log<D> as Journal>⟧.state D.told D.content D.power) b.0 run.ended → HasBegun (sight N.seen ⟦<Log<D> as Journal>⟧.state D.told D.content D.power) (N.back run.node run.cluster) run (stored.opens_log run.cluster run.node d []) b.0 b.1) }
    ensures err { (run : Run) (d : Device) → run.node ≡ node.now → run.cluster ≡ cluster.now → IsAtStart D.told D.content D.power run disk [] d
        → IfErr result (λ e. IfSome (D.told e.1) (λ t. IsKept t run.ended) → HasNotBegun run (stored.opens_log run.cluster run.node d []) e.0) }
    ensures on { IfErr result (λ e. D.power e.1 ≡ On) }
    ensures up { IfOk result (λ b. IfUp b.0 (λ node. (N.seen node).stopped ≡ false)) }
    ensures there { IfOk result (λ b. IsThere b.0) }
    ensures grew { IfOk result (λ b. (ended : Told) → IsToldBy (sight N.seen ⟦<Log<D> as Journal>⟧.state D.told D.content D.power) b.0 ended → IfSome (D.told disk) (λ t. IsKept t ended)) }
    ensures grew_err { IfErr result (λ e. (ended : Told) → IfSome (D.told e.1) (λ t. IsKept t ended) → IfSome (D.told disk) (λ t. IsKept t ended)) }
{
    match Log::create(alloc, disk, MOST_LOG_BYTES) {
        Ok(log) => begin_on(alloc, node, cluster, log, Blobs::new(alloc)),
        Err((OpenFault::NoMemory, disk)) => Err((BeginFault::NoMemory, powered(disk))),
        Err((OpenFault::Failed, disk)) => Err((BeginFault::DiskFailed, powered(disk))),
        Err((OpenFault::Damaged { place }, disk)) => {
            let fault = BeginFault::Refused(LogFault::Damaged(place));
            Err((fault, powered(disk)))
        }
    }
}

/// A node begins on a disk that has a log.
fn open_and_begin<D: Disk, N: Node<Log<D>>>(
    alloc: Global,
    node: &NodeId,
    cluster: &Cluster,
    disk: D,
) -> Result<(Host<N, Log<D>, D>, Blobs), (BeginFault, D)>
    requires { N.is_kind node.now cluster.now }
    ensures ok { (run : Run) (d : Device) (b : ℕ) (bytes : List ℕ) → run.node ≡ node.now → run.cluster ≡ cluster.now → HasHead (new_head run.node run.cluster) → IsAtStart D.told D.content D.power run disk (b ∷ bytes) d
        → IfOk result (λ r. IsToldBy (sight N.seen ⟦<Log<D> as Journal>⟧.state D.told D.content D.power) r.0 run.ended → HasBegun (sight N.seen ⟦<Log<D> as Journal>⟧.state D.told D.content D.power) (N.back run.node run.cluster) run (stored.opens_log run.cluster run.node d (b ∷ bytes)) r.0 r.1) }
    ensures err { (run : Run) (d : Device) (b : ℕ) (bytes : List ℕ) → run.node ≡ node.now → run.cluster ≡ cluster.now → IsAtStart D.told D.content D.power run disk (b ∷ bytes) d
        → IfErr result (λ e. IfSome (D.told e.1) (λ t. IsKept t run.ended) → HasNotBegun run (stored.opens_log run.cluster run.node d (b ∷ bytes)) e.0) }
    ensures on { IfErr result (λ e. D.power e.1 ≡ On) }
    ensures up { IfOk result (λ b. IfUp b.0 (λ node. (N.seen node).stopped ≡ false)) }
    ensures there { IfOk result (λ b. IsThere b.0) }
    ensures grew { IfOk result (λ b. (ended : Told) → IsToldBy (sight N.seen ⟦<Log<D> as Journal>⟧.state D.told D.content D.power) b.0 ended → IfSome (D.told disk) (λ t. IsKept t ended)) }
    ensures grew_err { IfErr result (λ e. (ended : Told) → IfSome (D.told e.1) (λ t. IsKept t ended) → IfSome (D.told disk) (λ t. IsKept t ended)) }
{
    match Log::open(alloc, disk, MOST_LOG_BYTES) {
        Ok((log, records)) => begin_on(alloc, node, cluster, log, records),
        Err((OpenFault::NoMemory, disk)) => Err((BeginFault::NoMemory, powered(disk))),
        Err((OpenFault::Failed, disk)) => Err((BeginFault::DiskFailed, powered(disk))),
        Err((OpenFault::Damaged { place }, disk)) => {
            let fault = BeginFault::Refused(LogFault::Damaged(place));
            Err((fault, powered(disk)))
        }
    }
}

/// A node begins a run: its log is created where its disk is empty, and opened else; it is tested, and gets a head of the newest format where
/// that is owed. The blobs are the records that the log had before. At each fault the disk comes back with its power on.
pub fn begin<D: Disk, N: Node<Log<D>>>(
    alloc: Global,
    node: NodeId,
    cluster: &Cluster,
    disk: D,
) -> Result<(Host<N, Log<D>, D>, Blobs), (BeginFault, D)>
    requires { N.is_kind node cluster.now }
    ensures ok { (run : Run) (d : Device) (content : List ℕ) → run.node ≡ node → run.cluster ≡ cluster.now → HasHead (new_head run.node run.cluster) → IsAtStart D.told D.content D.power run disk content d
        → IfOk result (λ b. IsToldBy (sight N.seen ⟦<Log<D> as Journal>⟧.state D.told D.content D.power) b.0 run.ended → HasBegun (sight N.seen ⟦<Log<D> as Journal>⟧.state D.told D.content D.power) (N.back run.node run.cluster) run (stored.opens_log run.cluster run.node d content) b.0 b.1) }
    ensures err { (run : Run) (d : Device) (content : List ℕ) → run.node ≡ node → run.cluster ≡ cluster.now → IsAtStart D.told D.content D.power run disk content d
        → IfErr result (λ e. IfSome (D.told e.1) (λ t. IsKept t run.ended) → HasNotBegun run (stored.opens_log run.cluster run.node d content) e.0) }
    ensures on { IfErr result (λ e. D.power e.1 ≡ On) }
    ensures up { IfOk result (λ b. IfUp b.0 (λ node. (N.seen node).stopped ≡ false)) }
    ensures there { IfOk result (λ b. IsThere b.0) }
    ensures grew { IfOk result (λ b. (ended : Told) → IsToldBy (sight N.seen ⟦<Log<D> as Journal>⟧.state D.told D.content D.power) b.0 ended → IfSome (D.told disk) (λ t. IsKept t ended)) }
    ensures grew_err { IfErr result (λ e. (ended : Told) → IfSome (D.told e.1) (λ t. IsKept t ended) → IfSome (D.told disk) (λ t. IsKept t ended)) }
{
    if disk.len() == 0 {
        create_and_begin(alloc, &node, cluster, disk)
    } else {
        open_and_begin(alloc, &node, cluster, disk)
    }
}
