// A node and its disk.
ghost use Rattle.std.specs.Prelude.{◌≡◌, ℕ, List, false, true, IfSome, Ok, OnErr, IfOk, IfErr};
ghost use Rattle.rc_disk.specs.Calls.{Told, read_bytes};
ghost use Rattle.rc_log.specs.Records.{records};
ghost use Rattle.rc_runs.specs.Devices.{Device};
ghost use Rattle.rc_devices.specs.Disks.{IsKept};
ghost use Rattle.rc_record.specs.Spelling.{HasRecord};
ghost use Rattle.rc_host.specs.AnyNode.{node_act};
ghost use Rattle.rc_host.specs.Causes.{cause_of};
ghost use Rattle.rc_host.specs.Standing.{Standing};
ghost use Rattle.rc_host.specs.declared.host.Host.TheVariants.{Up};
ghost use Rattle.rc_host.specs.declared.host.Course.TheVariants.{Goes};
ghost use Rattle.rc_host.specs.Hosts.{IsThere, CountsOn, Run, sight, is_up, IfUp, IsHost, IsUp, IsToldBy, Went, Stayed, StopsAt, OpensAgain, StaysShut};

use crate::{Cause, Node};
use rc_disk::Disk;
use rc_ids::{Blobs, NoMemory};
use rc_log::{Journal, Log, OpenFault};
use rc_msg::Outbox;
use rc_node::NodeFault;
use std::alloc::Global;
use std::mem;
use thiserror::Error;

/// The most bytes that a log has.
pub const MOST_LOG_BYTES: u64 = 1 << 28;

/// A node that is up, or what a stop left of it.
#[derive(Drop)]
pub enum Host<N, J, D> {
    Up(N),
    /// Its log, which was opened since the node stopped, and the records that it had then.
    Opened(J, Blobs),
    Down(D),
    /// During a call.
    Lent,
}

/// How an event went at a node that was up.
#[derive(Clone, Copy, Debug, PartialEq, Eq)]
pub enum Course {
    /// The node goes on.
    Goes,
    /// It stopped inside the event. `kept`: its log holds the event's record.
    Stops { kept: bool },
}

/// Why a node did nothing, or why its log could not be opened after it stopped inside an event.
#[derive(Clone, Copy, Debug, PartialEq, Eq, Error)]
pub enum HostFault {
    /// There was no memory. All is as before.
    #[error("out of memory")]
    NoMemory,
    /// No ballot is left. All is as before.
    #[error("no ballot is left")]
    BallotsSpent,
    /// The node stopped inside the event, and its disk failed as its log was to be opened.
    #[error("the disk failed")]
    DiskFailed,
    /// The node stopped inside the event, and its log is damaged.
    #[error("the log is damaged at {offset}")]
    Damaged { offset: u64 },
    /// The node stopped inside the event, and there was no memory to read its log.
    #[error("out of memory for the log of a node that stopped")]
    Lost,
}

/// Opens the log of a node that stopped inside an event, and finds out whether the record of the event was kept: it has one record more then.
fn open_at_once<D: Disk, N: Node<Log<D>>>(
    alloc: Global,
    log: Log<D>,
) -> (Host<N, Log<D>, D>, Result<Course, HostFault>)
    ensures ok { (run : Run) (blobs : List (List ℕ)) (d : Device) → StopsAt run (⟦<Log<D> as Journal>⟧.state log) blobs d → IsToldBy (sight N.seen ⟦<Log<D> as Journal>⟧.state D.told D.content D.power) result.0 run.ended
        → IfOk result.1 (OpensAgain ⟦<Log<D> as Journal>⟧.state run (⟦<Log<D> as Journal>⟧.state log) blobs d result.0) }
    ensures err { (run : Run) (blobs : List (List ℕ)) (d : Device) → StopsAt run (⟦<Log<D> as Journal>⟧.state log) blobs d → IsToldBy (sight N.seen ⟦<Log<D> as Journal>⟧.state D.told D.content D.power) result.0 run.ended
        → IfErr result.1 (λ fault. StaysShut fault d) }
    ensures down { is_up result.0 ≡ false }
    ensures there { IsThere result.0 }
    ensures whole { (⟦<Log<D> as Journal>⟧.state log).failed ≡ false → IfSome (⟦<Log<D> as Journal>⟧.state log).told (λ t. IfSome (⟦<Log<D> as Journal>⟧.state log).records (λ rs. records (read_bytes t) ≡ Ok rs)) }
    ensures grew { (ended : Told) → IsToldBy (sight N.seen ⟦<Log<D> as Journal>⟧.state D.told D.content D.power) result.0 ended → IfSome (⟦<Log<D> as Journal>⟧.state log).told (λ t. IsKept t ended) }
{
    let count = log.count();
    let mut disk = log.into_disk();
    disk.power_on();
    match Log::open(alloc, disk, MOST_LOG_BYTES) {
        Ok((opened, records)) => {
            let kept = count < records.len() as u64;
            (Host::Opened(opened, records), Ok(Course::Stops { kept }))
        }
        Err((OpenFault::NoMemory, disk)) => (Host::Down(disk), Err(HostFault::Lost)),
        Err((OpenFault::Failed, disk)) => (Host::Down(disk), Err(HostFault::DiskFailed)),
        Err((OpenFault::Damaged { place }, disk)) => {
            (Host::Down(disk), Err(HostFault::Damaged { offset: place }))
        }
    }
}

/// The node acts: its host after that, and how it went. Where it stops inside, its log is opened at once.
fn turn<D: Disk, N: Node<Log<D>>>(
    alloc: Global,
    node: N,
    cause: &Cause<'_>,
    out: &mut Outbox,
) -> (Host<N, Log<D>, D>, Result<Course, HostFault>)
    requires { (N.seen node).stopped ≡ false }
    ensures ok { (run : Run) (x : Standing) (d : Device) → IsUp (sight N.seen ⟦<Log<D> as Journal>⟧.state D.told D.content D.power) (N.back run.node run.cluster) run node x d
        → let act = node_act run.cluster run.node x.durable x.volatile (cause_of cause.now) in IfSome act.logs HasRecord → IsToldBy (sight N.seen ⟦<Log<D> as Journal>⟧.state D.told D.content D.power) result.0 run.ended
        → IfOk result.1 (λ course. Went (sight N.seen ⟦<Log<D> as Journal>⟧.state D.told D.content D.power) (N.back run.node run.cluster) run course result.0 out.old out.new x d act) }
    ensures err { (run : Run) (x : Standing) (d : Device) → IsUp (sight N.seen ⟦<Log<D> as Journal>⟧.state D.told D.content D.power) (N.back run.node run.cluster) run node x d
        → let act = node_act run.cluster run.node x.durable x.volatile (cause_of cause.now) in IfSome act.logs HasRecord → IsToldBy (sight N.seen ⟦<Log<D> as Journal>⟧.state D.told D.content D.power) result.0 run.ended
        → IfErr result.1 (λ fault. Stayed (sight N.seen ⟦<Log<D> as Journal>⟧.state D.told D.content D.power) (N.back run.node run.cluster) run fault result.0 out.old out.new x d act) }
    ensures up { IfUp result.0 (λ after. (N.seen after).stopped ≡ false) }
    ensures there { IsThere result.0 }
    ensures counts { (run : Run) (x : Standing) (d : Device) → IsUp (sight N.seen ⟦<Log<D> as Journal>⟧.state D.told D.content D.power) (N.back run.node run.cluster) run node x d
        → IfOk result.1 (λ course. CountsOn (sight N.seen ⟦<Log<D> as Journal>⟧.state D.told D.content D.power) (Up node) result.0 (node_act run.cluster run.node x.durable x.volatile (cause_of cause.now))) }
    ensures grew { (ended : Told) → IsToldBy (sight N.seen ⟦<Log<D> as Journal>⟧.state D.told D.content D.power) result.0 ended → IsToldBy (sight N.seen ⟦<Log<D> as Journal>⟧.state D.told D.content D.power) (Up node) ended }
{
    N::logged_acts();
    let mut node = node;
    match node.act(cause, out) {
        Ok(()) => (Host::Up(node), Ok(Course::Goes)),
        Err(NodeFault::NoMemory) => (Host::Up(node), Err(HostFault::NoMemory)),
        Err(NodeFault::BallotsSpent) => (Host::Up(node), Err(HostFault::BallotsSpent)),
        Err(NodeFault::Failed) => open_at_once(alloc, node.into_journal()),
        Err(NodeFault::Full) => open_at_once(alloc, node.into_journal()),
    }
}

/// The node, if it is up, acts: at `Ok` it did its row and goes on, or stopped inside the event, and then its log was opened at
/// once and tells whether the record was kept. After `NoMemory` and `BallotsSpent` all is as before; after the other faults the host is
/// good for nothing but its disk. A node that is down does nothing.
pub fn act<D: Disk, N: Node<Log<D>>>(
    alloc: Global,
    host: &mut Host<N, Log<D>, D>,
    cause: &Cause<'_>,
    out: &mut Outbox,
) -> Result<Course, HostFault>
    requires { IfUp host.old (λ node. (N.seen node).stopped ≡ false) }
    ensures up { IfUp host.new (λ node. (N.seen node).stopped ≡ false) }
    ensures there { IsThere host.old → IsThere host.new }
    ensures ok { (run : Run) (x : Standing) (d : Device) → is_up host.old ≡ true → IsHost (sight N.seen ⟦<Log<D> as Journal>⟧.state D.told D.content D.power) (N.back run.node run.cluster) run host.old x d
        → let act = node_act run.cluster run.node x.durable x.volatile (cause_of cause.now) in IfSome act.logs HasRecord → IsToldBy (sight N.seen ⟦<Log<D> as Journal>⟧.state D.told D.content D.power) host.new run.ended
        → IfOk result (λ course. Went (sight N.seen ⟦<Log<D> as Journal>⟧.state D.told D.content D.power) (N.back run.node run.cluster) run course host.new out.old out.new x d act) }
    ensures err { (run : Run) (x : Standing) (d : Device) → is_up host.old ≡ true → IsHost (sight N.seen ⟦<Log<D> as Journal>⟧.state D.told D.content D.power) (N.back run.node run.cluster) run host.old x d
        → let act = node_act run.cluster run.node x.durable x.volatile (cause_of cause.now) in IfSome act.logs HasRecord → IsToldBy (sight N.seen ⟦<Log<D> as Journal>⟧.state D.told D.content D.power) host.new run.ended
        → IfErr result (λ fault. Stayed (sight N.seen ⟦<Log<D> as Journal>⟧.state D.told D.content D.power) (N.back run.node run.cluster) run fault host.new out.old out.new x d act) }
    ensures grew { (ended : Told) → IsToldBy (sight N.seen ⟦<Log<D> as Journal>⟧.state D.told D.content D.power) host.new ended → IsToldBy (sight N.seen ⟦<Log<D> as Journal>⟧.state D.told D.content D.power) host.old ended }
    ensures counts { (run : Run) (x : Standing) (d : Device) → is_up host.old ≡ true → IsHost (sight N.seen ⟦<Log<D> as Journal>⟧.state D.told D.content D.power) (N.back run.node run.cluster) run host.old x d
        → IfOk result (λ course. CountsOn (sight N.seen ⟦<Log<D> as Journal>⟧.state D.told D.content D.power) host.old host.new (node_act run.cluster run.node x.durable x.volatile (cause_of cause.now))) }
    ensures idle { is_up host.old ≡ false → (host.new ≡ host.old) × (out.new ≡ out.old) × (result ≡ Ok Goes) }
{
    match mem::replace(host, Host::Lent) {
        Host::Up(node) => {
            let (next, course) = turn(alloc, node, cause, out);
            *host = next;
            course
        }
        other => {
            *host = other;
            Ok(Course::Goes)
        }
    }
}
