// A node that is up does what moves it.
ghost use Rattle.std.specs.Prelude.{◌≡◌, [], true, false, Ok, IfOk, IfErr, IfSome};
ghost use Rattle.rc_ids.specs.declared.names.Party.TheVariants.{Node as NodeParty};
ghost use Rattle.rc_msg.specs.Outboxes.{new_outbox};
ghost use Rattle.rc_record.specs.Spelling.{HasRecord};
ghost use Rattle.rc_runs.specs.Devices.{Device};
ghost use Rattle.rc_disk.specs.Calls.{Told};
ghost use Rattle.rc_host.specs.AnyNode.{node_act};
ghost use Rattle.rc_host.specs.Standing.{Standing};
ghost use Rattle.rc_host.specs.Hosts.{IsThere, CountsOn, Run, sight, is_up, IfUp, IsHost, IsToldBy};
ghost use Rattle.rc_host.specs.Causes.{cause_of};
ghost use Rattle.rc_host.specs.declared.host.Course.TheVariants.{Goes};
ghost use Rattle.rc_begin.specs.declared.fault.WorldFault.TheVariants.{NoMemory as OutOfMemory};
ghost use Rattle.rc_world.specs.Turns.{Turned, TurnRefused, fault_of};

use crate::WorldFault;
use rc_disk::Disk;
use rc_host::{Cause, Course, Host, HostFault, Node, act};
use rc_ids::{NodeId, Party};
use rc_log::{Journal, Log};
use rc_msg::Outbox;
use rc_report::{Line, Lines, Which};
use std::alloc::Global;

/// What a fault of a host is to its world.
fn world_fault(fault: HostFault) -> WorldFault
    ensures { result ≡ fault_of fault }
{
    match fault {
        HostFault::NoMemory => WorldFault::NoMemory,
        HostFault::BallotsSpent => WorldFault::Limit(Which::Ballots),
        HostFault::DiskFailed => WorldFault::Farm,
        HostFault::Damaged { .. } => WorldFault::Farm,
        HostFault::Lost => WorldFault::NoMemory,
    }
}

/// The node of this name, if it is up, does what moves it: what it sends, how the event went, and the line that it stopped, where it did inside the event.
pub(crate) fn turn<D: Disk, N: Node<Log<D>>>(
    alloc: Global,
    host: &mut Host<N, Log<D>, D>,
    node: &NodeId,
    cause: &Cause<'_>,
    lines: &mut Lines,
) -> Result<(Outbox, Course), WorldFault>
    requires up { IfUp host.old (λ n. (N.seen n).stopped ≡ false) }
    requires lines { lines.old ≡ [] }
    ensures up { IfUp host.new (λ n. (N.seen n).stopped ≡ false) }
    ensures there { IsThere host.old → IsThere host.new }
    ensures ok { (run : Run) (x : Standing) (d : Device) → run.node ≡ node.now → is_up host.old ≡ true → IsHost (sight N.seen ⟦<Log<D> as Journal>⟧.state D.told D.content D.power) (N.back run.node run.cluster) run host.old x d
        → let act = node_act run.cluster run.node x.durable x.volatile (cause_of cause.now) in IfSome act.logs HasRecord → IsToldBy (sight N.seen ⟦<Log<D> as Journal>⟧.state D.told D.content D.power) host.new run.ended
        → IfOk result (λ done. Turned (sight N.seen ⟦<Log<D> as Journal>⟧.state D.told D.content D.power) (N.back run.node run.cluster) run host.new done.0 done.1 lines.new x d act) }
    ensures err { (run : Run) (x : Standing) (d : Device) → run.node ≡ node.now → is_up host.old ≡ true → IsHost (sight N.seen ⟦<Log<D> as Journal>⟧.state D.told D.content D.power) (N.back run.node run.cluster) run host.old x d
        → let act = node_act run.cluster run.node x.durable x.volatile (cause_of cause.now) in IfSome act.logs HasRecord → IsToldBy (sight N.seen ⟦<Log<D> as Journal>⟧.state D.told D.content D.power) host.new run.ended
        → IfErr result (λ fault. TurnRefused (sight N.seen ⟦<Log<D> as Journal>⟧.state D.told D.content D.power) (N.back run.node run.cluster) run fault host.new x d act) }
    ensures counts { (run : Run) (x : Standing) (d : Device) → is_up host.old ≡ true → IsHost (sight N.seen ⟦<Log<D> as Journal>⟧.state D.told D.content D.power) (N.back run.node run.cluster) run host.old x d
        → IfOk result (λ _. CountsOn (sight N.seen ⟦<Log<D> as Journal>⟧.state D.told D.content D.power) host.old host.new (node_act run.cluster run.node x.durable x.volatile (cause_of cause.now))) }
    ensures grew { (ended : Told) → IsToldBy (sight N.seen ⟦<Log<D> as Journal>⟧.state D.told D.content D.power) host.new ended → IsToldBy (sight N.seen ⟦<Log<D> as Journal>⟧.state D.told D.content D.power) host.old ended }
    ensures idle { is_up host.old ≡ false → (host.new ≡ host.old) × (lines.new ≡ []) × IfOk result (λ done. (done.0 ≡ new_outbox (NodeParty node.now)) × (done.1 ≡ Goes)) × IfErr result (λ fault. fault ≡ OutOfMemory) }
{
    let mut out = Outbox::new(alloc, Party::Node(*node));
    lines.push(Line::Stopped(*node))?;
    match act(alloc, host, cause, &mut out) {
        Ok(Course::Goes) => {
            lines.cut(0);
            Ok((out, Course::Goes))
        }
        Ok(Course::Stops { kept }) => Ok((out, Course::Stops { kept })),
        Err(fault) => Err(world_fault(fault)),
    }
}
