// A node that is down starts again, and asks the others for what it missed.
ghost use Rattle.std.specs.Prelude.{◌≡◌, ℕ, false, true, IfOk, IfErr, OnOk, OnErr};
ghost use Rattle.rc_disk.specs.Calls.{Told};
ghost use Rattle.rc_runs.specs.Devices.{Device};
ghost use Rattle.rc_host.specs.Standing.{Standing};
ghost use Rattle.rc_host.specs.Hosts.{IsThere, Run, sight, is_up, IfUp, IsHost, IsToldBy};
ghost use Rattle.rc_host.specs.Restarts.{HasAsked, HasRejoined, HasNotRejoined};

use crate::{Cause, Host, Node, RestartFault, crash, restart};
use rc_disk::Disk;
use rc_ids::{Cluster, NoMemory, NodeId};
use rc_log::{Journal, Log};
use rc_msg::Outbox;
use std::alloc::Global;

/// A node that is up asks the others for the outcomes that it missed. That calls no disk. After the refusal all is as before.
fn ask<D: Disk, N: Node<Log<D>>>(
    host: &mut Host<N, Log<D>, D>,
    out: &mut Outbox,
) -> Result<(), NoMemory>
    requires { IfUp host.old (λ node. (N.seen node).stopped ≡ false) }
    ensures ok { (run : Run) (x : Standing) (d : Device) → is_up host.old ≡ true → IsHost (sight N.seen ⟦<Log<D> as Journal>⟧.state D.told D.content D.power) (N.back run.node run.cluster) run host.old x d
        → OnOk result (HasAsked (sight N.seen ⟦<Log<D> as Journal>⟧.state D.told D.content D.power) (N.back run.node run.cluster) run host.new out.old out.new x d) }
    ensures err { (run : Run) (x : Standing) (d : Device) → IsHost (sight N.seen ⟦<Log<D> as Journal>⟧.state D.told D.content D.power) (N.back run.node run.cluster) run host.old x d
        → OnErr result (IsHost (sight N.seen ⟦<Log<D> as Journal>⟧.state D.told D.content D.power) (N.back run.node run.cluster) run host.new x d) }
    ensures out { OnErr result (out.new ≡ out.old) }
    ensures same { is_up host.new ≡ is_up host.old }
    ensures up { IfUp host.new (λ node. (N.seen node).stopped ≡ false) }
    ensures there { IsThere host.old → IsThere host.new }
    ensures grew { (ended : Told) → IsToldBy (sight N.seen ⟦<Log<D> as Journal>⟧.state D.told D.content D.power) host.new ended → IsToldBy (sight N.seen ⟦<Log<D> as Journal>⟧.state D.told D.content D.power) host.old ended }
{
    if let Host::Up(node) = host {
        return match node.act(&Cause::Catches, out) {
            Ok(()) => Ok(()),
            Err(_) => Err(NoMemory),
        };
    }
    Ok(())
}

/// A node that is down starts from its log, with nothing that a stop loses, and asks the others for the outcomes that it missed; the log is
/// opened first, unless that was done since the node stopped. At a refusal nothing is asked: after `NoMemory` the node is down still, and its
/// disk may have been synced and read; after `DiskFailed` the host has its disk.
pub fn rejoin<D: Disk, N: Node<Log<D>>>(
    alloc: Global,
    node: NodeId,
    cluster: &Cluster,
    host: &mut Host<N, Log<D>, D>,
    out: &mut Outbox,
) -> Result<(), RestartFault>
    requires kind { N.is_kind node cluster.now }
    requires up { IfUp host.old (λ node. (N.seen node).stopped ≡ false) }
    ensures ok { (run : Run) (x : Standing) (d : Device) → run.node ≡ node → run.cluster ≡ cluster.now → is_up host.old ≡ false → IsHost (sight N.seen ⟦<Log<D> as Journal>⟧.state D.told D.content D.power) (N.back run.node run.cluster) run host.old x d
        → IsToldBy (sight N.seen ⟦<Log<D> as Journal>⟧.state D.told D.content D.power) host.new run.ended
        → IfOk result (λ _. HasRejoined (sight N.seen ⟦<Log<D> as Journal>⟧.state D.told D.content D.power) (N.back run.node run.cluster) run host.new out.old out.new x d) }
    ensures err { (run : Run) (x : Standing) (d : Device) → run.node ≡ node → run.cluster ≡ cluster.now → is_up host.old ≡ false → IsHost (sight N.seen ⟦<Log<D> as Journal>⟧.state D.told D.content D.power) (N.back run.node run.cluster) run host.old x d
        → IsToldBy (sight N.seen ⟦<Log<D> as Journal>⟧.state D.told D.content D.power) host.new run.ended
        → IfErr result (λ fault. HasNotRejoined (sight N.seen ⟦<Log<D> as Journal>⟧.state D.told D.content D.power) (N.back run.node run.cluster) run fault host.new x d) }
    ensures out { OnErr result (out.new ≡ out.old) }
    ensures up { IfUp host.new (λ node. (N.seen node).stopped ≡ false) }
    ensures there { IsThere host.old → IsThere host.new }
    ensures grew { (ended : Told) → IsToldBy (sight N.seen ⟦<Log<D> as Journal>⟧.state D.told D.content D.power) host.new ended → IsToldBy (sight N.seen ⟦<Log<D> as Journal>⟧.state D.told D.content D.power) host.old ended }
{
    if let Err(fault) = restart(alloc, node, cluster, host) {
        return Err(fault);
    }
    if let Err(NoMemory) = ask(host, out) {
        crash(host);
        return Err(RestartFault::NoMemory);
    }
    Ok(())
}
