// A node that is stopped between two messages, and the disk of a host.
ghost use Rattle.std.specs.Prelude.{◌≡◌, ◌≤◌, ℕ, false, true, is_some, IfSome};
ghost use Rattle.std.specs.Option.{option_map};
ghost use Rattle.rc_disk.specs.declared.power.Power.TheVariants.{On};
ghost use Rattle.rc_disk.specs.Calls.{Told, powered as powered_disk};
ghost use Rattle.rc_runs.specs.Devices.{Device, powered, armed};
ghost use Rattle.rc_devices.specs.Disks.{IsKept};
ghost use Rattle.rc_host.specs.Standing.{Standing, stopped};
ghost use Rattle.rc_host.specs.Hosts.{IsThere, Run, sight, is_up, IfUp, IsHost, IsToldBy};
ghost use Rattle.rc_host.specs.Disks.{told_by, content_by, can_leave, LeavesLog};

use crate::{Host, Node};
use rc_disk::Disk;
use rc_log::{Journal, Log};
use std::mem;

/// A node that is up stops between two messages: what a stop loses is lost, its disk has its power, and no cut of it is armed. A node that
/// is down stays as it is.
pub fn crash<D: Disk, N: Node<Log<D>>>(host: &mut Host<N, Log<D>, D>)
    ensures stops { (run : Run) (x : Standing) (d : Device) → is_up host.old ≡ true → IsHost (sight N.seen ⟦<Log<D> as Journal>⟧.state D.told D.content D.power) (N.back run.node run.cluster) run host.old x d
        → IsHost (sight N.seen ⟦<Log<D> as Journal>⟧.state D.told D.content D.power) (N.back run.node run.cluster) run host.new (stopped x) (powered d) }
    ensures idle { is_up host.old ≡ false → host.new ≡ host.old }
    ensures down { is_up host.new ≡ false }
    ensures there { IsThere host.old → IsThere host.new }
    ensures grew { (ended : Told) → IsToldBy (sight N.seen ⟦<Log<D> as Journal>⟧.state D.told D.content D.power) host.new ended → IsToldBy (sight N.seen ⟦<Log<D> as Journal>⟧.state D.told D.content D.power) host.old ended }
{
    match mem::replace(host, Host::Lent) {
        Host::Up(node) => {
            let mut disk = node.into_journal().into_disk();
            disk.power_on();
            *host = Host::Down(disk);
        }
        other => *host = other,
    }
}

/// Arms a cut of the power at the k-th device call from now of a node that is up. A node that is down stays as it is.
pub fn arm<D: Disk, N: Node<Log<D>>>(host: &mut Host<N, Log<D>, D>, k: u64, pick: u8)
    requires up { IfUp host.old (λ node. (N.seen node).stopped ≡ false) }
    requires call { 1 ≤ k }
    requires pick { pick ≤ 3 }
    ensures arms { (run : Run) (x : Standing) (d : Device) → is_up host.old ≡ true → IsHost (sight N.seen ⟦<Log<D> as Journal>⟧.state D.told D.content D.power) (N.back run.node run.cluster) run host.old x d
        → IsHost (sight N.seen ⟦<Log<D> as Journal>⟧.state D.told D.content D.power) (N.back run.node run.cluster) run host.new x (armed d k pick) }
    ensures idle { is_up host.old ≡ false → host.new ≡ host.old }
    ensures same { is_up host.new ≡ is_up host.old }
    ensures there { IsThere host.old → IsThere host.new }
    ensures up { IfUp host.new (λ node. (N.seen node).stopped ≡ false) }
    ensures grew { (ended : Told) → IsToldBy (sight N.seen ⟦<Log<D> as Journal>⟧.state D.told D.content D.power) host.new ended → IsToldBy (sight N.seen ⟦<Log<D> as Journal>⟧.state D.told D.content D.power) host.old ended }
{
    if let Host::Up(node) = host {
        node.power_cut(k, pick);
    }
}

/// The disk of a host, with its power on.
pub fn into_disk<D: Disk, N: Node<Log<D>>>(host: Host<N, Log<D>, D>) -> D
    requires { IsThere host }
    ensures on { D.power result ≡ On }
    ensures told { D.told result ≡ option_map powered_disk (told_by (sight N.seen ⟦<Log<D> as Journal>⟧.state D.told D.content D.power) host) }
    ensures content { IfSome (D.content result) (can_leave N.seen ⟦<Log<D> as Journal>⟧.may_leave D.may_leave host) }
    ensures tells { is_some (D.content result) ≡ is_some (content_by (sight N.seen ⟦<Log<D> as Journal>⟧.state D.told D.content D.power) host) }
    ensures log { (run : Run) (x : Standing) (d : Device) → IsHost (sight N.seen ⟦<Log<D> as Journal>⟧.state D.told D.content D.power) (N.back run.node run.cluster) run host x d → LeavesLog (D.content result) (N.back run.node run.cluster) x }
    ensures grew { (ended : Told) → IfSome (D.told result) (λ t. IsKept t ended) → IsToldBy (sight N.seen ⟦<Log<D> as Journal>⟧.state D.told D.content D.power) host ended }
{
    let mut disk = match host {
        Host::Up(node) => node.into_journal().into_disk(),
        Host::Opened(log, _records) => log.into_disk(),
        Host::Down(disk) => disk,
        Host::Lent => unreachable!(),
    };
    disk.power_on();
    disk
}
