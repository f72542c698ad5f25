// Coordinators at their places.
ghost use Rattle.std.specs.Prelude.{◌≡◌, ◌<◌, [], ℕ, Bool, true, false, length, None, IfOk, IfErr, IfSome, IsTrue};
ghost use Rattle.std.specs.List.{list_all};
ghost use Rattle.rc_ids.specs.Cluster.{is_dc};
ghost use Rattle.rc_ids.specs.declared.names.NodeId.TheVariants.{Coord as Coordinator};
ghost use Rattle.rc_ids.specs.declared.names.Party.TheVariants.{Node as NodeParty};
ghost use Rattle.rc_msg.specs.Outboxes.{new_outbox};
ghost use Rattle.rc_record.specs.Spelling.{HasRecord};
ghost use Rattle.rc_disk.specs.Calls.{Told};
ghost use Rattle.rc_protocol.specs.Nodes.{CoordNode, coord_index};
ghost use Rattle.rc_runs.specs.Devices.{Device};
ghost use Rattle.rc_runs.specs.declared.event.Event.{Event as AnyEvent};
ghost use Rattle.rc_runs.specs.Session.{Session};
ghost use Rattle.rc_runs.specs.World.{deed, coord_does};
ghost use Rattle.rc_host.specs.AnyNode.{OfCoord, OfCoordNow, coord_back, coord_seen, node_act};
ghost use Rattle.rc_host.specs.Causes.{cause_of};
ghost use Rattle.rc_host.specs.Standing.{coord_standing};
ghost use Rattle.rc_host.specs.Hosts.{IfUp, IsHost, IsThere, IsToldBy, Run, count_in, is_up, sight};
ghost use Rattle.rc_host.specs.declared.host.Course.TheVariants.{Stops};
ghost use Rattle.rc_grammar.specs.Acts.{HasNodeCause};
ghost use Rattle.rc_grammar.specs.Worlds.{HasWorld};
ghost use Rattle.rc_begin.specs.declared.fault.WorldFault.TheVariants.{NoMemory as OutOfMemory};
ghost use Rattle.rc_begin.specs.Places.{AreAt};
ghost use Rattle.rc_begin.specs.Wells.{is_well};
ghost use Rattle.rc_begin.specs.Hosts.{Runs, IsCoord, CoordsAreTold};
ghost use Rattle.rc_world.specs.Steps.{IsDone};
ghost use Rattle.rc_world.specs.Turns.{TurnRefused};
ghost use Rattle.rc_world.specs.Votes.{votes_on, vote_if_up, vote_if_opened, vote_behind};
ghost use Rattle.rc_world.specs.CoordActed.{Voted, CoordsActed};
ghost use Rattle.rc_world.specs.Refused.{ActRefused};

use crate::WorldFault;
use crate::turns::turn;
use crate::votes::{Vote, vote_at_end, vote_since, voted_on};
use rc_begin::CoordHost;
use rc_disk::Disk;
use rc_grammar::coords_speak;
use rc_host::{Cause, Course, Host};
use rc_ids::{NoMemory, NodeId, TxId};
use rc_log::{Journal, Log};
use rc_msg::Outbox;
use rc_record::record_laws;
use rc_report::Lines;
use std::alloc::Global;

/// How many records a coordinator that is up has in its journal.
fn count_of<D: Disk>(host: &CoordHost<D>) -> u64
    ensures { result ≡ count_in (sight coord_seen ⟦<Log<D> as Journal>⟧.state D.told D.content D.power) host.now }
{
    match host {
        Host::Up(coord) => coord.count(),
        _ => 0,
    }
}

/// The vote on the transaction of a coordinator that is up, if its journal has more records than before.
fn vote_of<D: Disk>(host: &CoordHost<D>, tx: Option<TxId>, before: u64) -> Option<Vote>
    ensures { result ≡ vote_if_up ⟦<Log<D> as Journal>⟧.state host.now tx before }
{
    match host {
        Host::Up(coord) => vote_since(coord, tx, before),
        _ => None,
    }
}

/// The vote that the last record is of a coordinator whose log was opened since it stopped.
fn vote_kept<D: Disk>(alloc: Global, host: &CoordHost<D>) -> Result<Option<Vote>, NoMemory>
    ensures { IfOk result (λ vote. vote ≡ vote_if_opened host.now) }
{
    match host {
        Host::Opened(_, records) => vote_at_end(alloc, records),
        _ => Ok(None),
    }
}

/// The vote that an act left, which went so. It takes memory only where the coordinator stopped.
fn vote_left<D: Disk>(
    alloc: Global,
    host: &CoordHost<D>,
    course: Course,
    cause: &Cause<'_>,
    before: u64,
) -> Result<Option<Vote>, NoMemory>
    ensures value { IfOk result (λ vote. vote ≡ vote_behind ⟦<Log<D> as Journal>⟧.state host.now course (votes_on (cause_of cause.now)) before) }
    ensures err { IfErr result (λ _. (kept : Bool) × (course ≡ Stops kept)) }
{
    match course {
        Course::Goes => Ok(vote_of(host, voted_on(cause), before)),
        Course::Stops { kept: true } => vote_kept(alloc, host),
        Course::Stops { kept: false } => Ok(None),
    }
}

/// A coordinator, if it is up, does what moves it: what it sends, and the vote that this left in its log.
fn host_acts<D: Disk>(
    alloc: Global,
    host: &mut CoordHost<D>,
    node: &NodeId,
    cause: &Cause<'_>,
    lines: &mut Lines,
) -> Result<(Outbox, Option<Vote>), WorldFault>
    requires up { IfUp host.old (λ n. n.stopped ≡ false) }
    requires lines { lines.old ≡ [] }
    ensures up { IfUp host.new (λ n. n.stopped ≡ false) }
    ensures there { IsThere host.old → IsThere host.new }
    ensures ok { (run : Run) (dc : ℕ) (x : CoordNode) (d : Device) → run.node ≡ node.now → run.node ≡ Coordinator dc → x.up ≡ true → is_up host.old ≡ true
        → IsHost (sight coord_seen ⟦<Log<D> as Journal>⟧.state D.told D.content D.power) (coord_back run.node run.cluster) run host.old (coord_standing x) d
        → let act = node_act run.cluster run.node (OfCoord x.durable) (OfCoordNow x.volatile) (cause_of cause.now) in IfSome act.logs HasRecord → IsToldBy (sight coord_seen ⟦<Log<D> as Journal>⟧.state D.told D.content D.power) host.new run.ended
        → IfOk result (λ done. Voted (sight coord_seen ⟦<Log<D> as Journal>⟧.state D.told D.content D.power) (coord_back run.node run.cluster) run host.new done.0 done.1 lines.new (coord_standing x) d act) }
    ensures err { (run : Run) (x : CoordNode) (d : Device) → run.node ≡ node.now → is_up host.old ≡ true
        → IsHost (sight coord_seen ⟦<Log<D> as Journal>⟧.state D.told D.content D.power) (coord_back run.node run.cluster) run host.old (coord_standing x) d
        → let act = node_act run.cluster run.node (OfCoord x.durable) (OfCoordNow x.volatile) (cause_of cause.now) in IfSome act.logs HasRecord → IsToldBy (sight coord_seen ⟦<Log<D> as Journal>⟧.state D.told D.content D.power) host.new run.ended
        → IfErr result (λ fault. TurnRefused (sight coord_seen ⟦<Log<D> as Journal>⟧.state D.told D.content D.power) (coord_back run.node run.cluster) run fault host.new (coord_standing x) d act) }
    ensures grew { (ended : Told) → IsToldBy (sight coord_seen ⟦<Log<D> as Journal>⟧.state D.told D.content D.power) host.new ended → IsToldBy (sight coord_seen ⟦<Log<D> as Journal>⟧.state D.told D.content D.power) host.old ended }
    ensures idle { is_up host.old ≡ false → (host.new ≡ host.old) × (lines.new ≡ []) × IfOk result (λ done. (done.0 ≡ new_outbox (NodeParty node.now)) × (done.1 ≡ None)) × IfErr result (λ fault. fault ≡ OutOfMemory) }
{
    record_laws();
    let before = count_of(host);
    match turn(alloc, host, node, cause, lines) {
        Ok((out, course)) => match vote_left(alloc, host, course, cause, before) {
            Ok(vote) => Ok((out, vote)),
            Err(NoMemory) => Err(WorldFault::NoMemory),
        },
        Err(fault) => Err(fault),
    }
}

/// A coordinator, if it is up, does what moves it: what it sends, and the vote for a commit that this left in its log.
pub(crate) fn coord_acts<D: Disk>(
    alloc: Global,
    coords: &mut Vec<CoordHost<D>>,
    place: usize,
    node: &NodeId,
    cause: &Cause<'_>,
    lines: &mut Lines,
) -> Result<(Outbox, Option<Vote>), WorldFault>
    requires well { IsTrue (list_all (is_well (λ n. n.stopped)) coords.old.items) }
    requires within { place < length coords.old.items }
    requires lines { lines.old ≡ [] }
    ensures well { IsTrue (list_all (is_well (λ n. n.stopped)) coords.new.items) }
    ensures count { length coords.new.items ≡ length coords.old.items }
    ensures ok { (r : Runs) (z : Session) (e : AnyEvent) (dc : ℕ) → z.world.parties.layout ≡ r.cluster → HasWorld z.world → node.now ≡ Coordinator dc → is_dc r.cluster dc ≡ true → place ≡ coord_index dc
        → AreAt (IsCoord (sight coord_seen ⟦<Log<D> as Journal>⟧.state D.told D.content D.power) r) coords.old.items z.world.parties.coords z.coords → IsDone z e → deed z.world.parties z.world.sent e ≡ coord_does z.world.parties dc (cause_of cause.now)
        → HasNodeCause (cause_of cause.now) → CoordsAreTold (sight coord_seen ⟦<Log<D> as Journal>⟧.state D.told D.content D.power) r coords.new.items
        → IfOk result (λ done. CoordsActed (sight coord_seen ⟦<Log<D> as Journal>⟧.state D.told D.content D.power) r z e dc node.now coords.new.items done.0 lines.new done.1) }
    ensures err { (r : Runs) (z : Session) (e : AnyEvent) (dc : ℕ) → z.world.parties.layout ≡ r.cluster → HasWorld z.world → node.now ≡ Coordinator dc → is_dc r.cluster dc ≡ true → place ≡ coord_index dc
        → AreAt (IsCoord (sight coord_seen ⟦<Log<D> as Journal>⟧.state D.told D.content D.power) r) coords.old.items z.world.parties.coords z.coords → IsDone z e → deed z.world.parties z.world.sent e ≡ coord_does z.world.parties dc (cause_of cause.now)
        → HasNodeCause (cause_of cause.now) → CoordsAreTold (sight coord_seen ⟦<Log<D> as Journal>⟧.state D.told D.content D.power) r coords.new.items
        → IfErr result (λ fault. ActRefused z e (AreAt (IsCoord (sight coord_seen ⟦<Log<D> as Journal>⟧.state D.told D.content D.power) r) coords.new.items z.world.parties.coords z.coords) fault) }
    ensures grew { (r : Runs) → CoordsAreTold (sight coord_seen ⟦<Log<D> as Journal>⟧.state D.told D.content D.power) r coords.new.items
        → CoordsAreTold (sight coord_seen ⟦<Log<D> as Journal>⟧.state D.told D.content D.power) r coords.old.items }
{
    coords_speak();
    host_acts(alloc, &mut coords[place], node, cause, lines)
}
