// Nodes that are down start from their logs.
ghost use Rattle.std.specs.Prelude.{◌≡◌, ◌<◌, [], ◌∷◌, ℕ, true, false, length, None, IfOk, IfErr, IsTrue};
ghost use Rattle.std.specs.List.{list_all};
ghost use Rattle.rc_ids.specs.Cluster.{is_dc};
ghost use Rattle.rc_ids.specs.declared.names.NodeId.TheVariants.{Coord as Coordinator, Shard as ShardServer};
ghost use Rattle.rc_ids.specs.declared.names.Party.TheVariants.{Node as NodeParty};
ghost use Rattle.rc_msg.specs.Outboxes.{new_outbox};
ghost use Rattle.rc_report.specs.declared.line.Line.TheVariants.{Up};
ghost use Rattle.rc_protocol.specs.Nodes.{coord_index, shard_index};
ghost use Rattle.rc_runs.specs.declared.event.Event.TheVariants.{Restart};
ghost use Rattle.rc_runs.specs.Session.{Session};
ghost use Rattle.rc_runs.specs.World.{is_up, is_shard_of as is_of_world};
ghost use Rattle.rc_host.specs.AnyNode.{IsCoordinator, IsShardServer, coord_seen, shard_seen};
ghost use Rattle.rc_host.specs.Hosts.{sight};
ghost use Rattle.rc_begin.specs.Places.{AreAt};
ghost use Rattle.rc_begin.specs.Wells.{is_well};
ghost use Rattle.rc_begin.specs.Hosts.{Runs, IsCoord, IsShard, CoordsAreTold, ShardsAreTold};
ghost use Rattle.rc_world.specs.Acted.{ShardsActed};
ghost use Rattle.rc_world.specs.CoordActed.{CoordsActed};
ghost use Rattle.rc_world.specs.Turns.{start_fault};
ghost use Rattle.rc_world.specs.Refused.{StartRefused};

use crate::WorldFault;
use rc_begin::{CoordHost, ShardHost};
use rc_disk::Disk;
use rc_host::{RestartFault, rejoin};
use rc_ids::{Cluster, NodeId};
use rc_log::{Journal, Log};
use rc_msg::Outbox;
use std::alloc::Global;

/// What a fault of a start is to its world. A log that was written in the run is never refused.
fn world_fault(fault: RestartFault) -> WorldFault
    ensures { result ≡ start_fault fault }
{
    match fault {
        RestartFault::NoMemory => WorldFault::NoMemory,
        RestartFault::DiskFailed => WorldFault::Farm,
        RestartFault::Refused(_) => WorldFault::Farm,
    }
}

/// A coordinator that is down starts from its log, and asks the others for the outcomes that it missed.
pub(crate) fn coord_starts<D: Disk>(
    alloc: Global,
    cluster: &Cluster,
    coords: &mut Vec<CoordHost<D>>,
    place: usize,
    node: &NodeId,
    out: &mut Outbox,
) -> Result<(), WorldFault>
    requires well { IsTrue (list_all (is_well (λ n. n.stopped)) coords.old.items) }
    requires within { place < length coords.old.items }
    requires kind { IsCoordinator node.now cluster.now }
    requires empty { out.old ≡ new_outbox (NodeParty node.now) }
    ensures well { IsTrue (list_all (is_well (λ n. n.stopped)) coords.new.items) }
    ensures count { length coords.new.items ≡ length coords.old.items }
    ensures ok { (r : Runs) (z : Session) (dc : ℕ) → node.now ≡ Coordinator dc → r.cluster ≡ cluster.now → z.world.parties.layout ≡ r.cluster → is_dc r.cluster dc ≡ true → place ≡ coord_index dc → is_up z.world.parties (Coordinator dc) ≡ false
        → AreAt (IsCoord (sight coord_seen ⟦<Log<D> as Journal>⟧.state D.told D.content D.power) r) coords.old.items z.world.parties.coords z.coords → CoordsAreTold (sight coord_seen ⟦<Log<D> as Journal>⟧.state D.told D.content D.power) r coords.new.items
        → IfOk result (λ _. CoordsActed (sight coord_seen ⟦<Log<D> as Journal>⟧.state D.told D.content D.power) r z (Restart (Coordinator dc)) dc (Coordinator dc) coords.new.items out.new (Up (Coordinator dc) ∷ []) None) }
    ensures err { (r : Runs) (z : Session) (dc : ℕ) → node.now ≡ Coordinator dc → r.cluster ≡ cluster.now → z.world.parties.layout ≡ r.cluster → is_dc r.cluster dc ≡ true → place ≡ coord_index dc → is_up z.world.parties (Coordinator dc) ≡ false
        → AreAt (IsCoord (sight coord_seen ⟦<Log<D> as Journal>⟧.state D.told D.content D.power) r) coords.old.items z.world.parties.coords z.coords → CoordsAreTold (sight coord_seen ⟦<Log<D> as Journal>⟧.state D.told D.content D.power) r coords.new.items
        → IfErr result (λ fault. StartRefused z (Restart (Coordinator dc)) (λ devices. AreAt (IsCoord (sight coord_seen ⟦<Log<D> as Journal>⟧.state D.told D.content D.power) r) coords.new.items z.world.parties.coords devices) fault) }
    ensures grew { (r : Runs) → CoordsAreTold (sight coord_seen ⟦<Log<D> as Journal>⟧.state D.told D.content D.power) r coords.new.items → CoordsAreTold (sight coord_seen ⟦<Log<D> as Journal>⟧.state D.told D.content D.power) r coords.old.items }
{
    match rejoin(alloc, *node, cluster, &mut coords[place], out) {
        Ok(()) => Ok(()),
        Err(fault) => Err(world_fault(fault)),
    }
}

/// A shard server that is down starts from its log, and asks the others for the outcomes that it missed.
pub(crate) fn shard_starts<D: Disk>(
    alloc: Global,
    cluster: &Cluster,
    shards: &mut Vec<ShardHost<D>>,
    place: usize,
    node: &NodeId,
    out: &mut Outbox,
) -> Result<(), WorldFault>
    requires well { IsTrue (list_all (is_well (λ n. n.stopped)) shards.old.items) }
    requires within { place < length shards.old.items }
    requires kind { IsShardServer node.now }
    requires empty { out.old ≡ new_outbox (NodeParty node.now) }
    ensures well { IsTrue (list_all (is_well (λ n. n.stopped)) shards.new.items) }
    ensures count { length shards.new.items ≡ length shards.old.items }
    ensures ok { (r : Runs) (z : Session) (dc shard : ℕ) → node.now ≡ ShardServer dc shard → r.cluster ≡ cluster.now → z.world.parties.layout ≡ r.cluster → is_of_world r.cluster dc shard ≡ true → place ≡ shard_index r.cluster dc shard → is_up z.world.parties (ShardServer dc shard) ≡ false
        → AreAt (IsShard (sight shard_seen ⟦<Log<D> as Journal>⟧.state D.told D.content D.power) r) shards.old.items z.world.parties.shards z.shards → ShardsAreTold (sight shard_seen ⟦<Log<D> as Journal>⟧.state D.told D.content D.power) r shards.new.items
        → IfOk result (λ _. ShardsActed (sight shard_seen ⟦<Log<D> as Journal>⟧.state D.told D.content D.power) r z (Restart (ShardServer dc shard)) (ShardServer dc shard) shards.new.items out.new (Up (ShardServer dc shard) ∷ [])) }
    ensures err { (r : Runs) (z : Session) (dc shard : ℕ) → node.now ≡ ShardServer dc shard → r.cluster ≡ cluster.now → z.world.parties.layout ≡ r.cluster → is_of_world r.cluster dc shard ≡ true → place ≡ shard_index r.cluster dc shard → is_up z.world.parties (ShardServer dc shard) ≡ false
        → AreAt (IsShard (sight shard_seen ⟦<Log<D> as Journal>⟧.state D.told D.content D.power) r) shards.old.items z.world.parties.shards z.shards → ShardsAreTold (sight shard_seen ⟦<Log<D> as Journal>⟧.state D.told D.content D.power) r shards.new.items
        → IfErr result (λ fault. StartRefused z (Restart (ShardServer dc shard)) (λ devices. AreAt (IsShard (sight shard_seen ⟦<Log<D> as Journal>⟧.state D.told D.content D.power) r) shards.new.items z.world.parties.shards devices) fault) }
    ensures grew { (r : Runs) → ShardsAreTold (sight shard_seen ⟦<Log<D> as Journal>⟧.state D.told D.content D.power) r shards.new.items → ShardsAreTold (sight shard_seen ⟦<Log<D> as Journal>⟧.state D.told D.content D.power) r shards.old.items }
{
    match rejoin(alloc, *node, cluster, &mut shards[place], out) {
        Ok(()) => Ok(()),
        Err(fault) => Err(world_fault(fault)),
    }
}
