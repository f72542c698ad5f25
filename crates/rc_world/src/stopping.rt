// Nodes that are up stop between two messages, or have the power of their disks cut later.
ghost use Rattle.std.specs.Prelude.{◌≡◌, ◌<◌, ◌≤◌, [], ◌∷◌, ℕ, true, length, None, IsTrue};
ghost use Rattle.std.specs.List.{list_all};
ghost use Rattle.rc_ids.specs.Cluster.{is_dc};
ghost use Rattle.rc_ids.specs.declared.names.NodeId.TheVariants.{Coord as Coordinator, Shard as ShardServer};
ghost use Rattle.rc_ids.specs.declared.names.Party.TheVariants.{Node as NodeParty};
ghost use Rattle.rc_msg.specs.Outboxes.{new_outbox};
ghost use Rattle.rc_report.specs.declared.line.Line.TheVariants.{Stopped};
ghost use Rattle.rc_protocol.specs.Nodes.{coord_index, shard_index};
ghost use Rattle.rc_runs.specs.declared.event.Event.TheVariants.{Crash, CrashAt};
ghost use Rattle.rc_runs.specs.Session.{Session};
ghost use Rattle.rc_runs.specs.World.{is_up, is_shard_of as is_of_world};
ghost use Rattle.rc_host.specs.AnyNode.{coord_seen, shard_seen};
ghost use Rattle.rc_host.specs.Hosts.{sight};
ghost use Rattle.rc_begin.specs.Places.{AreAt};
ghost use Rattle.rc_begin.specs.Wells.{is_well};
ghost use Rattle.rc_begin.specs.Hosts.{Runs, IsCoord, IsShard, CoordsAreTold, ShardsAreTold};
ghost use Rattle.rc_world.specs.Acted.{ShardsActed};
ghost use Rattle.rc_world.specs.CoordActed.{CoordsActed};

use rc_begin::{CoordHost, ShardHost};
use rc_disk::Disk;
use rc_host::{arm, crash};
use rc_log::{Journal, Log};

/// A coordinator that is up stops.
pub(crate) fn coord_stops<D: Disk>(coords: &mut Vec<CoordHost<D>>, place: usize)
    requires well { IsTrue (list_all (is_well (λ n. n.stopped)) coords.old.items) }
    requires within { place < length coords.old.items }
    ensures well { IsTrue (list_all (is_well (λ n. n.stopped)) coords.new.items) }
    ensures count { length coords.new.items ≡ length coords.old.items }
    ensures stops { (r : Runs) (z : Session) (dc : ℕ) → z.world.parties.layout ≡ r.cluster → is_dc r.cluster dc ≡ true → place ≡ coord_index dc → is_up z.world.parties (Coordinator dc) ≡ true
        → AreAt (IsCoord (sight coord_seen ⟦<Log<D> as Journal>⟧.state D.told D.content D.power) r) coords.old.items z.world.parties.coords z.coords
        → CoordsActed (sight coord_seen ⟦<Log<D> as Journal>⟧.state D.told D.content D.power) r z (Crash (Coordinator dc)) dc (Coordinator dc) coords.new.items (new_outbox (NodeParty (Coordinator dc))) (Stopped (Coordinator dc) ∷ []) None }
    ensures grew { (r : Runs) → CoordsAreTold (sight coord_seen ⟦<Log<D> as Journal>⟧.state D.told D.content D.power) r coords.new.items → CoordsAreTold (sight coord_seen ⟦<Log<D> as Journal>⟧.state D.told D.content D.power) r coords.old.items }
{
    crash(&mut coords[place]);
}

/// A shard server that is up stops.
pub(crate) fn shard_stops<D: Disk>(shards: &mut Vec<ShardHost<D>>, place: usize)
    requires well { IsTrue (list_all (is_well (λ n. n.stopped)) shards.old.items) }
    requires within { place < length shards.old.items }
    ensures well { IsTrue (list_all (is_well (λ n. n.stopped)) shards.new.items) }
    ensures count { length shards.new.items ≡ length shards.old.items }
    ensures stops { (r : Runs) (z : Session) (dc shard : ℕ) → z.world.parties.layout ≡ r.cluster → is_of_world r.cluster dc shard ≡ true → place ≡ shard_index r.cluster dc shard → is_up z.world.parties (ShardServer dc shard) ≡ true
        → AreAt (IsShard (sight shard_seen ⟦<Log<D> as Journal>⟧.state D.told D.content D.power) r) shards.old.items z.world.parties.shards z.shards
        → ShardsActed (sight shard_seen ⟦<Log<D> as Journal>⟧.state D.told D.content D.power) r z (Crash (ShardServer dc shard)) (ShardServer dc shard) shards.new.items (new_outbox (NodeParty (ShardServer dc shard))) (Stopped (ShardServer dc shard) ∷ []) }
    ensures grew { (r : Runs) → ShardsAreTold (sight shard_seen ⟦<Log<D> as Journal>⟧.state D.told D.content D.power) r shards.new.items → ShardsAreTold (sight shard_seen ⟦<Log<D> as Journal>⟧.state D.told D.content D.power) r shards.old.items }
{
    crash(&mut shards[place]);
}

/// The power of a coordinator's disk is to be cut at its k-th call from now on.
pub(crate) fn coord_arms<D: Disk>(coords: &mut Vec<CoordHost<D>>, place: usize, k: u64, pick: u8)
    requires well { IsTrue (list_all (is_well (λ n. n.stopped)) coords.old.items) }
    requires within { place < length coords.old.items }
    requires call { 1 ≤ k }
    requires pick { pick ≤ 3 }
    ensures well { IsTrue (list_all (is_well (λ n. n.stopped)) coords.new.items) }
    ensures count { length coords.new.items ≡ length coords.old.items }
    ensures arms { (r : Runs) (z : Session) (dc : ℕ) → z.world.parties.layout ≡ r.cluster → is_dc r.cluster dc ≡ true → place ≡ coord_index dc → is_up z.world.parties (Coordinator dc) ≡ true
        → AreAt (IsCoord (sight coord_seen ⟦<Log<D> as Journal>⟧.state D.told D.content D.power) r) coords.old.items z.world.parties.coords z.coords
        → CoordsActed (sight coord_seen ⟦<Log<D> as Journal>⟧.state D.told D.content D.power) r z (CrashAt (Coordinator dc) k pick) dc (Coordinator dc) coords.new.items (new_outbox (NodeParty (Coordinator dc))) [] None }
    ensures grew { (r : Runs) → CoordsAreTold (sight coord_seen ⟦<Log<D> as Journal>⟧.state D.told D.content D.power) r coords.new.items → CoordsAreTold (sight coord_seen ⟦<Log<D> as Journal>⟧.state D.told D.content D.power) r coords.old.items }
{
    arm(&mut coords[place], k, pick);
}

/// The power of a shard server's disk is to be cut at its k-th call from now on.
pub(crate) fn shard_arms<D: Disk>(shards: &mut Vec<ShardHost<D>>, place: usize, k: u64, pick: u8)
    requires well { IsTrue (list_all (is_well (λ n. n.stopped)) shards.old.items) }
    requires within { place < length shards.old.items }
    requires call { 1 ≤ k }
    requires pick { pick ≤ 3 }
    ensures well { IsTrue (list_all (is_well (λ n. n.stopped)) shards.new.items) }
    ensures count { length shards.new.items ≡ length shards.old.items }
    ensures arms { (r : Runs) (z : Session) (dc shard : ℕ) → z.world.parties.layout ≡ r.cluster → is_of_world r.cluster dc shard ≡ true → place ≡ shard_index r.cluster dc shard → is_up z.world.parties (ShardServer dc shard) ≡ true
        → AreAt (IsShard (sight shard_seen ⟦<Log<D> as Journal>⟧.state D.told D.content D.power) r) shards.old.items z.world.parties.shards z.shards
        → ShardsActed (sight shard_seen ⟦<Log<D> as Journal>⟧.state D.told D.content D.power) r z (CrashAt (ShardServer dc shard) k pick) (ShardServer dc shard) shards.new.items (new_outbox (NodeParty (ShardServer dc shard))) [] }
    ensures grew { (r : Runs) → ShardsAreTold (sight shard_seen ⟦<Log<D> as Journal>⟧.state D.told D.content D.power) r shards.new.items → ShardsAreTold (sight shard_seen ⟦<Log<D> as Journal>⟧.state D.told D.content D.power) r shards.old.items }
{
    arm(&mut shards[place], k, pick);
}
