// Shard servers at their places.
ghost use Rattle.std.specs.Prelude.{◌≡◌, ◌*◌, ◌<◌, [], ℕ, true, length, IfOk, IfErr, IsTrue};
ghost use Rattle.std.specs.List.{list_all};
ghost use Rattle.rc_protocol.specs.Nodes.{shard_index};
ghost use Rattle.rc_runs.specs.declared.event.Event.{Event as AnyEvent};
ghost use Rattle.rc_runs.specs.Session.{Session};
ghost use Rattle.rc_runs.specs.World.{deed, shard_does, is_shard_of as is_of_world};
ghost use Rattle.rc_ids.specs.declared.names.NodeId.TheVariants.{Shard as ShardServer};
ghost use Rattle.rc_host.specs.AnyNode.{shard_seen};
ghost use Rattle.rc_host.specs.Causes.{cause_of};
ghost use Rattle.rc_host.specs.Hosts.{sight};
ghost use Rattle.rc_grammar.specs.Acts.{HasNodeCause};
ghost use Rattle.rc_grammar.specs.Worlds.{HasWorld};
ghost use Rattle.rc_begin.specs.Places.{AreAt};
ghost use Rattle.rc_begin.specs.Wells.{is_well};
ghost use Rattle.rc_begin.specs.Hosts.{Runs, IsShard, ShardsAreTold};
ghost use Rattle.rc_world.specs.Steps.{IsDone};
ghost use Rattle.rc_world.specs.Acted.{ShardsActed};
ghost use Rattle.rc_world.specs.Refused.{ActRefused};

use crate::WorldFault;
use crate::turns::turn;
use rc_begin::ShardHost;
use rc_disk::Disk;
use rc_grammar::shards_speak;
use rc_host::Cause;
use rc_ids::{Cluster, DcId, NodeId, ShardId};
use rc_log::{Journal, Log};
use rc_msg::Outbox;
use rc_report::Lines;
use std::alloc::Global;

/// Whether the shard server is one of the world.
pub(crate) fn is_shard_of(cluster: &Cluster, dc: DcId, shard: ShardId) -> bool
    ensures { result ≡ is_of_world cluster.now dc shard }
{
    dc.0 <= cluster.dcs() && shard.0 <= cluster.shards()
}

/// The place of a shard server.
pub(crate) fn place_of(cluster: &Cluster, dc: DcId, shard: ShardId) -> usize
    requires { is_of_world cluster.now dc shard ≡ true }
    ensures place { result ≡ shard_index cluster.now dc shard }
    ensures within { result < cluster.now.dcs * cluster.now.shards }
{
    (dc.0 as usize - 1) * cluster.shards() as usize + (shard.0 as usize - 1)
}

/// A shard server, if it is one of the world and up, does what moves it: what it sends.
pub(crate) fn shard_acts<D: Disk>(
    alloc: Global,
    cluster: &Cluster,
    shards: &mut Vec<ShardHost<D>>,
    place: usize,
    node: &NodeId,
    cause: &Cause<'_>,
    lines: &mut Lines,
) -> Result<Outbox, WorldFault>
    requires well { IsTrue (list_all (is_well (λ n. n.stopped)) shards.old.items) }
    requires within { place < length shards.old.items }
    requires lines { lines.old ≡ [] }
    ensures well { IsTrue (list_all (is_well (λ n. n.stopped)) shards.new.items) }
    ensures count { length shards.new.items ≡ length shards.old.items }
    ensures ok { (r : Runs) (z : Session) (e : AnyEvent) (dc shard : ℕ) → r.cluster ≡ cluster.now → z.world.parties.layout ≡ r.cluster → HasWorld z.world → node.now ≡ ShardServer dc shard → is_of_world r.cluster dc shard ≡ true → place ≡ shard_index r.cluster dc shard
        → AreAt (IsShard (sight shard_seen ⟦<Log<D> as Journal>⟧.state D.told D.content D.power) r) shards.old.items z.world.parties.shards z.shards → IsDone z e → deed z.world.parties z.world.sent e ≡ shard_does z.world.parties dc shard (cause_of cause.now)
        → HasNodeCause (cause_of cause.now) → ShardsAreTold (sight shard_seen ⟦<Log<D> as Journal>⟧.state D.told D.content D.power) r shards.new.items
        → IfOk result (λ out. ShardsActed (sight shard_seen ⟦<Log<D> as Journal>⟧.state D.told D.content D.power) r z e node.now shards.new.items out lines.new) }
    ensures err { (r : Runs) (z : Session) (e : AnyEvent) (dc shard : ℕ) → r.cluster ≡ cluster.now → z.world.parties.layout ≡ r.cluster → HasWorld z.world → node.now ≡ ShardServer dc shard → is_of_world r.cluster dc shard ≡ true → place ≡ shard_index r.cluster dc shard
        → AreAt (IsShard (sight shard_seen ⟦<Log<D> as Journal>⟧.state D.told D.content D.power) r) shards.old.items z.world.parties.shards z.shards → IsDone z e → deed z.world.parties z.world.sent e ≡ shard_does z.world.parties dc shard (cause_of cause.now)
        → HasNodeCause (cause_of cause.now) → ShardsAreTold (sight shard_seen ⟦<Log<D> as Journal>⟧.state D.told D.content D.power) r shards.new.items
        → IfErr result (λ fault. ActRefused z e (AreAt (IsShard (sight shard_seen ⟦<Log<D> as Journal>⟧.state D.told D.content D.power) r) shards.new.items z.world.parties.shards z.shards) fault) }
    ensures grew { (r : Runs) → ShardsAreTold (sight shard_seen ⟦<Log<D> as Journal>⟧.state D.told D.content D.power) r shards.new.items
        → ShardsAreTold (sight shard_seen ⟦<Log<D> as Journal>⟧.state D.told D.content D.power) r shards.old.items }
{
    shards_speak();
    match turn(alloc, &mut shards[place], node, cause, lines) {
        Ok((out, _)) => Ok(out),
        Err(fault) => Err(fault),
    }
}
