// A shard server is a node.
ghost use Rattle.rc_record.specs.InOrder.{shown};
ghost use Rattle.rc_record.specs.Replay.{shard_replay};
ghost use Rattle.rc_host.specs.AnyNode.{OfShard, IsShardServer, shard_seen, shard_back};
ghost use Rattle.rc_host.specs.ShardLogs.{shard_gives_back, shard_begins};

use crate::{Cause, Node};
use rc_ids::{Blobs, Cluster, NoMemory, NodeId};
use rc_locks::LockTable;
use rc_log::Journal;
use rc_msg::Outbox;
use rc_node::NodeFault;
use rc_record::{ReplayFault, ShardDurable, record_laws, replay_shard};
use rc_shard::{Shard, replay_laws};
use std::alloc::Global;

impl<J: Journal, L: LockTable> Node<J> for Shard<J, L> {
    type Durable = ShardDurable;

    ghost seen = { λ server. shard_seen server };

    ghost gives = { λ durable. OfShard (shown durable) };

    ghost back = { shard_back };

    ghost is_kind = { λ node cluster. IsShardServer node };

    fn restart(
        alloc: Global,
        node: NodeId,
        cluster: &Cluster,
        journal: J,
        durable: ShardDurable,
    ) -> Result<Self, (NoMemory, J)> {
        Shard::restart(alloc, node, cluster, journal, durable)
    }

    fn act(&mut self, cause: &Cause<'_>, out: &mut Outbox) -> Result<(), NodeFault> {
        match cause {
            Cause::Came(from, msg) => Shard::handle(self, *from, msg, out),
            Cause::Catches => Ok(Shard::catch(self, out)?),
            Cause::Takes(_) => Ok(()),
        }
    }

    fn stopped(&self) -> bool {
        Shard::stopped(self)
    }

    fn into_journal(self) -> J {
        Shard::into_journal(self)
    }

    fn power_cut(&mut self, k: u64, pick: u8) {
        Shard::power_cut(self, k, pick)
    }

    fn logged_acts() {
        record_laws();
        replay_laws();
    }

    ghost replayed = { shard_replay };

    fn replay(
        alloc: Global,
        node: NodeId,
        cluster: &Cluster,
        blobs: &Blobs,
    ) -> Result<ShardDurable, ReplayFault> {
        replay_shard(alloc, node, cluster, blobs)
    }

    ghost gives_back = { shard_gives_back };

    ghost begins = { λ node cluster kind. shard_begins node cluster kind };
}
