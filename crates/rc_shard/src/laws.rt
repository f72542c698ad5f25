// A law of a shard server's records.
ghost use Rattle.std.specs.Prelude.{◌≡◌, ℕ, List, Option, Some, Ok, IfSome};
ghost use Rattle.rc_ids.specs.Cluster.{Layout};
ghost use Rattle.rc_ids.specs.declared.names.NodeId.{NodeId};
ghost use Rattle.rc_record.specs.InOrder.{shown};
ghost use Rattle.rc_record.specs.Replay.{shard_replay};
ghost use Rattle.rc_record.specs.ShardState.{ShardDurable};
ghost use Rattle.rc_record.specs.Spelling.{HasRecord};
ghost use Rattle.rc_protocol.specs.Acts.{NodeCause, shard_act};
ghost use Rattle.rc_protocol.specs.Nodes.{applied};
ghost use Rattle.rc_protocol.specs.Shard.{ShardVolatile};
ghost use Rattle.rc_node.specs.Acts.{shard_does};
ghost use Rattle.rc_shard.specs.Replays.{GivesBack, with_record};

use rc_record::{order_laws, record_laws};

/// Records that give a durable state back do so in a replay, and still do after an act whose record has a spelling.
pub fn replay_laws()
    ensures replays { (node : NodeId) (c : Layout) (log : List (List ℕ)) (s : ShardDurable) (back : GivesBack node c log s) → (shard_replay node c log ≡ Ok back.kept) × (shown back.kept ≡ s) }
    ensures keeps { (node : NodeId) (c : Layout) (log : List (List ℕ)) (d sh : ℕ) (s : ShardDurable) (v : ShardVolatile) (cause : NodeCause) → let act = shard_does s (shard_act c d sh s v cause) in GivesBack node c log s → IfSome act.logs HasRecord → GivesBack node c (with_record log act.logs) act.durable }
{
    record_laws();
    order_laws();
}
