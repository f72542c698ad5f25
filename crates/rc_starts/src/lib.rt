//! How a life begins: what a session takes from the logs that it finds is a start of the life that left them. So the laws over every
//! life hold of a run on stored logs.
#![tactic(auto)]

ghost use Rattle.std.specs.Prelude.{List, map};
ghost use Rattle.rc_ids.specs.Cluster.{Layout, IsLayout};
ghost use Rattle.rc_record.specs.declared.record.Record.{Record};
ghost use Rattle.rc_protocol.specs.Nodes.{CoordNode, ShardNode, coord_started, shard_started};
ghost use Rattle.rc_runs.specs.World.{World};
ghost use Rattle.rc_claims.specs.Lives.{IsLife, IsStartOf, SayWhat};
ghost use Rattle.rc_runs.specs.Starts.{start_of};
ghost use Rattle.rc_starts.specs.Kinds.{CoordNamesFollow, ShardNamesFollow};

/// The transactions named and committed that the logs of all nodes give are those of the life that left these logs, or logs that say the
/// same.
pub fn logs_tell()
    ensures left { (c : Layout) → IsLayout c → (earlier : List World) (v : World) → IsLife c earlier v
        → IsStartOf v (start_of c (map (λ (x : CoordNode). coord_started x.log) v.parties.coords) (map (λ (x : ShardNode). shard_started x.log) v.parties.shards)) }
    ensures same { (c : Layout) → IsLayout c → (earlier : List World) (v : World) → IsLife c earlier v → (coords shards : List (List Record)) → SayWhat v coords shards
        → IsStartOf v (start_of c (map coord_started coords) (map shard_started shards)) }
{}

/// Two logs of one replay name the same transactions, where each holds records of its node's own kind alone. So the replays and the votes of
/// such logs are all that logs have to keep to say the same.
pub fn names_follow()
    ensures coords { (rs qs : List Record) → CoordNamesFollow rs qs }
    ensures shards { (rs qs : List Record) → ShardNamesFollow rs qs }
{}
