//! Wholeness: a datacentre that applied part of a transaction keeps the rest. The laws are the contracts of a function that does
//! nothing, and hold at the end of every life of a store.
#![tactic(auto)]

ghost use Rattle.std.specs.Prelude.{List};
ghost use Rattle.rc_ids.specs.Cluster.{Layout, IsLayout};
ghost use Rattle.rc_runs.specs.World.{World};
ghost use Rattle.rc_claims.specs.Lives.{IsLife};
ghost use Rattle.rc_claims.specs.Whole.{AppliedIsWhole, IsCaughtUp};

/// What a shard applied stands whole in the list of its coordinator, and each shard that it touches has applied it or comes to it
/// there; and a shard has finished whatever concerns it below its place in the list.
pub fn wholeness()
    ensures applied { (c : Layout) → IsLayout c → (earlier : List World) (w : World) → IsLife c earlier w → AppliedIsWhole w }
    ensures caught_up { (c : Layout) → IsLayout c → (earlier : List World) (w : World) → IsLife c earlier w → IsCaughtUp w }
{}
