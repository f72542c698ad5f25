// Counting over datacentres and shards.
ghost use Rattle.std.specs.Prelude.{◌≡◌, ◌≤◌, ◌&&◌, ◌||◌, not, filter};
ghost use Rattle.std.specs.List.{list_all};
ghost use Rattle.std.specs.Ordering.{nat_cmp};
ghost use Rattle.rc_ids.specs.Tables.{member};
ghost use Rattle.rc_ids.specs.Cluster.{all_dcs};
ghost use Rattle.rc_ids.specs.Cluster as cluster_spec;
ghost use Rattle.rc_body.specs.Bodies.{touches, touched};

use rc_body::Body;
use rc_ids::{Cluster, DcId, DcSet, ShardId, ShardSet};

/// How many datacentres there are.
pub fn dc_count(cluster: &Cluster) -> u8
    ensures count { result ≡ cluster.now.dcs }
    ensures few { result ≤ 7 }
{
    cluster.dcs()
}

/// How many shards there are.
pub fn shard_count(cluster: &Cluster) -> u8
    ensures count { result ≡ cluster.now.shards }
    ensures few { result ≤ 8 }
{
    cluster.shards()
}

/// Whether the datacentre is in the world.
pub fn is_dc(cluster: &Cluster, dc: DcId) -> bool
    ensures { result ≡ cluster_spec.is_dc cluster.now dc }
{
    1 <= dc.0 && dc.0 <= cluster.dcs()
}

/// Whether a datacentre of the world has the shard.
pub fn is_shard(cluster: &Cluster, shard: ShardId) -> bool
    ensures { result ≡ cluster_spec.is_shard cluster.now shard }
{
    1 <= shard.0 && shard.0 <= cluster.shards()
}

fn both(first: bool, second: bool) -> bool
    ensures { result ≡ (first && second) }
{
    first && second
}

/// Whether all datacentres are in the set.
#[tactic(auto, using(crate::proofs::CountFacts::all_more))]
pub fn hears_all(cluster: &Cluster, heard: &DcSet) -> bool
    ensures { result ≡ list_all (member nat_cmp heard.now) (all_dcs cluster.now) }
{
    let mut all = true;
    for place in 0..dc_count(cluster) {
        all = both(all, heard.has(DcId(place + 1)));
    }
    all
}

/// Whether the shard has no key of the body, or is in the set.
fn passes(cluster: &Cluster, body: &Body, yes: &ShardSet, shard: ShardId) -> bool
    ensures { result ≡ (not (touches cluster.now body.now shard) || member nat_cmp yes.now shard) }
{
    !body.touches(cluster, shard) || yes.has(shard)
}

/// Whether all shards that have a key of the body are in the set.
#[tactic(auto, using(crate::proofs::CountFacts::chosen_more))]
pub fn has_all(cluster: &Cluster, body: &Body, yes: &ShardSet) -> bool
    ensures { result ≡ list_all (member nat_cmp yes.now) (touched cluster.now body.now) }
{
    let mut all = true;
    for place in 0..shard_count(cluster) {
        all = both(all, passes(cluster, body, yes, ShardId(place + 1)));
    }
    all
}
