// What is left of a set of shards.
ghost use Rattle.std.specs.Prelude.{◌≡◌, ◌&&◌, not, filter, if◌then◌else◌};
ghost use Rattle.std.specs.Ordering.{nat_cmp};
ghost use Rattle.rc_ids.specs.Tables.{member, added};

use rc_ids::{ShardId, ShardSet};

/// The most shards that there are.
const MOST_SHARDS: u8 = 8;

/// Whether the shard is in the first set, and not in the second.
fn is_left(touched: &ShardSet, yes: &ShardSet, shard: ShardId) -> bool
    ensures { result ≡ (member nat_cmp touched.now shard && not (member nat_cmp yes.now shard)) }
{
    touched.has(shard) && !yes.has(shard)
}

/// The set with the shard, if it is to join.
fn with_if(set: ShardSet, shard: ShardId, joins: bool) -> ShardSet
    ensures { result ≡ (if joins then added nat_cmp set shard else set) }
{
    if joins { set.with(shard) } else { set }
}

/// The members of the first set that are not in the second.
pub fn left_of(touched: &ShardSet, yes: &ShardSet) -> ShardSet
    ensures { result ≡ filter (λ s. not (member nat_cmp yes.now s)) touched.now }
{
    let mut left = ShardSet::new();
    if touched.len() == 0 {
        return left;
    }
    for place in 0..MOST_SHARDS {
        let shard = ShardId(place + 1);
        left = with_if(left, shard, is_left(touched, yes, shard));
    }
    left
}
