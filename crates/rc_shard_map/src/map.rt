// The split keys of a cluster, searched by halves.
ghost use Rattle.std.specs.Prelude.{◌≡◌, ◌+◌, ◌≤◌, length, IfOk, IsTrue};
ghost use Rattle.rc_ids.specs.Cluster.{rise, shard_from};

use rc_ids::{Cluster, Key, NoMemory, ShardId};
use std::alloc::Global;
use std::marker::Model;

/// Which shard each key is of: the split keys of a cluster, which rise.
#[derive(Drop)]
pub struct ShardMap {
    splits: Vec<Key>,
}

impl Model for ShardMap {
    ghost use Rattle.std.specs.Prelude.{ℕ, ◌≤◌, List, length, IsTrue};
    ghost use Rattle.rc_ids.specs.Cluster.{rise};

    ghost Value = { List (List ℕ) };

    ghost view = { λ m. m.splits.items };

    ghost invariant = { λ m. (length m.splits.items ≤ 7) × IsTrue (rise m.splits.items) };
}

/// A copy of these keys.
fn copied(alloc: Global, keys: &[Key]) -> Result<Vec<Key>, NoMemory>
    ensures { IfOk result (λ v. v.items ≡ keys.now) }
{
    let mut copied = Vec::new(alloc);
    for key in keys {
        copied.push(key.copy())?;
    }
    Ok(copied)
}

/// How many of the split keys are not above the key.
fn count_up_to(splits: &[Key], key: &Key) -> usize
    requires { IsTrue (rise splits.now) }
    ensures count { shard_from splits.now key.now ≡ result + 1 }
    ensures few { result ≤ length splits.now }
{
    splits.partition_point(|split| !(key < split))
}

impl ShardMap {
    /// The shards of a cluster.
    pub fn new(alloc: Global, cluster: &Cluster) -> Result<ShardMap, NoMemory>
        ensures { IfOk result (λ m. m ≡ cluster.now.splits) }
    {
        Ok(ShardMap {
            splits: copied(alloc, cluster.splits())?,
        })
    }

    /// The shard of a key: 1, and one more for each split key that is not above it.
    pub fn place(&self, key: &Key) -> ShardId
        ensures { result ≡ shard_from self.now key.now }
    {
        ShardId(count_up_to(&self.splits, key) as u8 + 1)
    }
}
