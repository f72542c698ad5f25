// Keys at the split keys, and on both sides of them.
use crate::*;
use rc_ids::{Cluster, Key};
use std::test::Fail;

#[test]
fn places(rt: HostRuntime) -> Result<(), Fail> {
    let mut splits = Vec::new(rt.alloc());
    splits.push(Key::new(b"g")?)?;
    splits.push(Key::new(b"p")?)?;
    let cluster = Cluster::new(3, 3, splits)?;
    let map = ShardMap::new(rt.alloc(), &cluster)?;
    let table: [(&[u8], u8); 6] = [
        (b"0", 1),
        (b"fz", 1),
        (b"g", 2),
        (b"ozz", 2),
        (b"p", 3),
        (b"zz", 3),
    ];
    for (key, shard) in &table {
        let key = Key::new(*key)?;
        assert_eq!(rt; map.place(&key), cluster.shard_of(&key));
        assert_eq!(rt; map.place(&key).0, *shard);
    }
    Ok(())
}
