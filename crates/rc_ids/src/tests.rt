// What no clause says: that calls answer where there is memory, and texts of faults.
use crate::*;
use std::alloc::Global;
use std::test::Fail;

#[test]
fn keys(rt: HostRuntime) -> Result<(), Fail> {
    let key = Key::new(b"tab-1_Z")?;
    assert_eq!(rt; key.as_bytes(), b"tab-1_Z".as_slice());
    assert!(rt; key.copy() == key);
    assert!(rt; Key::new(b"a")? < Key::new(b"a0")?);
    assert!(rt; Key::new(b"") == Err(TextFault::BadLength));
    assert!(rt; Key::new(&[b'k'; 65]) == Err(TextFault::BadLength));
    assert!(rt; Key::new(b"a b") == Err(TextFault::BadByte(1)));
    Ok(())
}

#[test]
fn values(rt: HostRuntime) -> Result<(), Fail> {
    let alloc = rt.alloc();
    let value = Val::new(alloc, b"a value ~")?;
    assert_eq!(rt; value.as_bytes(), b"a value ~".as_slice());
    assert!(rt; value.copy()? == value);
    assert!(rt; !value.is_gone());
    assert!(rt; Val::gone(alloc)?.is_gone());
    assert!(rt; Val::gone(alloc)?.copy()?.is_gone());
    assert!(rt; Val::new(alloc, &[b'v'; 1025]) == Err(TextFault::BadLength));
    assert!(rt; Val::new(alloc, b"tab\t") == Err(TextFault::BadByte(3)));
    Ok(())
}

#[test]
fn lists(rt: HostRuntime) -> Result<(), Fail> {
    let alloc = rt.alloc();
    let mut blob = Blob::from_bytes(alloc, b"ab")?;
    blob.push(b'c')?;
    blob.push_bytes(b"de")?;
    blob.truncate(4);
    assert_eq!(rt; blob.as_bytes(), b"abcd".as_slice());
    assert_eq!(rt; blob.copy()?.len(), 4);
    let mut blobs = Blobs::new(alloc);
    blobs.push(blob)?;
    assert_eq!(rt; blobs.len(), 1);
    let mut text = Text::new(alloc);
    text.push(b'x')?;
    text.push_bytes(b"yz")?;
    assert_eq!(rt; text.as_bytes(), b"xyz".as_slice());
    let mut keys = Keys::new(alloc);
    keys.push(Key::new(b"k")?)?;
    assert_eq!(rt; keys.copy()?.len(), 1);
    Ok(())
}

fn letter(alloc: Global, tx: TxId) -> Result<Letter, Fail> {
    Ok(Letter {
        to: Party::Client(tx),
        bytes: Blob::from_bytes(alloc, b"ab")?,
        mark: false,
    })
}

#[test]
fn sends(rt: HostRuntime) -> Result<(), Fail> {
    let alloc = rt.alloc();
    let mut sends = Sends::new(alloc);
    sends.push(letter(alloc, TxId(1))?)?;
    sends.push(letter(alloc, TxId(2))?)?;
    sends.push(letter(alloc, TxId(3))?)?;
    sends.set_mark(1, true);
    sends.cut(2);
    let letters = sends.as_slice();
    assert_eq!(rt; letters.len(), 2);
    assert!(rt; !letters[0].mark);
    assert!(rt; letters[1].mark);
    assert_eq!(rt; letters[1].bytes.as_bytes(), b"ab".as_slice());
    Ok(())
}

fn splits(alloc: Global) -> Result<Vec<Key>, Fail> {
    let mut splits = Vec::new(alloc);
    splits.push(Key::new(b"g")?)?;
    splits.push(Key::new(b"p")?)?;
    Ok(splits)
}

#[test]
fn clusters(rt: HostRuntime) -> Result<(), Fail> {
    let alloc = rt.alloc();
    let equal = Cluster::new(3, 3, splits(alloc)?)?;
    let weights = vec![in alloc; 3, 1, 1]?;
    let cluster = Cluster::weighted(3, 3, splits(alloc)?, weights)?;
    let first = DcSet::new().with(DcId(1));
    let others = DcSet::new().with(DcId(2)).with(DcId(3));
    assert!(rt; cluster.quorum().holds(first));
    assert!(rt; !cluster.quorum().holds(others));
    assert!(rt; !equal.quorum().holds(first));
    assert!(rt; equal.quorum().holds(others));
    assert_eq!(rt; cluster.home(TxId(3)), DcId(1));
    assert_eq!(rt; cluster.owner(Ballot(4)), Some(DcId(1)));
    assert_eq!(rt; cluster.copy()?.shards(), 3);
    let shards = [(b"a", 1), (b"g", 2), (b"o", 2), (b"p", 3), (b"z", 3)];
    for (key, shard) in shards {
        assert_eq!(rt; cluster.shard_of(&Key::new(key)?), ShardId(shard));
    }
    Ok(())
}
