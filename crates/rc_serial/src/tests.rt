// Orders that one map explains, and others.
use crate::{Committed, FirstWrong, MapRows, explain};
use rc_body::{Body, Entry};
use rc_ids::{Key, TxId, Val, Version};
use std::alloc::Global;
use std::test::Fail;

/// An entry that read the key at the version, and writes there or not.
fn entry(alloc: Global, key: &[u8], version: Version, writes: bool) -> Result<Entry, Fail> {
    let write = if writes {
        Some(Val::new(alloc, b"x")?)
    } else {
        None
    };
    Ok(Entry {
        key: Key::new(key)?,
        version,
        write,
    })
}

fn add(body: &mut Body, entry: Entry) -> Result<(), Fail> {
    if body.has(&entry.key) {
        return Err(Fail::from("the key is there"));
    }
    body.add(entry)?;
    Ok(())
}

/// A transaction that read `b` and `a` at these versions, and writes `a`.
fn committed(alloc: Global, tx: TxId, b: Version, a: Version) -> Result<Committed, Fail> {
    let mut body = Body::new(alloc);
    add(&mut body, entry(alloc, b"b", b, false)?)?;
    add(&mut body, entry(alloc, b"a", a, true)?)?;
    Ok(Committed { tx, body })
}

/// What is wrong where three transactions read `a` at these versions.
fn wrong(
    alloc: Global,
    first: Version,
    second: Version,
    third: Version,
) -> Result<Option<FirstWrong>, Fail> {
    let mut base = MapRows::new(alloc);
    base.push(Key::new(b"b")?, Version(3), Val::gone(alloc)?)?;
    let mut order = Vec::new(alloc);
    order.push(committed(alloc, TxId(1), Version(3), first)?)?;
    order.push(committed(alloc, TxId(2), Version(3), second)?)?;
    order.push(committed(alloc, TxId(3), Version(3), third)?)?;
    Ok(explain(alloc, &base, &order)?)
}

#[test]
fn explains(rt: HostRuntime) -> Result<(), Fail> {
    assert!(rt; wrong(rt.alloc(), Version(0), Version(1), Version(2))?.is_none());
    let Some(first) = wrong(rt.alloc(), Version(0), Version(0), Version(3))? else {
        return Err(Fail::from("none is wrong"));
    };
    assert_eq!(rt; first.place, 1);
    assert_eq!(rt; first.key.as_bytes(), b"a".as_slice());
    assert_eq!(rt; first.expected, Version(1));
    assert_eq!(rt; first.read, Version(0));
    Ok(())
}
