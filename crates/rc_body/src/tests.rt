// One call of each function, with ample memory.
ghost use Rattle.std.specs.Prelude.{◌<◌, ◌^◌};

use crate::*;
use rc_fields::{Fields, put_val};
use rc_ids::{Blob, Cluster, Key, NoMemory, Outcome, ShardId, TxId, Val, Version};
use std::alloc::Global;
use std::process::Abort;
use std::test::Fail;

fn entry(alloc: Global, key: &[u8], version: u64, write: bool) -> Result<Entry, Fail>
    requires { version < 2 ^ 62 }
{
    let write = if write {
        Some(Val::new(alloc, b"value")?)
    } else {
        None
    };
    Ok(Entry {
        key: Key::new(key)?,
        version: Version(version),
        write,
    })
}

fn add(rt: &impl Abort, body: &mut Body, entry: Entry) -> Result<(), BodyFault> {
    assert!(rt; !body.has(&entry.key));
    body.add(entry)
}

fn push(rt: &impl Abort, page: &mut Page, tx: TxId, decision: Decision) -> Result<(), NoMemory> {
    assert!(rt; page.len() < Page::MOST_ENTRIES);
    assert!(rt; !page.has(tx));
    page.push(tx, decision)
}

/// A body that reads `a` and writes `m`, which are of different shards.
fn two_keys(rt: &(impl Abort + AllocGlobal)) -> Result<Body, Fail> {
    let mut body = Body::new(rt.alloc());
    add(rt, &mut body, entry(rt.alloc(), b"a", 3, false)?)?;
    add(rt, &mut body, entry(rt.alloc(), b"m", 0, true)?)?;
    Ok(body)
}

#[test]
fn bodies(rt: HostRuntime) -> Result<(), Fail> {
    let mut body = two_keys(&rt)?;
    assert_eq!(rt;
        add(
            &rt,
            &mut body,
            entry(rt.alloc(), b"z", (1 << 62) - 1, true)?
        ),
        Err(BodyFault::KeyWornOut)
    );
    let copied = body.copy()?;
    assert_eq!(rt; copied.len(), 2);
    assert!(rt; !copied.is_empty());
    let second = copied.entry(1).to_entry()?;
    assert!(rt; second.key == Key::new(b"m")?);
    assert_eq!(rt; second.version, Version(0));
    assert!(rt; second.write.is_some());
    Ok(())
}

#[test]
fn parts(rt: HostRuntime) -> Result<(), Fail> {
    let mut splits = Vec::new(rt.alloc());
    splits.push(Key::new(b"f")?)?;
    let cluster = Cluster::new(3, 2, splits)?;
    let body = two_keys(&rt)?;
    for (shard, key) in [(1, b"a"), (2, b"m")] {
        let part = body.part(&cluster, ShardId(shard))?;
        assert_eq!(rt; part.len(), 1);
        assert!(rt; part.has(&Key::new(key)?));
        assert!(rt; part.touches(&cluster, ShardId(shard)));
        assert!(rt; !part.touches(&cluster, ShardId(3 - shard)));
        let mut kept = Parts::new(rt.alloc());
        assert!(rt; kept.is_empty() && !kept.has(TxId(7)));
        kept.push(TxId(7), part)?;
        kept.put(TxId(7), body.copy()?)?;
        kept.put(TxId(9), Body::new(rt.alloc()))?;
        assert_eq!(rt; kept.len(), 2);
        kept.remove(TxId(7));
        assert_eq!(rt; kept.len(), 1);
        assert_eq!(rt; kept.entry(0).0, TxId(9));
        assert_eq!(rt; kept.into_entries().len(), 1);
    }
    Ok(())
}

#[test]
fn pages(rt: HostRuntime) -> Result<(), Fail> {
    let mut page = Page::one(rt.alloc(), TxId(7), Decision::Commit(two_keys(&rt)?))?;
    push(&rt, &mut page, TxId(9), Decision::Abort)?;
    let copied = page.copy()?;
    assert_eq!(rt; copied.len(), 2);
    let (tx, decision) = copied.entry(0);
    assert_eq!(rt; tx, TxId(7));
    assert!(rt; decision.copy()?.is_commit());
    assert_eq!(rt; copied.entry(1).1.outcome(), Outcome::Abort);
    assert_eq!(rt; copied.into_entries().len(), 2);
    Ok(())
}

#[test]
fn reasons(rt: HostRuntime) -> Result<(), Fail> {
    let key = Key::new(b"x")?;
    assert!(rt;
        matches!(
            Reason::Stale(key, Version(4)).copy(),
            Reason::Stale(_, Version(4))
        )
    );
    Ok(())
}

#[test]
fn rows(rt: HostRuntime) -> Result<(), Fail> {
    let mut rows = Rows::new(rt.alloc());
    let key = Key::new(b"x")?;
    assert!(rt; rows.is_empty() && !rows.has(&key));
    rows.push(key, Version(4), Val::gone(rt.alloc())?)?;
    assert_eq!(rt; rows.len(), 1);
    assert_eq!(rt; rows.entry(0).1, Version(4));
    assert_eq!(rt; rows.into_entries().len(), 1);
    Ok(())
}

/// Whether the bytes are a body, and are written so again.
fn is_body(alloc: Global, bytes: &[u8]) -> Result<bool, Fail> {
    let Some(read) = reading::body(alloc, &mut Fields::new(bytes))? else {
        return Ok(false);
    };
    let mut out = Blob::new(alloc);
    put_body(&mut out, &read)?;
    Ok(out.as_bytes() == bytes)
}

/// Whether the bytes are a decision, and are written so again.
fn is_decision(alloc: Global, bytes: &[u8]) -> Result<bool, Fail> {
    let Some(read) = reading::decision(alloc, &mut Fields::new(bytes))? else {
        return Ok(false);
    };
    let mut out = Blob::new(alloc);
    put_decision(&mut out, &read)?;
    Ok(out.as_bytes() == bytes)
}

/// Whether the bytes are a reason, and are written so again.
fn is_reason(alloc: Global, bytes: &[u8]) -> Result<bool, Fail> {
    let Some(read) = reading::reason(&mut Fields::new(bytes)) else {
        return Ok(false);
    };
    let mut out = Blob::new(alloc);
    put_reason(&mut out, &read)?;
    Ok(out.as_bytes() == bytes)
}

/// Whether the bytes are a report, and are written so again.
fn is_report(alloc: Global, bytes: &[u8]) -> Result<bool, Fail> {
    let Some(read) = reading::report(alloc, &mut Fields::new(bytes))? else {
        return Ok(false);
    };
    let mut out = Blob::new(alloc);
    put_report(&mut out, &read)?;
    Ok(out.as_bytes() == bytes)
}

/// Whether the bytes are a page, and are written so again.
fn is_page(alloc: Global, bytes: &[u8]) -> Result<bool, Fail> {
    let Some(read) = reading::page(alloc, &mut Fields::new(bytes))? else {
        return Ok(false);
    };
    let mut out = Blob::new(alloc);
    put_page(&mut out, &read)?;
    Ok(out.as_bytes() == bytes)
}

/// Whether the bytes are a held, and are written so again.
fn is_held(alloc: Global, bytes: &[u8]) -> Result<bool, Fail> {
    let Some(read) = reading::held(alloc, &mut Fields::new(bytes))? else {
        return Ok(false);
    };
    let mut out = Blob::new(alloc);
    put_held(&mut out, read.as_ref())?;
    Ok(out.as_bytes() == bytes)
}

/// Whether the bytes are a value, and are written so again.
fn is_value(alloc: Global, bytes: &[u8]) -> Result<bool, Fail> {
    let Some(read) = reading::value(alloc, &mut Fields::new(bytes))? else {
        return Ok(false);
    };
    let mut out = Blob::new(alloc);
    put_val(&mut out, &read)?;
    Ok(out.as_bytes() == bytes)
}

/// The bytes of so many keys at version 0.
fn keys(alloc: Global, count: u8) -> Result<Blob, Fail> {
    let mut bytes = Blob::new(alloc);
    bytes.push(count)?;
    for key in 0..count {
        bytes.push_bytes(&[2, b'A' + key % 8, b'A' + key / 8, 0, 0, 0, 0, 0, 0, 0, 0, 0])?;
    }
    Ok(bytes)
}

#[test]
fn bodies_as_bytes(rt: HostRuntime) -> Result<(), Fail> {
    let alloc = rt.alloc();
    // a deletion of a key that was read at version 1
    assert!(rt; is_body(alloc, &[1, 1, b'x', 0, 0, 0, 0, 0, 0, 0, 1, 1, 0, 1, 0])?);
    assert!(rt; is_body(alloc, keys(alloc, 32)?.as_bytes())?);
    assert!(rt; !is_body(alloc, keys(alloc, 33)?.as_bytes())?);
    Ok(())
}

#[test]
fn no_bodies(rt: HostRuntime) -> Result<(), Fail> {
    // a key twice, a flag of 2, a length too long, a byte that no key has, a version too high, a write at the last version
    let refused: [&[u8]; 6] = [
        &[
            2, 1, b'x', 0, 0, 0, 0, 0, 0, 0, 1, 0, 1, b'x', 0, 0, 0, 0, 0, 0, 0, 1, 0,
        ],
        &[1, 1, b'x', 0, 0, 0, 0, 0, 0, 0, 1, 2, 0, 1, 0],
        &[1, 1, b'x', 0, 0, 0, 0, 0, 0, 0, 1, 1, 0, 2, 0],
        &[1, 1, b' ', 0, 0, 0, 0, 0, 0, 0, 1, 0],
        &[1, 1, b'x', 64, 0, 0, 0, 0, 0, 0, 0, 0],
        &[1, 1, b'x', 63, 255, 255, 255, 255, 255, 255, 255, 1, 0, 0],
    ];
    for bytes in &refused {
        assert!(rt; !is_body(rt.alloc(), *bytes)?);
    }
    Ok(())
}

#[test]
fn values_as_bytes(rt: HostRuntime) -> Result<(), Fail> {
    let alloc = rt.alloc();
    assert!(rt; reading::key(&mut Fields::new(&[1, b'x'])).is_some());
    assert!(rt; is_value(alloc, &[0, 1, b'a'])?);
    assert!(rt; is_held(alloc, &[0])?);
    assert!(rt; is_held(alloc, &[1, 0, 1, 0])?);
    Ok(())
}

#[test]
fn decisions_as_bytes(rt: HostRuntime) -> Result<(), Fail> {
    let alloc = rt.alloc();
    assert!(rt; is_decision(alloc, &[0])?);
    assert!(rt; is_decision(alloc, &[1, 0])?);
    assert!(rt; is_report(alloc, &[0])?);
    assert!(rt; is_report(alloc, &[1, 0, 0, 0, 2, 0])?);
    Ok(())
}

#[test]
fn reasons_as_bytes(rt: HostRuntime) -> Result<(), Fail> {
    let alloc = rt.alloc();
    assert!(rt; is_reason(alloc, &[1, 1, b'x', 0, 0, 0, 7])?);
    assert!(rt; is_reason(alloc, &[4, 128, 0, 0, 0])?);
    assert!(rt; !is_reason(alloc, &[4, 128, 0, 0, 1])?);
    assert!(rt; !is_reason(alloc, &[0, 0, 0, 0, 1])?);
    Ok(())
}

#[test]
fn pages_as_bytes(rt: HostRuntime) -> Result<(), Fail> {
    assert!(rt; is_page(rt.alloc(), &[1, 0, 0, 0, 7, 0])?);
    assert!(rt; !is_page(rt.alloc(), &[2, 0, 0, 0, 7, 0, 0, 0, 0, 7, 0])?);
    Ok(())
}
