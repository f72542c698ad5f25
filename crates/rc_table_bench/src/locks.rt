// Locks of many transactions.
ghost use Rattle.std.specs.Prelude.{◌≤◌};

use crate::keys::key_of;
use rc_body::{Body, Entry};
use rc_ids::{Key, TxId, Val, Version};
use rc_locks::{Answer, Asked, LockTable};
use rc_versions::Versions;
use std::alloc::Global;

/// The keys of a transaction.
const KEYS: u32 = 32;

/// A key of a transaction.
fn own_key(alloc: Global, tx: u32, place: u32) -> anyhow::Result<Key>
    requires tx { tx ≤ 4000000 }
    requires place { place ≤ 32 }
{
    key_of(alloc, tx * KEYS + place)
}

/// Each transaction asks for its keys. How many reads were granted.
fn ask<L: LockTable>(alloc: Global, locks: &mut L, txs: u32) -> anyhow::Result<u32>
    requires { txs ≤ 125000 }
{
    let mut granted = 0u32;
    for tx in 1..txs + 1 {
        for place in 0..KEYS {
            let asked = locks.ask(TxId(tx), &own_key(alloc, tx, place)?)?;
            if asked == Asked::Granted {
                granted = granted.saturating_add(1);
            }
        }
    }
    Ok(granted)
}

/// A part that writes all keys of the transaction.
fn part_of(alloc: Global, tx: u32) -> anyhow::Result<Body>
    requires { tx ≤ 4000000 }
{
    let mut part = Body::new(alloc);
    for place in 0..KEYS {
        let key = own_key(alloc, tx, place)?;
        if !part.has(&key) {
            part.add(Entry {
                key,
                version: Version(0),
                write: Some(Val::new(alloc, b"a value")?),
            })?;
        }
    }
    Ok(part)
}

/// Prepares the part, if the test says yes.
fn prepare<L: LockTable>(
    locks: &mut L,
    tx: TxId,
    part: Body,
    versions: &Versions,
) -> anyhow::Result<bool> {
    if locks.prepared(tx).is_some() {
        return Ok(false);
    }
    match locks.test(tx, &part, versions) {
        Answer::Yes => {
            locks.room(tx, &part)?;
            locks.prepare(tx, part);
            Ok(true)
        }
        Answer::No(_) => Ok(false),
    }
}

/// Each transaction prepares the writes of its keys. How many did.
fn prepare_all<L: LockTable>(alloc: Global, locks: &mut L, txs: u32) -> anyhow::Result<u32>
    requires { txs ≤ 125000 }
{
    let versions = Versions::new(alloc);
    let mut prepared = 0u32;
    for tx in 1..txs + 1 {
        if prepare(locks, TxId(tx), part_of(alloc, tx)?, &versions)? {
            prepared = prepared.saturating_add(1);
        }
    }
    Ok(prepared)
}

/// For each transaction another one asks for one of its keys, and waits; then each finishes. How many reads were freed.
fn finish_all<L: LockTable>(alloc: Global, locks: &mut L, txs: u32) -> anyhow::Result<u64>
    requires { txs ≤ 125000 }
{
    for tx in 1..txs + 1 {
        locks.ask(TxId(txs + tx), &own_key(alloc, tx, 0)?)?;
    }
    let mut freed = 0u64;
    for tx in 1..txs + 1 {
        locks.room_finish(&[TxId(tx)])?;
        freed = freed.saturating_add(locks.finish(&[TxId(tx)]).len() as u64);
    }
    Ok(freed)
}

/// Locks of so many keys, of transactions with 32 keys each: asked for, prepared and finished.
pub fn run<L: LockTable>(alloc: Global, size: u32) -> anyhow::Result<String> {
    let txs = (size / KEYS).min(125_000);
    let mut locks = L::new(alloc);
    let granted = ask(alloc, &mut locks, txs)?;
    let prepared = prepare_all(alloc, &mut locks, txs)?;
    let freed = finish_all(alloc, &mut locks, txs)?;
    Ok(format!(in alloc; "{granted} granted, {prepared} prepared, {freed} freed")?)
}
