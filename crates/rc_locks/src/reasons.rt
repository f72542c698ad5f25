// Why a prepare is refused.
ghost use Rattle.std.specs.Prelude.{◌≡◌, is_some};
ghost use Rattle.rc_body.specs.declared.entry.Entry.{Entry};
ghost use Rattle.rc_locks.specs.LockSets.{beside};
ghost use Rattle.rc_protocol.specs.Shard.{ShardVolatile, locked, lost_by, stale, first_reason, test};

use crate::marks::{Mark, has};
use crate::parts::{Prepared, holder, reader};
use rc_body::{Body, Reason};
use rc_ids::{Key, TxId, Version};
use rc_versions::Versions;

/// Another transaction's part keeps an entry with the key from being prepared.
fn locked_key(parts: &[Prepared], key: &Key, written: bool) -> Option<Reason>
    ensures { (e : Entry) → e.key ≡ key.now → is_some e.write ≡ written → result ≡ locked parts.now e }
{
    if let Some(tx) = holder(parts, key) {
        return Some(Reason::Locked(key.copy(), tx));
    }
    if !written {
        return None;
    }
    match reader(parts, key) {
        Some(tx) => Some(Reason::Locked(key.copy(), tx)),
        None => None,
    }
}

/// The transaction lost its plain lock on the key.
fn lost_key(lost: &[Mark], tx: TxId, key: &Key) -> Option<Reason>
    ensures { (e : Entry) → e.key ≡ key.now → result ≡ lost_by lost.now tx e }
{
    if has(lost, &(key.copy(), tx)) {
        return Some(Reason::Lost(key.copy()));
    }
    None
}

/// The key has a newer version here than the one that was read.
fn stale_key(at: &Versions, key: &Key, read: Version) -> Option<Reason>
    ensures { (e : Entry) → e.key ≡ key.now → e.version ≡ read → result ≡ stale at.now.rows e }
{
    let (version, _) = at.get(key);
    if read < version {
        return Some(Reason::Stale(key.copy(), version));
    }
    None
}

/// Of the first entry that is locked.
fn first_locked(parts: &[Prepared], part: &Body) -> Option<Reason>
    ensures { result ≡ first_reason (locked parts.now) part.now }
{
    for index in 0..part.len() {
        let entry = part.entry(index);
        if let Some(reason) = locked_key(parts, entry.key, entry.write.is_some()) {
            return Some(reason);
        }
    }
    None
}

/// Of the first entry whose lock was lost.
fn first_lost(lost: &[Mark], tx: TxId, part: &Body) -> Option<Reason>
    ensures { result ≡ first_reason (lost_by lost.now tx) part.now }
{
    for index in 0..part.len() {
        let entry = part.entry(index);
        if let Some(reason) = lost_key(lost, tx, entry.key) {
            return Some(reason);
        }
    }
    None
}

/// Of the first entry that is stale.
pub fn first_stale(at: &Versions, part: &Body) -> Option<Reason>
    ensures { result ≡ first_reason (stale at.now.rows) part.now }
{
    for index in 0..part.len() {
        let entry = part.entry(index);
        if let Some(reason) = stale_key(at, entry.key, entry.version) {
            return Some(reason);
        }
    }
    None
}

/// Why the part of the transaction may not be prepared, where it may not.
pub fn refusal(
    parts: &[Prepared],
    lost: &[Mark],
    at: &Versions,
    tx: TxId,
    part: &Body,
) -> Option<Reason>
    ensures { (v : ShardVolatile) → v.lost ≡ lost.now → result ≡ test (beside parts.now at.now.rows) v tx part.now }
{
    if let Some(reason) = first_locked(parts, part) {
        return Some(reason);
    }
    if let Some(reason) = first_lost(lost, tx, part) {
        return Some(reason);
    }
    first_stale(at, part)
}
