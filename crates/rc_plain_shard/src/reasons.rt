// Why a prepare is refused.
ghost use Rattle.std.specs.Prelude.{◌≡◌, is_some};
ghost use Rattle.rc_body.specs.declared.entry.Entry.{Entry};
ghost use Rattle.rc_protocol.specs.Shard.{locked, lost_by, stale, first_reason, test};

use crate::durable::Durable;
use crate::marks::Marks;
use crate::parts::{holder, reader};
use crate::prepared::PreparedParts;
use crate::volatile::Volatile;
use rc_body::{Body, Reason};
use rc_ids::{Key, TxId, Version};
use rc_record::Rows;

/// Another transaction's part keeps an entry with the key from being prepared.
fn locked_key(parts: &PreparedParts, key: &Key, written: bool) -> Option<Reason>
    ensures { (e : Entry) → e.key ≡ key.now → is_some e.write ≡ written → result ≡ locked parts.now e }
{
    if let Some(tx) = holder(parts, key) {
        return Some(Reason::Locked(key.copy(), tx));
    }
    if !written {
        return None;
    }
    match reader(parts, key) {
        Some(tx) => Some(Reason::Locked(key.copy(), tx)),
        None => None,
    }
}

/// The transaction lost its plain lock on the key.
fn lost_key(lost: &Marks, tx: TxId, key: &Key) -> Option<Reason>
    ensures { (e : Entry) → e.key ≡ key.now → result ≡ lost_by lost.now tx e }
{
    if lost.has(&(key.copy(), tx)) {
        return Some(Reason::Lost(key.copy()));
    }
    None
}

/// The key has a newer version here than the one that was read.
fn stale_key(rows: &Rows, key: &Key, read: Version) -> Option<Reason>
    ensures { (e : Entry) → e.key ≡ key.now → e.version ≡ read → result ≡ stale rows.now e }
{
    let version = rows.version(key);
    if read < version {
        return Some(Reason::Stale(key.copy(), version));
    }
    None
}

/// Of the first entry that is locked.
fn first_locked(parts: &PreparedParts, part: &Body) -> Option<Reason>
    ensures { result ≡ first_reason (locked parts.now) part.now }
{
    for index in 0..part.len() {
        let entry = part.entry(index);
        if let Some(reason) = locked_key(parts, entry.key, entry.write.is_some()) {
            return Some(reason);
        }
    }
    None
}

/// Of the first entry whose lock was lost.
fn first_lost(lost: &Marks, tx: TxId, part: &Body) -> Option<Reason>
    ensures { result ≡ first_reason (lost_by lost.now tx) part.now }
{
    for index in 0..part.len() {
        let entry = part.entry(index);
        if let Some(reason) = lost_key(lost, tx, entry.key) {
            return Some(reason);
        }
    }
    None
}

/// Of the first entry that is stale.
fn first_stale(rows: &Rows, part: &Body) -> Option<Reason>
    ensures { result ≡ first_reason (stale rows.now) part.now }
{
    for index in 0..part.len() {
        let entry = part.entry(index);
        if let Some(reason) = stale_key(rows, entry.key, entry.version) {
            return Some(reason);
        }
    }
    None
}

/// Why the part of the transaction may not be prepared, where it may not.
pub fn refusal(durable: &Durable, volatile: &Volatile, tx: TxId, part: &Body) -> Option<Reason>
    ensures { result ≡ test durable.now volatile.now tx part.now }
{
    if let Some(reason) = first_locked(&durable.parts, part) {
        return Some(reason);
    }
    if let Some(reason) = first_lost(&volatile.lost, tx, part) {
        return Some(reason);
    }
    first_stale(&durable.rows, part)
}
