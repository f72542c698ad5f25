// Why a prepare is refused, by the holders of keys and the marks of lost locks.
ghost use Rattle.std.specs.Prelude.{◌≡◌, ℕ, List, is_some};
ghost use Rattle.rc_ids.specs.Tables.{Table};
ghost use Rattle.rc_body.specs.declared.entry.Entry.{Entry};
ghost use Rattle.rc_locks.specs.Cells.{IsIndexed, locked_by};
ghost use Rattle.rc_locks.specs.Flags.{Rises, lost_marks};
ghost use Rattle.rc_locks.specs.LockSets.{beside};
ghost use Rattle.rc_protocol.specs.Shard.{ShardVolatile, locked, lost_by, first_reason, test};

use crate::cells::{Cells, holder, reader};
use crate::flags::{LockMap, lock_of};
use crate::reasons::first_stale;
use rc_body::{Body, Reason};
use rc_ids::{Key, TxId};
use rc_versions::{HeadedKey, Versions};

/// A transaction that writes the key, or one that has it where it is written, keeps it from being prepared.
fn reason_of(writer: Option<TxId>, reader: Option<TxId>, key: &Key, written: bool) -> Option<Reason>
    ensures { result ≡ locked_by writer reader key.now written }
{
    if let Some(tx) = writer {
        return Some(Reason::Locked(key.copy(), tx));
    }
    if !written {
        return None;
    }
    match reader {
        Some(tx) => Some(Reason::Locked(key.copy(), tx)),
        None => None,
    }
}

/// Another transaction's part keeps an entry with the key from being prepared.
fn locked_key(cells: &Cells, key: &Key, written: bool) -> Option<Reason>
    ensures { (parts : Table ℕ (List Entry)) (e : Entry) → IsIndexed parts cells.now.entries → e.key ≡ key.now → is_some e.write ≡ written → result ≡ locked parts e }
{
    reason_of(holder(cells, key), reader(cells, key), key, written)
}

/// The transaction lost its plain lock on the key.
fn lost_key(locks: &LockMap, tx: TxId, key: &Key) -> Option<Reason>
    requires { Rises locks.now.entries }
    ensures { (e : Entry) → e.key ≡ key.now → result ≡ lost_by (lost_marks locks.now.entries) tx e }
{
    if lock_of(locks, &(HeadedKey::new(key), tx)).lost {
        return Some(Reason::Lost(key.copy()));
    }
    None
}

/// Of the first entry that is locked.
fn first_locked(cells: &Cells, part: &Body) -> Option<Reason>
    ensures { (parts : Table ℕ (List Entry)) → IsIndexed parts cells.now.entries → result ≡ first_reason (locked parts) part.now }
{
    for index in 0..part.len() {
        let entry = part.entry(index);
        if let Some(reason) = locked_key(cells, entry.key, entry.write.is_some()) {
            return Some(reason);
        }
    }
    None
}

/// Of the first entry whose lock was lost.
fn first_lost(locks: &LockMap, tx: TxId, part: &Body) -> Option<Reason>
    requires { Rises locks.now.entries }
    ensures { result ≡ first_reason (lost_by (lost_marks locks.now.entries) tx) part.now }
{
    for index in 0..part.len() {
        let entry = part.entry(index);
        if let Some(reason) = lost_key(locks, tx, entry.key) {
            return Some(reason);
        }
    }
    None
}

/// Why the part of the transaction may not be prepared, where it may not.
pub fn refusal(
    cells: &Cells,
    locks: &LockMap,
    at: &Versions,
    tx: TxId,
    part: &Body,
) -> Option<Reason>
    requires { Rises locks.now.entries }
    ensures { (parts : Table ℕ (List Entry)) (v : ShardVolatile) → IsIndexed parts cells.now.entries → v.lost ≡ lost_marks locks.now.entries → result ≡ test (beside parts at.now.rows) v tx part.now }
{
    if let Some(reason) = first_locked(cells, part) {
        return Some(reason);
    }
    if let Some(reason) = first_lost(locks, tx, part) {
        return Some(reason);
    }
    first_stale(at, part)
}
