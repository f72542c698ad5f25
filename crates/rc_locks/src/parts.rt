// Prepared parts of transactions, in the order of these, and who holds a key by them.
ghost use Rattle.std.specs.Prelude.{◌≡◌, ◌≤◌, ◌<◌, ◌+◌, length, vec_len, vec_capacity, ℕ, List, None, IfOk, OnOk};
ghost use Rattle.std.specs.Ordering.{nat_cmp, is_le, is_eq};
ghost use Rattle.std.specs.Option.{option_copied};
ghost use Rattle.rc_body.specs.declared.entry.Entry.{Entry};
ghost use Rattle.rc_ids.specs.Tables.{found, without};
ghost use Rattle.rc_ids.specs.Tables as tables;
ghost use Rattle.rc_protocol.specs.Shard as shard;
ghost use Rattle.rc_locks.specs.Places.{place_where};
ghost use Rattle.rc_locks.specs.LockSets.{parts_left};
ghost use Rattle.rc_locks.specs.LockSets as lock_sets;

use crate::entries::writes_key;
use rc_body::Body;
use rc_ids::{Key, NoMemory, TxId};
use std::alloc::Global;

/// A transaction with its prepared part.
pub type Prepared = (TxId, Body);

/// The part of the transaction, where it is prepared.
pub fn find<'a>(parts: &'a [Prepared], tx: TxId) -> Option<&'a Body>
    ensures { option_copied result ≡ found nat_cmp parts.now tx }
{
    for entry in parts {
        if tx.cmp(&entry.0).is_eq() {
            return Some(&entry.1);
        }
    }
    None
}

/// Who holds the key exclusively: the least transaction whose part writes it.
pub fn holder(parts: &[Prepared], key: &Key) -> Option<TxId>
    ensures { result ≡ shard.holder parts.now key.now }
{
    for entry in parts {
        if writes_key(&entry.1, key) {
            return Some(entry.0);
        }
    }
    None
}

/// The least transaction whose part has the key.
pub fn reader(parts: &[Prepared], key: &Key) -> Option<TxId>
    ensures { result ≡ shard.reader parts.now key.now }
{
    for entry in parts {
        if entry.1.has(key) {
            return Some(entry.0);
        }
    }
    None
}

/// Whether nobody holds the key of the mark exclusively.
pub fn is_free(parts: &[Prepared], mark: &(Key, TxId)) -> bool
    ensures { result ≡ shard.is_free parts.now mark.now }
{
    holder(parts, &mark.0).is_none()
}

/// Where the transaction stands in the order of the transactions, or would stand.
fn place_of(parts: &[Prepared], tx: TxId) -> usize
    ensures place { result ≡ place_where (λ (p : ℕ × List Entry). is_le (nat_cmp tx p.0)) parts.now }
    ensures few { result ≤ length parts.now }
{
    for place in 0..parts.len() {
        if tx.cmp(&parts[place].0).is_le() {
            return place;
        }
    }
    parts.len()
}

/// Gives the transaction, which is not there, this part. There is room for one more.
pub fn put(parts: &mut Vec<Prepared>, tx: TxId, part: Body)
    requires room { vec_len parts.old < vec_capacity parts.old }
    requires absent { found nat_cmp parts.old.items tx ≡ None }
    ensures { parts.new.items ≡ tables.put nat_cmp parts.old.items tx part }
{
    let place = place_of(parts, tx);
    let _placed = parts.insert(place, (tx, part));
}

/// Gives the transaction this part, unless it has one.
fn put_new(parts: &mut Vec<Prepared>, tx: TxId, part: Body) -> Result<(), NoMemory>
    ensures { OnOk result (parts.new.items ≡ lock_sets.put_new parts.old.items tx part) }
{
    if find(parts, tx).is_some() {
        return Ok(());
    }
    parts.reserve(1)?;
    put(parts, tx, part);
    Ok(())
}

/// Gives each transaction its part; of two parts of one transaction the first stays.
pub fn put_all(parts: &mut Vec<Prepared>, entries: Vec<Prepared>) -> Result<(), NoMemory>
    ensures { OnOk result (parts.new.items ≡ lock_sets.put_all parts.old.items entries.items) }
{
    for (tx, part) in entries {
        put_new(parts, tx, part)?;
    }
    Ok(())
}

/// Where the transaction first stands; the length where it is not there.
fn first_of(parts: &[Prepared], tx: TxId) -> usize
    ensures place { result ≡ place_where (λ (p : ℕ × List Entry). is_eq (nat_cmp tx p.0)) parts.now }
    ensures few { result ≤ length parts.now }
{
    for place in 0..parts.len() {
        if tx.cmp(&parts[place].0).is_eq() {
            return place;
        }
    }
    parts.len()
}

/// Takes the part of the transaction away.
pub fn remove(parts: &mut Vec<Prepared>, tx: TxId)
    ensures { parts.new.items ≡ without nat_cmp parts.old.items tx }
{
    let place = first_of(parts, tx);
    if place >= parts.len() {
        return;
    }
    let _removed = parts.remove(place);
}

/// Takes the parts of these transactions away.
pub fn remove_all(parts: &mut Vec<Prepared>, txs: &[TxId])
    ensures { parts.new.items ≡ parts_left parts.old.items txs.now }
{
    for tx in txs {
        remove(parts, *tx);
    }
}

/// A copy of the parts.
pub fn copy(alloc: Global, parts: &[Prepared]) -> Result<Vec<Prepared>, NoMemory>
    ensures { IfOk result (λ ps. ps.items ≡ parts.now) }
{
    let mut copied = Vec::new(alloc);
    for entry in parts {
        copied.push((entry.0, entry.1.copy()?))?;
    }
    Ok(copied)
}
