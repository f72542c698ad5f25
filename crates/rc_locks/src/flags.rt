// What each transaction has at each key, and for each transaction the keys at which it may have something.
ghost use Rattle.std.specs.Prelude.{◌≡◌, ℕ, ◌<◌, ◌==◌, ◌&&◌, List, [], ◌∷◌, not, true, false, Some, None, OnOk, IfOk, IfSome, if◌then◌else◌};
ghost use Rattle.std.specs.Ordering.{nat_cmp, is_eq};
ghost use Rattle.rc_ids.specs.Tables.{found, member};
ghost use Rattle.rc_ids.specs.Texts.{key_cmp};
ghost use Rattle.rc_protocol.specs.Shard.{Mark as MarkLem, mark_cmp, is_taken};
ghost use Rattle.rc_locks.specs.Flags.{plain_at, lost_at, Rises, AreTxs, has_place, same_mark, IsTurned, with_plain, without_plain, taken_away, turned_where, is_other_at, is_before, is_one_of, keys_at, has_key_at, IsCovered};

use crate::marks::Mark;
use rc_body::Body;
use rc_ids::{NoMemory, TxId};
use rc_versions::HeadedKey;
use std::alloc::Global;
use std::collections::BTreeMap;
use std::ops::Bound;

/// What a transaction has at a key.
#[derive(Clone, Copy, Debug, PartialEq, Eq)]
pub struct Lock {
    /// It has a plain lock.
    pub plain: bool,
    /// Another transaction took its plain lock away.
    pub lost: bool,
}

/// A key with its head, and the transaction.
pub type Spot = (HeadedKey, TxId);

/// What each transaction has at each key.
pub type LockMap = BTreeMap<Spot, Lock>;

/// For each transaction the keys at which it may have something.
pub type KeyIndex = BTreeMap<TxId, Vec<HeadedKey>>;

/// The mark with the head of its key.
pub fn spot_of(mark: &Mark) -> Spot
    ensures { result ≡ mark.now }
{
    (HeadedKey::new(&mark.0), mark.1)
}

/// What the transaction of the mark has at its key.
pub fn lock_of(locks: &LockMap, mark: &Spot) -> Lock
    ensures plain { result.plain ≡ plain_at locks.now.entries mark.now }
    ensures lost { result.lost ≡ lost_at locks.now.entries mark.now }
{
    match locks.get(mark) {
        Some(lock) => *lock,
        None => Lock {
            plain: false,
            lost: false,
        },
    }
}

/// Whether the mark has a place.
fn has(locks: &LockMap, mark: &Spot) -> bool
    ensures { result ≡ has_place locks.now.entries mark.now }
{
    locks.contains_key(mark)
}

/// Gives the mark a plain lock, where it has a place.
pub fn grant(locks: &mut LockMap, mark: &Spot)
    ensures turned { IsTurned (λ m. turned_where (same_mark mark.now m) with_plain) locks.old.entries locks.new.entries }
    ensures rises { Rises locks.new.entries }
{
    if let Some(held) = locks.get_mut(mark) {
        *held = Lock {
            plain: true,
            lost: held.lost,
        };
    }
}

/// Takes the plain lock of the mark back.
pub fn unlock(locks: &mut LockMap, mark: &Spot)
    ensures turned { IsTurned (λ m. turned_where (same_mark mark.now m) without_plain) locks.old.entries locks.new.entries }
    ensures rises { Rises locks.new.entries }
{
    if let Some(held) = locks.get_mut(mark) {
        *held = Lock {
            plain: false,
            lost: held.lost,
        };
    }
}

/// The lock once another transaction took it away: a plain one is lost.
fn taken(lock: Lock) -> Lock
    ensures { result ≡ taken_away lock }
{
    Lock {
        plain: false,
        lost: lock.lost || lock.plain,
    }
}

/// The plain lock of the mark is lost, where it has one.
fn take_away(locks: &mut LockMap, mark: &Spot)
    ensures turned { IsTurned (λ m. turned_where (same_mark mark.now m) taken_away) locks.old.entries locks.new.entries }
    ensures rises { Rises locks.new.entries }
{
    if let Some(held) = locks.get_mut(mark) {
        *held = taken(*held);
    }
}

/// The first transaction that has a place at the key.
fn first_at(locks: &LockMap, key: &HeadedKey) -> Option<TxId>
    requires { AreTxs locks.now.entries }
    ensures { (t : ℕ) → is_before result t ≡ true → has_place locks.now.entries (key.now, t) ≡ false }
{
    let Some((mark, _)) = locks.range((key.copy(), TxId(1))..).next() else {
        return None;
    };
    if mark.0 == *key {
        return Some(mark.1);
    }
    None
}

/// The next transaction that has a place at the key.
fn next_at(locks: &LockMap, key: &HeadedKey, last: TxId) -> Option<TxId>
    ensures above { IfSome result (λ t. last < t) }
    ensures none { (t : ℕ) → last < t → is_before result t ≡ true → has_place locks.now.entries (key.now, t) ≡ false }
{
    let after = Bound::Excluded((key.copy(), last));
    let Some((mark, _)) = locks.range((after, Bound::Unbounded)).next() else {
        return None;
    };
    if mark.0 == *key {
        return Some(mark.1);
    }
    None
}

/// Takes the plain lock of the transaction at the key away for another transaction.
fn take_other(locks: &mut LockMap, key: &HeadedKey, tx: TxId, taker: TxId)
    requires { Rises locks.old.entries }
    ensures turned { IsTurned (λ m. turned_where (same_mark (key.now, tx) m && not (tx == taker)) taken_away) locks.old.entries locks.new.entries }
    ensures rises { Rises locks.new.entries }
{
    if tx != taker {
        take_away(locks, &(key.copy(), tx));
    }
}

/// Takes the plain locks of all others at the key away.
fn take_key(locks: &mut LockMap, key: &HeadedKey, taker: TxId)
    requires rises { Rises locks.old.entries }
    requires txs { AreTxs locks.old.entries }
    ensures turned { IsTurned (λ m. turned_where (is_other_at key.now taker m) taken_away) locks.old.entries locks.new.entries }
    ensures rises { Rises locks.new.entries }
{
    let mut next = first_at(locks, key);
    while let Some(tx) = next {
        take_other(locks, key, tx, taker);
        next = next_at(locks, key, tx);
    }
}

/// Takes the plain locks of all others at the key away, if it is written.
fn take_written(locks: &mut LockMap, key: &HeadedKey, written: bool, taker: TxId)
    requires rises { Rises locks.old.entries }
    requires txs { AreTxs locks.old.entries }
    ensures turned { IsTurned (λ m. turned_where (written && is_other_at key.now taker m) taken_away) locks.old.entries locks.new.entries }
    ensures rises { Rises locks.new.entries }
{
    if written {
        take_key(locks, key, taker);
    }
}

/// Takes the plain locks of all others at the keys that the part writes away.
pub fn take_part(locks: &mut LockMap, taker: TxId, part: &Body)
    requires rises { Rises locks.old.entries }
    requires txs { AreTxs locks.old.entries }
    ensures turned { IsTurned (λ m. turned_where (is_taken taker part.now m) taken_away) locks.old.entries locks.new.entries }
    ensures rises { Rises locks.new.entries }
{
    for index in 0..part.len() {
        let entry = part.entry(index);
        let key = HeadedKey::new(entry.key);
        take_written(locks, &key, entry.write.is_some(), taker);
    }
}

/// Takes the plain locks of the transaction at these keys back.
fn unlock_all(locks: &mut LockMap, keys: &[HeadedKey], tx: TxId)
    requires { Rises locks.old.entries }
    ensures turned { IsTurned (λ m. turned_where (is_one_of tx keys.now m) without_plain) locks.old.entries locks.new.entries }
    ensures rises { Rises locks.new.entries }
{
    for key in keys {
        unlock(locks, &(key.copy(), tx));
    }
}

/// Takes what the transaction has at these keys out of the table.
fn remove_all(locks: &mut LockMap, keys: &[HeadedKey], tx: TxId)
    requires { Rises locks.old.entries }
    ensures left { (m : MarkLem) → found mark_cmp locks.new.entries m ≡ (if is_one_of tx keys.now m then None else found mark_cmp locks.old.entries m) }
    ensures rises { Rises locks.new.entries }
{
    for key in keys {
        let _ = locks.remove(&(key.copy(), tx));
    }
}

/// Takes all plain locks of the transaction back.
pub fn release(locks: &mut LockMap, index: &KeyIndex, tx: TxId)
    requires rises { Rises locks.old.entries }
    requires covered { IsCovered locks.old.entries index.now.entries }
    ensures turned { IsTurned (λ m. turned_where (m.1 == tx) without_plain) locks.old.entries locks.new.entries }
    ensures rises { Rises locks.new.entries }
{
    if let Some(keys) = index.get(&tx) {
        unlock_all(locks, keys.as_slice(), tx);
    }
}

/// Takes all that the transaction has out of the table and the index.
pub fn forget(locks: &mut LockMap, index: &mut KeyIndex, tx: TxId)
    requires rises { Rises locks.old.entries }
    requires covered { IsCovered locks.old.entries index.old.entries }
    ensures left { (m : MarkLem) → found mark_cmp locks.new.entries m ≡ (if m.1 == tx then None else found mark_cmp locks.old.entries m) }
    ensures rises { Rises locks.new.entries }
    ensures covered { IsCovered locks.new.entries index.new.entries }
{
    if let Some(keys) = index.remove(&tx) {
        remove_all(locks, keys.as_slice(), tx);
    }
}

/// Adds the key at the end, or leaves all as before.
fn push_key(keys: &mut Vec<HeadedKey>, key: &HeadedKey) -> Result<(), NoMemory>
    ensures there { OnOk result (member key_cmp keys.new.items key.now ≡ true) }
    ensures kept { (k : List ℕ) → member key_cmp keys.old.items k ≡ true → member key_cmp keys.new.items k ≡ true }
{
    keys.push(key.copy())?;
    Ok(())
}

/// The one key.
fn one_key(alloc: Global, key: &HeadedKey) -> Result<Vec<HeadedKey>, NoMemory>
    ensures { IfOk result (λ keys. keys.items ≡ key.now ∷ []) }
{
    let mut keys = Vec::new(alloc);
    keys.push(key.copy())?;
    Ok(keys)
}

/// Notes that the transaction of the mark may have something at its key.
fn note(index: &mut KeyIndex, alloc: Global, mark: &Spot) -> Result<(), NoMemory>
    ensures there { OnOk result (has_key_at index.new.entries mark.now ≡ true) }
    ensures kept { (m : MarkLem) → has_key_at index.old.entries m ≡ true → has_key_at index.new.entries m ≡ true }
{
    match index.get_mut(&mark.1) {
        Some(keys) => push_key(keys, &mark.0),
        None => {
            let keys = one_key(alloc, &mark.0)?;
            index.insert(mark.1, keys)?;
            Ok(())
        }
    }
}

/// Gives the mark a place, where it has none yet.
pub fn make_place(
    locks: &mut LockMap,
    index: &mut KeyIndex,
    alloc: Global,
    mark: &Spot,
) -> Result<(), NoMemory>
    requires rises { Rises locks.old.entries }
    requires txs { AreTxs locks.old.entries }
    requires covered { IsCovered locks.old.entries index.old.entries }
    ensures there { OnOk result (has_place locks.new.entries mark.now ≡ true) }
    ensures kept { (m : MarkLem) → has_place locks.old.entries m ≡ true → has_place locks.new.entries m ≡ true }
    ensures plain { (m : MarkLem) → plain_at locks.new.entries m ≡ plain_at locks.old.entries m }
    ensures lost { (m : MarkLem) → lost_at locks.new.entries m ≡ lost_at locks.old.entries m }
    ensures rises { Rises locks.new.entries }
    ensures txs { AreTxs locks.new.entries }
    ensures covered { IsCovered locks.new.entries index.new.entries }
{
    let tx = mark.1;
    let _number = tx.0;
    if has(locks, mark) {
        return Ok(());
    }
    note(index, alloc, mark)?;
    locks.insert(
        (mark.0.copy(), mark.1),
        Lock {
            plain: false,
            lost: false,
        },
    )?;
    Ok(())
}

/// Takes the key of the mark away from its transaction's.
fn strike(index: &mut KeyIndex, mark: &Spot)
    ensures { (m : MarkLem) → same_mark mark.now m ≡ false → has_key_at index.old.entries m ≡ true → has_key_at index.new.entries m ≡ true }
{
    if let Some(keys) = index.get_mut(&mark.1) {
        drop_key(keys, &mark.0);
    }
}

/// Takes the key out.
fn drop_key(keys: &mut Vec<HeadedKey>, key: &HeadedKey)
    ensures { (k : List ℕ) → is_eq (key_cmp key.now k) ≡ false → member key_cmp keys.old.items k ≡ true → member key_cmp keys.new.items k ≡ true }
{
    keys.retain(|other| key.cmp(other).is_ne());
}

/// Whether the transaction has an entry in the index, with no keys.
fn is_bare(index: &KeyIndex, tx: TxId) -> bool
    ensures { result ≡ true → keys_at index.now.entries tx ≡ [] }
{
    match index.get(&tx) {
        Some(keys) => keys.is_empty(),
        None => false,
    }
}

/// Takes the entry of the transaction out of the index, if it has no keys.
fn drop_bare(index: &mut KeyIndex, tx: TxId)
    ensures { (m : MarkLem) → has_key_at index.old.entries m ≡ true → has_key_at index.new.entries m ≡ true }
{
    if is_bare(index, tx) {
        let _ = index.remove(&tx);
    }
}

/// Takes the place of the mark away, if it has no plain lock and lost none.
pub fn drop_idle(locks: &mut LockMap, index: &mut KeyIndex, mark: &Spot)
    requires rises { Rises locks.old.entries }
    requires txs { AreTxs locks.old.entries }
    requires covered { IsCovered locks.old.entries index.old.entries }
    ensures kept { (m : MarkLem) → same_mark mark.now m ≡ false → has_place locks.old.entries m ≡ true → has_place locks.new.entries m ≡ true }
    ensures plain { (m : MarkLem) → plain_at locks.new.entries m ≡ plain_at locks.old.entries m }
    ensures lost { (m : MarkLem) → lost_at locks.new.entries m ≡ lost_at locks.old.entries m }
    ensures rises { Rises locks.new.entries }
    ensures txs { AreTxs locks.new.entries }
    ensures covered { IsCovered locks.new.entries index.new.entries }
{
    let lock = lock_of(locks, mark);
    if lock.plain || lock.lost {
        return;
    }
    let _ = locks.remove(mark);
    strike(index, mark);
    drop_bare(index, mark.1);
}
