// Keys, each with a transaction that locked it, lost its lock on it or waits for it.
ghost use Rattle.std.specs.Prelude.{◌≡◌, ◌≤◌, ◌<◌, ◌+◌, ◌++◌, [], ◌∷◌, not, filter, length, vec_len, vec_capacity, IfOk, OnOk, OnErr, if◌then◌else◌};
ghost use Rattle.std.specs.Ordering.{is_le, is_eq};
ghost use Rattle.rc_ids.specs.Texts.{same_key};
ghost use Rattle.rc_ids.specs.Tables.{member, added};
ghost use Rattle.rc_protocol.specs.Shard.{Mark as MarkLem, mark_cmp, cleared, is_other, is_taken, added_all};
ghost use Rattle.rc_protocol.specs.Shard as shard;
ghost use Rattle.rc_locks.specs.Places.{place_where, passes_at};
ghost use Rattle.rc_locks.specs.LockSets.{cleared_all};

use crate::entries::takes;
use crate::parts::{Prepared, is_free};
use rc_body::Body;
use rc_ids::{Key, NoMemory, TxId};
use std::alloc::Global;

/// A key and the transaction.
pub type Mark = (Key, TxId);

/// Whether the mark is there.
pub fn has(marks: &[Mark], mark: &Mark) -> bool
    ensures { result ≡ member mark_cmp marks.now mark.now }
{
    marks.iter().any(|other| mark.cmp(other).is_eq())
}

/// Where the mark stands in the order of the marks, or would stand.
fn place_of(marks: &[Mark], mark: &Mark) -> usize
    ensures place { result ≡ place_where (λ (m : MarkLem). is_le (mark_cmp mark.now m)) marks.now }
    ensures few { result ≤ length marks.now }
{
    for place in 0..marks.len() {
        if mark.cmp(&marks[place]).is_le() {
            return place;
        }
    }
    marks.len()
}

/// Whether the mark stands at the place.
fn is_at(marks: &[Mark], place: usize, mark: &Mark) -> bool
    ensures { result ≡ passes_at (λ (m : MarkLem). is_eq (mark_cmp mark.now m)) marks.now place }
{
    place < marks.len() && mark.cmp(&marks[place]).is_eq()
}

/// Adds the mark, for which there is room.
pub fn add(marks: &mut Vec<Mark>, mark: Mark)
    requires { vec_len marks.old < vec_capacity marks.old }
    ensures items { marks.new.items ≡ added mark_cmp marks.old.items mark }
    ensures few { vec_len marks.new ≤ vec_len marks.old + 1 }
    ensures capacity { vec_capacity marks.old ≤ vec_capacity marks.new }
{
    let place = place_of(marks, &mark);
    if is_at(marks, place, &mark) {
        return;
    }
    let _placed = marks.insert(place, mark);
}

/// Adds these marks, for which there is room.
pub fn add_all(marks: &mut Vec<Mark>, more: &[Mark])
    requires { vec_len marks.old + length more.now ≤ vec_capacity marks.old }
    ensures { marks.new.items ≡ added_all marks.old.items more.now }
{
    for mark in more {
        add(marks, (mark.0.copy(), mark.1));
    }
}

/// Adds each plain lock that a prepare of the part takes away. There is room for all plain locks.
pub fn add_taken(lost: &mut Vec<Mark>, plain: &[Mark], tx: TxId, part: &Body)
    requires { vec_len lost.old + length plain.now ≤ vec_capacity lost.old }
    ensures { lost.new.items ≡ added_all lost.old.items (filter (is_taken tx part.now) plain.now) }
{
    for mark in plain {
        if takes(tx, part, mark) {
            add(lost, (mark.0.copy(), mark.1));
        }
    }
}

/// Removes each plain lock that a prepare of the part takes away.
pub fn drop_taken(plain: &mut Vec<Mark>, tx: TxId, part: &Body)
    ensures { plain.new.items ≡ filter (λ (m : MarkLem). not (is_taken tx part.now m)) plain.old.items }
{
    plain.retain(|mark| !takes(tx, part, mark));
}

/// Removes the mark.
pub fn remove(marks: &mut Vec<Mark>, removed: &Mark)
    ensures { marks.new.items ≡ filter (is_other removed.now) marks.old.items }
{
    marks.retain(|mark| removed.cmp(mark).is_ne());
}

/// Removes all marks of the transaction.
pub fn clear(marks: &mut Vec<Mark>, tx: TxId)
    ensures items { marks.new.items ≡ cleared marks.old.items tx }
    ensures few { vec_len marks.new ≤ vec_len marks.old }
    ensures capacity { vec_capacity marks.new ≡ vec_capacity marks.old }
{
    marks.retain(|mark| mark.1 != tx);
}

/// Removes all marks of these transactions.
pub fn clear_all(marks: &mut Vec<Mark>, txs: &[TxId])
    ensures items { marks.new.items ≡ cleared_all marks.old.items txs.now }
    ensures few { vec_len marks.new ≤ vec_len marks.old }
    ensures capacity { vec_capacity marks.new ≡ vec_capacity marks.old }
{
    for tx in txs {
        clear(marks, *tx);
    }
}

/// Adds the waiting reads whose key nobody holds exclusively, at the end. There is room for all waiting reads.
pub fn add_free(freed: &mut Vec<Mark>, waiting: &[Mark], parts: &[Prepared])
    requires { vec_len freed.old + length waiting.now ≤ vec_capacity freed.old }
    ensures items { freed.new.items ≡ freed.old.items ++ filter (shard.is_free parts.now) waiting.now }
    ensures few { vec_len freed.new ≤ vec_len freed.old + length waiting.now }
{
    for mark in waiting {
        if is_free(parts, mark) {
            freed.push_reserved((mark.0.copy(), mark.1));
        }
    }
}

/// Removes the waiting reads whose key nobody holds exclusively.
pub fn drop_free(waiting: &mut Vec<Mark>, parts: &[Prepared])
    ensures { waiting.new.items ≡ filter (λ (m : MarkLem). not (shard.is_free parts.now m)) waiting.old.items }
{
    waiting.retain(|mark| !is_free(parts, mark));
}

/// How many marks have the key.
pub fn count_of(marks: &[Mark], key: &Key) -> usize
    ensures { result ≡ length (filter (λ (m : MarkLem). same_key m.0 key.now) marks.now) }
{
    marks.iter().filter(|mark| mark.0 == *key).count()
}

/// A copy of the marks.
pub fn copy(alloc: Global, marks: &[Mark]) -> Result<Vec<Mark>, NoMemory>
    ensures { IfOk result (λ ms. ms.items ≡ marks.now) }
{
    let mut copied = Vec::new(alloc);
    for mark in marks {
        copied.push((mark.0.copy(), mark.1))?;
    }
    Ok(copied)
}

/// Leaves the reads whose key nobody holds exclusively.
pub fn keep_free(waiting: &mut Vec<Mark>, parts: &[Prepared])
    ensures { waiting.new.items ≡ filter (shard.is_free parts.now) waiting.old.items }
{
    waiting.retain(|mark| is_free(parts, mark));
}

/// Adds a plain lock, or leaves all as before.
pub fn lock(plain: &mut Vec<Mark>, mark: Mark) -> Result<(), NoMemory>
    ensures ok { OnOk result (plain.new.items ≡ added mark_cmp plain.old.items mark) }
    ensures err { OnErr result (plain.new.items ≡ plain.old.items) }
{
    plain.reserve(1)?;
    add(plain, mark);
    Ok(())
}

/// Lets the read wait, once, or leaves all as before.
pub fn wait(waiting: &mut Vec<Mark>, mark: Mark) -> Result<(), NoMemory>
    ensures ok { OnOk result (waiting.new.items ≡ (if member mark_cmp waiting.old.items mark then waiting.old.items else waiting.old.items ++ mark ∷ [])) }
    ensures err { OnErr result (waiting.new.items ≡ waiting.old.items) }
{
    if has(waiting, &mark) {
        return Ok(());
    }
    waiting.push(mark)?;
    Ok(())
}
