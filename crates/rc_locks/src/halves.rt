// Prepared parts in the order of their transactions, found by halves, and beside them the holders of each key.
ghost use Rattle.std.specs.Prelude.{◌≡◌, ◌≤◌, ◌<◌, ℕ, List, None, OnOk, IfSome, IfNone, length, nat_lt, remove, slice_get, vec_len, vec_capacity};
ghost use Rattle.std.specs.Ordering.{nat_cmp, is_le};
ghost use Rattle.std.specs.Option.{option_copied, option_map};
ghost use Rattle.rc_body.specs.declared.entry.Entry.{Entry};
ghost use Rattle.rc_ids.specs.Tables.{found, without};
ghost use Rattle.rc_ids.specs.Tables as tables;
ghost use Rattle.rc_locks.specs.Cells.{IsRising, IsIndexed, IsRoomFor};
ghost use Rattle.rc_locks.specs.LockSets.{parts_left, put_new, put_all};
ghost use Rattle.rc_locks.specs.Places.{place_where};

use crate::cells::{self, Cells};
use crate::parts::Prepared;
use rc_body::Body;
use rc_ids::{NoMemory, TxId};
use std::alloc::Global;

/// Whether the part is of an earlier transaction.
fn is_before(entry: &Prepared, tx: TxId) -> bool
    ensures { result ≡ nat_lt entry.now.0 tx }
{
    entry.0 < tx
}

/// Where the transaction stands in the order of the transactions, or would stand.
fn place_of(parts: &[Prepared], tx: TxId) -> usize
    requires { IsRising parts.now }
    ensures place { result ≡ place_where (λ (p : ℕ × List Entry). is_le (nat_cmp tx p.0)) parts.now }
    ensures few { result ≤ length parts.now }
{
    parts.partition_point(|entry| is_before(entry, tx))
}

/// Where the transaction stands, if it is there.
fn spot_of(parts: &[Prepared], tx: TxId) -> Option<usize>
    requires { IsRising parts.now }
    ensures within { IfSome result (λ place. place < length parts.now) }
    ensures value { IfSome result (λ place. found nat_cmp parts.now tx ≡ option_map (λ p. p.1) (slice_get parts.now place)) }
    ensures rest { IfSome result (λ place. remove parts.now place ≡ without nat_cmp parts.now tx) }
    ensures none { IfNone result (found nat_cmp parts.now tx ≡ None) }
{
    let place = place_of(parts, tx);
    if place >= parts.len() {
        return None;
    }
    if parts[place].0 == tx {
        return Some(place);
    }
    None
}

/// The part of the transaction, where it is prepared.
pub fn find<'a>(parts: &'a [Prepared], tx: TxId) -> Option<&'a Body>
    requires { IsRising parts.now }
    ensures { option_copied result ≡ found nat_cmp parts.now tx }
{
    let Some(place) = spot_of(parts, tx) else {
        return None;
    };
    Some(&parts[place].1)
}

/// Gives the transaction, which is not there, this part. There is room for one more.
fn put(parts: &mut Vec<Prepared>, tx: TxId, part: Body)
    requires rises { IsRising parts.old.items }
    requires room { vec_len parts.old < vec_capacity parts.old }
    requires absent { found nat_cmp parts.old.items tx ≡ None }
    ensures { parts.new.items ≡ tables.put nat_cmp parts.old.items tx part }
{
    let place = place_of(parts, tx);
    let _placed = parts.insert(place, (tx, part));
}

/// Takes the part of the transaction out, where it is there.
fn take(parts: &mut Vec<Prepared>, tx: TxId) -> Option<Body>
    requires { IsRising parts.old.items }
    ensures taken { result ≡ found nat_cmp parts.old.items tx }
    ensures left { parts.new.items ≡ without nat_cmp parts.old.items tx }
{
    let Some(place) = spot_of(parts, tx) else {
        return None;
    };
    let (_, part) = parts.remove(place);
    Some(part)
}

/// Prepares the part of the transaction, which is not there. There is room for it.
pub fn insert(parts: &mut Vec<Prepared>, cells: &mut Cells, tx: TxId, part: Body)
    requires rises { IsRising parts.old.items }
    requires indexed { IsIndexed parts.old.items cells.old.entries }
    requires absent { found nat_cmp parts.old.items tx ≡ None }
    requires room { vec_len parts.old < vec_capacity parts.old }
    requires rooms { IsRoomFor tx part cells.old.entries }
    ensures parts { parts.new.items ≡ tables.put nat_cmp parts.old.items tx part }
    ensures rises { IsRising parts.new.items }
    ensures indexed { IsIndexed parts.new.items cells.new.entries }
{
    cells::hold(cells, tx, &part);
    put(parts, tx, part);
}

/// Takes the part of the transaction away.
fn remove(parts: &mut Vec<Prepared>, cells: &mut Cells, tx: TxId)
    requires rises { IsRising parts.old.items }
    requires indexed { IsIndexed parts.old.items cells.old.entries }
    ensures parts { parts.new.items ≡ without nat_cmp parts.old.items tx }
    ensures rises { IsRising parts.new.items }
    ensures indexed { IsIndexed parts.new.items cells.new.entries }
{
    if let Some(part) = take(parts, tx) {
        cells::release(cells, tx, &part);
    }
}

/// Takes the parts of these transactions away.
pub fn remove_all(parts: &mut Vec<Prepared>, cells: &mut Cells, txs: &[TxId])
    requires rises { IsRising parts.old.items }
    requires indexed { IsIndexed parts.old.items cells.old.entries }
    ensures parts { parts.new.items ≡ parts_left parts.old.items txs.now }
    ensures rises { IsRising parts.new.items }
    ensures indexed { IsIndexed parts.new.items cells.new.entries }
{
    for tx in txs {
        remove(parts, cells, *tx);
    }
}

/// Prepares the part of the transaction, unless it has one.
fn insert_new(
    parts: &mut Vec<Prepared>,
    cells: &mut Cells,
    alloc: Global,
    tx: TxId,
    part: Body,
) -> Result<(), NoMemory>
    requires rises { IsRising parts.old.items }
    requires indexed { IsIndexed parts.old.items cells.old.entries }
    ensures ok { OnOk result (parts.new.items ≡ put_new parts.old.items tx part) }
    ensures rises { OnOk result (IsRising parts.new.items) }
    ensures indexed { OnOk result (IsIndexed parts.new.items cells.new.entries) }
{
    if find(parts.as_slice(), tx).is_some() {
        return Ok(());
    }
    parts.reserve(1)?;
    cells::make_room(cells, alloc, &part)?;
    insert(parts, cells, tx, part);
    Ok(())
}

/// Prepares the part of each transaction; of two parts of one transaction the first stays.
pub fn insert_all(
    parts: &mut Vec<Prepared>,
    cells: &mut Cells,
    alloc: Global,
    entries: Vec<Prepared>,
) -> Result<(), NoMemory>
    requires rises { IsRising parts.old.items }
    requires indexed { IsIndexed parts.old.items cells.old.entries }
    ensures ok { OnOk result (parts.new.items ≡ put_all parts.old.items entries.items) }
    ensures rises { OnOk result (IsRising parts.new.items) }
    ensures indexed { OnOk result (IsIndexed parts.new.items cells.new.entries) }
{
    for (tx, part) in entries {
        insert_new(parts, cells, alloc, tx, part)?;
    }
    Ok(())
}
