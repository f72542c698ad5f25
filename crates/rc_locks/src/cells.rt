// Who holds each key, by the parts that are prepared.
ghost use Rattle.std.specs.Prelude.{◌≡◌, ℕ, ◌≤◌, ◌&&◌, List, [], length, true, Some, slice_get, OnOk, IfOk, if◌then◌else◌};
ghost use Rattle.std.specs.Ordering.{nat_cmp, is_le, is_eq};
ghost use Rattle.rc_ids.specs.Tables.{added};
ghost use Rattle.rc_ids.specs.Texts.{same_key};
ghost use Rattle.rc_body.specs.Bodies.{has_key, writes};
ghost use Rattle.rc_locks.specs.Cells.{cell_at, writers_at, readers_at, HasRoom, HasRooms, IsRoomFor, others};
ghost use Rattle.rc_locks.specs.Places.{place_where, passes_at};

use rc_body::Body;
use rc_ids::{Key, NoMemory, TxId};
use std::alloc::Global;
use std::collections::HashMap;

/// Who holds a key, each rising.
#[derive(Drop)]
pub struct Holders {
    /// The transactions whose part writes the key.
    pub writers: Vec<TxId>,
    /// The transactions whose part has the key.
    pub readers: Vec<TxId>,
}

/// The holders of each key.
pub type Cells = HashMap<Key, Holders>;

/// The least transaction whose part writes the key.
pub fn holder(cells: &Cells, key: &Key) -> Option<TxId>
    ensures { result ≡ slice_get (writers_at cells.now.entries key.now) 0 }
{
    match cells.get(key) {
        Some(cell) => cell.writers.first().copied(),
        None => None,
    }
}

/// The least transaction whose part has the key.
pub fn reader(cells: &Cells, key: &Key) -> Option<TxId>
    ensures { result ≡ slice_get (readers_at cells.now.entries key.now) 0 }
{
    match cells.get(key) {
        Some(cell) => cell.readers.first().copied(),
        None => None,
    }
}

/// Where the transaction stands in the list, or would stand.
fn place_of(list: &[TxId], tx: TxId) -> usize
    ensures place { result ≡ place_where (λ (t : ℕ). is_le (nat_cmp tx t)) list.now }
    ensures few { result ≤ length list.now }
{
    for place in 0..list.len() {
        if tx.cmp(&list[place]).is_le() {
            return place;
        }
    }
    list.len()
}

/// Whether the transaction stands at the place.
fn is_at(list: &[TxId], place: usize, tx: TxId) -> bool
    ensures { result ≡ passes_at (λ (t : ℕ). is_eq (nat_cmp tx t)) list.now place }
{
    place < list.len() && tx.cmp(&list[place]).is_eq()
}

/// Adds the transaction to the list, which has it or has room for it.
fn add(list: &mut Vec<TxId>, tx: TxId)
    requires { HasRoom tx list.old }
    ensures items { list.new.items ≡ added nat_cmp list.old.items tx }
    ensures room { HasRoom tx list.new }
{
    let place = place_of(list, tx);
    if is_at(list, place, tx) {
        return;
    }
    let _placed = list.insert(place, tx);
}

/// Adds the transaction to the list, if it is to be added.
fn add_if(list: &mut Vec<TxId>, tx: TxId, wanted: bool)
    requires { HasRoom tx list.old }
    ensures items { list.new.items ≡ (if wanted then added nat_cmp list.old.items tx else list.old.items) }
    ensures room { HasRoom tx list.new }
{
    if wanted {
        add(list, tx);
    }
}

/// Adds the transaction to the readers, and to the writers if it writes.
fn join(cell: &mut Holders, tx: TxId, written: bool)
    requires writers { HasRoom tx cell.old.writers }
    requires readers { HasRoom tx cell.old.readers }
    ensures writers { cell.new.writers.items ≡ (if written then added nat_cmp cell.old.writers.items tx else cell.old.writers.items) }
    ensures readers { cell.new.readers.items ≡ added nat_cmp cell.old.readers.items tx }
    ensures room { HasRoom tx cell.new.writers }
    ensures place { HasRoom tx cell.new.readers }
{
    add_if(&mut cell.writers, tx, written);
    add(&mut cell.readers, tx);
}

/// Adds the transaction to the holders of the key, which have room for it.
fn join_at(cells: &mut Cells, key: &Key, tx: TxId, written: bool)
    requires { HasRooms tx (cell_at cells.old.entries key.now) }
    ensures writers { (k : List ℕ) → writers_at cells.new.entries k ≡ (if same_key key.now k && written then added nat_cmp (writers_at cells.old.entries k) tx else writers_at cells.old.entries k) }
    ensures readers { (k : List ℕ) → readers_at cells.new.entries k ≡ (if same_key key.now k then added nat_cmp (readers_at cells.old.entries k) tx else readers_at cells.old.entries k) }
    ensures rooms { (k : List ℕ) → HasRooms tx (cell_at cells.old.entries k) → HasRooms tx (cell_at cells.new.entries k) }
{
    if let Some(cell) = cells.get_mut(key) {
        join(cell, tx, written);
    }
}

/// Adds the transaction to the holders of the keys of its part, which have room for it.
pub fn hold(cells: &mut Cells, tx: TxId, part: &Body)
    requires { IsRoomFor tx part.now cells.old.entries }
    ensures writers { (k : List ℕ) → writers_at cells.new.entries k ≡ (if writes k part.now then added nat_cmp (writers_at cells.old.entries k) tx else writers_at cells.old.entries k) }
    ensures readers { (k : List ℕ) → readers_at cells.new.entries k ≡ (if has_key k part.now then added nat_cmp (readers_at cells.old.entries k) tx else readers_at cells.old.entries k) }
{
    for index in 0..part.len() {
        let entry = part.entry(index);
        join_at(cells, entry.key, tx, entry.write.is_some());
    }
}

/// Takes the transaction out of the holders.
fn leave(cell: &mut Holders, tx: TxId)
    ensures writers { cell.new.writers.items ≡ others tx cell.old.writers.items }
    ensures readers { cell.new.readers.items ≡ others tx cell.old.readers.items }
{
    cell.writers.retain(|other| *other != tx);
    cell.readers.retain(|other| *other != tx);
}

/// Takes the transaction out of the holders of the key.
fn leave_at(cells: &mut Cells, key: &Key, tx: TxId)
    ensures writers { (k : List ℕ) → writers_at cells.new.entries k ≡ (if same_key key.now k then others tx (writers_at cells.old.entries k) else writers_at cells.old.entries k) }
    ensures readers { (k : List ℕ) → readers_at cells.new.entries k ≡ (if same_key key.now k then others tx (readers_at cells.old.entries k) else readers_at cells.old.entries k) }
{
    if let Some(cell) = cells.get_mut(key) {
        leave(cell, tx);
    }
}

/// Whether the key has an entry, with no holders.
fn is_idle(cells: &Cells, key: &Key) -> bool
    ensures writers { result ≡ true → writers_at cells.now.entries key.now ≡ [] }
    ensures readers { result ≡ true → readers_at cells.now.entries key.now ≡ [] }
{
    match cells.get(key) {
        Some(cell) => cell.writers.is_empty() && cell.readers.is_empty(),
        None => false,
    }
}

/// Takes the entry of the key away, if it has no holders.
fn drop_idle(cells: &mut Cells, key: &Key)
    ensures writers { (k : List ℕ) → writers_at cells.new.entries k ≡ writers_at cells.old.entries k }
    ensures readers { (k : List ℕ) → readers_at cells.new.entries k ≡ readers_at cells.old.entries k }
{
    if is_idle(cells, key) {
        let _ = cells.remove(key);
    }
}

/// Takes the transaction out of the holders of the keys of its part.
pub fn release(cells: &mut Cells, tx: TxId, part: &Body)
    ensures writers { (k : List ℕ) → writers_at cells.new.entries k ≡ (if has_key k part.now then others tx (writers_at cells.old.entries k) else writers_at cells.old.entries k) }
    ensures readers { (k : List ℕ) → readers_at cells.new.entries k ≡ (if has_key k part.now then others tx (readers_at cells.old.entries k) else readers_at cells.old.entries k) }
{
    for index in 0..part.len() {
        let entry = part.entry(index);
        leave_at(cells, entry.key, tx);
        drop_idle(cells, entry.key);
    }
}

/// Makes room for one more transaction in each list, or leaves the transactions as they were.
fn widen(cell: &mut Holders) -> Result<(), NoMemory>
    ensures writers { cell.new.writers.items ≡ cell.old.writers.items }
    ensures readers { cell.new.readers.items ≡ cell.old.readers.items }
    ensures room { OnOk result ((t : ℕ) → HasRooms t (Some cell.new)) }
{
    cell.writers.reserve(1)?;
    cell.readers.reserve(1)?;
    Ok(())
}

/// No holders, with room for one.
fn idle(alloc: Global) -> Result<Holders, NoMemory>
    ensures writers { IfOk result (λ c. c.writers.items ≡ []) }
    ensures readers { IfOk result (λ c. c.readers.items ≡ []) }
    ensures room { IfOk result (λ c. (t : ℕ) → HasRooms t (Some c)) }
{
    let mut cell = Holders {
        writers: Vec::new(alloc),
        readers: Vec::new(alloc),
    };
    widen(&mut cell)?;
    Ok(cell)
}

/// Makes room for one more holder of the key, or leaves the holders as they were.
fn widen_at(cells: &mut Cells, alloc: Global, key: &Key) -> Result<(), NoMemory>
    ensures writers { (k : List ℕ) → writers_at cells.new.entries k ≡ writers_at cells.old.entries k }
    ensures readers { (k : List ℕ) → readers_at cells.new.entries k ≡ readers_at cells.old.entries k }
    ensures room { OnOk result ((k : List ℕ) (t : ℕ) → same_key key.now k ≡ true → HasRooms t (cell_at cells.new.entries k)) }
    ensures kept { OnOk result ((k : List ℕ) (t : ℕ) → HasRooms t (cell_at cells.old.entries k) → HasRooms t (cell_at cells.new.entries k)) }
{
    match cells.get_mut(key) {
        Some(cell) => widen(cell),
        None => {
            let cell = idle(alloc)?;
            cells.insert(key.copy(), cell)?;
            Ok(())
        }
    }
}

/// Makes room for one more holder of each key of the part, or leaves the holders as they were.
pub fn make_room(cells: &mut Cells, alloc: Global, part: &Body) -> Result<(), NoMemory>
    ensures writers { (k : List ℕ) → writers_at cells.new.entries k ≡ writers_at cells.old.entries k }
    ensures readers { (k : List ℕ) → readers_at cells.new.entries k ≡ readers_at cells.old.entries k }
    ensures room { OnOk result ((t : ℕ) → IsRoomFor t part.now cells.new.entries) }
{
    for index in 0..part.len() {
        let entry = part.entry(index);
        widen_at(cells, alloc, entry.key)?;
    }
    Ok(())
}
