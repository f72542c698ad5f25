// Locks by key and by transaction.
ghost use Rattle.std.specs.Prelude.{◌≡◌, ◌≤◌, ◌<◌, ◌+◌, ◌||◌, [], is_some, vec_len, vec_capacity};
ghost use Rattle.std.specs.List.Sorted.{IsStrictlySortedBy-prop};
ghost use Rattle.std.specs.Map.{keys_of};
ghost use Rattle.std.specs.Ordering.{nat_cmp};
ghost use Rattle.rc_ids.specs.Tables.{found};
ghost use Rattle.rc_protocol.specs.Shard.{mark_cmp};
ghost use Rattle.rc_locks.specs.Cells.{IsRising, IsIndexed, IsRoomFor};
ghost use Rattle.rc_locks.specs.Flags.{lost_at, plain_marks, lost_marks, Rises, AreTxs, IsCovered, ArePlaced};

use crate::cells::{self, Cells};
use crate::checks::refusal;
use crate::flags::{KeyIndex, LockMap, Spot, lock_of};
use crate::marks::{self, Mark};
use crate::parts::Prepared;
use crate::{Answer, Asked, Freed, LockTable, frees, halves, moves};
use rc_body::{Body, Parts};
use rc_ids::{Key, NoMemory, TxId};
use rc_versions::{HeadedKey, Versions};
use std::alloc::Global;
use std::collections::{BTreeMap, HashMap};
use std::mem;

/// Locks by key and by transaction, so that a call looks at the keys of its part and at nothing else but the reads that wait.
#[derive(Drop)]
pub struct Locks {
    // The prepared parts, in the order of the transactions, and who holds each key by them.
    parts: Vec<Prepared>,
    cells: Cells,
    // The plain locks and the marks of lost ones, and the keys of each transaction.
    marks: LockMap,
    index: KeyIndex,
    // The reads that wait, in order of arrival; each has a place among the marks.
    waiting: Vec<Mark>,
    // Where a finish puts the reads that it grants.
    freed: Vec<Mark>,
    ghost rising: { IsRising parts.items } by { IsStrictlySortedBy-prop nat_cmp (keys_of parts.items) },
    ghost indexed: { IsIndexed parts.items cells.entries },
    ghost rises: { Rises marks.entries } by { IsStrictlySortedBy-prop mark_cmp (keys_of marks.entries) },
    ghost txs: { AreTxs marks.entries },
    ghost covered: { IsCovered marks.entries index.entries },
    ghost placed: { ArePlaced waiting.items marks.entries },
}

/// Whether the transaction of the mark is prepared, or lost its lock on the key.
fn ignores(parts: &[Prepared], marks: &LockMap, mark: &Spot) -> bool
    requires { IsRising parts.now }
    ensures { result ≡ (is_some (found nat_cmp parts.now mark.now.1) || lost_at marks.now.entries mark.now) }
{
    halves::find(parts, mark.1).is_some() || lock_of(marks, mark).lost
}

impl LockTable for Locks {
    ghost state = { λ l. record { parts = l.parts.items; marks = record { plain = plain_marks l.marks.entries; lost = lost_marks l.marks.entries; waiting = l.waiting.items; cursor = 0 } } };

    ghost has_room = { λ l tx part. (vec_len l.parts < vec_capacity l.parts) × IsRoomFor tx part l.cells.entries };

    ghost has_finish_room = { λ l txs. (l.freed.items ≡ []) × (vec_len l.freed + vec_len l.waiting ≤ vec_capacity l.freed) };

    fn new(alloc: Global) -> Locks {
        Locks {
            parts: Vec::new(alloc),
            cells: HashMap::new(alloc),
            marks: BTreeMap::new(alloc),
            index: BTreeMap::new(alloc),
            waiting: Vec::new(alloc),
            freed: Vec::new(alloc),
        }
    }

    fn restore(alloc: Global, parts: Parts) -> Result<Locks, NoMemory> {
        let mut table = Vec::new(alloc);
        let mut cells = HashMap::new(alloc);
        halves::insert_all(&mut table, &mut cells, alloc, parts.into_entries())?;
        Ok(Locks {
            parts: table,
            cells,
            marks: BTreeMap::new(alloc),
            index: BTreeMap::new(alloc),
            waiting: Vec::new(alloc),
            freed: Vec::new(alloc),
        })
    }

    fn ask(&mut self, tx: TxId, key: &Key) -> Result<Asked, NoMemory> {
        let said = self.would_ask(tx, key);
        let alloc = *self.freed.allocator();
        let spot = (HeadedKey::new(key), tx);
        match said {
            Asked::Granted => moves::lock(&mut self.marks, &mut self.index, alloc, &spot)?,
            Asked::Waits => {
                moves::place(&mut self.marks, &mut self.index, alloc, &spot)?;
                marks::wait(&mut self.waiting, (key.copy(), tx))?
            }
            Asked::Ignored => {}
        }
        Ok(said)
    }

    fn would_ask(&self, tx: TxId, key: &Key) -> Asked {
        let spot = (HeadedKey::new(key), tx);
        if ignores(&self.parts, &self.marks, &spot) {
            return Asked::Ignored;
        }
        if cells::holder(&self.cells, key).is_none() {
            return Asked::Granted;
        }
        Asked::Waits
    }

    fn cancel(&mut self, tx: TxId, key: &Key) {
        let spot = (HeadedKey::new(key), tx);
        moves::unlock(&mut self.marks, &mut self.index, &spot);
        marks::remove(&mut self.waiting, &(key.copy(), tx));
    }

    fn test(&self, tx: TxId, part: &Body, at: &Versions) -> Answer {
        match refusal(&self.cells, &self.marks, at, tx, part) {
            Some(reason) => Answer::No(reason),
            None => Answer::Yes,
        }
    }

    fn room(&mut self, _tx: TxId, part: &Body) -> Result<(), NoMemory> {
        let alloc = *self.freed.allocator();
        self.parts.reserve(1)?;
        cells::make_room(&mut self.cells, alloc, part)?;
        Ok(())
    }

    fn prepare(&mut self, tx: TxId, part: Body) {
        moves::preempt(&mut self.marks, &self.index, tx, &part);
        marks::clear(&mut self.waiting, tx);
        halves::insert(&mut self.parts, &mut self.cells, tx, part);
    }

    fn room_finish(&mut self, _txs: &[TxId]) -> Result<(), NoMemory> {
        self.freed.clear();
        self.freed.reserve(self.waiting.len())?;
        Ok(())
    }

    fn finish(&mut self, txs: &[TxId]) -> Freed {
        halves::remove_all(&mut self.parts, &mut self.cells, txs);
        moves::forget_all(&mut self.marks, &mut self.index, &mut self.waiting, txs);
        frees::add_free(&mut self.freed, &self.waiting, &self.cells);
        moves::grant_all(&mut self.marks, &self.freed);
        frees::drop_free(&mut self.waiting, &self.cells);
        let alloc = *self.freed.allocator();
        mem::replace(&mut self.freed, Vec::new(alloc))
    }

    fn would_finish(&self, txs: &[TxId]) -> Result<Freed, NoMemory> {
        let alloc = *self.freed.allocator();
        frees::would_free(alloc, &self.waiting, &self.cells, txs)
    }

    fn holder(&self, key: &Key) -> Option<TxId> {
        cells::holder(&self.cells, key)
    }

    fn waiting(&self, key: &Key) -> usize {
        marks::count_of(&self.waiting, key)
    }

    fn prepared(&self, tx: TxId) -> Option<&Body> {
        halves::find(&self.parts, tx)
    }

    fn parts(&self) -> &[Prepared] {
        self.parts.as_slice()
    }
}
