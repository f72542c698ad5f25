// Locks in lists of pairs.
ghost use Rattle.std.specs.Prelude.{◌≡◌, ◌≤◌, ◌<◌, ◌+◌, [], vec_len, vec_capacity};

use crate::marks::{self, Mark};
use crate::parts::{self, Prepared};
use crate::reasons::refusal;
use crate::{Answer, Asked, Freed, LockTable};
use rc_body::{Body, Parts};
use rc_ids::{Key, NoMemory, TxId};
use rc_versions::Versions;
use std::alloc::Global;
use std::mem;

/// Locks in lists: the prepared parts in the order of the transactions, and keys with the transactions that locked them, lost them or
/// wait for them.
#[derive(Drop)]
pub struct PlainLocks {
    parts: Vec<Prepared>,
    plain: Vec<Mark>,
    lost: Vec<Mark>,
    waiting: Vec<Mark>,
    // Where a finish puts the reads that it grants.
    freed: Vec<Mark>,
}

impl LockTable for PlainLocks {
    ghost state = { λ l. record { parts = l.parts.items; marks = record { plain = l.plain.items; lost = l.lost.items; waiting = l.waiting.items; cursor = 0 } } };

    ghost has_room = { λ l tx part. (vec_len l.parts < vec_capacity l.parts) × (vec_len l.lost + vec_len l.plain ≤ vec_capacity l.lost) };

    ghost has_finish_room = { λ l txs. (l.freed.items ≡ []) × (vec_len l.freed + vec_len l.waiting ≤ vec_capacity l.freed) × (vec_len l.freed ≡ 0) × (vec_len l.plain + vec_len l.waiting ≤ vec_capacity l.plain) };

    fn new(alloc: Global) -> PlainLocks {
        PlainLocks {
            parts: Vec::new(alloc),
            plain: Vec::new(alloc),
            lost: Vec::new(alloc),
            waiting: Vec::new(alloc),
            freed: Vec::new(alloc),
        }
    }

    fn restore(alloc: Global, parts: Parts) -> Result<PlainLocks, NoMemory> {
        let mut table = Vec::new(alloc);
        parts::put_all(&mut table, parts.into_entries())?;
        Ok(PlainLocks {
            parts: table,
            plain: Vec::new(alloc),
            lost: Vec::new(alloc),
            waiting: Vec::new(alloc),
            freed: Vec::new(alloc),
        })
    }

    fn ask(&mut self, tx: TxId, key: &Key) -> Result<Asked, NoMemory> {
        let said = self.would_ask(tx, key);
        match said {
            Asked::Granted => marks::lock(&mut self.plain, (key.copy(), tx))?,
            Asked::Waits => marks::wait(&mut self.waiting, (key.copy(), tx))?,
            Asked::Ignored => {}
        }
        Ok(said)
    }

    fn would_ask(&self, tx: TxId, key: &Key) -> Asked {
        let mark = (key.copy(), tx);
        if parts::find(&self.parts, tx).is_some() || marks::has(&self.lost, &mark) {
            return Asked::Ignored;
        }
        if parts::is_free(&self.parts, &mark) {
            return Asked::Granted;
        }
        Asked::Waits
    }

    fn cancel(&mut self, tx: TxId, key: &Key) {
        let mark = (key.copy(), tx);
        marks::remove(&mut self.plain, &mark);
        marks::remove(&mut self.waiting, &mark);
    }

    fn test(&self, tx: TxId, part: &Body, at: &Versions) -> Answer {
        match refusal(&self.parts, &self.lost, at, tx, part) {
            Some(reason) => Answer::No(reason),
            None => Answer::Yes,
        }
    }

    fn room(&mut self, _tx: TxId, _part: &Body) -> Result<(), NoMemory> {
        self.parts.reserve(1)?;
        self.lost.reserve(self.plain.len())?;
        Ok(())
    }

    fn prepare(&mut self, tx: TxId, part: Body) {
        marks::add_taken(&mut self.lost, &self.plain, tx, &part);
        marks::drop_taken(&mut self.plain, tx, &part);
        marks::clear(&mut self.plain, tx);
        marks::clear(&mut self.waiting, tx);
        parts::put(&mut self.parts, tx, part);
    }

    fn room_finish(&mut self, _txs: &[TxId]) -> Result<(), NoMemory> {
        self.freed.clear();
        self.freed.reserve(self.waiting.len())?;
        self.plain.reserve(self.waiting.len())?;
        Ok(())
    }

    fn finish(&mut self, txs: &[TxId]) -> Freed {
        parts::remove_all(&mut self.parts, txs);
        marks::clear_all(&mut self.plain, txs);
        marks::clear_all(&mut self.lost, txs);
        marks::clear_all(&mut self.waiting, txs);
        marks::add_free(&mut self.freed, &self.waiting, &self.parts);
        marks::add_all(&mut self.plain, &self.freed);
        marks::drop_free(&mut self.waiting, &self.parts);
        let alloc = *self.freed.allocator();
        mem::replace(&mut self.freed, Vec::new(alloc))
    }

    fn would_finish(&self, txs: &[TxId]) -> Result<Freed, NoMemory> {
        let alloc = *self.freed.allocator();
        let mut left = parts::copy(alloc, &self.parts)?;
        parts::remove_all(&mut left, txs);
        let mut reads = marks::copy(alloc, &self.waiting)?;
        marks::clear_all(&mut reads, txs);
        marks::keep_free(&mut reads, &left);
        Ok(reads)
    }

    fn holder(&self, key: &Key) -> Option<TxId> {
        parts::holder(&self.parts, key)
    }

    fn waiting(&self, key: &Key) -> usize {
        marks::count_of(&self.waiting, key)
    }

    fn prepared(&self, tx: TxId) -> Option<&Body> {
        parts::find(&self.parts, tx)
    }

    fn parts(&self) -> &[Prepared] {
        self.parts.as_slice()
    }
}
