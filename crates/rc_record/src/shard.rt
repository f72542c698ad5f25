// What a shard server's log gives back.
ghost use Rattle.std.specs.Prelude.{◌≡◌, None, OnOk};
ghost use Rattle.std.specs.Ordering.{nat_cmp};
ghost use Rattle.rc_ids.specs.Tables.{found};
ghost use Rattle.rc_record.specs.ShardState.{ShardDurable as State, new_durable, shard_applied};
ghost use Rattle.rc_record.specs.InOrder.{ended, ended_new, ended_all, shard_replayed_by, shown, IsInOrder};
ghost use Rattle.rc_record.specs.declared.record.Record.{Record as AnyRecord};
ghost use Rattle.rc_record.specs.declared.record.Record.TheVariants.{Prepared as PartPrepared};

use crate::{FinishedTxs, Rows};
use rc_body::{Body, Decision, Page, Parts};
use rc_ids::{NoMemory, TxId};
use std::alloc::Global;

/// What a shard server's log gives back: its rows, the prepared parts in the order in which they were prepared, and what is
/// finished, in the order in which it finished.
#[derive(Drop)]
pub struct ShardDurable {
    pub rows: Rows,
    pub parts: Parts,
    pub finished: FinishedTxs,
}

impl ShardDurable {
    /// Nothing yet.
    pub fn new(alloc: Global) -> ShardDurable
        ensures { result ≡ new_durable }
    {
        ShardDurable {
            rows: Rows::new(alloc),
            parts: Parts::new(alloc),
            finished: FinishedTxs::new(alloc),
        }
    }

    /// Keeps the prepared part of the transaction: in its place where it has one, else at the end.
    pub fn prepare(&mut self, tx: TxId, part: Body) -> Result<(), NoMemory>
        ensures { OnOk result (self.new ≡ shard_replayed_by self.old (PartPrepared tx part)) }
    {
        self.parts.put(tx, part)
    }

    /// Ends the transaction, which is not finished yet; by a commit, each written key gets its value where its version here is lower.
    pub fn settle(&mut self, tx: TxId, decision: &Decision) -> Result<(), NoMemory>
        requires { found nat_cmp self.old.finished tx ≡ None }
        ensures { OnOk result (self.new ≡ ended self.old tx decision.now) }
    {
        if let Decision::Commit(part) = decision {
            self.rows.raise_all(part)?;
        }
        self.parts.remove(tx);
        self.finished.push(tx, decision.outcome())
    }

    /// Ends the transaction, if it is not finished yet.
    fn settle_new(&mut self, tx: TxId, decision: &Decision) -> Result<(), NoMemory>
        ensures { OnOk result (self.new ≡ ended_new self.old (tx, decision.now)) }
    {
        if self.finished.has(tx) {
            return Ok(());
        }
        self.settle(tx, decision)
    }

    /// Ends each transaction of the page that is not finished yet.
    pub fn settle_page(&mut self, page: &Page) -> Result<(), NoMemory>
        ensures { OnOk result (self.new ≡ ended_all self.old page.now) }
    {
        for index in 0..page.len() {
            let (tx, decision) = page.entry(index);
            self.settle_new(tx, decision)?;
        }
        Ok(())
    }
}

/// What a record makes of a state in order is, by number, what it makes of the state by number; and the state stays one in
/// order.
pub fn order_laws()
    ensures start { IsInOrder new_durable }
    ensures keeps { (s : State) (r : AnyRecord) → IsInOrder s → IsInOrder (shard_replayed_by s r) }
    ensures shows { (s : State) (r : AnyRecord) → IsInOrder s → shown (shard_replayed_by s r) ≡ shard_applied (shown s) r }
{}
