// What a running shard server keeps of its log, by number. A stand-in until nodes stand on their tables.
ghost use Rattle.std.specs.Prelude.{◌≡◌, OnOk};
ghost use Rattle.rc_record.specs.ShardState.{new_durable, settled, settled_new, settled_all, shard_applied};
ghost use Rattle.rc_record.specs.declared.record.Record.TheVariants.{Prepared as PartPrepared};

use crate::finished::Finished;
use crate::prepared::PreparedParts;
use rc_body::{Body, Decision, Page};
use rc_ids::{NoMemory, TxId};
use rc_record::Rows;
use std::alloc::Global;
use std::marker::Model;

/// What the records of a shard server's log make: its rows, the prepared parts and what is finished.
#[derive(Drop)]
pub struct Durable {
    pub(crate) rows: Rows,
    pub(crate) parts: PreparedParts,
    pub(crate) finished: Finished,
}

impl Model for Durable {
    ghost use Rattle.rc_record.specs.ShardState.{ShardDurable};

    ghost Value = { ShardDurable };

    ghost view = { λ d. record { rows = d.rows; parts = d.parts; finished = d.finished } };
}

impl Durable {
    /// Nothing yet.
    pub fn new(alloc: Global) -> Durable
        ensures { result ≡ new_durable }
    {
        Durable {
            rows: Rows::new(alloc),
            parts: PreparedParts::new(alloc),
            finished: Finished::new(alloc),
        }
    }

    /// Keeps the prepared part of the transaction.
    pub fn prepare(&mut self, tx: TxId, part: Body) -> Result<(), NoMemory>
        ensures { OnOk result (self.new ≡ shard_applied self.old (PartPrepared tx part)) }
    {
        self.parts.put(tx, part)
    }

    /// Ends the transaction; by a commit, each written key gets its value where its version here is lower.
    fn settle(&mut self, tx: TxId, decision: &Decision) -> Result<(), NoMemory>
        ensures { OnOk result (self.new ≡ settled self.old tx decision.now) }
    {
        if let Decision::Commit(part) = decision {
            self.rows.raise_all(part)?;
        }
        self.parts.remove(tx);
        self.finished.put(tx, decision.outcome())
    }

    /// Ends the transaction, if it is not finished yet.
    fn settle_new(&mut self, tx: TxId, decision: &Decision) -> Result<(), NoMemory>
        ensures { OnOk result (self.new ≡ settled_new self.old (tx, decision.now)) }
    {
        if self.finished.has(tx) {
            return Ok(());
        }
        self.settle(tx, decision)
    }

    /// Ends each transaction of the page that is not finished yet.
    pub fn settle_page(&mut self, page: &Page) -> Result<(), NoMemory>
        ensures { OnOk result (self.new ≡ settled_all self.old page.now) }
    {
        for index in 0..page.len() {
            let (tx, decision) = page.entry(index);
            self.settle_new(tx, decision)?;
        }
        Ok(())
    }
}
