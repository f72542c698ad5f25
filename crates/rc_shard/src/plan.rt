// What a page of outcomes makes of the tables, made before anything changes.
ghost use Rattle.std.specs.Prelude.{◌≡◌, ◌++◌, ◌+◌, ◌-◌, ◌^◌, ◌==◌, false, OnOk, IfOk};
ghost use Rattle.rc_shard.specs.Plans.{writes_in as part_writes, writes_by, writes_of as page_writes, txs_of as page_txs, outcomes_of as page_outcomes};

use crate::rows::Write;
use rc_body::{Body, Decision, Page};
use rc_ids::{Key, NoMemory, Outcome, TxId, Val, Version};
use std::alloc::Global;

/// The transactions of a page, their outcomes, and the writes of those that commit.
#[derive(Drop)]
pub(crate) struct Plan {
    pub(crate) txs: Vec<TxId>,
    pub(crate) outcomes: Vec<(TxId, Outcome)>,
    pub(crate) writes: Vec<Write>,
}

fn txs_of(alloc: Global, page: &Page) -> Result<Vec<TxId>, NoMemory>
    ensures { IfOk result (λ txs. txs.items ≡ page_txs page.now) }
{
    let mut txs = Vec::new(alloc);
    for index in 0..page.len() {
        let (tx, _) = page.entry(index);
        txs.push(tx)?;
    }
    Ok(txs)
}

fn outcomes_of(alloc: Global, page: &Page) -> Result<Vec<(TxId, Outcome)>, NoMemory>
    ensures { IfOk result (λ outcomes. outcomes.items ≡ page_outcomes page.now) }
{
    let mut outcomes = Vec::new(alloc);
    for index in 0..page.len() {
        let (tx, decision) = page.entry(index);
        outcomes.push((tx, decision.outcome()))?;
    }
    Ok(outcomes)
}

/// The write of a key that was read at this version: it gets the next one.
fn write_of(key: &Key, read: Version, value: &Val) -> Result<Write, NoMemory>
    requires { (read == 2 ^ 62 - 1) ≡ false }
    ensures { IfOk result (λ write. write ≡ (key.now, (read + 1, value.now))) }
{
    let version = Version(read.0 + 1);
    Ok((key.copy(), (version, value.copy()?)))
}

/// Adds the writes of a part.
fn add_writes_in(writes: &mut Vec<Write>, part: &Body) -> Result<(), NoMemory>
    ensures { OnOk result (writes.new.items ≡ writes.old.items ++ part_writes part.now) }
{
    for index in 0..part.len() {
        let entry = part.entry(index);
        if let Some(value) = entry.write {
            writes.push(write_of(entry.key, entry.version, value)?)?;
        }
    }
    Ok(())
}

/// Adds the writes of a decision.
fn add_writes_by(writes: &mut Vec<Write>, decision: &Decision) -> Result<(), NoMemory>
    ensures { OnOk result (writes.new.items ≡ writes.old.items ++ writes_by decision.now) }
{
    match decision {
        Decision::Commit(part) => add_writes_in(writes, part),
        Decision::Abort => Ok(()),
    }
}

fn writes_of(alloc: Global, page: &Page) -> Result<Vec<Write>, NoMemory>
    ensures { IfOk result (λ writes. writes.items ≡ page_writes page.now) }
{
    let mut writes = Vec::new(alloc);
    for index in 0..page.len() {
        let (_, decision) = page.entry(index);
        add_writes_by(&mut writes, decision)?;
    }
    Ok(writes)
}

impl Plan {
    /// What the page makes of the tables.
    pub(crate) fn new(alloc: Global, page: &Page) -> Result<Plan, NoMemory>
        ensures txs { IfOk result (λ plan. plan.txs.items ≡ page_txs page.now) }
        ensures outcomes { IfOk result (λ plan. plan.outcomes.items ≡ page_outcomes page.now) }
        ensures writes { IfOk result (λ plan. plan.writes.items ≡ page_writes page.now) }
    {
        Ok(Plan {
            txs: txs_of(alloc, page)?,
            outcomes: outcomes_of(alloc, page)?,
            writes: writes_of(alloc, page)?,
        })
    }
}
