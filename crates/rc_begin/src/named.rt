// The transactions that logs name.
ghost use Rattle.std.specs.Prelude.{◌≡◌, List, [], map, OnOk, IfOk};
ghost use Rattle.std.specs.Ordering.{nat_cmp};
ghost use Rattle.std.specs.List.{AllByRecursion};
ghost use Rattle.rc_ids.specs.Tables.{added};
ghost use Rattle.rc_record.specs.Spelling.{HasRecord};
ghost use Rattle.rc_protocol.specs.Nodes.{CoordNode, ShardNode, with_txs, with_named, with_log};
ghost use Rattle.rc_runs.specs.Starts.{named_by_coords, named_by_shards};
ghost use Rattle.rc_runs.specs.Stored.{records_of};
ghost use Rattle.rc_begin.specs.Logs.{records_in, names_of, HaveRecords};

use rc_body::Page;
use rc_ids::{Blob, Blobs, NoMemory, TxId};
use rc_record::{Record, decode};
use std::alloc::Global;
use std::collections::BTreeSet;

/// Adds a transaction.
fn add_tx(named: &mut BTreeSet<TxId>, tx: TxId) -> Result<(), NoMemory>
    ensures { OnOk result (named.new.keys ≡ added nat_cmp named.old.keys tx) }
{
    named.insert(tx)?;
    Ok(())
}

/// Adds the transactions of a page.
fn add_page(named: &mut BTreeSet<TxId>, page: &Page) -> Result<(), NoMemory>
    ensures { OnOk result (named.new.keys ≡ with_txs named.old.keys page.now) }
{
    for index in 0..page.len() {
        let (tx, _) = page.entry(index);
        add_tx(named, tx)?;
    }
    Ok(())
}

/// Adds the transactions that a record names.
fn add_record(named: &mut BTreeSet<TxId>, entry: &Record) -> Result<(), NoMemory>
    ensures { OnOk result (named.new.keys ≡ with_named named.old.keys entry.now) }
{
    match entry {
        Record::Head(_) => Ok(()),
        Record::Prepared(tx, _) => add_tx(named, *tx),
        Record::Finished(page) => add_page(named, page),
        Record::Promised(tx, _) => add_tx(named, *tx),
        Record::Accepted(tx, _, _) => add_tx(named, *tx),
        Record::Decided(page) => add_page(named, page),
    }
}

/// Adds the transactions that the record in the bytes names.
#[tactic(auto, using(crate::proofs::Haves::blob_has))]
fn add_blob(alloc: Global, named: &mut BTreeSet<TxId>, blob: &Blob) -> Result<(), NoMemory>
    ensures names { OnOk result (named.new.keys ≡ with_log named.old.keys (records_in blob.now)) }
    ensures has { OnOk result (AllByRecursion HasRecord (records_in blob.now)) }
{
    match decode(alloc, blob.as_bytes())? {
        Some(entry) => add_record(named, &entry),
        None => Ok(()),
    }
}

/// Adds the transactions that the records of a log name. A head names none. Where there is no memory, some of them may have been added.
fn add_names(alloc: Global, named: &mut BTreeSet<TxId>, records: &Blobs) -> Result<(), NoMemory>
    ensures names { OnOk result (named.new.keys ≡ with_log named.old.keys (records_of records.now)) }
    ensures has { OnOk result (AllByRecursion HasRecord (records_of records.now)) }
{
    let log = records.as_slice();
    for place in 0..log.len() {
        add_blob(alloc, named, &log[place])?;
    }
    Ok(())
}

/// Adds the transactions that logs name, log by log.
fn add_all(alloc: Global, named: &mut BTreeSet<TxId>, logs: &[Blobs]) -> Result<(), NoMemory>
    ensures names { OnOk result (named.new.keys ≡ names_of named.old.keys logs.now) }
    ensures has { OnOk result (HaveRecords logs.now) }
{
    for place in 0..logs.len() {
        add_names(alloc, named, &logs[place])?;
    }
    Ok(())
}

/// The transactions that the logs of all coordinators and shard servers name, with which a run begins. Each record that was read has a spelling.
pub fn names_of_logs(
    alloc: Global,
    coord_logs: &[Blobs],
    shard_logs: &[Blobs],
) -> Result<BTreeSet<TxId>, NoMemory>
    ensures names { IfOk result (λ named. (coords : List CoordNode) (shards : List ShardNode) → map (λ x. x.log) coords ≡ map records_of coord_logs.now → map (λ x. x.log) shards ≡ map records_of shard_logs.now
        → named.keys ≡ named_by_shards (named_by_coords [] coords) shards) }
    ensures has { OnOk result (HaveRecords coord_logs.now × HaveRecords shard_logs.now) }
{
    let mut named = BTreeSet::new(alloc);
    add_all(alloc, &mut named, coord_logs)?;
    add_all(alloc, &mut named, shard_logs)?;
    Ok(named)
}
