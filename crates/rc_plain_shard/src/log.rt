// The log of a shard server.
ghost use Rattle.std.specs.Prelude.{◌≡◌, ◌<◌, [], ◌∷◌, ◌++◌, List, length, Some, IfOk, OnOk, OnErr, slice_get};
ghost use Rattle.rc_record.specs.ShardState.{new_durable, shard_applied};
ghost use Rattle.rc_record.specs.declared.record.Record.{Record as RecordState};
ghost use Rattle.rc_protocol.specs.Nodes.{shard_replayed};
ghost use Rattle.rc_plain_shard.specs.Logs.{LogState, new_log, IsReplayed, written};

use crate::durable::Durable;
use rc_ids::NoMemory;
use rc_record::Record;
use std::alloc::Global;
use std::marker::Model;
use std::mem;

/// The records of a shard server's log, and what replay makes of them.
#[derive(Drop)]
pub struct ShardLog {
    records: Vec<Record>,
    durable: Durable,
}

impl Model for ShardLog {
    ghost use Rattle.rc_plain_shard.specs.Logs.{LogState, IsReplayed};

    ghost Value = { LogState };

    ghost view = { λ l. record { log = l.records.items; durable = l.durable } };

    ghost invariant = { λ l. IsReplayed (record { log = l.records.items; durable = l.durable }) };
}

/// Makes of the durable state what replay makes of it at the record.
fn apply(durable: &mut Durable, entry: &Record) -> Result<(), NoMemory>
    ensures { OnOk result (durable.new ≡ shard_applied durable.old entry.now) }
{
    match entry {
        Record::Prepared(tx, part) => durable.prepare(*tx, part.copy()?),
        Record::Finished(page) => durable.settle_page(page),
        _ => Ok(()),
    }
}

/// What replay makes of the records.
fn replayed(alloc: Global, records: &[Record]) -> Result<Durable, NoMemory>
    ensures { IfOk result (λ s. s ≡ shard_replayed new_durable records.now) }
{
    let mut durable = Durable::new(alloc);
    for entry in records {
        apply(&mut durable, entry)?;
    }
    Ok(durable)
}

impl ShardLog {
    /// A log without records.
    pub fn new(alloc: Global) -> ShardLog
        ensures { result ≡ new_log }
    {
        ShardLog {
            records: Vec::new(alloc),
            durable: Durable::new(alloc),
        }
    }

    /// The allocator of the log.
    pub fn allocator(&self) -> Global
        ensures { IsReplayed self.now }
    {
        *self.records.allocator()
    }

    /// What replay makes of the records.
    pub fn durable(&self) -> &Durable
        ensures { result.now ≡ self.now.durable }
    {
        &self.durable
    }

    /// How many records there are.
    pub fn len(&self) -> usize
        ensures { result ≡ length self.now.log }
    {
        self.records.len()
    }

    /// The record at a place, counted from 0.
    pub fn record(&self, place: usize) -> &Record
        requires { place < length self.now.log }
        ensures { slice_get self.now.log place ≡ Some result.now }
    {
        &self.records[place]
    }

    /// Adds a record at the end. Where there is no memory, no record is left.
    pub fn write(&mut self, entry: Record) -> Result<(), NoMemory>
        ensures ok { OnOk result (self.new ≡ written self.old entry) }
        ensures err { OnErr result (self.new ≡ new_log) }
    {
        let empty = ShardLog::new(self.allocator());
        let ShardLog {
            mut records,
            mut durable,
        } = mem::replace(self, empty);
        apply(&mut durable, &entry)?;
        records.push(entry)?;
        *self = ShardLog { records, durable };
        Ok(())
    }

    /// Drops the last record, or leaves all as before.
    pub fn take_back(&mut self, alloc: Global) -> Result<(), NoMemory>
        requires { 0 < length self.old.log }
        ensures ok { (log : List RecordState) → (r : RecordState) → self.old.log ≡ log ++ r ∷ []
            → OnOk result (let kept : LogState = record { log = log; durable = shard_replayed new_durable log } in self.new ≡ kept) }
        ensures err { OnErr result (self.new ≡ self.old) }
    {
        let last = self.records.len() - 1;
        let durable = replayed(alloc, &self.records[..last])?;
        self.records.truncate(last);
        self.durable = durable;
        Ok(())
    }
}
