// What a log gives back.
ghost use Rattle.std.specs.Prelude.{◌≡◌, OnOk, IfOk};
ghost use Rattle.rc_record.specs.CoordState.{new_durable, coord_applied};
ghost use Rattle.rc_protocol.specs.Nodes.{coord_replayed};

use rc_ids::NoMemory;
use rc_record::{CoordDurable, Record};
use std::alloc::Global;

/// Makes of the record what replay makes of it.
pub fn apply(durable: &mut CoordDurable, entry: &Record) -> Result<(), NoMemory>
    ensures { OnOk result (durable.new ≡ coord_applied durable.old entry.now) }
{
    match entry {
        Record::Promised(tx, ballot) => durable.promise(*tx, *ballot),
        Record::Accepted(tx, ballot, decision) => durable.accept(*tx, *ballot, decision.copy()?),
        Record::Decided(page) => durable.decide(page),
        Record::Head(_) | Record::Prepared(_, _) | Record::Finished(_) => Ok(()),
    }
}

/// What the records give back, one after another.
pub fn replay(alloc: Global, log: &[Record]) -> Result<CoordDurable, NoMemory>
    ensures { IfOk result (λ durable. durable ≡ coord_replayed new_durable log.now) }
{
    let mut durable = CoordDurable::new(alloc);
    for entry in log {
        apply(&mut durable, entry)?;
    }
    Ok(durable)
}
