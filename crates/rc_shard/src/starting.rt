// The tables that a log gives back.
ghost use Rattle.std.specs.Prelude.{◌≡◌, [], IfOk};
ghost use Rattle.rc_protocol.specs.Shard.{new_volatile};
ghost use Rattle.rc_record.specs.InOrder.{filed, shown};
ghost use Rattle.rc_shard.specs.Sites.{durable_of, volatile_of};

use crate::tables::Tables;
use rc_body::Parts;
use rc_ids::NoMemory;
use rc_locks::LockTable;
use rc_node::Numbered;
use rc_record::{Rows, ShardDurable};
use rc_versions::Versions;
use std::alloc::Global;

/// The rows, each of which was written.
fn versions_of(alloc: Global, rows: &Rows) -> Result<Versions, NoMemory>
    ensures { IfOk result (λ versions. versions.rows ≡ rows.now) }
{
    let mut versions = Versions::new(alloc);
    for (key, row) in rows.as_map() {
        versions.apply(key, row.0, row.1.copy()?)?;
    }
    Ok(versions)
}

/// The locks of the prepared parts, and nothing else.
fn locks_of<L: LockTable>(alloc: Global, parts: Parts) -> Result<L, NoMemory>
    ensures parts { IfOk result (λ locks. (L.state locks).parts ≡ filed [] parts) }
    ensures marks { IfOk result (λ locks. (L.state locks).marks ≡ new_volatile) }
{
    let _count = parts.len();
    L::restore(alloc, parts)
}

/// The tables that a log gives back, and nothing that a stop loses.
pub(crate) fn tables_of<L: LockTable>(
    alloc: Global,
    durable: ShardDurable,
) -> Result<Tables<L>, NoMemory>
    ensures durable { IfOk result (λ tables. durable_of tables.versions.rows (L.state tables.locks) tables.finished.table ≡ shown durable) }
    ensures volatile { IfOk result (λ tables. volatile_of (L.state tables.locks) tables.place ≡ new_volatile) }
{
    let versions = versions_of(alloc, &durable.rows)?;
    let locks = locks_of(alloc, durable.parts)?;
    Ok(Tables {
        versions,
        locks,
        finished: Numbered::of(durable.finished.into_map()),
        place: 0,
    })
}
