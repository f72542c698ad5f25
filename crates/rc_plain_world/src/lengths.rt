// How many bytes records have.
ghost use Rattle.std.specs.Prelude.{◌≡◌, ◌++◌, OnOk, IfOk, ℕ};
ghost use Rattle.rc_record.specs.Spelling.{record_bytes};
ghost use Rattle.std.specs.List.{flat_map};
ghost use Rattle.rc_fields.specs.Spelling.{key_bytes};
ghost use Rattle.rc_record.specs.Heads.{new_head};
ghost use Rattle.rc_record.specs.declared.record.Record.TheVariants.{Head as HeadRecord};
ghost use Rattle.rc_runs.specs.Devices.{record_length};

use rc_body::{put_body, put_decision, put_page};
use rc_fields::{put_key, put_node, put_u8, put_u32};
use rc_ids::{Blob, Cluster, Key, NoMemory, NodeId};
use rc_record::Record;
use std::alloc::Global;

/// Writes a record; a head is written by its own crate.
fn put_record(out: &mut Blob, entry: &Record) -> Result<(), NoMemory>
    ensures { OnOk result (out.new ≡ out.old ++ record_bytes entry.now) }
{
    match entry {
        Record::Head(_) => Err(NoMemory),
        Record::Prepared(tx, part) => {
            put_u8(out, 1)?;
            put_u32(out, tx.0)?;
            put_body(out, part)
        }
        Record::Finished(page) => {
            put_u8(out, 2)?;
            put_page(out, page)
        }
        Record::Promised(tx, ballot) => {
            put_u8(out, 3)?;
            put_u32(out, tx.0)?;
            put_u32(out, ballot.0)
        }
        Record::Accepted(tx, ballot, decision) => {
            put_u8(out, 4)?;
            put_u32(out, tx.0)?;
            put_u32(out, ballot.0)?;
            put_decision(out, decision)
        }
        Record::Decided(page) => {
            put_u8(out, 5)?;
            put_page(out, page)
        }
    }
}

/// How many bytes the record has.
pub(crate) fn record_len(alloc: Global, entry: &Record) -> Result<u64, NoMemory>
    ensures { IfOk result (λ len. len ≡ record_length entry.now) }
{
    let mut bytes = Blob::new(alloc);
    put_record(&mut bytes, entry)?;
    Ok(bytes.len() as u64)
}

/// Writes split keys.
fn put_splits(out: &mut Blob, splits: &[Key]) -> Result<(), NoMemory>
    ensures { OnOk result (out.new ≡ out.old ++ flat_map key_bytes splits.now) }
{
    for key in splits {
        put_key(out, key)?;
    }
    Ok(())
}

/// How many bytes the head of a new log has.
pub(crate) fn head_len(alloc: Global, node: &NodeId, cluster: &Cluster) -> Result<u64, NoMemory>
    ensures { IfOk result (λ len. len ≡ record_length (HeadRecord (new_head node.now cluster.now))) }
{
    let mut bytes = Blob::new(alloc);
    put_u8(&mut bytes, 0)?;
    put_u8(&mut bytes, 3)?;
    put_node(&mut bytes, node)?;
    put_u8(&mut bytes, cluster.dcs())?;
    put_u8(&mut bytes, cluster.shards())?;
    let quorum = cluster.quorum();
    bytes.push_bytes(quorum.weights())?;
    put_splits(&mut bytes, cluster.splits())?;
    Ok(bytes.len() as u64)
}
