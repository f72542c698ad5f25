// Records as bytes.
ghost use Rattle.std.specs.Prelude.{◌≡◌, ◌++◌, OnOk, IfOk};
ghost use Rattle.std.specs.List.{flat_map};
ghost use Rattle.rc_fields.specs.Spelling.{u8_bytes, u32_bytes, key_bytes};
ghost use Rattle.rc_record.specs.Spelling.{weights_bytes, head_bytes, record_bytes};
ghost use Rattle.rc_record.specs.declared.record.Record.TheVariants.{Head as HeadRecord, Prepared, Finished, Promised, Accepted, Decided};

use crate::{Head, Record};
use rc_body::{Body, Decision, Page, put_body, put_decision, put_page};
use rc_fields::{put_key, put_node, put_u8, put_u32};
use rc_ids::{Ballot, Blob, Key, NoMemory, TxId};
use std::alloc::Global;

/// The one spelling of a record.
pub fn encode(alloc: Global, r: &Record) -> Result<Blob, NoMemory>
    ensures { IfOk result (λ bytes. bytes ≡ record_bytes r.now) }
{
    match r {
        Record::Prepared(tx, part) => encode_prepared(alloc, *tx, part),
        Record::Finished(page) => encode_finished(alloc, page),
        Record::Head(head) => encode_head(alloc, head),
        Record::Promised(tx, ballot) => encode_promised(alloc, *tx, *ballot),
        Record::Accepted(tx, ballot, decision) => encode_accepted(alloc, *tx, *ballot, decision),
        Record::Decided(page) => encode_decided(alloc, page),
    }
}

/// The one spelling of the record that a shard prepared its part of the transaction.
pub fn encode_prepared(alloc: Global, tx: TxId, part: &Body) -> Result<Blob, NoMemory>
    ensures { IfOk result (λ bytes. bytes ≡ record_bytes (Prepared tx part.now)) }
{
    let mut out = Blob::new(alloc);
    put_u8(&mut out, 1)?;
    put_u32(&mut out, tx.0)?;
    put_body(&mut out, part)?;
    Ok(out)
}

/// The one spelling of the record that a shard learned the outcomes of the page.
pub fn encode_finished(alloc: Global, page: &Page) -> Result<Blob, NoMemory>
    ensures { IfOk result (λ bytes. bytes ≡ record_bytes (Finished page.now)) }
{
    let mut out = Blob::new(alloc);
    put_u8(&mut out, 2)?;
    put_page(&mut out, page)?;
    Ok(out)
}

fn encode_head(alloc: Global, head: &Head) -> Result<Blob, NoMemory>
    ensures { IfOk result (λ bytes. bytes ≡ record_bytes (HeadRecord head.now)) }
{
    let mut out = Blob::new(alloc);
    put_u8(&mut out, 0)?;
    put_head(&mut out, head)?;
    Ok(out)
}

fn encode_promised(alloc: Global, tx: TxId, ballot: Ballot) -> Result<Blob, NoMemory>
    ensures { IfOk result (λ bytes. bytes ≡ record_bytes (Promised tx ballot)) }
{
    let mut out = Blob::new(alloc);
    put_tx_ballot(&mut out, 3, tx, ballot)?;
    Ok(out)
}

fn encode_accepted(
    alloc: Global,
    tx: TxId,
    ballot: Ballot,
    decision: &Decision,
) -> Result<Blob, NoMemory>
    ensures { IfOk result (λ bytes. bytes ≡ record_bytes (Accepted tx ballot decision.now)) }
{
    let mut out = Blob::new(alloc);
    put_tx_ballot(&mut out, 4, tx, ballot)?;
    put_decision(&mut out, decision)?;
    Ok(out)
}

fn encode_decided(alloc: Global, page: &Page) -> Result<Blob, NoMemory>
    ensures { IfOk result (λ bytes. bytes ≡ record_bytes (Decided page.now)) }
{
    let mut out = Blob::new(alloc);
    put_u8(&mut out, 5)?;
    put_page(&mut out, page)?;
    Ok(out)
}

/// Adds the weights, where the head has a format that has them.
fn put_weights(out: &mut Blob, head: &Head) -> Result<(), NoMemory>
    ensures { OnOk result (out.new ≡ out.old ++ weights_bytes head.now) }
{
    if head.format() == Head::NEWEST {
        out.push_bytes(head.cluster().quorum().weights())
    } else {
        Ok(())
    }
}

fn put_keys(out: &mut Blob, keys: &[Key]) -> Result<(), NoMemory>
    ensures { OnOk result (out.new ≡ out.old ++ flat_map key_bytes keys.now) }
{
    for key in keys {
        put_key(out, key)?;
    }
    Ok(())
}

/// Adds the format, the node, the numbers of datacentres and shards, the weights and the split keys.
fn put_head(out: &mut Blob, head: &Head) -> Result<(), NoMemory>
    ensures { OnOk result (out.new ≡ out.old ++ head_bytes head.now) }
{
    put_u8(out, head.format())?;
    put_node(out, &head.node())?;
    put_u8(out, head.cluster().dcs())?;
    put_u8(out, head.cluster().shards())?;
    put_weights(out, head)?;
    put_keys(out, head.cluster().splits())
}

fn put_tx_ballot(out: &mut Blob, kind: u8, tx: TxId, ballot: Ballot) -> Result<(), NoMemory>
    ensures { OnOk result (out.new ≡ out.old ++ (u8_bytes kind ++ u32_bytes tx ++ u32_bytes ballot)) }
{
    put_u8(out, kind)?;
    put_u32(out, tx.0)?;
    put_u32(out, ballot.0)
}
