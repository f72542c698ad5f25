// Readers that leave the bytes anywhere where they find nothing or have no memory.
ghost use Rattle.std.specs.Prelude.{◌≡◌, ◌==◌, Some, IfOk, IfErr, if◌then◌else◌};
ghost use Rattle.rc_fields.specs.Formats.{Gives, Tells, Fails, many_at, mapped_at, tested_at, pick};
ghost use Rattle.rc_fields.specs.Names.{byte_at, key_at};
ghost use Rattle.rc_record.specs.Reading.{front_at, lists_at, head_from, is_head, head_at, full_page_at, head_record_at, prepared_at, finished_at, promised_at, accepted_at, decided_at, kinds_at, record_at};

use crate::{Head, Record};
use rc_body::{Page, reading};
use rc_fields::{Fields, ReadFault};
use rc_ids::{Key, NodeId};
use std::alloc::Global;

/// The format, the node, and the numbers of datacentres and shards.
#[tactic(auto, unfolding(crate::specs::Reading::front_at, rc_fields::specs::Formats::both_at))]
fn read_front(fields: &mut Fields<'_>) -> Option<((u8, NodeId), (u8, u8))>
    ensures { Gives result fields.new (front_at fields.old) }
{
    let format = fields.byte()?;
    let node = fields.node()?;
    let dcs = fields.byte()?;
    let shards = fields.byte()?;
    Some(((format, node), (dcs, shards)))
}

/// So many bytes.
fn read_bytes(alloc: Global, count: u8, fields: &mut Fields<'_>) -> Result<Vec<u8>, ReadFault>
    ensures ok { IfOk result (λ read. many_at byte_at count fields.old ≡ Some (read.items, fields.new)) }
    ensures err { IfErr result (λ fault. Fails fault (many_at byte_at count fields.old)) }
{
    let mut read = Vec::new(alloc);
    for _ in 0..count {
        let Some(byte) = fields.byte() else {
            return Err(ReadFault::NotThere);
        };
        read.push(byte)?;
    }
    Ok(read)
}

/// So many keys.
fn read_keys(alloc: Global, count: u8, fields: &mut Fields<'_>) -> Result<Vec<Key>, ReadFault>
    ensures ok { IfOk result (λ read. many_at key_at count fields.old ≡ Some (read.items, fields.new)) }
    ensures err { IfErr result (λ fault. Fails fault (many_at key_at count fields.old)) }
{
    let mut read = Vec::new(alloc);
    for _ in 0..count {
        let Some(key) = reading::key(fields) else {
            return Err(ReadFault::NotThere);
        };
        read.push(key)?;
    }
    Ok(read)
}

/// How many weights stand in a head of this format.
fn weight_count(format: u8, dcs: u8) -> u8
    ensures { result ≡ (if format == 3 then dcs else 0) }
{
    if format == Head::NEWEST { dcs } else { 0 }
}

/// The head behind its front.
#[tactic(auto, unfolding(crate::specs::Reading::lists_at, rc_fields::specs::Formats::tested_at, rc_fields::specs::Formats::mapped_at, rc_fields::specs::Formats::both_at))]
fn read_behind(
    alloc: Global,
    front: ((u8, NodeId), (u8, u8)),
    fields: &mut Fields<'_>,
) -> Result<Head, ReadFault>
    ensures { Tells result fields.new (tested_at is_head (mapped_at (λ lists. head_from (front, lists)) (lists_at front)) fields.old) }
{
    let ((format, node), (dcs, shards)) = front;
    let weights = read_bytes(alloc, weight_count(format, dcs), fields)?;
    let splits = read_keys(alloc, shards.saturating_sub(1), fields)?;
    match Head::from_fields(format, node, dcs, shards, weights, splits) {
        Some(head) => Ok(head),
        None => Err(ReadFault::NotThere),
    }
}

/// The head that stands first.
fn read_head(alloc: Global, fields: &mut Fields<'_>) -> Result<Head, ReadFault>
    ensures { Tells result fields.new (head_at fields.old) }
{
    match read_front(fields) {
        Some(front) => read_behind(alloc, front, fields),
        None => Err(ReadFault::NotThere),
    }
}

#[tactic(auto, unfolding(crate::specs::Reading::head_record_at, rc_fields::specs::Formats::mapped_at))]
fn read_head_record(alloc: Global, fields: &mut Fields<'_>) -> Result<Record, ReadFault>
    ensures { Tells result fields.new (head_record_at fields.old) }
{
    Ok(Record::Head(read_head(alloc, fields)?))
}

#[tactic(auto, unfolding(crate::specs::Reading::prepared_at, rc_fields::specs::Formats::mapped_at, rc_fields::specs::Formats::both_at))]
fn read_prepared(alloc: Global, fields: &mut Fields<'_>) -> Result<Record, ReadFault>
    ensures { Tells result fields.new (prepared_at fields.old) }
{
    let Some(tx) = fields.tx() else {
        return Err(ReadFault::NotThere);
    };
    match reading::body(alloc, fields)? {
        Some(part) => Ok(Record::Prepared(tx, part)),
        None => Err(ReadFault::NotThere),
    }
}

/// The page with a transaction or more that stands first.
#[tactic(auto, unfolding(crate::specs::Reading::full_page_at, rc_fields::specs::Formats::tested_at))]
fn read_full_page(alloc: Global, fields: &mut Fields<'_>) -> Result<Page, ReadFault>
    ensures { Tells result fields.new (full_page_at fields.old) }
{
    let Some(page) = reading::page(alloc, fields)? else {
        return Err(ReadFault::NotThere);
    };
    if page.len() < 1 {
        return Err(ReadFault::NotThere);
    }
    Ok(page)
}

#[tactic(auto, unfolding(crate::specs::Reading::finished_at, rc_fields::specs::Formats::mapped_at))]
fn read_finished(alloc: Global, fields: &mut Fields<'_>) -> Result<Record, ReadFault>
    ensures { Tells result fields.new (finished_at fields.old) }
{
    Ok(Record::Finished(read_full_page(alloc, fields)?))
}

#[tactic(auto, unfolding(crate::specs::Reading::promised_at, rc_fields::specs::Formats::mapped_at, rc_fields::specs::Formats::both_at))]
fn read_promised(fields: &mut Fields<'_>) -> Option<Record>
    ensures { Gives result fields.new (promised_at fields.old) }
{
    let tx = fields.tx()?;
    let ballot = fields.ballot()?;
    Some(Record::Promised(tx, ballot))
}

#[tactic(auto, unfolding(crate::specs::Reading::accepted_at, rc_fields::specs::Formats::mapped_at, rc_fields::specs::Formats::both_at))]
fn read_accepted(alloc: Global, fields: &mut Fields<'_>) -> Result<Record, ReadFault>
    ensures { Tells result fields.new (accepted_at fields.old) }
{
    let Some(tx) = fields.tx() else {
        return Err(ReadFault::NotThere);
    };
    let Some(ballot) = fields.ballot() else {
        return Err(ReadFault::NotThere);
    };
    match reading::decision(alloc, fields)? {
        Some(decision) => Ok(Record::Accepted(tx, ballot, decision)),
        None => Err(ReadFault::NotThere),
    }
}

#[tactic(auto, unfolding(crate::specs::Reading::decided_at, rc_fields::specs::Formats::mapped_at))]
fn read_decided(alloc: Global, fields: &mut Fields<'_>) -> Result<Record, ReadFault>
    ensures { Tells result fields.new (decided_at fields.old) }
{
    Ok(Record::Decided(read_full_page(alloc, fields)?))
}

/// The fields of a record of a kind.
#[tactic(auto, unfolding(rc_fields::specs::Formats::pick))]
fn read_kind(alloc: Global, kind: u8, fields: &mut Fields<'_>) -> Result<Record, ReadFault>
    ensures { Tells result fields.new (pick kinds_at kind fields.old) }
{
    match kind {
        0 => read_head_record(alloc, fields),
        1 => read_prepared(alloc, fields),
        2 => read_finished(alloc, fields),
        3 => read_promised(fields).ok_or(ReadFault::NotThere),
        4 => read_accepted(alloc, fields),
        5 => read_decided(alloc, fields),
        _ => Err(ReadFault::NotThere),
    }
}

/// The record that stands first.
pub(crate) fn read_record(alloc: Global, fields: &mut Fields<'_>) -> Result<Record, ReadFault>
    ensures { Tells result fields.new (record_at fields.old) }
{
    match fields.byte() {
        Some(kind) => read_kind(alloc, kind, fields),
        None => Err(ReadFault::NotThere),
    }
}
