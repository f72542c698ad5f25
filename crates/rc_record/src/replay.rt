// What a log gives back.
ghost use Rattle.std.specs.Prelude.{◌≡◌, ◌≢◌, Ok, Err, IfOk, IfErr, OnOk};
ghost use Rattle.rc_record.specs.Heads as heads;
ghost use Rattle.rc_record.specs.Kinds as kinds_spec;
ghost use Rattle.rc_record.specs.InOrder.{shard_replayed_by};
ghost use Rattle.rc_record.specs.CoordState.{coord_applied};
ghost use Rattle.rc_record.specs.Replay.{shard_replay, coord_replay};
ghost use Rattle.rc_record.specs.Replay as replay;
ghost use Rattle.rc_record.specs.declared.fault.ReplayFault.TheVariants.{NoMemory as OutOfMemory};

use crate::kinds::{has_gone, head_of, is_coord_record, is_shard_record};
use crate::{CoordDurable, Head, Record, ReplayFault, ShardDurable, decode};
use rc_ids::{Blob, Blobs, Cluster, NoMemory, NodeId};
use std::alloc::Global;

fn same_world(first: &Cluster, second: &Cluster) -> bool
    ensures { result ≡ heads.same_world first.now second.now }
{
    first.dcs() == second.dcs()
        && first.shards() == second.shards()
        && first.splits() == second.splits()
        && first.quorum().weights() == second.quorum().weights()
}

/// Whether it is the head of a log of the node in this world.
fn is_of(node: &NodeId, cluster: &Cluster, head: &Head) -> bool
    ensures { result ≡ heads.is_of node.now cluster.now head.now }
{
    head.node().is(node) && same_world(head.cluster(), cluster)
}

/// The format behind a head at this place, or why it may not stand there.
fn next_format(
    node: &NodeId,
    cluster: &Cluster,
    place: u64,
    format: u8,
    head: &Head,
) -> Result<u8, ReplayFault>
    ensures { result ≡ replay.next_format node.now cluster.now place format head.now }
{
    if format == 0 {
        if is_of(node, cluster, head) {
            Ok(head.format())
        } else {
            Err(ReplayFault::OtherWorld)
        }
    } else if format < head.format() && is_of(node, cluster, head) {
        Ok(head.format())
    } else {
        Err(ReplayFault::BadRecord { index: place })
    }
}

/// Whether a record that is no head may not stand there.
fn is_refused(is_kind: bool, format: u8, entry: &Record) -> bool
    ensures { result ≡ replay.is_refused is_kind format entry.now }
{
    format == 0 || !is_kind || (format == 1 && has_gone(entry))
}

/// The format behind a record of a shard server's log at this place, or why it may not stand there.
fn shard_format(
    node: &NodeId,
    cluster: &Cluster,
    place: u64,
    format: u8,
    entry: &Record,
) -> Result<u8, ReplayFault>
    ensures { result ≡ replay.format_behind node.now cluster.now kinds_spec.is_shard_record place format entry.now }
{
    match head_of(entry) {
        Some(head) => next_format(node, cluster, place, format, head),
        None => {
            if is_refused(is_shard_record(entry), format, entry) {
                Err(ReplayFault::BadRecord { index: place })
            } else {
                Ok(format)
            }
        }
    }
}

/// The format behind a record of a coordinator's log at this place, or why it may not stand there.
fn coord_format(
    node: &NodeId,
    cluster: &Cluster,
    place: u64,
    format: u8,
    entry: &Record,
) -> Result<u8, ReplayFault>
    ensures { result ≡ replay.format_behind node.now cluster.now kinds_spec.is_coord_record place format entry.now }
{
    match head_of(entry) {
        Some(head) => next_format(node, cluster, place, format, head),
        None => {
            if is_refused(is_coord_record(entry), format, entry) {
                Err(ReplayFault::BadRecord { index: place })
            } else {
                Ok(format)
            }
        }
    }
}

/// Makes of the durable state what the record makes of it.
fn shard_apply(durable: &mut ShardDurable, entry: Record) -> Result<(), NoMemory>
    ensures { OnOk result (durable.new ≡ shard_replayed_by durable.old entry) }
{
    match entry {
        Record::Prepared(tx, part) => durable.prepare(tx, part),
        Record::Finished(page) => durable.settle_page(&page),
        _ => Ok(()),
    }
}

/// Makes of the durable state what the record makes of it.
fn coord_apply(durable: &mut CoordDurable, entry: Record) -> Result<(), NoMemory>
    ensures { OnOk result (durable.new ≡ coord_applied durable.old entry) }
{
    match entry {
        Record::Promised(tx, ballot) => durable.promise(tx, ballot),
        Record::Accepted(tx, ballot, decision) => durable.accept(tx, ballot, decision),
        Record::Decided(page) => durable.decide(&page),
        _ => Ok(()),
    }
}

/// One more record of a shard server's log, at this place: the format behind it, and what it makes of the durable state.
fn shard_step(
    alloc: Global,
    node: &NodeId,
    cluster: &Cluster,
    place: u64,
    format: u8,
    durable: &mut ShardDurable,
    blob: &Blob,
) -> Result<u8, ReplayFault>
    ensures ok { IfOk result (λ behind. replay.shard_step node.now cluster.now place (format, durable.old) blob.now ≡ Ok (behind, durable.new)) }
    ensures err { IfErr result (λ e. e ≢ OutOfMemory → replay.shard_step node.now cluster.now place (format, durable.old) blob.now ≡ Err e) }
{
    let Some(entry) = decode(alloc, blob.as_bytes())? else {
        return Err(ReplayFault::BadRecord { index: place });
    };
    let behind = shard_format(node, cluster, place, format, &entry)?;
    shard_apply(durable, entry)?;
    Ok(behind)
}

/// One more record of a coordinator's log, at this place: the format behind it, and what it makes of the durable state.
fn coord_step(
    alloc: Global,
    node: &NodeId,
    cluster: &Cluster,
    place: u64,
    format: u8,
    durable: &mut CoordDurable,
    blob: &Blob,
) -> Result<u8, ReplayFault>
    ensures ok { IfOk result (λ behind. replay.coord_step node.now cluster.now place (format, durable.old) blob.now ≡ Ok (behind, durable.new)) }
    ensures err { IfErr result (λ e. e ≢ OutOfMemory → replay.coord_step node.now cluster.now place (format, durable.old) blob.now ≡ Err e) }
{
    let Some(entry) = decode(alloc, blob.as_bytes())? else {
        return Err(ReplayFault::BadRecord { index: place });
    };
    let behind = coord_format(node, cluster, place, format, &entry)?;
    coord_apply(durable, entry)?;
    Ok(behind)
}

/// What the log of a shard server of this world gives back, or the first record that is refused. A log without a record is new.
pub fn replay_shard(
    alloc: Global,
    node: NodeId,
    cluster: &Cluster,
    blobs: &Blobs,
) -> Result<ShardDurable, ReplayFault>
    ensures ok { IfOk result (λ durable. shard_replay node cluster.now blobs.now ≡ Ok durable) }
    ensures err { IfErr result (λ e. e ≢ OutOfMemory → shard_replay node cluster.now blobs.now ≡ Err e) }
{
    let mut durable = ShardDurable::new(alloc);
    let mut format = 0;
    let log = blobs.as_slice();
    for place in 0..log.len() {
        format = shard_step(
            alloc,
            &node,
            cluster,
            place as u64,
            format,
            &mut durable,
            &log[place],
        )?;
    }
    Ok(durable)
}

/// What the log of a coordinator of this world gives back, or the first record that is refused. A log without a record is new.
pub fn replay_coord(
    alloc: Global,
    node: NodeId,
    cluster: &Cluster,
    blobs: &Blobs,
) -> Result<CoordDurable, ReplayFault>
    ensures ok { IfOk result (λ durable. coord_replay node cluster.now blobs.now ≡ Ok durable) }
    ensures err { IfErr result (λ e. e ≢ OutOfMemory → coord_replay node cluster.now blobs.now ≡ Err e) }
{
    let mut durable = CoordDurable::new(alloc);
    let mut format = 0;
    let log = blobs.as_slice();
    for place in 0..log.len() {
        format = coord_step(
            alloc,
            &node,
            cluster,
            place as u64,
            format,
            &mut durable,
            &log[place],
        )?;
    }
    Ok(durable)
}

/// The head that the bytes spell, if they spell one.
fn head_in(alloc: Global, blob: &Blob) -> Result<Option<Head>, NoMemory>
    ensures { IfOk result (λ head. head ≡ replay.head_in blob.now) }
{
    match decode(alloc, blob.as_bytes())? {
        Some(Record::Head(head)) => Ok(Some(head)),
        _ => Ok(None),
    }
}

/// The last head of the log, if it has one.
pub fn newest_head(alloc: Global, blobs: &Blobs) -> Result<Option<Head>, NoMemory>
    ensures { IfOk result (λ head. head ≡ replay.newest_head blobs.now) }
{
    let log = blobs.as_slice();
    for behind in 0..log.len() {
        let found = head_in(alloc, &log[log.len() - 1 - behind])?;
        if found.is_some() {
            return Ok(found);
        }
    }
    Ok(None)
}
