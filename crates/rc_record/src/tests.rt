// One call of each function, with ample memory, and bytes that stand in the description of records.
use crate::{
    Head, Record, ReplayFault, decode, encode, encode_finished, encode_prepared, newest_head,
    replay_coord, replay_shard,
};
use rc_body::{Body, Decision, Page};
use rc_ids::{Ballot, Blob, Blobs, Cluster, DcId, NodeId, ShardId, TxId};
use std::alloc::Global;
use std::process::Abort;
use std::test::Fail;

fn is_record(alloc: Global, bytes: &[u8]) -> Result<bool, Fail> {
    Ok(decode(alloc, bytes)?.is_some())
}

/// The bytes of a record.
fn written(alloc: Global, entry: Record) -> Result<Blob, Fail> {
    Ok(encode(alloc, &entry)?)
}

/// The bytes are a record, and with one byte more none.
fn alone(rt: &impl Abort, alloc: Global, bytes: &mut Blob) -> Result<(), Fail> {
    assert!(rt; is_record(alloc, bytes.as_bytes())?);
    bytes.push(0)?;
    assert!(rt; !is_record(alloc, bytes.as_bytes())?);
    Ok(())
}

const HEAD_3: [u8; 10] = [0, 3, 1, 1, 1, 3, 1, 1, 1, 1];

const HEAD_1: [u8; 7] = [0, 1, 1, 1, 1, 3, 1];

const PREPARED: [u8; 6] = [1, 0, 0, 0, 1, 0];

const DELETES: [u8; 20] = [
    1, 0, 0, 0, 1, 1, 1, b'x', 0, 0, 0, 0, 0, 0, 0, 1, 1, 0, 1, 0,
];

fn cluster(alloc: Global) -> Result<Cluster, Fail> {
    Ok(Cluster::new(3, 1, Vec::new(alloc))?)
}

fn head(alloc: Global, node: NodeId) -> Result<Blob, Fail> {
    let head = Head::new(node, &cluster(alloc)?)?;
    written(alloc, Record::Head(head))
}

#[test]
fn heads(rt: HostRuntime) -> Result<(), Fail> {
    let alloc = rt.alloc();
    let mut bytes = head(alloc, NodeId::Shard(DcId(1), ShardId(1)))?;
    assert_eq!(rt; bytes.as_bytes(), HEAD_3.as_slice());
    alone(&rt, alloc, &mut bytes)?;
    assert!(rt; is_record(alloc, &HEAD_1)?);
    // a format and a number of datacentres that there are not
    assert!(rt; !is_record(alloc, &[0, 4, 1, 1, 1, 3, 1])?);
    assert!(rt; !is_record(alloc, &[0, 1, 1, 1, 1, 2, 1])?);
    Ok(())
}

#[test]
fn records(rt: HostRuntime) -> Result<(), Fail> {
    let alloc = rt.alloc();
    let mut bytes = written(alloc, Record::Promised(TxId(1), Ballot(3)))?;
    assert_eq!(rt; bytes.as_bytes(), [3, 0, 0, 0, 1, 0, 0, 0, 3].as_slice());
    alone(&rt, alloc, &mut bytes)?;
    let prepared = encode_prepared(alloc, TxId(1), &Body::new(alloc))?;
    assert_eq!(rt; prepared.as_bytes(), PREPARED.as_slice());
    let page = Page::one(alloc, TxId(1), Decision::Abort)?;
    let finished = encode_finished(alloc, &page)?;
    assert_eq!(rt; finished.as_bytes(), [2, 1, 0, 0, 0, 1, 0].as_slice());
    assert!(rt; is_record(alloc, &DELETES)?);
    // a page without transactions is in no record
    assert!(rt; !is_record(alloc, &[5, 0])?);
    Ok(())
}

fn log(alloc: Global, first: &[u8], second: &[u8]) -> Result<Blobs, Fail> {
    let mut blobs = Blobs::new(alloc);
    blobs.push(Blob::from_bytes(alloc, first)?)?;
    blobs.push(Blob::from_bytes(alloc, second)?)?;
    Ok(blobs)
}

fn refused(alloc: Global, first: &[u8], second: &[u8]) -> Result<Option<ReplayFault>, Fail> {
    let node = NodeId::Shard(DcId(1), ShardId(1));
    let replayed = replay_shard(alloc, node, &cluster(alloc)?, &log(alloc, first, second)?);
    Ok(replayed.err())
}

#[test]
fn replays(rt: HostRuntime) -> Result<(), Fail> {
    let alloc = rt.alloc();
    assert_eq!(rt; refused(alloc, &HEAD_3, &PREPARED)?, None);
    assert_eq!(rt; refused(alloc, &HEAD_1, &HEAD_3)?, None);
    let behind = Some(ReplayFault::BadRecord { index: 1 });
    assert_eq!(rt; refused(alloc, &HEAD_1, &DELETES)?, behind);
    assert_eq!(rt; refused(alloc, &HEAD_3, &HEAD_3)?, behind);
    Ok(())
}

#[test]
fn first_records(rt: HostRuntime) -> Result<(), Fail> {
    let alloc = rt.alloc();
    let first = Some(ReplayFault::BadRecord { index: 0 });
    assert_eq!(rt; refused(alloc, &PREPARED, &HEAD_3)?, first);
    let heavy = [0, 3, 1, 1, 1, 3, 1, 2, 1, 1];
    assert_eq!(rt; refused(alloc, &heavy, &[])?, Some(ReplayFault::OtherWorld));
    Ok(())
}

/// The format of the last head, 0 where there is none.
fn newest_format(alloc: Global, blobs: &Blobs) -> Result<u8, Fail> {
    match newest_head(alloc, blobs)? {
        Some(head) => Ok(head.format()),
        None => Ok(0),
    }
}

#[test]
fn newest(rt: HostRuntime) -> Result<(), Fail> {
    let alloc = rt.alloc();
    assert_eq!(rt; newest_format(alloc, &log(alloc, &HEAD_1, &HEAD_3)?)?, 3);
    assert_eq!(rt; newest_format(alloc, &Blobs::new(alloc))?, 0);
    Ok(())
}

/// The log of d2 in which t1 was aborted.
fn aborted(alloc: Global) -> Result<Blobs, Fail> {
    let mut blobs = Blobs::new(alloc);
    blobs.push(head(alloc, NodeId::Coord(DcId(2)))?)?;
    let page = Page::one(alloc, TxId(1), Decision::Abort)?;
    blobs.push(written(alloc, Record::Decided(page))?)?;
    Ok(blobs)
}

fn has_outcome(alloc: Global, blobs: &Blobs, tx: TxId) -> Result<bool, Fail> {
    let durable = replay_coord(alloc, NodeId::Coord(DcId(2)), &cluster(alloc)?, blobs)?;
    Ok(durable.outcomes.get(tx).is_some())
}

#[test]
fn coordinators(rt: HostRuntime) -> Result<(), Fail> {
    let alloc = rt.alloc();
    let blobs = aborted(alloc)?;
    assert!(rt; has_outcome(alloc, &blobs, TxId(1))?);
    assert!(rt; !has_outcome(alloc, &blobs, TxId(2))?);
    Ok(())
}

/// The log of a shard server in which t2 finished, and then t1.
fn two_finished(alloc: Global) -> Result<Blobs, Fail> {
    let mut blobs = Blobs::new(alloc);
    blobs.push(head(alloc, NodeId::Shard(DcId(1), ShardId(1)))?)?;
    for tx in [2, 1] {
        let page = Page::one(alloc, TxId(tx), Decision::Abort)?;
        blobs.push(encode_finished(alloc, &page)?)?;
    }
    Ok(blobs)
}

#[test]
fn keeps_the_order(rt: HostRuntime) -> Result<(), Fail> {
    let alloc = rt.alloc();
    let node = NodeId::Shard(DcId(1), ShardId(1));
    let durable = replay_shard(alloc, node, &cluster(alloc)?, &two_finished(alloc)?)?;
    let finished = durable.finished.into_map();
    assert_eq!(rt; finished.get_index_of(&TxId(2)), Some(0));
    assert_eq!(rt; finished.get_index_of(&TxId(1)), Some(1));
    Ok(())
}
