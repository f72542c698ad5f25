// Votes that decide, and what an acceptor may still accept.
use crate::{Acceptor, Tally};
use rc_body::Decision;
use rc_ids::{Ballot, Cluster, DcId, Outcome, Quorum};
use std::alloc::Global;
use std::test::Fail;

/// The quorums of three datacentres with these weights.
fn quorum_of(alloc: Global, weights: [u8; 3]) -> Result<Quorum, Fail> {
    let weights = Vec::from_array(alloc, weights)?;
    Ok(Cluster::weighted(3, 1, Vec::new(alloc), weights)?.quorum())
}

#[test]
fn the_heavy_datacentre_decides_alone(rt: HostRuntime) -> Result<(), Fail> {
    let alloc = rt.alloc();
    let mut tally = Tally::new(alloc, quorum_of(alloc, [3, 1, 1])?);
    tally.room()?;
    assert!(rt; tally.add(DcId(2), Ballot(0), Outcome::Commit)?.is_none());
    assert!(rt; tally.would(DcId(1), Ballot(0), Outcome::Commit) == Some(Outcome::Commit));
    assert!(rt; tally.add(DcId(1), Ballot(0), Outcome::Commit)? == Some(Outcome::Commit));
    Ok(())
}

#[test]
fn the_second_of_three_decides(rt: HostRuntime) -> Result<(), Fail> {
    let alloc = rt.alloc();
    let mut tally = Tally::new(alloc, quorum_of(alloc, [1, 1, 1])?);
    assert!(rt; tally.add(DcId(1), Ballot(4), Outcome::Abort)?.is_none());
    assert!(rt; tally.add(DcId(1), Ballot(4), Outcome::Abort)?.is_none());
    assert!(rt; tally.add(DcId(2), Ballot(0), Outcome::Abort)?.is_none());
    assert!(rt; tally.add(DcId(2), Ballot(4), Outcome::Commit)?.is_none());
    assert!(rt; tally.add(DcId(3), Ballot(4), Outcome::Abort)? == Some(Outcome::Abort));
    Ok(())
}

#[test]
fn a_promise_keeps_lower_ballots_out(rt: HostRuntime) -> Result<(), Fail> {
    let mut acceptor = Acceptor::new();
    assert!(rt; acceptor.may_promise(Ballot(2)));
    acceptor.promise(Ballot(2));
    assert!(rt; !acceptor.may_accept(Ballot(1)));
    assert!(rt; acceptor.may_accept(Ballot(2)));
    acceptor.accept(Ballot(2), Decision::Abort);
    assert!(rt; acceptor.accepted().is_some());
    assert!(rt; acceptor.may_promise(Ballot(2)));
    assert!(rt; acceptor.promised() == Ballot(2));
    Ok(())
}
