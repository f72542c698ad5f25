// Votes for commit at one ballot choose, and those at different ballots do not.
use crate::Order;
use rc_body::{Body, Decision};
use rc_ids::{Ballot, Cluster, DcId, TxId};
use rc_record::Record;
use std::alloc::Global;
use std::test::Fail;

/// No votes, where any two of three datacentres are a quorum.
fn order_of_three(alloc: Global) -> Result<Order, Fail> {
    let cluster = Cluster::new(3, 1, Vec::new(alloc))?;
    Ok(Order::new(alloc, cluster.quorum()))
}

#[test]
fn two_votes_at_a_ballot_choose(rt: HostRuntime) -> Result<(), Fail> {
    let alloc = rt.alloc();
    let mut order = order_of_three(alloc)?;
    let vote = Record::Accepted(TxId(7), Ballot(0), Decision::Commit(Body::new(alloc)));
    order.count(DcId(1), &vote)?;
    order.room()?;
    order.note(DcId(3), TxId(7), Ballot(0));
    order.choose(&vote)?;
    assert!(rt; order.listed() == [TxId(7)].as_slice());
    order.begin();
    order.choose(&vote)?;
    assert!(rt; order.listed().is_empty());
    Ok(())
}

#[test]
fn votes_at_different_ballots_do_not_choose(rt: HostRuntime) -> Result<(), Fail> {
    let mut order = order_of_three(rt.alloc())?;
    order.room()?;
    order.note(DcId(1), TxId(7), Ballot(0));
    order.room()?;
    order.note(DcId(3), TxId(7), Ballot(4));
    assert!(rt; order.listed().is_empty());
    Ok(())
}
