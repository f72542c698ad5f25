// Each table at one transaction.
use crate::{Asked, Gathers, Places, Takeovers, Votes};
use rc_body::{Body, Decision};
use rc_ids::{Ballot, Cluster, DcId, ShardId, ShardSet, TxId};
use rc_vote::Gather;
use std::test::Fail;

#[test]
fn gathers(rt: HostRuntime) -> Result<(), Fail> {
    let alloc = rt.alloc();
    let tx = TxId(1);
    let mut gathers = Gathers::new(alloc);
    gathers.room()?;
    let gather = Gather::new(ShardSet::new().with(ShardId(2)));
    let body = Body::new(alloc);
    gathers.put(tx, Asked { gather, body });
    gathers.yes(tx, ShardId(2));
    gathers.raise(tx, Ballot(3));
    match gathers.get(tx) {
        Some(asked) => {
            assert!(rt; asked.gather.is_complete());
            assert_eq!(rt; asked.gather.ballot(), Ballot(3));
        }
        None => panic!(rt; "no gather"),
    }
    gathers.remove(tx);
    assert!(rt; gathers.get(tx).is_none());
    Ok(())
}

#[test]
fn take_overs_and_votes(rt: HostRuntime) -> Result<(), Fail> {
    let alloc = rt.alloc();
    let tx = TxId(1);
    let cluster = Cluster::new(3, 1, Vec::new(alloc))?;
    let mut takeovers = Takeovers::new(alloc, &cluster);
    takeovers.hear(tx, DcId(1), None);
    takeovers.remove(tx);
    assert!(rt; takeovers.get(tx).is_none());
    let mut votes = Votes::new(alloc, cluster.quorum());
    votes.count(tx, DcId(1), Ballot(0), &Decision::Abort)?;
    assert!(rt; votes.would_decide(tx, DcId(2), Ballot(0), &Decision::Abort));
    votes.remove(tx);
    assert!(rt; !votes.would_decide(tx, DcId(2), Ballot(0), &Decision::Abort));
    let mut places = Places::new(alloc);
    places.room()?;
    places.put(DcId(3), 64);
    assert_eq!(rt; places.get(DcId(3)), 64);
    Ok(())
}
