// Take-overs by the second of three datacentres.
use crate::{Heard, Takeover, Would, takeover_laws};
use rc_body::{Body, Decision};
use rc_ids::{Ballot, Cluster, DcId};
use std::alloc::Global;
use std::test::Fail;

fn open(alloc: Global, eager: bool) -> Result<Takeover, Fail> {
    let cluster = Cluster::new(3, 1, Vec::new(alloc))?;
    Ok(Takeover::open(&cluster, DcId(2), Ballot(3), eager)?)
}

/// What would be said.
fn foretold(takeover: &Takeover, dc: DcId, report: &Option<(Ballot, Decision)>) -> u8 {
    match takeover.would(dc, report.as_ref()) {
        Would::Ignored => b'i',
        Would::Waiting => b'w',
        Would::Abort => b'a',
        Would::Reported(_) => b'r',
    }
}

/// What is said: a report here is of a commit.
fn said(takeover: &mut Takeover, dc: DcId, report: Option<(Ballot, Decision)>) -> u8 {
    match takeover.hear(dc, report) {
        Heard::Ignored => b'i',
        Heard::Waiting => b'w',
        Heard::Propose(Decision::Abort) => b'a',
        Heard::Propose(Decision::Commit(_)) => b'r',
    }
}

/// What is said to a promise, with a report of a commit at the ballot, and what was told beforehand.
fn answers(alloc: Global, takeover: &mut Takeover, dc: DcId, ballot: Option<Ballot>) -> (u8, u8) {
    let report = match ballot {
        Some(ballot) => Some((ballot, Decision::Commit(Body::new(alloc)))),
        None => None,
    };
    let before = foretold(takeover, dc, &report);
    (before, said(takeover, dc, report))
}

#[test]
fn eager(rt: HostRuntime) -> Result<(), Fail> {
    let mut takeover = open(rt.alloc(), true)?;
    assert_eq!(rt; takeover.ballot(), Ballot(5));
    let table = [
        (DcId(1), None, b'w'),
        (DcId(1), Some(Ballot(2)), b'i'),
        (DcId(3), Some(Ballot(1)), b'r'),
        (DcId(2), None, b'i'),
    ];
    for (dc, ballot, wanted) in table {
        assert_eq!(rt;
            answers(rt.alloc(), &mut takeover, dc, ballot),
            (wanted, wanted)
        );
    }
    assert!(rt; takeover.has_proposed());
    Ok(())
}

#[test]
fn patient(rt: HostRuntime) -> Result<(), Fail> {
    let mut takeover = open(rt.alloc(), false)?;
    let table = [
        (DcId(3), Some(Ballot(0)), b'w'),
        (DcId(2), None, b'w'),
        (DcId(1), None, b'a'),
    ];
    for (dc, ballot, wanted) in table {
        assert_eq!(rt;
            answers(rt.alloc(), &mut takeover, dc, ballot),
            (wanted, wanted)
        );
    }
    takeover_laws();
    Ok(())
}
