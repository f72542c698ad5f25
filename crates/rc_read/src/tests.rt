// Reads of three datacentres.
ghost use Rattle.std.specs.Prelude.{ℕ, ◌-◌, nat_le, List, [], ◌∷◌, None, if◌then◌else◌};

use crate::{Grant, Inbox, MajorityRead, ReadState, one_wait_more, read_laws};
use futures::task::{Context, Poll};
use futures::test::MockTask;
use rc_ids::{Cluster, DcId, DcSet, Quorum, Val, Version};
use std::alloc::Global;
use std::test::Fail;

fn quorum(alloc: Global) -> Result<Quorum, Fail> {
    let cluster = Cluster::new(3, 1, Vec::new(alloc))?;
    Ok(cluster.quorum())
}

fn grant(alloc: Global, dc: DcId, version: Version, text: &[u8]) -> Result<Grant, Fail> {
    Ok(Grant {
        dc,
        version,
        value: Some(Val::new(alloc, text)?),
    })
}

/// Whether a grant ends the read, then whether it is done, and the version of the best grant.
fn offered(read: &mut ReadState, grant: Grant) -> (bool, bool, Option<Version>) {
    let ends = read.offer(grant).is_some();
    (ends, read.done(), read.best().map(|best| best.version))
}

#[test]
fn offers(rt: HostRuntime) -> Result<(), Fail> {
    let mut read = ReadState::new(quorum(rt.alloc())?);
    let table = [
        (DcId(1), Version(3), (false, false, Some(Version(3)))),
        (DcId(1), Version(9), (false, false, Some(Version(3)))),
        (DcId(3), Version(4), (true, true, None)),
        (DcId(2), Version(5), (false, true, None)),
    ];
    for (dc, version, wanted) in table {
        let grant = grant(rt.alloc(), dc, version, b"x")?;
        assert!(rt; offered(&mut read, grant) == wanted);
    }
    assert!(rt; read.rest() == DcSet::new().with(DcId(2)));
    read_laws();
    Ok(())
}

/// Gives a grant of d1, and after a call that is pending one of d3.
#[derive(Drop)]
struct Two {
    steps: u8,
    waits: u64,
}

impl Inbox for Two {
    ghost given = { λ b.
        if nat_le 1 b.steps
        then record { dc = 1; version = 3; value = None } ∷ (if nat_le 3 b.steps then record { dc = 3; version = 4; value = None } ∷ [] else [])
        else [] };

    ghost left = { λ b. 3 - b.steps };

    ghost waits = { λ b. b.waits };

    fn next(&mut self, cx: &mut Context<'_>) -> Poll<Grant> {
        let step = self.steps;
        if step < 3 {
            self.steps = step + 1;
        }
        if step == 0 || step == 2 {
            return Poll::Ready(Grant {
                dc: DcId(step + 1),
                version: Version(3 + step as u64 / 2),
                value: None,
            });
        }
        self.waits = one_wait_more(self.waits);
        cx.yield_now()
    }
}

#[test]
fn polls(rt: HostRuntime) -> Result<(), Fail> {
    let quorum = quorum(rt.alloc())?;
    let task = MockTask::new(&rt)?;
    let mut dropped = MajorityRead::new(quorum, Two { steps: 0, waits: 0 });
    assert!(rt; task.poll(&mut dropped).is_pending());
    assert_eq!(rt; dropped.inbox.waits, 1);
    assert!(rt; dropped.cancel() == DcSet::new().with(DcId(2)).with(DcId(3)));
    let mut read = MajorityRead::new(quorum, Two { steps: 0, waits: 0 });
    let Poll::Pending = task.poll(&mut read) else {
        panic!(rt; "one datacentre is no quorum");
    };
    let Poll::Ready(done) = task.poll(&mut read) else {
        panic!(rt; "two datacentres are a quorum");
    };
    assert_eq!(rt; done.version, Version(4));
    assert!(rt; done.from == DcSet::new().with(DcId(1)).with(DcId(3)));
    Ok(())
}
