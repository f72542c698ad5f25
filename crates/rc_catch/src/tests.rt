// What no clause says: that calls answer where there is memory.
ghost use Rattle.std.specs.Prelude.{◌≤◌};

use crate::Outcomes;
use rc_body::Decision;
use rc_ids::{NoMemory, TxId};
use std::process::Abort;
use std::test::Fail;

/// Adds an abort of a transaction that has no outcome.
fn push(rt: &impl Abort, outcomes: &mut Outcomes, tx: u32) -> Result<(), NoMemory>
    requires { 1 ≤ tx }
{
    let tx = TxId(tx);
    assert!(rt; outcomes.get(tx).is_none());
    outcomes.push(tx, Decision::Abort)
}

#[test]
fn pages(rt: HostRuntime) -> Result<(), Fail> {
    let mut outcomes = Outcomes::new(rt.alloc());
    assert!(rt; outcomes.is_empty());
    outcomes.room(69)?;
    for tx in 1..71 {
        push(&rt, &mut outcomes, tx)?;
    }
    assert_eq!(rt; outcomes.len(), 70);
    assert!(rt; outcomes.get(TxId(70)).is_some());
    let table = [(0, 64), (6, 64), (7, 63), (70, 0), (71, 0)];
    for (place, wanted) in table {
        assert_eq!(rt; outcomes.page(place)?.len(), wanted, "from {place}");
    }
    Ok(())
}
