// The row of a coordinator that asks for a promise.
ghost use Rattle.std.specs.Prelude.{◌≡◌, IfOk};
ghost use Rattle.rc_protocol.specs.Coordinator as coordinator_spec;
ghost use Rattle.rc_plain_coord.specs.Rows.{Does};

use crate::sending::{owner, refuse, tell};
use crate::takeover::report_of;
use crate::volatile::Volatile;
use rc_body::Reason;
use rc_ids::{Ballot, Cluster, DcId, NoMemory, TxId};
use rc_msg::{Messages, Msg};
use rc_record::{CoordDurable, Record};

/// The record of a promise, where it rises.
fn promise_record(tx: TxId, ballot: Ballot, promise: Ballot) -> Option<Record>
    ensures { result ≡ coordinator_spec.promise_record tx ballot promise }
{
    if promise < ballot {
        Some(Record::Promised(tx, ballot))
    } else {
        None
    }
}

/// Promises the ballot, and reports what was accepted last.
fn promises_at(
    cluster: &Cluster,
    dc: DcId,
    durable: &CoordDurable,
    volatile: &Volatile,
    tx: TxId,
    ballot: Ballot,
    out: &mut Messages,
) -> Result<Option<Record>, NoMemory>
    ensures { IfOk result (λ written. Does (coordinator_spec.promises_at cluster.now dc durable.now volatile.now tx ballot) written volatile.now out.old out.new) }
{
    let report = report_of(durable.accepted.get(tx))?;
    let to = owner(cluster, ballot);
    out.push(to, &Msg::Promise(tx, ballot, dc, report))?;
    Ok(promise_record(tx, ballot, durable.promises.get(tx)))
}

/// A promise is asked for.
pub fn on_ask(
    cluster: &Cluster,
    dc: DcId,
    durable: &CoordDurable,
    volatile: &Volatile,
    tx: TxId,
    ballot: Ballot,
    out: &mut Messages,
) -> Result<Option<Record>, NoMemory>
    ensures { IfOk result (λ written. Does (coordinator_spec.on_ask cluster.now dc durable.now volatile.now tx ballot) written volatile.now out.old out.new) }
{
    if let Some(outcome) = durable.outcomes.get(tx) {
        tell(owner(cluster, ballot), tx, outcome, out)?;
        return Ok(None);
    }
    let promise = durable.promises.get(tx);
    if ballot < promise {
        let to = owner(cluster, ballot);
        refuse(to, dc, tx, ballot, Reason::Promised(promise), out)?;
        return Ok(None);
    }
    promises_at(cluster, dc, durable, volatile, tx, ballot, out)
}
