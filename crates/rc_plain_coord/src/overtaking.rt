// The rows that open and drive a take-over.
ghost use Rattle.std.specs.Prelude.{◌≡◌, IsTrue, if◌then◌else◌, IfOk, IsErrOf};
ghost use Rattle.std.specs.Option.{option_copied};
ghost use Rattle.rc_ids.specs.Cluster as cluster_spec;
ghost use Rattle.rc_protocol.specs.Coordinator.{coord_stays, do_take};
ghost use Rattle.rc_protocol.specs.Coordinator as coordinator;
ghost use Rattle.rc_plain_coord.specs.Rows.{Does, Spares};
ghost use Rattle.rc_plain_coord.specs.declared.fault.CoordFault.TheVariants.{BallotsSpent};

use crate::CoordFault;
use crate::counts::is_dc;
use crate::sending::{propose, tell, to_all};
use crate::takeover::TakeOver;
use crate::volatile::Volatile;
use rc_body::Decision;
use rc_ids::{Ballot, Cluster, DcId, NoMemory, Party, TxId};
use rc_msg::{Messages, Msg};
use rc_record::{CoordDurable, Record};

fn opens(
    cluster: &Cluster,
    volatile: &mut Volatile,
    tx: TxId,
    is_eager: bool,
    ballot: Ballot,
    out: &mut Messages,
) -> Result<Option<Record>, NoMemory>
    ensures { IfOk result (λ written. Does (coordinator.opens cluster.now volatile.old tx is_eager ballot) written volatile.new out.old out.new) }
{
    volatile.keep_takeover(tx, TakeOver::opening(ballot, is_eager))?;
    to_all(cluster, &Msg::Ask(tx, ballot), out)?;
    Ok(Some(Record::Promised(tx, ballot)))
}

fn takes_over(
    cluster: &Cluster,
    dc: DcId,
    durable: &CoordDurable,
    volatile: &mut Volatile,
    tx: TxId,
    is_eager: bool,
    out: &mut Messages,
) -> Result<Option<Record>, CoordFault>
    requires { IsTrue (cluster_spec.is_dc cluster.now dc) }
    ensures ok { IfOk result (λ written. Does (coordinator.takes_over cluster.now dc durable.now volatile.old tx is_eager) written volatile.new out.old out.new) }
    ensures spent { IsErrOf result BallotsSpent → Spares (coordinator.takes_over cluster.now dc durable.now volatile.old tx is_eager) volatile.old volatile.new out.old out.new }
{
    match cluster.next_ballot(dc, durable.promises.get(tx)) {
        Some(ballot) => Ok(opens(cluster, volatile, tx, is_eager, ballot, out)?),
        None => Err(CoordFault::BallotsSpent),
    }
}

/// A client gives its transaction up: a patient take-over.
pub fn on_abandon(
    cluster: &Cluster,
    dc: DcId,
    durable: &CoordDurable,
    volatile: &mut Volatile,
    tx: TxId,
    out: &mut Messages,
) -> Result<Option<Record>, CoordFault>
    requires { IsTrue (cluster_spec.is_dc cluster.now dc) }
    ensures ok { IfOk result (λ written. Does (coordinator.on_abandon cluster.now dc durable.now volatile.old tx) written volatile.new out.old out.new) }
    ensures spent { IsErrOf result BallotsSpent → Spares (coordinator.on_abandon cluster.now dc durable.now volatile.old tx) volatile.old volatile.new out.old out.new }
{
    match durable.outcomes.get(tx) {
        Some(outcome) => {
            tell(Party::Client(tx), tx, outcome, out)?;
            Ok(None)
        }
        None => takes_over(cluster, dc, durable, volatile, tx, false, out),
    }
}

/// The command to take a transaction over: an eager take-over.
pub fn take(
    cluster: &Cluster,
    dc: DcId,
    durable: &CoordDurable,
    volatile: &mut Volatile,
    tx: TxId,
    out: &mut Messages,
) -> Result<Option<Record>, CoordFault>
    requires { IsTrue (cluster_spec.is_dc cluster.now dc) }
    ensures ok { IfOk result (λ written. Does (do_take cluster.now dc durable.now volatile.old tx) written volatile.new out.old out.new) }
    ensures spent { IsErrOf result BallotsSpent → Spares (do_take cluster.now dc durable.now volatile.old tx) volatile.old volatile.new out.old out.new }
{
    match durable.outcomes.get(tx) {
        Some(outcome) => {
            tell(Party::Client(tx), tx, outcome, out)?;
            Ok(None)
        }
        None => takes_over(cluster, dc, durable, volatile, tx, true, out),
    }
}

/// The open take-over that waits for the datacentre.
fn waiting_takeover<'a>(
    durable: &CoordDurable,
    volatile: &'a Volatile,
    tx: TxId,
    ballot: Ballot,
    from: DcId,
) -> Option<&'a TakeOver>
    ensures { option_copied result ≡ coordinator.waiting_takeover durable.now volatile.now tx ballot from }
{
    if durable.outcomes.get(tx).is_some() {
        return None;
    }
    match volatile.takeover(tx) {
        Some(takeover) if takeover.waits_for(ballot, from) => Some(takeover),
        _ => None,
    }
}

/// Proposes, if it is time to.
fn goes_on(
    cluster: &Cluster,
    volatile: &mut Volatile,
    tx: TxId,
    takeover: TakeOver,
    out: &mut Messages,
) -> Result<Option<Record>, NoMemory>
    ensures { IfOk result (λ written. Does (coordinator.proposes_or_waits cluster.now volatile.old tx takeover) written volatile.new out.old out.new) }
{
    match takeover.chooses(cluster)? {
        Some(decision) => {
            propose(cluster, tx, takeover.ballot(), decision, out)?;
            volatile.keep_takeover(tx, takeover.proposed())?;
            Ok(None)
        }
        None => {
            volatile.keep_takeover(tx, takeover)?;
            Ok(None)
        }
    }
}

/// A promise comes, with a report; one of a datacentre outside the world is ignored.
pub fn on_promise(
    cluster: &Cluster,
    durable: &CoordDurable,
    volatile: &mut Volatile,
    tx: TxId,
    ballot: Ballot,
    from: DcId,
    report: &Option<(Ballot, Decision)>,
    out: &mut Messages,
) -> Result<Option<Record>, NoMemory>
    ensures { IfOk result (λ written. Does (if cluster_spec.is_dc cluster.now from then coordinator.on_promise cluster.now durable.now volatile.old tx ballot from report.now else coord_stays volatile.old) written volatile.new out.old out.new) }
{
    if !is_dc(cluster, from) {
        return Ok(None);
    }
    match waiting_takeover(durable, volatile, tx, ballot, from) {
        Some(takeover) => {
            let takeover = takeover.hears(from, report)?;
            goes_on(cluster, volatile, tx, takeover, out)
        }
        None => Ok(None),
    }
}
