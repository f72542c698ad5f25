// The rows of votes and outcomes.
ghost use Rattle.std.specs.Prelude.{◌≡◌, if◌then◌else◌, IfOk};
ghost use Rattle.rc_ids.specs.Cluster as cluster_spec;
ghost use Rattle.rc_protocol.specs.Coordinator.{coord_stays};
ghost use Rattle.rc_protocol.specs.Coordinator as coordinator;
ghost use Rattle.rc_plain_coord.specs.Rows.{Does};

use crate::counts::is_dc;
use crate::sending::finishes;
use crate::volatile::Volatile;
use rc_body::{Decision, Page};
use rc_ids::{Ballot, Cluster, DcId, NoMemory, TxId};
use rc_msg::Messages;
use rc_record::{CoordDurable, Record};
use std::alloc::Global;

/// Learns an outcome: the shards are told, and the transaction is forgotten.
fn learns(
    alloc: Global,
    cluster: &Cluster,
    dc: DcId,
    volatile: &mut Volatile,
    tx: TxId,
    decision: &Decision,
    out: &mut Messages,
) -> Result<Option<Record>, NoMemory>
    ensures { IfOk result (λ written. Does (coordinator.coord_learns cluster.now dc volatile.old tx decision.now) written volatile.new out.old out.new) }
{
    let page = Page::one(alloc, tx, decision.copy()?)?;
    finishes(cluster, dc, tx, decision, out)?;
    volatile.forget(tx);
    Ok(Some(Record::Decided(page)))
}

/// A datacentre voted; one outside the world is ignored.
pub fn on_voted(
    alloc: Global,
    cluster: &Cluster,
    dc: DcId,
    durable: &CoordDurable,
    volatile: &mut Volatile,
    tx: TxId,
    ballot: Ballot,
    from: DcId,
    decision: &Decision,
    out: &mut Messages,
) -> Result<Option<Record>, NoMemory>
    ensures { IfOk result (λ written. Does (if cluster_spec.is_dc cluster.now from then coordinator.on_voted cluster.now dc durable.now volatile.old tx ballot from decision.now else coord_stays volatile.old) written volatile.new out.old out.new) }
{
    if !is_dc(cluster, from) || durable.outcomes.get(tx).is_some() {
        return Ok(None);
    }
    if volatile.would_decide(alloc, cluster, tx, from, ballot, decision) {
        return learns(alloc, cluster, dc, volatile, tx, decision, out);
    }
    volatile.count(alloc, tx, from, ballot, decision)?;
    Ok(None)
}

/// An outcome comes.
pub fn on_decided(
    alloc: Global,
    cluster: &Cluster,
    dc: DcId,
    durable: &CoordDurable,
    volatile: &mut Volatile,
    tx: TxId,
    decision: &Decision,
    out: &mut Messages,
) -> Result<Option<Record>, NoMemory>
    ensures { IfOk result (λ written. Does (coordinator.on_decided cluster.now dc durable.now volatile.old tx decision.now) written volatile.new out.old out.new) }
{
    if durable.outcomes.get(tx).is_some() {
        return Ok(None);
    }
    learns(alloc, cluster, dc, volatile, tx, decision, out)
}
