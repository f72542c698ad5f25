// The rows of a proposal and of the shards' answers.
ghost use Rattle.std.specs.Prelude.{◌≡◌, ◌++◌, Some, if◌then◌else◌, IfOk};
ghost use Rattle.std.specs.Option.{option_copied};
ghost use Rattle.std.specs.Ordering.{nat_cmp};
ghost use Rattle.rc_ids.specs.Tables.{found};
ghost use Rattle.rc_ids.specs.Cluster as cluster_spec;
ghost use Rattle.rc_body.specs.declared.decision.Decision.TheVariants.{Commit};
ghost use Rattle.rc_protocol.specs.Coordinator.{GatherState as GatherOf, with_gather, coord_stays};
ghost use Rattle.rc_protocol.specs.Coordinator as coordinator;
ghost use Rattle.rc_plain_coord.specs.Rows.{Does};

use crate::counts::is_shard;
use crate::gather::Gather;
use crate::sending::{prepares, proposer, refuse, tell, vote};
use crate::volatile::Volatile;
use rc_body::{Decision, Reason};
use rc_ids::{Ballot, Cluster, DcId, NoMemory, ShardId, TxId};
use rc_msg::Messages;
use rc_record::{CoordDurable, Record};

/// Accepts a decision: the vote is sent, and written by the caller.
fn accepts(
    cluster: &Cluster,
    dc: DcId,
    volatile: &Volatile,
    tx: TxId,
    ballot: Ballot,
    decision: Decision,
    out: &mut Messages,
) -> Result<Option<Record>, NoMemory>
    ensures { IfOk result (λ written. Does (coordinator.accepts cluster.now dc volatile.now tx ballot decision) written volatile.now out.old out.new) }
{
    vote(cluster, dc, tx, ballot, &decision, out)?;
    Ok(Some(Record::Accepted(tx, ballot, decision)))
}

/// Accepts the commit of a gather, for which all shards said yes.
fn accepts_gather(
    cluster: &Cluster,
    dc: DcId,
    volatile: &mut Volatile,
    tx: TxId,
    gather: Gather,
    out: &mut Messages,
) -> Result<Option<Record>, NoMemory>
    ensures { IfOk result (λ written. Does (coordinator.accepts cluster.now dc (with_gather volatile.old tx gather) tx gather.ballot (Commit gather.body)) written volatile.new out.old out.new) }
{
    let ballot = gather.ballot();
    let decision = Decision::Commit(gather.body().copy()?);
    volatile.keep_gather(tx, gather)?;
    accepts(cluster, dc, volatile, tx, ballot, decision, out)
}

fn gathers_on(
    cluster: &Cluster,
    dc: DcId,
    volatile: &mut Volatile,
    tx: TxId,
    gather: Gather,
    out: &mut Messages,
) -> Result<Option<Record>, NoMemory>
    ensures { IfOk result (λ written. Does (coordinator.gathers_on cluster.now dc volatile.old tx gather) written volatile.new out.old out.new) }
{
    if gather.has_all(cluster) {
        return accepts_gather(cluster, dc, volatile, tx, gather, out);
    }
    prepares(cluster, dc, tx, &gather, out)?;
    volatile.keep_gather(tx, gather)?;
    Ok(None)
}

fn takes_proposal(
    cluster: &Cluster,
    dc: DcId,
    volatile: &mut Volatile,
    tx: TxId,
    ballot: Ballot,
    decision: &Decision,
    out: &mut Messages,
) -> Result<Option<Record>, NoMemory>
    ensures { IfOk result (λ written. Does (coordinator.takes_proposal cluster.now dc volatile.old tx ballot decision.now) written volatile.new out.old out.new) }
{
    match decision {
        Decision::Abort => accepts(cluster, dc, volatile, tx, ballot, Decision::Abort, out),
        Decision::Commit(body) => {
            let gather = volatile.gather_at(tx, ballot, body)?;
            gathers_on(cluster, dc, volatile, tx, gather, out)
        }
    }
}

/// What was accepted for a transaction last, if that was at this ballot.
fn accepted_at(durable: &CoordDurable, tx: TxId, ballot: Ballot) -> Option<&Decision>
    ensures { option_copied result ≡ coordinator.accepted_at (found nat_cmp durable.now.accepted tx) ballot }
{
    match durable.accepted.get(tx) {
        Some(accepted) if accepted.0 == ballot => Some(&accepted.1),
        _ => None,
    }
}

/// A proposal comes.
pub fn on_propose(
    cluster: &Cluster,
    dc: DcId,
    durable: &CoordDurable,
    volatile: &mut Volatile,
    tx: TxId,
    ballot: Ballot,
    decision: &Decision,
    out: &mut Messages,
) -> Result<Option<Record>, NoMemory>
    ensures { IfOk result (λ written. Does (coordinator.on_propose cluster.now dc durable.now volatile.old tx ballot decision.now) written volatile.new out.old out.new) }
{
    if let Some(outcome) = durable.outcomes.get(tx) {
        tell(proposer(cluster, tx, ballot), tx, outcome, out)?;
        return Ok(None);
    }
    let promise = durable.promises.get(tx);
    if ballot < promise {
        let to = proposer(cluster, tx, ballot);
        refuse(to, dc, tx, ballot, Reason::Promised(promise), out)?;
        return Ok(None);
    }
    match accepted_at(durable, tx, ballot) {
        Some(old) => {
            vote(cluster, dc, tx, ballot, old, out)?;
            Ok(None)
        }
        None => takes_proposal(cluster, dc, volatile, tx, ballot, decision, out),
    }
}

/// The gather that waits for the shard, of a transaction that is not decided.
fn waiting_gather<'a>(
    cluster: &Cluster,
    durable: &CoordDurable,
    volatile: &'a Volatile,
    tx: TxId,
    shard: ShardId,
) -> Option<&'a Gather>
    ensures { option_copied result ≡ coordinator.waiting_gather cluster.now durable.now volatile.now tx shard }
{
    if durable.outcomes.get(tx).is_some() {
        return None;
    }
    match volatile.gather(tx) {
        Some(gather) if gather.waits_for(cluster, shard) => Some(gather),
        _ => None,
    }
}

fn said_yes(
    cluster: &Cluster,
    dc: DcId,
    durable: &CoordDurable,
    volatile: &mut Volatile,
    tx: TxId,
    gather: Gather,
    out: &mut Messages,
) -> Result<Option<Record>, NoMemory>
    ensures { IfOk result (λ written. Does (coordinator.said_yes cluster.now dc durable.now volatile.old tx gather) written volatile.new out.old out.new) }
{
    if !gather.has_all(cluster) {
        volatile.keep_gather(tx, gather)?;
        return Ok(None);
    }
    let ballot = gather.ballot();
    let promise = durable.promises.get(tx);
    if ballot < promise {
        volatile.keep_gather(tx, gather)?;
        let to = proposer(cluster, tx, ballot);
        refuse(to, dc, tx, ballot, Reason::Promised(promise), out)?;
        return Ok(None);
    }
    accepts_gather(cluster, dc, volatile, tx, gather, out)
}

/// A shard says yes, or no with a reason; one outside the world is ignored.
pub fn on_prepared(
    cluster: &Cluster,
    dc: DcId,
    durable: &CoordDurable,
    volatile: &mut Volatile,
    tx: TxId,
    shard: ShardId,
    reason: &Option<Reason>,
    out: &mut Messages,
) -> Result<Option<Record>, NoMemory>
    ensures { IfOk result (λ written. Does (if cluster_spec.is_shard cluster.now shard then coordinator.on_prepared cluster.now dc durable.now volatile.old tx shard reason.now else coord_stays volatile.old) written volatile.new out.old out.new) }
{
    if !is_shard(cluster, shard) {
        return Ok(None);
    }
    let Some(gather) = waiting_gather(cluster, durable, volatile, tx, shard) else {
        return Ok(None);
    };
    match reason {
        Some(reason) => {
            let ballot = gather.ballot();
            let to = proposer(cluster, tx, ballot);
            refuse(to, dc, tx, ballot, reason.copy(), out)?;
            Ok(None)
        }
        None => {
            let gather = gather.with_yes(shard)?;
            said_yes(cluster, dc, durable, volatile, tx, gather, out)
        }
    }
}
