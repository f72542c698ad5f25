// Messages to nodes and clients.
ghost use Rattle.std.specs.Prelude.{◌≡◌, ℕ, ◌≤◌, ◌++◌, OnOk};
ghost use Rattle.rc_ids.specs.Cluster.{owner_of};
ghost use Rattle.rc_msg.specs.declared.msg.Msg.TheVariants.{Refused, Decided, Propose, Finish, Prepare};
ghost use Rattle.rc_protocol.specs.Messages.{client_of, one, to_each};
ghost use Rattle.rc_protocol.specs.Messages as messages;
ghost use Rattle.rc_protocol.specs.Coordinator.{GatherState as GatherOf};
ghost use Rattle.rc_protocol.specs.Coordinator as coordinator_spec;

use crate::counts::{dc_count, shard_count};
use crate::gather::Gather;
use rc_body::{Body, Decision, Page, Reason};
use rc_ids::{Ballot, Cluster, DcId, NoMemory, NodeId, Party, ShardId, TxId};
use rc_msg::{Messages, Msg};

pub fn coordinator(dc: DcId) -> Party
    ensures { result ≡ messages.coordinator dc }
{
    Party::Node(NodeId::Coord(dc))
}

pub fn shard_server(dc: DcId, shard: ShardId) -> Party
    ensures { result ≡ messages.shard_server dc shard }
{
    Party::Node(NodeId::Shard(dc, shard))
}

/// The coordinator whose the ballot is.
pub fn owner(cluster: &Cluster, ballot: Ballot) -> Party
    ensures { result ≡ messages.coordinator (owner_of cluster.now ballot) }
{
    match cluster.owner(ballot) {
        Some(dc) => coordinator(dc),
        None => coordinator(DcId(1)),
    }
}

/// Who proposes at the ballot: the client at ballot 0, else the coordinator whose it is.
pub fn proposer(cluster: &Cluster, tx: TxId, ballot: Ballot) -> Party
    ensures { result ≡ coordinator_spec.proposer cluster.now tx ballot }
{
    match cluster.owner(ballot) {
        Some(dc) => coordinator(dc),
        None => Party::Client(tx),
    }
}

/// Sends the message to the coordinators of all datacentres.
pub fn to_all(cluster: &Cluster, msg: &Msg, out: &mut Messages) -> Result<(), NoMemory>
    ensures { OnOk result (out.new ≡ out.old ++ messages.to_all cluster.now msg.now) }
{
    for place in 0..dc_count(cluster) {
        out.push(coordinator(DcId(place + 1)), msg)?;
    }
    Ok(())
}

/// Tells all coordinators and the client what this datacentre accepted.
pub fn vote(
    cluster: &Cluster,
    dc: DcId,
    tx: TxId,
    ballot: Ballot,
    decision: &Decision,
    out: &mut Messages,
) -> Result<(), NoMemory>
    ensures { OnOk result (out.new ≡ out.old ++ coordinator_spec.vote cluster.now dc tx ballot decision.now) }
{
    let msg = Msg::Voted(tx, ballot, dc, decision.copy()?);
    to_all(cluster, &msg, out)?;
    out.push(Party::Client(tx), &msg)
}

/// Tells a party that this datacentre refuses.
pub fn refuse(
    to: Party,
    dc: DcId,
    tx: TxId,
    ballot: Ballot,
    reason: Reason,
    out: &mut Messages,
) -> Result<(), NoMemory>
    ensures { OnOk result (out.new ≡ out.old ++ one to (Refused tx ballot dc reason)) }
{
    out.push(to, &Msg::Refused(tx, ballot, dc, reason))
}

/// Tells a party the outcome.
pub fn tell(to: Party, tx: TxId, outcome: &Decision, out: &mut Messages) -> Result<(), NoMemory>
    ensures { OnOk result (out.new ≡ out.old ++ one to (Decided tx outcome.now)) }
{
    out.push(to, &Msg::Decided(tx, outcome.copy()?))
}

/// Proposes a decision to all coordinators.
pub fn propose(
    cluster: &Cluster,
    tx: TxId,
    ballot: Ballot,
    decision: Decision,
    out: &mut Messages,
) -> Result<(), NoMemory>
    ensures { OnOk result (out.new ≡ out.old ++ messages.to_all cluster.now (Propose tx ballot decision)) }
{
    to_all(cluster, &Msg::Propose(tx, ballot, decision), out)
}

fn finish(
    dc: DcId,
    tx: TxId,
    decision: Decision,
    shard: ShardId,
    out: &mut Messages,
) -> Result<(), NoMemory>
    ensures { OnOk result (out.new ≡ out.old ++ one (messages.shard_server dc shard) (Finish tx decision)) }
{
    out.push(shard_server(dc, shard), &Msg::Finish(tx, decision))
}

fn prepare(
    dc: DcId,
    tx: TxId,
    part: Body,
    shard: ShardId,
    out: &mut Messages,
) -> Result<(), NoMemory>
    ensures { OnOk result (out.new ≡ out.old ++ one (messages.shard_server dc shard) (Prepare tx part)) }
{
    out.push(shard_server(dc, shard), &Msg::Prepare(tx, part))
}

/// Tells a shard the outcome: abort to each, commit to a touched one with its part.
fn finish_to(
    cluster: &Cluster,
    dc: DcId,
    tx: TxId,
    decision: &Decision,
    shard: ShardId,
    out: &mut Messages,
) -> Result<(), NoMemory>
    ensures { OnOk result (out.new ≡ out.old ++ coordinator_spec.finish_to cluster.now dc tx decision.now shard) }
{
    match decision {
        Decision::Abort => finish(dc, tx, Decision::Abort, shard, out),
        Decision::Commit(body) => {
            if !body.touches(cluster, shard) {
                return Ok(());
            }
            let part = body.part(cluster, shard)?;
            finish(dc, tx, Decision::Commit(part), shard, out)
        }
    }
}

/// Tells the shards of this datacentre the outcome.
pub fn finishes(
    cluster: &Cluster,
    dc: DcId,
    tx: TxId,
    decision: &Decision,
    out: &mut Messages,
) -> Result<(), NoMemory>
    ensures { OnOk result (out.new ≡ out.old ++ coordinator_spec.finish_posts cluster.now dc tx decision.now) }
{
    for place in 0..shard_count(cluster) {
        finish_to(cluster, dc, tx, decision, ShardId(place + 1), out)?;
    }
    Ok(())
}

/// Tells the shards of this datacentre the outcomes of the page, in order.
pub fn finishes_all(
    cluster: &Cluster,
    dc: DcId,
    page: &Page,
    out: &mut Messages,
) -> Result<(), NoMemory>
    ensures { OnOk result (out.new ≡ out.old ++ coordinator_spec.finish_all_posts cluster.now dc page.now) }
{
    for index in 0..page.len() {
        let (tx, decision) = page.entry(index);
        finishes(cluster, dc, tx, decision, out)?;
    }
    Ok(())
}

/// Asks a shard to prepare its part, where the gather waits for it.
fn prepare_to(
    cluster: &Cluster,
    dc: DcId,
    tx: TxId,
    gather: &Gather,
    shard: ShardId,
    out: &mut Messages,
) -> Result<(), NoMemory>
    ensures { OnOk result (out.new ≡ out.old ++ coordinator_spec.prepare_to cluster.now dc tx gather.now shard) }
{
    if !gather.waits_for(cluster, shard) {
        return Ok(());
    }
    let part = gather.body().part(cluster, shard)?;
    prepare(dc, tx, part, shard, out)
}

/// Asks the shards for which the gather waits to prepare their parts.
pub fn prepares(
    cluster: &Cluster,
    dc: DcId,
    tx: TxId,
    gather: &Gather,
    out: &mut Messages,
) -> Result<(), NoMemory>
    ensures { OnOk result (out.new ≡ out.old ++ to_each cluster.now.shards (coordinator_spec.prepare_to cluster.now dc tx gather.now)) }
{
    for place in 0..shard_count(cluster) {
        prepare_to(cluster, dc, tx, gather, ShardId(place + 1), out)?;
    }
    Ok(())
}
