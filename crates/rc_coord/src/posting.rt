// What a coordinator posts.
ghost use Rattle.std.specs.Prelude.{◌≡◌, ◌++◌, OnOk, OnErr};
ghost use Rattle.rc_ids.specs.Cluster.{owner_of};
ghost use Rattle.rc_msg.specs.declared.msg.Msg.TheVariants.{Refused, Decided};
ghost use Rattle.rc_msg.specs.Posts.{posted_all, Grows};
ghost use Rattle.rc_protocol.specs.Messages.{coordinator as coordinator_of, to_all, one, client_of};
ghost use Rattle.rc_protocol.specs.Coordinator.{finish_posts, finish_to, vote, proposer as proposer_of};

use rc_body::{Decision, Reason};
use rc_ids::{Ballot, Cluster, DcId, NoMemory, NodeId, Party, ShardId, TxId};
use rc_msg::{Msg, Outbox};

/// The coordinator of a datacentre.
pub(crate) fn coordinator(dc: DcId) -> Party
    ensures { result ≡ coordinator_of dc }
{
    Party::Node(NodeId::Coord(dc))
}

/// The coordinator whose the ballot is.
pub(crate) fn owner(cluster: &Cluster, ballot: Ballot) -> Party
    ensures { result ≡ coordinator_of (owner_of cluster.now ballot) }
{
    match cluster.owner(ballot) {
        Some(dc) => coordinator(dc),
        None => coordinator(DcId(1)),
    }
}

/// Who proposes at the ballot: the client at ballot 0, else the coordinator whose it is.
pub(crate) fn proposer(cluster: &Cluster, tx: TxId, ballot: Ballot) -> Party
    ensures { result ≡ proposer_of cluster.now tx ballot }
{
    match cluster.owner(ballot) {
        Some(dc) => coordinator(dc),
        None => Party::Client(tx),
    }
}

/// Tells a party the outcome, or leaves all as before.
pub(crate) fn post_outcome(
    to: Party,
    tx: TxId,
    outcome: &Decision,
    out: &mut Outbox,
) -> Result<(), NoMemory>
    ensures ok { OnOk result (out.new ≡ posted_all out.old (one to (Decided tx outcome.now))) }
    ensures err { OnErr result (out.new ≡ out.old) }
{
    out.push(to, &Msg::Decided(tx, outcome.copy()?))
}

/// Tells a party that this datacentre refuses, or leaves all as before.
pub(crate) fn post_refusal(
    to: Party,
    dc: DcId,
    tx: TxId,
    ballot: Ballot,
    reason: Reason,
    out: &mut Outbox,
) -> Result<(), NoMemory>
    ensures ok { OnOk result (out.new ≡ posted_all out.old (one to (Refused tx ballot dc reason))) }
    ensures err { OnErr result (out.new ≡ out.old) }
{
    out.push(to, &Msg::Refused(tx, ballot, dc, reason))
}

/// Tells a shard the outcome of its part, if it has one.
fn post_finish(
    cluster: &Cluster,
    dc: DcId,
    shard: ShardId,
    tx: TxId,
    decision: &Decision,
    out: &mut Outbox,
) -> Result<(), NoMemory>
    ensures ok { OnOk result (out.new ≡ posted_all out.old (finish_to cluster.now dc tx decision.now shard)) }
    ensures grows { Grows out.old out.new }
{
    let to = Party::Node(NodeId::Shard(dc, shard));
    match decision {
        Decision::Commit(body) => {
            if body.touches(cluster, shard) {
                let part = body.part(cluster, shard)?;
                out.push(to, &Msg::Finish(tx, Decision::Commit(part)))?;
            }
            Ok(())
        }
        Decision::Abort => out.push(to, &Msg::Finish(tx, Decision::Abort)),
    }
}

/// Tells each shard the outcome of its part.
pub(crate) fn post_finishes(
    cluster: &Cluster,
    dc: DcId,
    tx: TxId,
    decision: &Decision,
    out: &mut Outbox,
) -> Result<(), NoMemory>
    ensures ok { OnOk result (out.new ≡ posted_all out.old (finish_posts cluster.now dc tx decision.now)) }
    ensures grows { Grows out.old out.new }
{
    for number in 0..cluster.shards() {
        post_finish(cluster, dc, ShardId(number + 1), tx, decision, out)?;
    }
    Ok(())
}

/// The same, or leaves all as before.
pub(crate) fn post_whole(
    cluster: &Cluster,
    dc: DcId,
    tx: TxId,
    decision: &Decision,
    out: &mut Outbox,
) -> Result<(), NoMemory>
    ensures ok { OnOk result (out.new ≡ posted_all out.old (finish_posts cluster.now dc tx decision.now)) }
    ensures grows { Grows out.old out.new }
    ensures err { OnErr result (out.new ≡ out.old) }
{
    let before = out.len();
    match post_finishes(cluster, dc, tx, decision, out) {
        Ok(()) => Ok(()),
        Err(NoMemory) => {
            out.cut(before);
            Err(NoMemory)
        }
    }
}

/// Tells the coordinators of all datacentres.
fn post_each(cluster: &Cluster, msg: &Msg, out: &mut Outbox) -> Result<(), NoMemory>
    ensures ok { OnOk result (out.new ≡ posted_all out.old (to_all cluster.now msg.now)) }
    ensures grows { Grows out.old out.new }
{
    for number in 0..cluster.dcs() {
        out.push(Party::Node(NodeId::Coord(DcId(number + 1))), msg)?;
    }
    Ok(())
}

/// The same, or leaves all as before.
pub(crate) fn post_all(cluster: &Cluster, msg: &Msg, out: &mut Outbox) -> Result<(), NoMemory>
    ensures ok { OnOk result (out.new ≡ posted_all out.old (to_all cluster.now msg.now)) }
    ensures grows { Grows out.old out.new }
    ensures err { OnErr result (out.new ≡ out.old) }
{
    let before = out.len();
    match post_each(cluster, msg, out) {
        Ok(()) => Ok(()),
        Err(NoMemory) => {
            out.cut(before);
            Err(NoMemory)
        }
    }
}

/// Tells all coordinators and the client.
fn post_told(cluster: &Cluster, tx: TxId, msg: &Msg, out: &mut Outbox) -> Result<(), NoMemory>
    ensures ok { OnOk result (out.new ≡ posted_all out.old (to_all cluster.now msg.now ++ one (client_of tx) msg.now)) }
    ensures grows { Grows out.old out.new }
{
    post_each(cluster, msg, out)?;
    out.push(Party::Client(tx), msg)?;
    Ok(())
}

/// Tells all coordinators and the client what this datacentre accepted.
fn post_voted(
    cluster: &Cluster,
    dc: DcId,
    tx: TxId,
    ballot: Ballot,
    decision: &Decision,
    out: &mut Outbox,
) -> Result<(), NoMemory>
    ensures ok { OnOk result (out.new ≡ posted_all out.old (vote cluster.now dc tx ballot decision.now)) }
    ensures grows { Grows out.old out.new }
{
    post_told(
        cluster,
        tx,
        &Msg::Voted(tx, ballot, dc, decision.copy()?),
        out,
    )
}

/// The same, or leaves all as before.
pub(crate) fn post_vote(
    cluster: &Cluster,
    dc: DcId,
    tx: TxId,
    ballot: Ballot,
    decision: &Decision,
    out: &mut Outbox,
) -> Result<(), NoMemory>
    ensures ok { OnOk result (out.new ≡ posted_all out.old (vote cluster.now dc tx ballot decision.now)) }
    ensures grows { Grows out.old out.new }
    ensures err { OnErr result (out.new ≡ out.old) }
{
    let before = out.len();
    match post_voted(cluster, dc, tx, ballot, decision, out) {
        Ok(()) => Ok(()),
        Err(NoMemory) => {
            out.cut(before);
            Err(NoMemory)
        }
    }
}
