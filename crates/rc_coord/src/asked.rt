// Shards are asked, and asked again.
ghost use Rattle.std.specs.Prelude.{◌≡◌, [], ◌&&◌, not, if◌then◌else◌, OnOk, OnErr, IfOk};
ghost use Rattle.std.specs.Ordering.{nat_cmp};
ghost use Rattle.rc_ids.specs.Tables.{added, member};
ghost use Rattle.rc_body.specs.Bodies.{touched, touches};
ghost use Rattle.rc_msg.specs.Posts.{posted_all, Grows};
ghost use Rattle.rc_protocol.specs.Messages.{to_each};
ghost use Rattle.rc_protocol.specs.Coordinator.{prepare_to};
ghost use Rattle.rc_vote.specs.Gathers.{raised, shard_gather};
ghost use Rattle.rc_coord_tables.specs.Gathers.{AreOf, gather_of, asked_of};
ghost use Rattle.rc_coord.specs.Rows.{gathered_at, asked_for};

use rc_body::Body;
use rc_coord_tables::{Asked, Gathers};
use rc_ids::{Ballot, Cluster, DcId, NoMemory, NodeId, Party, ShardId, ShardSet, TxId};
use rc_msg::{Msg, Outbox};
use rc_vote::Gather;

/// The set with the shard, if it is to join.
fn with_if(set: ShardSet, shard: ShardId, joins: bool) -> ShardSet
    ensures { result ≡ (if joins then added nat_cmp set shard else set) }
{
    if joins { set.with(shard) } else { set }
}

/// The shards that have a key of the body.
fn touched_by(cluster: &Cluster, body: &Body) -> ShardSet
    ensures { result ≡ touched cluster.now body.now }
{
    let mut set = ShardSet::new();
    for place in 0..cluster.shards() {
        let shard = ShardId(place + 1);
        set = with_if(set, shard, body.touches(cluster, shard));
    }
    set
}

/// The gather of shards that were asked for the first time, at the ballot.
fn first_asked(cluster: &Cluster, ballot: Ballot, body: &Body) -> Result<Asked, NoMemory>
    ensures { IfOk result (λ asked. asked ≡ asked_for (raised (shard_gather (touched cluster.now body.now) 0 []) ballot) body.now) }
{
    let mut gather = Gather::new(touched_by(cluster, body));
    let _shards = gather.start(ballot);
    Ok(Asked {
        gather,
        body: body.copy()?,
    })
}

/// The gather of shards that were asked before, at the larger ballot.
fn asked_again(asked: &Asked, ballot: Ballot) -> Result<Asked, NoMemory>
    ensures { IfOk result (λ again. again ≡ asked_for (raised asked.now.gather ballot) asked.now.body) }
{
    let mut gather = asked.gather;
    let _shards = gather.start(ballot);
    Ok(Asked {
        gather,
        body: asked.body.copy()?,
    })
}

/// The gather that a proposal of a commit makes of the transaction's, or its first one.
pub(crate) fn asked_at(
    cluster: &Cluster,
    gathers: &Gathers,
    tx: TxId,
    ballot: Ballot,
    body: &Body,
) -> Result<Asked, NoMemory>
    requires { AreOf cluster.now gathers.now }
    ensures gather { IfOk result (λ a. gather_of a ≡ gathered_at gathers.now.table tx ballot body.now) }
    ensures asked { IfOk result (λ a. asked_of a ≡ touched cluster.now (gather_of a).body) }
{
    match gathers.get(tx) {
        None => first_asked(cluster, ballot, body),
        Some(asked) => asked_again(asked, ballot),
    }
}

/// Whether the shard is touched, and did not say yes.
fn is_waiting(cluster: &Cluster, asked: &Asked, shard: ShardId) -> bool
    ensures { result ≡ (touches cluster.now asked.now.body shard && not (member nat_cmp asked.now.gather.yes shard)) }
{
    asked.body.touches(cluster, shard) && !asked.gather.yes().has(shard)
}

/// Asks a shard to prepare its part, where the gather waits for it.
fn post_prepare(
    cluster: &Cluster,
    dc: DcId,
    shard: ShardId,
    tx: TxId,
    asked: &Asked,
    out: &mut Outbox,
) -> Result<(), NoMemory>
    ensures ok { OnOk result (out.new ≡ posted_all out.old (prepare_to cluster.now dc tx (gather_of asked.now) shard)) }
    ensures grows { Grows out.old out.new }
{
    let to = Party::Node(NodeId::Shard(dc, shard));
    if is_waiting(cluster, asked, shard) {
        let part = asked.body.part(cluster, shard)?;
        out.push(to, &Msg::Prepare(tx, part))?;
    }
    Ok(())
}

/// Asks each shard for which the gather waits.
fn post_each_prepare(
    cluster: &Cluster,
    dc: DcId,
    tx: TxId,
    asked: &Asked,
    out: &mut Outbox,
) -> Result<(), NoMemory>
    ensures ok { OnOk result (out.new ≡ posted_all out.old (to_each cluster.now.shards (prepare_to cluster.now dc tx (gather_of asked.now)))) }
    ensures grows { Grows out.old out.new }
{
    for number in 0..cluster.shards() {
        post_prepare(cluster, dc, ShardId(number + 1), tx, asked, out)?;
    }
    Ok(())
}

/// The same, or leaves all as before.
pub(crate) fn post_prepares(
    cluster: &Cluster,
    dc: DcId,
    tx: TxId,
    asked: &Asked,
    out: &mut Outbox,
) -> Result<(), NoMemory>
    ensures ok { OnOk result (out.new ≡ posted_all out.old (to_each cluster.now.shards (prepare_to cluster.now dc tx (gather_of asked.now)))) }
    ensures err { OnErr result (out.new ≡ out.old) }
{
    let before = out.len();
    match post_each_prepare(cluster, dc, tx, asked, out) {
        Ok(()) => Ok(()),
        Err(NoMemory) => {
            out.cut(before);
            Err(NoMemory)
        }
    }
}
