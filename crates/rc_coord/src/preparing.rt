// The row of a shard's answer.
ghost use Rattle.std.specs.Prelude.{◌≡◌, IsTrue, Some, None, true, false, is_some, if◌then◌else◌, IsOk, OnOk, OnErr, IfOk, IfErr, IfSome};
ghost use Rattle.std.specs.Option.{option_map};
ghost use Rattle.rc_ids.specs.Cluster.{is_shard as is_in_world, IsLayout};
ghost use Rattle.rc_msg.specs.Posts.{posted_all};
ghost use Rattle.rc_msg.specs.declared.msg.Msg.TheVariants.{Refused};
ghost use Rattle.rc_protocol.specs.Messages.{one};
ghost use Rattle.rc_protocol.specs.Coordinator.{on_prepared, waiting_gather, proposer as proposer_of};
ghost use Rattle.rc_vote.specs.Gathers.{by_shards, waits_for};
ghost use Rattle.rc_node.specs.Acts.{Acts, Refuses, coord_does};
ghost use Rattle.rc_coord_tables.specs.Gathers.{AreOf};
ghost use Rattle.rc_coord.specs.Rows.{commit_in};
ghost use Rattle.rc_coord.specs.Sites.{site_of, durable_of, volatile_of, Fits};

use crate::accepting::accept;
use crate::home::Home;
use crate::posting::{post_refusal, proposer};
use crate::tables::{Store, Tables, promise_for};
use rc_body::{Decision, Reason};
use rc_coord_tables::Gathers;
use rc_ids::{Cluster, NoMemory, ShardId, TxId};
use rc_log::Journal;
use rc_msg::Outbox;
use rc_node::NodeFault;
use rc_vote::Gather;

/// Whether a datacentre of the world has the shard.
fn has_shard(cluster: &Cluster, shard: ShardId) -> bool
    ensures test { result ≡ is_in_world cluster.now shard }
    ensures layout { IsLayout cluster.now }
{
    let shards = cluster.shards();
    1 <= shard.0 && shard.0 <= shards
}

/// The gather, if it waits for the shard.
fn if_waiting(gather: Gather, shard: ShardId) -> Option<Gather>
    ensures { result ≡ (if waits_for gather shard then Some gather else None) }
{
    if gather.touched().has(shard) && !gather.yes().has(shard) {
        Some(gather)
    } else {
        None
    }
}

/// The gather that waits for the shard's answer, if there is one.
fn waiting(cluster: &Cluster, tables: &Tables, tx: TxId, shard: ShardId) -> Option<Gather>
    requires { AreOf cluster.now tables.now.gathers }
    ensures gather { result ≡ option_map (by_shards cluster.now) (waiting_gather cluster.now (durable_of tables.now) (volatile_of tables.now) tx shard) }
    ensures world { IfSome result (λ _. IsTrue (is_in_world cluster.now shard)) }
{
    if !has_shard(cluster, shard) {
        return None;
    }
    if tables.outcomes.get(tx).is_some() {
        return None;
    }
    match tables.gathers.get(tx) {
        None => None,
        Some(asked) => if_waiting(asked.gather, shard),
    }
}

/// The commit for which the shards were asked.
fn commit_of(gathers: &Gathers, tx: TxId) -> Result<Decision, NoMemory>
    ensures { IfOk result (λ commit. commit ≡ commit_in gathers.now.table tx) }
{
    match gathers.get(tx) {
        None => Ok(Decision::Abort),
        Some(asked) => Ok(Decision::Commit(asked.body.copy()?)),
    }
}

/// A shard says yes, for which the gather waits. With the last yes the commit is accepted, or refused where a higher ballot was
/// promised.
fn take_yes<J: Journal>(
    home: &Home,
    store: &mut Store<J>,
    tx: TxId,
    shard: ShardId,
    gather: Gather,
    out: &mut Outbox,
) -> Result<(), NodeFault>
    requires sound { (J.state store.old.journal).failed ≡ false }
    requires world { IsTrue (is_in_world home.now.cluster shard) }
    requires waits { option_map (by_shards home.now.cluster) (waiting_gather home.now.cluster (durable_of store.old.tables) (volatile_of store.old.tables) tx shard) ≡ Some gather }
    requires fit { Fits home.now.cluster store.old.tables }
    ensures fit { Fits home.now.cluster store.new.tables }
    ensures ok { let old = site_of J.state store.old out.old in
        OnOk result (Acts old (site_of J.state store.new out.new) (coord_does old.durable (on_prepared home.now.cluster home.now.dc old.durable old.volatile tx shard None))) }
    ensures err { let old = site_of J.state store.old out.old in
        IfErr result (λ fault. Refuses fault (J.may_leave store.new.journal) old (site_of J.state store.new out.new) (coord_does old.durable (on_prepared home.now.cluster home.now.dc old.durable old.volatile tx shard None))) }
{
    let mut after = gather;
    let _said = after.answer(shard, true);
    if !after.is_complete() {
        store.tables.gathers.yes(tx, shard);
        return Ok(());
    }
    let ballot = after.ballot();
    let promise = promise_for(&store.tables.acceptor.promises, tx);
    if ballot < promise {
        let to = proposer(&home.cluster, tx, ballot);
        post_refusal(to, home.dc, tx, ballot, Reason::Promised(promise), out)?;
        store.tables.gathers.yes(tx, shard);
        return Ok(());
    }
    let commit = commit_of(&store.tables.gathers, tx)?;
    match accept(home, store, tx, ballot, &commit, out) {
        Ok(()) => {
            store.tables.gathers.yes(tx, shard);
            Ok(())
        }
        Err(fault) => Err(fault),
    }
}

/// A shard says no: who proposed is told why, or all stays as before.
fn take_no(
    home: &Home,
    tx: TxId,
    gather: Gather,
    reason: Reason,
    out: &mut Outbox,
) -> Result<(), NoMemory>
    ensures ok { OnOk result (out.new ≡ posted_all out.old (one (proposer_of home.now.cluster tx gather.ballot) (Refused tx gather.ballot home.now.dc reason))) }
    ensures err { OnErr result (out.new ≡ out.old) }
{
    let ballot = gather.ballot();
    let to = proposer(&home.cluster, tx, ballot);
    post_refusal(to, home.dc, tx, ballot, reason, out)
}

/// Takes the answer of a shard, for which the gather waits.
fn take_answer<J: Journal>(
    home: &Home,
    store: &mut Store<J>,
    tx: TxId,
    shard: ShardId,
    gather: Gather,
    reason: Option<Reason>,
    out: &mut Outbox,
) -> Result<(), NodeFault>
    requires sound { (J.state store.old.journal).failed ≡ false }
    requires world { IsTrue (is_in_world home.now.cluster shard) }
    requires waits { option_map (by_shards home.now.cluster) (waiting_gather home.now.cluster (durable_of store.old.tables) (volatile_of store.old.tables) tx shard) ≡ Some gather }
    requires fit { Fits home.now.cluster store.old.tables }
    ensures fit { Fits home.now.cluster store.new.tables }
    ensures ok { let old = site_of J.state store.old out.old in
        OnOk result (Acts old (site_of J.state store.new out.new) (coord_does old.durable (on_prepared home.now.cluster home.now.dc old.durable old.volatile tx shard reason))) }
    ensures err { let old = site_of J.state store.old out.old in
        IfErr result (λ fault. Refuses fault (J.may_leave store.new.journal) old (site_of J.state store.new out.new) (coord_does old.durable (on_prepared home.now.cluster home.now.dc old.durable old.volatile tx shard reason))) }
{
    match reason {
        None => take_yes(home, store, tx, shard, gather, out),
        Some(reason) => {
            take_no(home, tx, gather, reason, out)?;
            Ok(())
        }
    }
}

/// The row of a shard's answer: the gather that waits for it takes it in.
pub(crate) fn prepared<J: Journal>(
    home: &Home,
    store: &mut Store<J>,
    tx: TxId,
    shard: ShardId,
    reason: Option<Reason>,
    out: &mut Outbox,
) -> Result<(), NodeFault>
    requires sound { (J.state store.old.journal).failed ≡ false }
    requires fit { Fits home.now.cluster store.old.tables }
    ensures fit { Fits home.now.cluster store.new.tables }
    ensures ok { let old = site_of J.state store.old out.old in
        OnOk result (Acts old (site_of J.state store.new out.new) (coord_does old.durable (on_prepared home.now.cluster home.now.dc old.durable old.volatile tx shard reason))) }
    ensures err { let old = site_of J.state store.old out.old in
        IfErr result (λ fault. Refuses fault (J.may_leave store.new.journal) old (site_of J.state store.new out.new) (coord_does old.durable (on_prepared home.now.cluster home.now.dc old.durable old.volatile tx shard reason))) }
    ensures ignored { is_some (waiting_gather home.now.cluster (durable_of store.old.tables) (volatile_of store.old.tables) tx shard) ≡ false → IsOk result }
{
    match waiting(&home.cluster, &store.tables, tx, shard) {
        None => Ok(()),
        Some(gather) => take_answer(home, store, tx, shard, gather, reason, out),
    }
}
