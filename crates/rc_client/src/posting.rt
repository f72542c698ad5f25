// What a client sends.
ghost use Rattle.std.specs.Prelude.{◌≡◌, [], OnOk, if◌then◌else◌};
ghost use Rattle.std.specs.Ordering.{nat_cmp};
ghost use Rattle.rc_ids.specs.Tables.{member, maybe};
ghost use Rattle.rc_ids.specs.Cluster.{shard_of, home};
ghost use Rattle.rc_body.specs.declared.decision.Decision.TheVariants.{Commit};
ghost use Rattle.rc_msg.specs.Posts.{posted_all, Grows};
ghost use Rattle.rc_msg.specs.declared.msg.Msg.TheVariants.{ReadAsk, ReadCancel, Propose, Abandon};
ghost use Rattle.rc_protocol.specs.Messages.{to_all, one, coordinator, shard_server};
ghost use Rattle.rc_protocol.specs.Client.{slot_of, asks_all, asks_rest, asks_again};
ghost use Rattle.rc_client.specs.Shares.{to_shards};

use crate::slot::Slot;
use crate::slots::Slots;
use rc_body::{Body, Decision};
use rc_ids::{Ballot, Cluster, DcId, DcSet, Key, NoMemory, NodeId, Party, ShardId, TxId};
use rc_msg::{Msg, Outbox};
use std::collections::BTreeSet;

/// Sends the message to a shard of the datacentre, unless that is in the set.
fn post_to_shard(
    dc: DcId,
    shard: ShardId,
    except: DcSet,
    msg: &Msg,
    out: &mut Outbox,
) -> Result<(), NoMemory>
    ensures ok { OnOk result (out.new ≡ posted_all out.old (if member nat_cmp except dc then [] else one (shard_server dc shard) msg.now)) }
    ensures grows { Grows out.old out.new }
{
    if except.has(dc) {
        return Ok(());
    }
    out.push(Party::Node(NodeId::Shard(dc, shard)), msg)
}

/// Sends the message to a shard of each datacentre that is not in the set.
fn post_to_shards(
    cluster: &Cluster,
    shard: ShardId,
    except: DcSet,
    msg: &Msg,
    out: &mut Outbox,
) -> Result<(), NoMemory>
    ensures ok { OnOk result (out.new ≡ posted_all out.old (to_shards cluster.now shard except msg.now)) }
    ensures grows { Grows out.old out.new }
{
    for place in 0..cluster.dcs() {
        post_to_shard(DcId(place + 1), shard, except, msg, out)?;
    }
    Ok(())
}

/// Asks the key's shard of each datacentre that is not in the set for the key.
pub(crate) fn post_ask(
    cluster: &Cluster,
    tx: TxId,
    key: &Key,
    except: DcSet,
    out: &mut Outbox,
) -> Result<(), NoMemory>
    ensures ok { OnOk result (out.new ≡ posted_all out.old (to_shards cluster.now (shard_of cluster.now key.now) except (ReadAsk tx key.now))) }
    ensures grows { Grows out.old out.new }
{
    let msg = Msg::ReadAsk(tx, key.copy());
    post_to_shards(cluster, cluster.shard_of(key), except, &msg, out)
}

/// Tells the key's shard of each datacentre that is not in the set that the key is no longer wanted.
pub(crate) fn post_cancel(
    cluster: &Cluster,
    tx: TxId,
    key: &Key,
    except: DcSet,
    out: &mut Outbox,
) -> Result<(), NoMemory>
    ensures ok { OnOk result (out.new ≡ posted_all out.old (to_shards cluster.now (shard_of cluster.now key.now) except (ReadCancel tx key.now))) }
    ensures grows { Grows out.old out.new }
{
    let msg = Msg::ReadCancel(tx, key.copy());
    post_to_shards(cluster, cluster.shard_of(key), except, &msg, out)
}

/// Asks for each of the keys.
pub(crate) fn post_asks(
    cluster: &Cluster,
    tx: TxId,
    keys: BTreeSet<Key>,
    out: &mut Outbox,
) -> Result<(), NoMemory>
    ensures ok { OnOk result (out.new ≡ posted_all out.old (asks_all cluster.now tx keys.keys)) }
    ensures grows { Grows out.old out.new }
{
    for key in keys {
        post_ask(cluster, tx, &key, DcSet::new(), out)?;
    }
    Ok(())
}

/// Sends the message to the coordinator of each datacentre.
fn post_to_all(cluster: &Cluster, msg: &Msg, out: &mut Outbox) -> Result<(), NoMemory>
    ensures ok { OnOk result (out.new ≡ posted_all out.old (to_all cluster.now msg.now)) }
    ensures grows { Grows out.old out.new }
{
    for place in 0..cluster.dcs() {
        out.push(Party::Node(NodeId::Coord(DcId(place + 1))), msg)?;
    }
    Ok(())
}

/// Proposes the commit of the body at ballot 0.
pub(crate) fn post_proposal(
    cluster: &Cluster,
    tx: TxId,
    body: Body,
    out: &mut Outbox,
) -> Result<(), NoMemory>
    ensures ok { OnOk result (out.new ≡ posted_all out.old (to_all cluster.now (Propose tx 0 (Commit body)))) }
    ensures grows { Grows out.old out.new }
{
    let proposal = Msg::Propose(tx, Ballot(0), Decision::Commit(body));
    post_to_all(cluster, &proposal, out)
}

/// Gives the transaction up at its home, or leaves all as before.
pub(crate) fn post_abandon(cluster: &Cluster, tx: TxId, out: &mut Outbox) -> Result<(), NoMemory>
    ensures ok { OnOk result (out.new ≡ posted_all out.old (one (coordinator (home cluster.now tx)) (Abandon tx))) }
    ensures grows { Grows out.old out.new }
{
    let home = NodeId::Coord(cluster.home(tx));
    out.push(Party::Node(home), &Msg::Abandon(tx))
}

/// Asks each datacentre that did not grant the read of the slot.
fn post_rest(cluster: &Cluster, tx: TxId, slot: &Slot, out: &mut Outbox) -> Result<(), NoMemory>
    ensures ok { OnOk result (out.new ≡ posted_all out.old (asks_rest cluster.now tx slot.now)) }
    ensures grows { Grows out.old out.new }
{
    post_ask(cluster, tx, slot.key(), slot.granted_by(), out)
}

/// Asks for the key again, where it was touched.
fn post_again(
    cluster: &Cluster,
    tx: TxId,
    slots: &Slots,
    key: &Key,
    out: &mut Outbox,
) -> Result<(), NoMemory>
    ensures ok { OnOk result (out.new ≡ posted_all out.old (maybe (slot_of slots.now key.now) [] (asks_rest cluster.now tx))) }
    ensures grows { Grows out.old out.new }
{
    match slots.get(key) {
        Some(slot) => post_rest(cluster, tx, slot, out),
        None => Ok(()),
    }
}

/// Asks for each of the keys again.
pub(crate) fn post_asks_again(
    cluster: &Cluster,
    tx: TxId,
    slots: &Slots,
    keys: BTreeSet<Key>,
    out: &mut Outbox,
) -> Result<(), NoMemory>
    ensures ok { OnOk result (out.new ≡ posted_all out.old (asks_again cluster.now tx slots.now keys.keys)) }
    ensures grows { Grows out.old out.new }
{
    for key in keys {
        post_again(cluster, tx, slots, &key, out)?;
    }
    Ok(())
}
