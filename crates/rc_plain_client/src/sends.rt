// What a client sends.
ghost use Rattle.std.specs.Prelude.{◌≡◌, [], ◌++◌, OnOk, if◌then◌else◌};
ghost use Rattle.std.specs.Ordering.{nat_cmp};
ghost use Rattle.rc_ids.specs.Tables.{member, maybe};
ghost use Rattle.rc_ids.specs.Cluster.{shard_of, home};
ghost use Rattle.rc_body.specs.declared.decision.Decision.TheVariants.{Commit};
ghost use Rattle.rc_msg.specs.declared.msg.Msg.TheVariants.{ReadCancel, Propose, Abandon};
ghost use Rattle.rc_protocol.specs.Messages.{to_all, to_each, one, coordinator, shard_server};
ghost use Rattle.rc_protocol.specs.Client.{slot_of, asks, asks_all, asks_rest, asks_again, cancels};

use crate::grant::Grants;
use crate::slot::Slot;
use crate::slots::Slots;
use rc_body::{Body, Decision};
use rc_ids::{Ballot, Cluster, DcId, DcSet, Key, NoMemory, NodeId, Party, ShardId, TxId};
use rc_msg::{Messages, Msg};
use std::collections::BTreeSet;

/// Sends the message to a shard of each datacentre.
fn send_to_shard(
    cluster: &Cluster,
    shard: ShardId,
    msg: &Msg,
    out: &mut Messages,
) -> Result<(), NoMemory>
    ensures { OnOk result (out.new ≡ out.old ++ to_each cluster.now.dcs (λ d. one (shard_server d shard) msg.now)) }
{
    for place in 0..cluster.dcs() {
        let server = NodeId::Shard(DcId(place + 1), shard);
        out.push(Party::Node(server), msg)?;
    }
    Ok(())
}

/// Asks the key's shard of each datacentre for the key.
pub fn ask(cluster: &Cluster, tx: TxId, key: &Key, out: &mut Messages) -> Result<(), NoMemory>
    ensures { OnOk result (out.new ≡ out.old ++ asks cluster.now tx key.now) }
{
    let msg = Msg::ReadAsk(tx, key.copy());
    send_to_shard(cluster, cluster.shard_of(key), &msg, out)
}

/// Asks for each of the keys.
pub fn ask_all(
    cluster: &Cluster,
    tx: TxId,
    keys: BTreeSet<Key>,
    out: &mut Messages,
) -> Result<(), NoMemory>
    ensures { OnOk result (out.new ≡ out.old ++ asks_all cluster.now tx keys.keys) }
{
    for key in keys {
        ask(cluster, tx, &key, out)?;
    }
    Ok(())
}

/// Sends the message to a shard of each datacentre that is not in the set.
fn send_to_others(
    cluster: &Cluster,
    shard: ShardId,
    granted: DcSet,
    msg: &Msg,
    out: &mut Messages,
) -> Result<(), NoMemory>
    ensures { OnOk result (out.new ≡ out.old ++ to_each cluster.now.dcs
        (λ d. if member nat_cmp granted d then [] else one (shard_server d shard) msg.now)) }
{
    for place in 0..cluster.dcs() {
        let dc = DcId(place + 1);
        if !granted.has(dc) {
            out.push(Party::Node(NodeId::Shard(dc, shard)), msg)?;
        }
    }
    Ok(())
}

/// Tells the key's shard of each datacentre that did not grant that the key is no longer wanted.
pub fn cancel(
    cluster: &Cluster,
    tx: TxId,
    key: &Key,
    grants: &Grants,
    out: &mut Messages,
) -> Result<(), NoMemory>
    ensures { OnOk result (out.new ≡ out.old ++ cancels cluster.now tx key.now grants.now) }
{
    let msg = Msg::ReadCancel(tx, key.copy());
    send_to_others(
        cluster,
        cluster.shard_of(key),
        grants.granted_by(),
        &msg,
        out,
    )
}

/// Sends the message to the coordinator of each datacentre.
fn send_all(cluster: &Cluster, msg: &Msg, out: &mut Messages) -> Result<(), NoMemory>
    ensures { OnOk result (out.new ≡ out.old ++ to_all cluster.now msg.now) }
{
    for place in 0..cluster.dcs() {
        let coordinator = NodeId::Coord(DcId(place + 1));
        out.push(Party::Node(coordinator), msg)?;
    }
    Ok(())
}

/// Proposes the commit of the body at ballot 0.
pub fn send_proposal(
    cluster: &Cluster,
    tx: TxId,
    body: Body,
    out: &mut Messages,
) -> Result<(), NoMemory>
    ensures { OnOk result (out.new ≡ out.old ++ to_all cluster.now (Propose tx 0 (Commit body))) }
{
    let proposal = Msg::Propose(tx, Ballot(0), Decision::Commit(body));
    send_all(cluster, &proposal, out)
}

/// Gives the transaction up at its home.
pub fn abandon(cluster: &Cluster, tx: TxId, out: &mut Messages) -> Result<(), NoMemory>
    ensures { OnOk result (out.new ≡ out.old ++ one (coordinator (home cluster.now tx)) (Abandon tx)) }
{
    let home = NodeId::Coord(cluster.home(tx));
    out.push(Party::Node(home), &Msg::Abandon(tx))
}

/// Tells the key's shard of each datacentre that the key is no longer wanted.
pub fn cancel_all(
    cluster: &Cluster,
    tx: TxId,
    key: &Key,
    out: &mut Messages,
) -> Result<(), NoMemory>
    ensures { OnOk result (out.new ≡ out.old ++ to_each cluster.now.dcs (λ d. one (shard_server d (shard_of cluster.now key.now)) (ReadCancel tx key.now))) }
{
    let msg = Msg::ReadCancel(tx, key.copy());
    send_to_shard(cluster, cluster.shard_of(key), &msg, out)
}

/// Asks the key's shard of each datacentre that did not grant the read of the slot.
fn ask_rest(cluster: &Cluster, tx: TxId, slot: &Slot, out: &mut Messages) -> Result<(), NoMemory>
    ensures { OnOk result (out.new ≡ out.old ++ asks_rest cluster.now tx slot.now) }
{
    let key = slot.key();
    let msg = Msg::ReadAsk(tx, key.copy());
    send_to_others(cluster, cluster.shard_of(key), slot.granted_by(), &msg, out)
}

/// Asks for the key again, where it was touched.
fn ask_key(
    cluster: &Cluster,
    tx: TxId,
    slots: &Slots,
    key: &Key,
    out: &mut Messages,
) -> Result<(), NoMemory>
    ensures { OnOk result (out.new ≡ out.old ++ maybe (slot_of slots.now key.now) [] (asks_rest cluster.now tx)) }
{
    match slots.get(key) {
        Some(slot) => ask_rest(cluster, tx, slot, out),
        None => Ok(()),
    }
}

/// Asks for each of the keys again.
pub fn ask_rests(
    cluster: &Cluster,
    tx: TxId,
    slots: &Slots,
    keys: BTreeSet<Key>,
    out: &mut Messages,
) -> Result<(), NoMemory>
    ensures { OnOk result (out.new ≡ out.old ++ asks_again cluster.now tx slots.now keys.keys) }
{
    for key in keys {
        ask_key(cluster, tx, slots, &key, out)?;
    }
    Ok(())
}
