// A shard server.
ghost use Rattle.std.specs.Prelude.{◌≡◌, ◌≤◌, ℕ, false, true, Err, IsOk, OnOk, OnErr, IfOk, IfErr};
ghost use Rattle.rc_ids.specs.declared.names.NodeId.TheVariants.{Shard as ShardServer};
ghost use Rattle.rc_log.specs.Journals.{with_cut};
ghost use Rattle.rc_msg.specs.Posts.{posted_all};
ghost use Rattle.rc_record.specs.InOrder.{shown};
ghost use Rattle.rc_protocol.specs.Acts.{Came, Catches};
ghost use Rattle.rc_protocol.specs.Shard.{new_durable, new_volatile, holder as holder_of};
ghost use Rattle.rc_node.specs.Cores.{HasActed, HasRefused, moved, started, stops as stops_after};
ghost use Rattle.rc_node.specs.declared.fault.NodeFault.TheVariants.{BallotsSpent};
ghost use Rattle.rc_shard.specs.Rows.{needs_none};
ghost use Rattle.rc_shard.specs.Sites.{act_at, shard_name};

use crate::answering::post_ask;
use crate::handling::act;
use crate::home::Home;
use crate::starting::tables_of;
use crate::tables::Tables;
use rc_ids::{Cluster, DcId, Key, NoMemory, NodeId, Party, ShardId, TxId};
use rc_locks::{LockTable, Locks, Prepared};
use rc_log::Journal;
use rc_msg::{Msg, Outbox};
use rc_node::NodeFault;
use rc_record::ShardDurable;
use rc_versions::Rows;
use std::alloc::Global;
use std::marker::Model;

/// A shard server: its tables, and the journal from which they are made again.
#[derive(Drop)]
pub struct Shard<J: Journal, L: LockTable = Locks> {
    home: Home,
    tables: Tables<L>,
    journal: J,
    stopped: bool,
}

impl<J: Journal, L: LockTable> Model for Shard<J, L> {
    ghost use Rattle.std.specs.Prelude.{◌≡◌, false};
    ghost use Rattle.rc_shard.specs.Sites.{ShardCore, core_of};

    ghost Value = { ShardCore J };

    ghost view = { λ s. core_of L.state s.home s.tables s.journal s.stopped };

    ghost invariant = { λ s. s.stopped ≡ false → (J.state s.journal).failed ≡ false };
}

/// The datacentre and the number of a shard server.
fn name_of(node: NodeId) -> (DcId, ShardId)
    ensures { (dc shard : ℕ) → node ≡ ShardServer dc shard → result ≡ (dc, shard) }
{
    match node {
        NodeId::Shard(dc, shard) => (dc, shard),
        NodeId::Coord(dc) => (dc, ShardId(1)),
    }
}

/// Where the shard server of this name stands.
fn home_of(alloc: Global, node: NodeId, cluster: &Cluster) -> Result<Home, NoMemory>
    ensures cluster { IfOk result (λ home. home.cluster ≡ cluster.now) }
    ensures name { IfOk result (λ home. (dc shard : ℕ) → node ≡ ShardServer dc shard → shard_name home.dc home.shard ≡ shard_name dc shard) }
{
    let (dc, shard) = name_of(node);
    Ok(Home {
        alloc,
        cluster: cluster.copy()?,
        dc,
        shard,
    })
}

/// Whether a server is stopped after the fault.
fn stops(fault: NodeFault) -> bool
    ensures { result ≡ stops_after fault }
{
    match fault {
        NodeFault::NoMemory | NodeFault::BallotsSpent => false,
        NodeFault::Failed | NodeFault::Full => true,
    }
}

impl<J: Journal, L: LockTable> Shard<J, L> {
    /// A shard server that keeps nothing yet. At the refusal the journal comes back.
    pub fn new(
        alloc: Global,
        node: NodeId,
        cluster: &Cluster,
        journal: J,
    ) -> Result<Self, (NoMemory, J)>
        requires { (J.state journal).failed ≡ false }
        ensures ok { IfOk result (λ server. (dc shard : ℕ) → node ≡ ShardServer dc shard → server ≡ started cluster.now (shard_name dc shard) new_durable new_volatile journal) }
        ensures err { IfErr result (λ refusal. refusal.1 ≡ journal) }
    {
        match home_of(alloc, node, cluster) {
            Ok(home) => Ok(Shard {
                home,
                tables: Tables::new(alloc),
                journal,
                stopped: false,
            }),
            Err(fault) => Err((fault, journal)),
        }
    }

    /// A shard server that starts from what its log gave back, and has nothing that a stop loses. At the refusal the journal comes back.
    pub fn restart(
        alloc: Global,
        node: NodeId,
        cluster: &Cluster,
        journal: J,
        durable: ShardDurable,
    ) -> Result<Self, (NoMemory, J)>
        requires { (J.state journal).failed ≡ false }
        ensures ok { IfOk result (λ server. (dc shard : ℕ) → node ≡ ShardServer dc shard → server ≡ started cluster.now (shard_name dc shard) (shown durable) new_volatile journal) }
        ensures err { IfErr result (λ refusal. refusal.1 ≡ journal) }
    {
        let tables = match tables_of(alloc, durable) {
            Ok(tables) => tables,
            Err(fault) => return Err((fault, journal)),
        };
        match home_of(alloc, node, cluster) {
            Ok(home) => Ok(Shard {
                home,
                tables,
                journal,
                stopped: false,
            }),
            Err(fault) => Err((fault, journal)),
        }
    }

    /// Whether the server is stopped. The journal of one that is not stopped has not failed.
    pub fn stopped(&self) -> bool
        ensures stopped { result ≡ self.now.stopped }
        ensures sound { result ≡ false → (J.state self.now.journal).failed ≡ false }
    {
        self.stopped
    }

    /// Asks the coordinator for the outcomes that come after those that were caught up with; or leaves all as before.
    pub fn catch(&mut self, out: &mut Outbox) -> Result<(), NoMemory>
        ensures same { self.new ≡ self.old }
        ensures ok { OnOk result (out.new ≡ posted_all out.old (act_at self.old Catches).sends) }
        ensures err { OnErr result (out.new ≡ out.old) }
    {
        post_ask(self.home.dc, Some(self.tables.place), out)
    }

    /// The journal, also of a stopped server.
    pub fn into_journal(self) -> J
        ensures { result ≡ self.journal }
    {
        self.journal
    }

    /// Arms a cut of the power of the journal's disk at the k-th call from now.
    pub fn power_cut(&mut self, k: u64, pick: u8)
        requires up { self.old.stopped ≡ false }
        requires call { 1 ≤ k }
        requires pick { pick ≤ 3 }
        ensures core { self.new ≡ moved self.old self.old.durable self.old.volatile self.new.journal false }
        ensures armed { J.state self.new.journal ≡ with_cut k pick (J.state self.old.journal) }
    {
        self.journal.power_cut(k, pick);
    }

    /// The keys that were written, with their versions and values, in the order of the keys.
    pub fn rows(&self) -> Rows<'_>
        ensures { result ≡ self.now.durable.rows }
    {
        self.tables.versions.rows()
    }

    /// Who holds the key exclusively: the least transaction whose prepared part writes it.
    pub fn holder(&self, key: &Key) -> Option<TxId>
        ensures { result ≡ holder_of self.now.durable.parts key.now }
    {
        self.tables.locks.holder(key)
    }

    /// The transactions that are prepared here, each with its part, in the order of the transactions.
    pub fn parts(&self) -> &[Prepared]
        ensures { result.now ≡ self.now.durable.parts }
    {
        self.tables.locks.parts()
    }

    /// Does what this shard server does at a message: its record is in the journal before its state changes and before anything is
    /// sent. After a fault the state and the outbox are as before, and after `Failed` or `Full` the server is stopped. A message that it
    /// ignores takes no memory.
    pub fn handle(&mut self, from: Party, msg: &Msg, out: &mut Outbox) -> Result<(), NodeFault>
        requires { self.old.stopped ≡ false }
        ensures ok { OnOk result (HasActed J.state self.old self.new out.old out.new (act_at self.old (Came from msg.now))) }
        ensures err { IfErr result (λ fault. HasRefused J.state J.may_leave fault self.old self.new out.old out.new (act_at self.old (Came from msg.now))) }
        ensures ignored { needs_none self.old.cluster self.old.durable self.old.volatile msg.now ≡ true → IsOk result }
        ensures no_ballots { ¬ (result ≡ Err BallotsSpent) }
    {
        let _sender = from;
        match act(&self.home, &mut self.tables, &mut self.journal, msg, out) {
            Ok(()) => Ok(()),
            Err(fault) => {
                self.stopped = stops(fault);
                Err(fault)
            }
        }
    }
}
