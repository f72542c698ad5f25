// A coordinator.
ghost use Rattle.std.specs.Prelude.{◌≡◌, ◌≤◌, ℕ, false, true, IsTrue, IsOk, OnOk, OnErr, IfOk, IfErr};
ghost use Rattle.std.specs.Option.{option_copied};
ghost use Rattle.std.specs.Ordering.{nat_cmp};
ghost use Rattle.rc_ids.specs.Tables.{found};
ghost use Rattle.rc_ids.specs.Cluster.{is_dc as is_of_world};
ghost use Rattle.rc_ids.specs.declared.names.NodeId.TheVariants.{Coord as CoordNode};
ghost use Rattle.rc_log.specs.Journals.{with_cut};
ghost use Rattle.rc_msg.specs.Posts.{posted_all};
ghost use Rattle.rc_protocol.specs.Acts.{Came, Catches, Takes};
ghost use Rattle.rc_protocol.specs.Coordinator.{new_durable, new_volatile};
ghost use Rattle.rc_node.specs.Cores.{HasActed, HasRefused, moved, started, stops as stops_after};
ghost use Rattle.rc_coord.specs.Rows.{needs_none};
ghost use Rattle.rc_coord.specs.Sites.{act_at};

use crate::catching::catch_up;
use crate::handling::act;
use crate::home::{Home, is_dc};
use crate::overtaking::overtake;
use crate::starting::tables_of;
use crate::tables::{Store, Tables, new_tables};
use rc_body::Decision;
use rc_ids::{Ballot, Cluster, DcId, NoMemory, NodeId, Party, TxId};
use rc_log::Journal;
use rc_msg::{Msg, Outbox};
use rc_node::NodeFault;
use rc_record::CoordDurable;
use std::alloc::Global;
use std::marker::Model;

/// The coordinator of a datacentre: its tables, and the journal from which those that last are made again.
#[derive(Drop)]
pub struct Coord<J: Journal> {
    home: Home,
    store: Store<J>,
    stopped: bool,
}

impl<J: Journal> Model for Coord<J> {
    ghost use Rattle.rc_coord.specs.Sites.{CoordCore, core_of, IsSound};

    ghost Value = { CoordCore J };

    ghost view = { λ s. core_of s.home.cluster s.home.dc s.store s.stopped };

    ghost invariant = { λ s. IsSound s.home.cluster s.home.dc s.store.tables s.stopped (J.state s.store.journal).failed };
}

/// The datacentre of a coordinator of the cluster. Any other name stands for the first datacentre.
fn dc_of(node: NodeId, cluster: &Cluster) -> DcId
    ensures name { (dc : ℕ) → node ≡ CoordNode dc → IsTrue (is_of_world cluster.now dc) → result ≡ dc }
    ensures within { IsTrue (is_of_world cluster.now result) }
{
    let _count = cluster.dcs();
    match node {
        NodeId::Coord(dc) => { if is_dc(cluster, dc) { dc } else { DcId(1) } }
        NodeId::Shard(_, _) => DcId(1),
    }
}

/// Where the coordinator of this name stands.
fn home_of(alloc: Global, node: NodeId, cluster: &Cluster) -> Result<Home, NoMemory>
    ensures cluster { IfOk result (λ home. home.cluster ≡ cluster.now) }
    ensures name { IfOk result (λ home. (dc : ℕ) → node ≡ CoordNode dc → IsTrue (is_of_world cluster.now dc) → home.dc ≡ dc) }
    ensures within { IfOk result (λ home. IsTrue (is_of_world cluster.now home.dc)) }
{
    let dc = dc_of(node, cluster);
    Ok(Home {
        alloc,
        cluster: cluster.copy()?,
        dc,
    })
}

/// Whether a coordinator is stopped after the fault.
fn stops(fault: NodeFault) -> bool
    ensures { result ≡ stops_after fault }
{
    match fault {
        NodeFault::NoMemory | NodeFault::BallotsSpent => false,
        NodeFault::Failed | NodeFault::Full => true,
    }
}

impl<J: Journal> Coord<J> {
    /// A coordinator of the cluster that keeps nothing yet. At the refusal the journal comes back.
    pub fn new(
        alloc: Global,
        node: NodeId,
        cluster: &Cluster,
        journal: J,
    ) -> Result<Self, (NoMemory, J)>
        requires { (J.state journal).failed ≡ false }
        ensures ok { IfOk result (λ coord. (dc : ℕ) → node ≡ CoordNode dc → IsTrue (is_of_world cluster.now dc) → coord ≡ started cluster.now dc new_durable new_volatile journal) }
        ensures err { IfErr result (λ refusal. refusal.1 ≡ journal) }
    {
        match home_of(alloc, node, cluster) {
            Ok(home) => Ok(Coord {
                home,
                store: Store {
                    tables: new_tables(alloc, cluster),
                    journal,
                },
                stopped: false,
            }),
            Err(fault) => Err((fault, journal)),
        }
    }

    /// A coordinator of the cluster that starts from what its log gave back, and has nothing that a stop loses. At the refusal the
    /// journal comes back.
    pub fn restart(
        alloc: Global,
        node: NodeId,
        cluster: &Cluster,
        journal: J,
        durable: CoordDurable,
    ) -> Result<Self, (NoMemory, J)>
        requires { (J.state journal).failed ≡ false }
        ensures ok { IfOk result (λ coord. (dc : ℕ) → node ≡ CoordNode dc → IsTrue (is_of_world cluster.now dc) → coord ≡ started cluster.now dc durable new_volatile journal) }
        ensures err { IfErr result (λ refusal. refusal.1 ≡ journal) }
    {
        let tables = match tables_of(alloc, cluster, durable) {
            Ok(tables) => tables,
            Err(fault) => return Err((fault, journal)),
        };
        match home_of(alloc, node, cluster) {
            Ok(home) => Ok(Coord {
                home,
                store: Store { tables, journal },
                stopped: false,
            }),
            Err(fault) => Err((fault, journal)),
        }
    }

    /// Whether the coordinator is stopped. The journal of one that is not stopped has not failed.
    pub fn stopped(&self) -> bool
        ensures stopped { result ≡ self.now.stopped }
        ensures sound { result ≡ false → (J.state self.now.journal).failed ≡ false }
    {
        self.stopped
    }

    /// How many records its journal has.
    pub fn count(&self) -> u64
        ensures { result ≡ (J.state self.now.journal).count }
    {
        self.store.journal.count()
    }

    /// What was accepted last of the transaction, with its ballot.
    pub fn accepted(&self, tx: TxId) -> Option<&(Ballot, Decision)>
        ensures { option_copied result ≡ found nat_cmp self.now.durable.accepted tx }
    {
        self.store.tables.acceptor.accepted.get(tx)
    }

    /// Asks each other coordinator for the outcomes that come after those that were caught up with; or leaves all as before.
    pub fn catch(&mut self, out: &mut Outbox) -> Result<(), NoMemory>
        ensures same { self.new ≡ self.old }
        ensures ok { OnOk result (out.new ≡ posted_all out.old (act_at self.old Catches).sends) }
        ensures err { OnErr result (out.new ≡ out.old) }
    {
        catch_up(&self.home, &self.store.tables.places, out)
    }

    /// The journal, also of a stopped coordinator.
    pub fn into_journal(self) -> J
        ensures { result ≡ self.journal }
    {
        let store = self.store;
        store.journal
    }

    /// Arms a cut of the power of the journal's disk at the k-th call from now.
    pub fn power_cut(&mut self, k: u64, pick: u8)
        requires up { self.old.stopped ≡ false }
        requires call { 1 ≤ k }
        requires pick { pick ≤ 3 }
        ensures core { self.new ≡ moved self.old self.old.durable self.old.volatile self.new.journal false }
        ensures armed { J.state self.new.journal ≡ with_cut k pick (J.state self.old.journal) }
    {
        self.store.journal.power_cut(k, pick);
    }

    /// Does what this coordinator does at a message: its record is in the journal before its state changes and before anything is sent.
    /// After a fault the state and the outbox are as before; after `Failed` or `Full` the coordinator is stopped, and after `NoMemory` or
    /// `BallotsSpent` it goes on. A message that it ignores takes no memory.
    pub fn handle(&mut self, from: Party, msg: &Msg, out: &mut Outbox) -> Result<(), NodeFault>
        requires { self.old.stopped ≡ false }
        ensures ok { OnOk result (HasActed J.state self.old self.new out.old out.new (act_at self.old (Came from msg.now))) }
        ensures err { IfErr result (λ fault. HasRefused J.state J.may_leave fault self.old self.new out.old out.new (act_at self.old (Came from msg.now))) }
        ensures ignored { needs_none self.old.cluster self.old.name self.old.durable self.old.volatile msg.now ≡ true → IsOk result }
    {
        match act(&self.home, &mut self.store, from, msg, out) {
            Ok(()) => Ok(()),
            Err(fault) => {
                self.stopped = stops(fault);
                Err(fault)
            }
        }
    }

    /// Takes the transaction over eagerly: its promise at the least own ballot above it is in the journal before anything is sent, and
    /// all coordinators are asked. Of one that is decided the client is told the outcome. After a fault the state and the outbox are as
    /// before; after `Failed` or `Full` the coordinator is stopped. `BallotsSpent` says that no ballot is left, and `NoMemory` that there
    /// was no memory; after both it goes on.
    pub fn take(&mut self, tx: TxId, out: &mut Outbox) -> Result<(), NodeFault>
        requires { self.old.stopped ≡ false }
        ensures ok { OnOk result (HasActed J.state self.old self.new out.old out.new (act_at self.old (Takes tx))) }
        ensures err { IfErr result (λ fault. HasRefused J.state J.may_leave fault self.old self.new out.old out.new (act_at self.old (Takes tx))) }
    {
        match overtake(&self.home, &mut self.store, tx, true, out) {
            Ok(()) => Ok(()),
            Err(fault) => {
                self.stopped = stops(fault);
                Err(fault)
            }
        }
    }
}
