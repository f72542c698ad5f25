// What a node is to its host.
ghost use Rattle.std.specs.Prelude.{◌≡◌, ◌≢◌, ◌≤◌, ℕ, List, false, Result, Ok, Err, OnOk, IfOk, IfErr, IfSome, IsOkAnd};
ghost use Rattle.rc_ids.specs.declared.names.NodeId.{NodeId as NodeName};
ghost use Rattle.rc_ids.specs.Cluster.{Layout};
ghost use Rattle.rc_log.specs.Journals.{with_cut};
ghost use Rattle.rc_record.specs.declared.fault.ReplayFault.{ReplayFault};
ghost use Rattle.rc_record.specs.declared.fault.ReplayFault.TheVariants.{NoMemory as OutOfMemory};
ghost use Rattle.rc_record.specs.Spelling.{HasRecord};
ghost use Rattle.rc_protocol.specs.Acts.{NodeCause};
ghost use Rattle.rc_node.specs.Cores.{HasActed, HasRefused, moved, started};
ghost use Rattle.rc_host.specs.AnyNode.{AnyNode, NodeDurable, new_volatile, act_of, node_act};
ghost use Rattle.rc_host.specs.Begins.{BeginLaws};
ghost use Rattle.rc_host.specs.Causes.{cause_of};
ghost use Rattle.rc_host.specs.Standing.{Standing};
ghost use Rattle.rc_host.specs.Hosts.{AreLogged};

use rc_ids::{Blobs, Cluster, NoMemory, NodeId, Party, TxId};
use rc_log::Journal;
use rc_msg::{Msg, Outbox};
use rc_node::NodeFault;
use rc_record::ReplayFault;
use std::alloc::Global;

/// What moves a node.
#[derive(Clone, Copy)]
pub enum Cause<'a> {
    /// A message comes from this party.
    Came(Party, &'a Msg),
    /// It asks for the outcomes that come after those that it caught up with.
    Catches,
    /// It takes the transaction over. Coordinators alone do.
    Takes(TxId),
}

/// A node of either kind, on a journal.
pub trait Node<J: Journal>: Drop {
    /// What its log gives back.
    type Durable: Drop;

    ghost seen: { Self → AnyNode J };

    // What a node has that starts from this.
    ghost gives: { Self.Durable → NodeDurable };

    // These records of a log give back the state.
    ghost back: { NodeName → Layout → List (List ℕ) → NodeDurable → Type 0 };

    // A node of this name in this cluster is of this kind.
    ghost is_kind: { NodeName → Layout → Type 0 };

    /// A node that starts from what its log gave back, and has nothing that a stop loses. At the refusal the journal comes back.
    fn restart(
        alloc: Global,
        node: NodeId,
        cluster: &Cluster,
        journal: J,
        durable: Self::Durable,
    ) -> Result<Self, (NoMemory, J)>
        requires kind { is_kind node cluster.now }
        requires sound { (J.state journal).failed ≡ false }
        ensures ok { IfOk result (λ x. seen x ≡ started cluster.now node (gives durable) (new_volatile (gives durable)) journal) }
        ensures err { IfErr result (λ refusal. refusal.1 ≡ journal) };

    /// Does what the node does at the cause. After a fault its states and the outbox are as before.
    fn act(&mut self, cause: &Cause<'_>, out: &mut Outbox) -> Result<(), NodeFault>
        requires { (seen self.old).stopped ≡ false }
        ensures ok { OnOk result (HasActed J.state (seen self.old) (seen self.new) out.old out.new (act_of (seen self.old) (cause_of cause.now))) }
        ensures err { IfErr result (λ fault. HasRefused J.state J.may_leave fault (seen self.old) (seen self.new) out.old out.new (act_of (seen self.old) (cause_of cause.now))) };

    /// Whether the node is stopped. The journal of one that is not stopped has not failed.
    fn stopped(&self) -> bool
        ensures stopped { result ≡ (seen self.now).stopped }
        ensures sound { result ≡ false → (J.state (seen self.now).journal).failed ≡ false };

    /// The journal, also of a stopped node.
    fn into_journal(self) -> J
        ensures { result ≡ (seen self).journal };

    /// Arms a cut of the power of the journal's disk at the k-th call from now.
    fn power_cut(&mut self, k: u64, pick: u8)
        requires up { (seen self.old).stopped ≡ false }
        requires call { 1 ≤ k }
        requires pick { pick ≤ 3 }
        ensures node { seen self.new ≡ moved (seen self.old) (seen self.old).durable (seen self.old).volatile (seen self.new).journal false }
        ensures armed { J.state (seen self.new).journal ≡ with_cut k pick (J.state (seen self.old).journal) };

    /// An act's record that has a spelling is logged.
    fn logged_acts()
        ensures { (node : NodeName) (c : Layout) (x : Standing) (cause : NodeCause) → let act = node_act c node x.durable x.volatile cause in IfSome act.logs HasRecord → AreLogged (back node c) x act };

    // What a replay of these records gives.
    ghost replayed: { NodeName → Layout → List (List ℕ) → Result Self.Durable ReplayFault };

    /// What the node's log gives back, or the first record that is refused.
    fn replay(
        alloc: Global,
        node: NodeId,
        cluster: &Cluster,
        blobs: &Blobs,
    ) -> Result<Self::Durable, ReplayFault>
        ensures ok { IfOk result (λ durable. replayed node cluster.now blobs.now ≡ Ok durable) }
        ensures err { IfErr result (λ e. e ≢ OutOfMemory → replayed node cluster.now blobs.now ≡ Err e) };

    // Records that give a state back are not refused.
    ghost gives_back: { (node : NodeName) (c : Layout) (blobs : List (List ℕ)) (s : NodeDurable) → back node c blobs s → IsOkAnd (replayed node c blobs) (λ durable. gives durable ≡ s) };

    // What the log of a node that begins gives it.
    ghost begins: { (node : NodeName) (c : Layout) → is_kind node c → BeginLaws gives replayed back node c };
}
