// A client.
ghost use Rattle.std.specs.Prelude.{◌≡◌, ◌<◌, [], ◌∷◌, ◌++◌, ◌==◌, ◌&&◌, true, false, length, None, Some, OnOk, IsErrOf, if◌then◌else◌};
ghost use Rattle.rc_ids.specs.Cluster as cluster_spec;
ghost use Rattle.rc_protocol.specs.Client.{new_client, slot_of, do_read, do_write, do_commit, do_cancel, do_retry, do_vanish, client_row, drops_read, proposes_again, asks_again, waiting_keys, is_proposed, reads_on, asks_new, reads_slot, proposes, proposes_once_read, on_granted, on_voted, on_refused, on_decided, client_learns, gives_up, KeyWornOut as IsWornOut};
ghost use Rattle.rc_protocol.specs.Client as client_spec;
ghost use Rattle.rc_plain_client.specs.Acts.{Says, Does, completes_at};
ghost use Rattle.rc_plain_client.specs.Phases.{phase_of};
ghost use Rattle.rc_plain_client.specs.Slots.{waits_at};
ghost use Rattle.rc_report.specs.declared.line.Line.TheVariants.{Read as ReadLine};
ghost use Rattle.rc_plain_client.specs.declared.fault.ClientFault.TheVariants.{KeyWornOut};

use crate::fault::ClientFault;
use crate::grant::{Grant, Grants, copied_value};
use crate::phase::Phase;
use crate::read::KeyRead;
use crate::sends::{abandon, ask, ask_all, ask_rests, cancel, cancel_all, send_proposal};
use crate::slot::Slot;
use crate::slots::Slots;
use rc_ballots::Standings;
use rc_body::{Decision, Reason};
use rc_ids::{Ballot, Cluster, DcId, DcSet, Key, NoMemory, TxId, Val, Version};
use rc_msg::{Messages, Msg};
use rc_report::{Line, Lines};
use std::alloc::Global;
use std::marker::Model;

/// The client of one transaction.
#[derive(Drop)]
pub struct Client {
    phase: Phase,
    slots: Slots,
    refusals: DcSet,
    votes: Standings,
    outcome: Option<Decision>,
}

impl Model for Client {
    ghost use Rattle.rc_protocol.specs.Client.{Client as ClientState};
    ghost use Rattle.rc_plain_client.specs.Phases.{phase_of};
    ghost use Rattle.rc_plain_client.specs.Lasting.{IsLasting};

    ghost Value = { ClientState };

    ghost view = { λ c. record { phase = phase_of c.phase; slots = c.slots; refusals = c.refusals; votes = c.votes; outcome = c.outcome } };

    ghost invariant = { λ c. IsLasting (phase_of c.phase) c.slots };
}

/// Whether the datacentre is of the world.
fn is_dc(cluster: &Cluster, dc: DcId) -> bool
    ensures { result ≡ cluster_spec.is_dc cluster.now dc }
{
    1 <= dc.0 && dc.0 <= cluster.dcs()
}

/// Whether a message is of this transaction, and of a datacentre of the world.
fn concerns(cluster: &Cluster, tx: TxId, of: TxId, dc: DcId) -> bool
    ensures { result ≡ ((of == tx) && cluster_spec.is_dc cluster.now dc) }
{
    of == tx && is_dc(cluster, dc)
}

/// Prints the line at the end of a key's read, if one is wanted.
fn print_end(
    tx: TxId,
    key: &Key,
    prints: bool,
    version: Version,
    value: &Option<Val>,
    lines: &mut Lines,
) -> Result<(), NoMemory>
    ensures { OnOk result (lines.new ≡ lines.old ++ (if prints then ReadLine tx key.now version value.now ∷ [] else [])) }
{
    if prints {
        let value = copied_value(value)?;
        lines.push(Line::Read(tx, key.copy(), version, value))?;
    }
    Ok(())
}

impl Client {
    /// A client that did nothing yet.
    pub fn new(alloc: Global) -> Client
        ensures { result ≡ new_client }
    {
        Client {
            phase: Phase::Open,
            slots: Slots::new(alloc),
            refusals: DcSet::new(),
            votes: Standings::new(alloc),
            outcome: None,
        }
    }

    /// How far the client is.
    pub fn phase(&self) -> Phase
        ensures { phase_of result ≡ self.now.phase }
    {
        self.phase
    }

    /// Whether the client still takes commands.
    pub fn is_open(&self) -> bool
        ensures { result ≡ client_spec.is_open self.now.phase }
    {
        self.phase.is_open()
    }

    /// Whether the key would be one too many.
    pub fn is_full(&self, key: &Key) -> bool
        ensures { result ≡ client_spec.is_out_of_slots self.now key.now }
    {
        self.slots.is_full(key)
    }

    /// Reads a key: asks a quorum for it, or prints what is known of it.
    pub fn read(
        &mut self,
        cluster: &Cluster,
        tx: TxId,
        key: &Key,
        out: &mut Messages,
        lines: &mut Lines,
    ) -> Result<(), ClientFault>
        requires { client_spec.is_out_of_slots self.old key.now ≡ false }
        ensures done { OnOk result (Does (do_read cluster.now tx self.old key.now) self.new out.old out.new lines.old lines.new) }
        ensures worn { IsErrOf result KeyWornOut → (do_read cluster.now tx self.old key.now).refused ≡ Some IsWornOut }
    {
        let Some(slot) = self.slots.get(key) else {
            self.ask_new(cluster, tx, key, out)?;
            return Ok(());
        };
        self.print_slot(tx, key, slot, lines)?;
        Ok(())
    }

    /// Asks for a key that was not touched.
    fn ask_new(
        &mut self,
        cluster: &Cluster,
        tx: TxId,
        key: &Key,
        out: &mut Messages,
    ) -> Result<(), NoMemory>
        requires absent { slot_of self.old.slots key.now ≡ None }
        requires room { length self.old.slots < 32 }
        ensures { OnOk result (Says (asks_new cluster.now tx self.old key.now) self.new out.old out.new) }
    {
        self.slots.ask(key)?;
        ask(cluster, tx, key, out)
    }

    /// Prints what is known of a touched key: what the client wrote, or what it read.
    fn print_slot(
        &self,
        tx: TxId,
        key: &Key,
        slot: &Slot,
        lines: &mut Lines,
    ) -> Result<(), NoMemory>
        ensures { OnOk result (lines.new ≡ lines.old ++ (reads_slot tx self.now key.now slot.now).lines) }
    {
        if let Some(value) = slot.write() {
            lines.push(Line::Own(tx, key.copy(), value.copy()?))?;
        } else if let KeyRead::Complete(version, value) = slot.read() {
            let value = copied_value(value)?;
            lines.push(Line::Read(tx, key.copy(), *version, value))?;
        }
        Ok(())
    }

    /// Buffers a write.
    pub fn write(&mut self, key: &Key, value: &Val) -> Result<(), ClientFault>
        requires open { client_spec.is_open self.old.phase ≡ true }
        requires room { client_spec.is_out_of_slots self.old key.now ≡ false }
        ensures done { OnOk result (self.new ≡ (do_write self.old key.now value.now).after) }
        ensures worn { IsErrOf result KeyWornOut → (do_write self.old key.now value.now).refused ≡ Some IsWornOut }
    {
        self.slots.write(key, value)?;
        Ok(())
    }

    /// Commits: proposes, or reads the keys that are written and were not read, and waits for the reads.
    pub fn commit(
        &mut self,
        cluster: &Cluster,
        tx: TxId,
        out: &mut Messages,
    ) -> Result<(), ClientFault>
        ensures done { OnOk result (Says (do_commit cluster.now tx self.old) self.new out.old out.new) }
        ensures worn { IsErrOf result KeyWornOut → (do_commit cluster.now tx self.old).refused ≡ Some IsWornOut }
    {
        if !self.slots.wait_once_begun() {
            return self.propose(cluster, tx, out);
        }
        let unread = self.slots.unread_keys()?;
        self.slots.begin_reads();
        self.phase = Phase::Committing;
        ask_all(cluster, tx, unread, out)?;
        Ok(())
    }

    /// Drops the read of a key that is under way, and the key with it unless it is written.
    pub fn cancel(
        &mut self,
        cluster: &Cluster,
        tx: TxId,
        key: &Key,
        out: &mut Messages,
    ) -> Result<(), ClientFault>
        ensures done { OnOk result (Says (do_cancel cluster.now tx self.old key.now) self.new out.old out.new) }
        ensures worn { IsErrOf result KeyWornOut → (do_cancel cluster.now tx self.old key.now).refused ≡ Some IsWornOut }
    {
        if self.waits_for(key) {
            self.drop_read(cluster, tx, key, out)?;
        }
        Ok(())
    }

    /// Whether a read of the key is under way.
    fn waits_for(&self, key: &Key) -> bool
        ensures { result ≡ waits_at self.now.slots key.now }
    {
        self.slots.wait_for(key)
    }

    /// Drops the read of a key.
    fn drop_read(
        &mut self,
        cluster: &Cluster,
        tx: TxId,
        key: &Key,
        out: &mut Messages,
    ) -> Result<(), NoMemory>
        ensures { OnOk result (Says (drops_read cluster.now tx self.old key.now) self.new out.old out.new) }
    {
        self.slots.drop_read(key);
        cancel_all(cluster, tx, key, out)
    }

    /// Sends again what the client waits for, and stays as it is.
    pub fn retry(&self, cluster: &Cluster, tx: TxId, out: &mut Messages) -> Result<(), ClientFault>
        ensures done { OnOk result (Says (do_retry cluster.now tx self.now) self.now out.old out.new) }
        ensures worn { IsErrOf result KeyWornOut → (do_retry cluster.now tx self.now).refused ≡ Some IsWornOut }
    {
        if self.phase.is_proposed() {
            self.propose_again(cluster, tx, out)?;
        } else if self.phase.reads_on() {
            self.ask_again(cluster, tx, out)?;
        }
        Ok(())
    }

    /// Sends the same proposal again, or gives the transaction up where a quorum refused it.
    fn propose_again(&self, cluster: &Cluster, tx: TxId, out: &mut Messages) -> Result<(), NoMemory>
        requires { is_proposed self.now.phase ≡ true }
        ensures { OnOk result (out.new ≡ out.old ++ proposes_again cluster.now tx self.now) }
    {
        if cluster.quorum().holds(self.refusals) {
            return abandon(cluster, tx, out);
        }
        send_proposal(cluster, tx, self.slots.body()?, out)
    }

    /// Asks again for the keys whose read is under way, in key order, where they were not granted.
    fn ask_again(&self, cluster: &Cluster, tx: TxId, out: &mut Messages) -> Result<(), NoMemory>
        ensures { OnOk result (out.new ≡ out.old ++ asks_again cluster.now tx self.now.slots (waiting_keys self.now.slots)) }
    {
        let keys = self.slots.waiting_keys()?;
        ask_rests(cluster, tx, &self.slots, keys, out)
    }

    /// Goes: from now on the client ignores all.
    pub fn vanish(&mut self)
        ensures { self.new ≡ (do_vanish self.old).after }
    {
        self.phase = Phase::Vanished;
    }

    /// Proposes the commit at ballot 0.
    fn propose(
        &mut self,
        cluster: &Cluster,
        tx: TxId,
        out: &mut Messages,
    ) -> Result<(), ClientFault>
        ensures done { OnOk result (Says (proposes cluster.now tx self.old) self.new out.old out.new) }
        ensures worn { IsErrOf result KeyWornOut → (proposes cluster.now tx self.old).refused ≡ Some IsWornOut }
    {
        if self.slots.is_worn() {
            return Err(ClientFault::KeyWornOut);
        }
        let body = self.slots.body()?;
        self.phase = Phase::Proposed;
        send_proposal(cluster, tx, body, out)?;
        Ok(())
    }

    /// Proposes, where the client commits and waits for no read.
    fn go_on(&mut self, cluster: &Cluster, tx: TxId, out: &mut Messages) -> Result<(), ClientFault>
        ensures done { OnOk result (Says (proposes_once_read cluster.now tx self.old) self.new out.old out.new) }
        ensures worn { IsErrOf result KeyWornOut → (proposes_once_read cluster.now tx self.old).refused ≡ Some IsWornOut }
    {
        if self.phase.is_committing() && !self.slots.wait() {
            return self.propose(cluster, tx, out);
        }
        Ok(())
    }

    /// Completes the read of a key: cancels it where it was not granted, and goes on.
    fn complete(
        &mut self,
        cluster: &Cluster,
        tx: TxId,
        key: &Key,
        prints: bool,
        grants: &Grants,
        out: &mut Messages,
        lines: &mut Lines,
    ) -> Result<(), ClientFault>
        requires { reads_on self.old.phase ≡ true }
        ensures done { OnOk result (Does (completes_at cluster.now tx self.old key.now prints grants.now) self.new out.old out.new lines.old lines.new) }
        ensures worn { IsErrOf result KeyWornOut → (completes_at cluster.now tx self.old key.now prints grants.now).refused ≡ Some IsWornOut }
    {
        let (version, value) = grants.best()?;
        cancel(cluster, tx, key, grants, out)?;
        print_end(tx, key, prints, version, &value, lines)?;
        self.slots.set_read(key, KeyRead::Complete(version, value));
        self.go_on(cluster, tx, out)
    }

    /// A datacentre's shard gave a key.
    fn on_granted(
        &mut self,
        cluster: &Cluster,
        tx: TxId,
        key: &Key,
        dc: DcId,
        version: Version,
        value: &Option<Val>,
        out: &mut Messages,
        lines: &mut Lines,
    ) -> Result<(), ClientFault>
        ensures done { OnOk result (Does (on_granted cluster.now tx self.old key.now (record { dc = dc; version = version; value = value.now }))
            self.new out.old out.new lines.old lines.new) }
        ensures worn { IsErrOf result KeyWornOut → (on_granted cluster.now tx self.old key.now (record { dc = dc; version = version; value = value.now })).refused ≡ Some IsWornOut }
    {
        if !self.phase.reads_on() {
            return Ok(());
        }
        let Some(slot) = self.slots.get(key) else {
            return Ok(());
        };
        if !slot.wants_grant(dc) {
            return Ok(());
        }
        let prints = slot.prints();
        let grants = slot.with_grant(Grant::new(dc, version, copied_value(value)?))?;
        if cluster.quorum().holds(grants.granted_by()) {
            return self.complete(cluster, tx, key, prints, &grants, out, lines);
        }
        self.slots.set_read(key, KeyRead::UnderWay(prints, grants));
        Ok(())
    }

    /// Learns the outcome.
    fn learn(&mut self, tx: TxId, decision: &Decision, lines: &mut Lines) -> Result<(), NoMemory>
        ensures { OnOk result ((self.new ≡ (client_learns tx self.old decision.now).after) × (lines.new ≡ lines.old ++ (client_learns tx self.old decision.now).lines)) }
    {
        self.outcome = Some(decision.copy()?);
        self.phase = Phase::Done;
        lines.push(Line::Learned(tx, decision.outcome()))
    }

    /// A datacentre voted.
    fn on_voted(
        &mut self,
        cluster: &Cluster,
        tx: TxId,
        ballot: Ballot,
        dc: DcId,
        decision: &Decision,
        lines: &mut Lines,
    ) -> Result<(), NoMemory>
        ensures { OnOk result ((self.new ≡ (on_voted cluster.now tx self.old ballot dc decision.now).after)
            × (lines.new ≡ lines.old ++ (on_voted cluster.now tx self.old ballot dc decision.now).lines)) }
    {
        if self.phase.is_over() {
            return Ok(());
        }
        let is_decided = self.votes.would_decide(cluster, dc, ballot, decision);
        self.votes.add(dc, ballot, decision)?;
        if is_decided {
            self.learn(tx, decision, lines)?;
        }
        Ok(())
    }

    /// Another party says what was decided.
    fn on_decided(
        &mut self,
        tx: TxId,
        decision: &Decision,
        lines: &mut Lines,
    ) -> Result<(), NoMemory>
        ensures { OnOk result ((self.new ≡ (on_decided tx self.old decision.now).after)
            × (lines.new ≡ lines.old ++ (on_decided tx self.old decision.now).lines)) }
    {
        if self.phase.is_over() {
            return Ok(());
        }
        self.learn(tx, decision, lines)
    }

    /// A datacentre refused a proposal.
    fn on_refused(
        &mut self,
        cluster: &Cluster,
        tx: TxId,
        ballot: Ballot,
        dc: DcId,
        reason: &Reason,
        out: &mut Messages,
        lines: &mut Lines,
    ) -> Result<(), NoMemory>
        ensures { OnOk result (Does (on_refused cluster.now tx self.old ballot dc reason.now) self.new out.old out.new lines.old lines.new) }
    {
        if ballot.0 != 0 || !self.phase.is_proposed() || self.refusals.has(dc) {
            return Ok(());
        }
        give_up(cluster, tx, self.refusals, dc, out)?;
        self.refusals = self.refusals.with(dc);
        lines.push(Line::Refused(tx, dc, reason.copy()))
    }

    /// What the client does when a message comes. It ignores those of other transactions.
    pub fn handle(
        &mut self,
        cluster: &Cluster,
        tx: TxId,
        msg: &Msg,
        out: &mut Messages,
        lines: &mut Lines,
    ) -> Result<(), ClientFault>
        ensures done { OnOk result (Does (client_row cluster.now tx self.old msg.now) self.new out.old out.new lines.old lines.new) }
        ensures worn { IsErrOf result KeyWornOut → (client_row cluster.now tx self.old msg.now).refused ≡ Some IsWornOut }
    {
        match msg {
            Msg::Granted(of, key, dc, version, value) => {
                if !concerns(cluster, tx, *of, *dc) {
                    return Ok(());
                }
                self.on_granted(cluster, tx, key, *dc, *version, value, out, lines)
            }
            Msg::Voted(of, ballot, dc, decision) => {
                if !concerns(cluster, tx, *of, *dc) {
                    return Ok(());
                }
                self.on_voted(cluster, tx, *ballot, *dc, decision, lines)?;
                Ok(())
            }
            Msg::Refused(of, ballot, dc, reason) => {
                if !concerns(cluster, tx, *of, *dc) {
                    return Ok(());
                }
                self.on_refused(cluster, tx, *ballot, *dc, reason, out, lines)?;
                Ok(())
            }
            Msg::Decided(of, decision) => {
                if *of != tx {
                    return Ok(());
                }
                self.on_decided(tx, decision, lines)?;
                Ok(())
            }
            _ => Ok(()),
        }
    }
}

/// Gives the transaction up at its home, where with this datacentre's refusal a quorum refused, and without it none.
fn give_up(
    cluster: &Cluster,
    tx: TxId,
    refusals: DcSet,
    dc: DcId,
    out: &mut Messages,
) -> Result<(), NoMemory>
    ensures { OnOk result (out.new ≡ out.old ++ gives_up cluster.now tx refusals dc) }
{
    let quorum = cluster.quorum();
    if quorum.holds(refusals.with(dc)) && !quorum.holds(refusals) {
        abandon(cluster, tx, out)?;
    }
    Ok(())
}
