// A client.
ghost use Rattle.std.specs.Prelude.{◌≡◌, ◌||◌, [], ◌∷◌, true, IsOk, OnOk, IfErr, IsErrOf};
ghost use Rattle.rc_ids.specs.Cluster.{Layout};
ghost use Rattle.rc_msg.specs.Outboxes.{Outbox as Posts};
ghost use Rattle.rc_protocol.specs.Acts.{client_act, Hears, Reads, Writes, Commits, Cancels, Retries, Vanishes};
ghost use Rattle.rc_protocol.specs.Client.{waits_for_read, is_committing, is_proposed};
ghost use Rattle.rc_client.specs.declared.fault.ClientFault.TheVariants.{NotOpen};
ghost use Rattle.rc_client.specs.Acts.{site, new_core, Acts, Refuses, IsOf, needs_none};
ghost use Rattle.rc_client.specs.Phases.{phase_of};

use crate::cancelling::cancel;
use crate::committing::commit;
use crate::fault::ClientFault;
use crate::hearing::hear;
use crate::phase::Phase;
use crate::progress::Progress;
use crate::reading::read;
use crate::retrying::retry;
use crate::slots::Slots;
use crate::writing::write;
use rc_ids::{Cluster, DcSet, Key, NoMemory, TxId, Val};
use rc_msg::{Msg, Outbox};
use rc_report::Lines;
use std::alloc::Global;
use std::marker::Model;

/// The client of one transaction: it buffers the writes, reads from a quorum, and proposes the commit. After each fault the client,
/// the messages and the lines are as before.
#[derive(Drop)]
pub struct Client {
    progress: Progress,
}

impl Model for Client {
    ghost use Rattle.rc_client.specs.Acts.{Core};
    ghost use Rattle.rc_client.specs.States.{core_of};

    ghost Value = { Core };

    ghost view = { λ c. core_of c.progress };
}

impl Client {
    /// The client of a transaction, which did nothing yet.
    pub fn new(alloc: Global, tx: TxId) -> Client
        ensures { result ≡ new_core tx }
    {
        Client {
            progress: Progress {
                alloc,
                tx,
                phase: Phase::Open,
                slots: Slots::new(alloc),
                refusals: DcSet::new(),
                votes: None,
                outcome: None,
            },
        }
    }

    /// How far the client is.
    pub fn phase(&self) -> Phase
        ensures { phase_of result ≡ self.now.client.phase }
    {
        self.progress.phase
    }

    /// Whether the client waits: for a read, or after its commit for the outcome.
    pub fn waits(&self) -> bool
        ensures { result ≡ (waits_for_read self.now.client.slots || (is_committing self.now.client.phase || is_proposed self.now.client.phase)) }
    {
        self.progress.slots.wait()
            || self.progress.phase.is_committing()
            || self.progress.phase.is_proposed()
    }

    /// Reads a key: asks each datacentre for it, or prints what is known of it. Only an open client reads, and at most 32 keys.
    pub fn read(
        &mut self,
        cluster: &Cluster,
        key: Key,
        out: &mut Outbox,
        lines: &mut Lines,
    ) -> Result<(), ClientFault>
        ensures ok { OnOk result (Acts (site self.old out.old lines.old) (site self.new out.new lines.new) (client_act cluster.now self.old.tx self.old.client (Reads key))) }
        ensures err { IfErr result (λ fault. Refuses fault (site self.old out.old lines.old) (site self.new out.new lines.new) (client_act cluster.now self.old.tx self.old.client (Reads key))) }
        ensures weights { self.new.weights ≡ self.old.weights }
    {
        if !self.progress.phase.is_open() {
            return Err(ClientFault::NotOpen);
        }
        if self.progress.slots.is_full(&key) {
            return Err(ClientFault::TooManyKeys);
        }
        let sent = out.len();
        let printed = lines.len();
        match read(cluster, &mut self.progress, key, out, lines) {
            Ok(()) => Ok(()),
            Err(NoMemory) => {
                out.cut(sent);
                lines.cut(printed);
                Err(ClientFault::NoMemory)
            }
        }
    }

    /// Buffers a write. Only an open client writes, and at most 32 keys.
    pub fn write(&mut self, key: Key, val: Val) -> Result<(), ClientFault>
        ensures ok { (cluster : Layout) (out : Posts) → OnOk result (Acts (site self.old out []) (site self.new out []) (client_act cluster self.old.tx self.old.client (Writes key val))) }
        ensures err { (cluster : Layout) (out : Posts) → IfErr result (λ fault. Refuses fault (site self.old out []) (site self.new out []) (client_act cluster self.old.tx self.old.client (Writes key val))) }
        ensures weights { self.new.weights ≡ self.old.weights }
    {
        if !self.progress.phase.is_open() {
            return Err(ClientFault::NotOpen);
        }
        if self.progress.slots.is_full(&key) {
            return Err(ClientFault::TooManyKeys);
        }
        match write(&mut self.progress, key, val) {
            Ok(()) => Ok(()),
            Err(NoMemory) => Err(ClientFault::NoMemory),
        }
    }

    /// Commits: proposes, or reads the keys that are written and were not read, and waits for the reads. Only an open client commits.
    pub fn commit(
        &mut self,
        cluster: &Cluster,
        out: &mut Outbox,
        lines: &mut Lines,
    ) -> Result<(), ClientFault>
        ensures ok { OnOk result (Acts (site self.old out.old lines.old) (site self.new out.new lines.new) (client_act cluster.now self.old.tx self.old.client Commits)) }
        ensures err { IfErr result (λ fault. Refuses fault (site self.old out.old lines.old) (site self.new out.new lines.new) (client_act cluster.now self.old.tx self.old.client Commits)) }
        ensures weights { self.new.weights ≡ self.old.weights }
    {
        let _printed = lines.len();
        if !self.progress.phase.is_open() {
            return Err(ClientFault::NotOpen);
        }
        let posted = out.len();
        match commit(cluster, &mut self.progress, out) {
            Ok(()) => Ok(()),
            Err(fault) => {
                out.cut(posted);
                Err(fault)
            }
        }
    }

    /// Drops the read of a key that is under way, and the key with it unless it is written. Only an open client cancels.
    pub fn cancel(
        &mut self,
        cluster: &Cluster,
        key: &Key,
        out: &mut Outbox,
    ) -> Result<(), ClientFault>
        ensures ok { OnOk result (Acts (site self.old out.old []) (site self.new out.new []) (client_act cluster.now self.old.tx self.old.client (Cancels key.now))) }
        ensures err { IfErr result (λ fault. Refuses fault (site self.old out.old []) (site self.new out.new []) (client_act cluster.now self.old.tx self.old.client (Cancels key.now))) }
        ensures weights { self.new.weights ≡ self.old.weights }
    {
        if !self.progress.phase.is_open() {
            return Err(ClientFault::NotOpen);
        }
        let sent = out.len();
        match cancel(cluster, &mut self.progress, key, out) {
            Ok(()) => Ok(()),
            Err(NoMemory) => {
                out.cut(sent);
                Err(ClientFault::NoMemory)
            }
        }
    }

    /// Does what the client does at a message. It is never `NotOpen`, and takes no memory at a message that changes nothing. The
    /// cluster is that of the client's other calls.
    pub fn handle(
        &mut self,
        cluster: &Cluster,
        msg: &Msg,
        out: &mut Outbox,
        lines: &mut Lines,
    ) -> Result<(), ClientFault>
        requires { IsOf cluster.now self.old }
        ensures ok { OnOk result (Acts (site self.old out.old lines.old) (site self.new out.new lines.new) (client_act cluster.now self.old.tx self.old.client (Hears msg.now))) }
        ensures err { IfErr result (λ fault. Refuses fault (site self.old out.old lines.old) (site self.new out.new lines.new) (client_act cluster.now self.old.tx self.old.client (Hears msg.now))) }
        ensures of { IsOf cluster.now self.new }
        ensures open { IsErrOf result NotOpen → ⊥ }
        ensures ignored { needs_none cluster.now self.old.tx self.old.client msg.now ≡ true → IsOk result }
    {
        let sent = out.len();
        let printed = lines.len();
        match hear(cluster, &mut self.progress, msg, out, lines) {
            Ok(()) => Ok(()),
            Err(fault) => {
                out.cut(sent);
                lines.cut(printed);
                Err(fault)
            }
        }
    }

    /// Sends again what the client waits for. The client stays as it is, and the call is never `NotOpen`.
    pub fn retry(&mut self, cluster: &Cluster, out: &mut Outbox) -> Result<(), ClientFault>
        ensures ok { OnOk result (Acts (site self.old out.old []) (site self.new out.new []) (client_act cluster.now self.old.tx self.old.client Retries)) }
        ensures err { IfErr result (λ fault. Refuses fault (site self.old out.old []) (site self.new out.new []) (client_act cluster.now self.old.tx self.old.client Retries)) }
        ensures same { self.new ≡ self.old }
        ensures open { IsErrOf result NotOpen → ⊥ }
    {
        let asked = out.len();
        match retry(cluster, &self.progress, out) {
            Ok(()) => Ok(()),
            Err(NoMemory) => {
                out.cut(asked);
                Err(ClientFault::NoMemory)
            }
        }
    }

    /// Goes: from now on the client ignores all.
    pub fn vanish(&mut self)
        ensures acts { (cluster : Layout) (out : Posts) → Acts (site self.old out []) (site self.new out []) (client_act cluster self.old.tx self.old.client Vanishes) }
        ensures weights { self.new.weights ≡ self.old.weights }
    {
        self.progress.phase = Phase::Vanished;
    }
}
