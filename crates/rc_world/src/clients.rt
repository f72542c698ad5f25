// The clients of a run.
ghost use Rattle.std.specs.Prelude.{◌≡◌, true, false, [], None, Some, Ok, Err, is_some, length, OnOk, OnErr, IfErr};
ghost use Rattle.std.specs.Option.{option_map};
ghost use Rattle.std.specs.Ordering.{nat_cmp};
ghost use Rattle.rc_ids.specs.Cluster.{Layout};
ghost use Rattle.rc_ids.specs.Tables.{put, found};
ghost use Rattle.rc_client.specs.Acts.{site, Core};
ghost use Rattle.rc_protocol.specs.Client.{new_client, is_vanished};
ghost use Rattle.rc_protocol.specs.Acts.{Hears, client_act};
ghost use Rattle.rc_runs.specs.World.{World, Parties, deed, client_does, with_new_client};
ghost use Rattle.rc_runs.specs.Refusals.{wrong};
ghost use Rattle.rc_runs.specs.Refusals as refusals;
ghost use Rattle.rc_world.specs.Clients.{roster, command, states_of, AreKeyed, AreOf, IsRoster, told, scene, Did, Says};
ghost use Rattle.rc_world.specs.OneClient.{cause_of, told_act, told_name, is_shut, refused_of, answer_of, Answers, SaysOf, Served};
ghost use Rattle.rc_world.specs.declared.clients.Refused.TheVariants.{Naming};
ghost use Rattle.rc_report.specs.declared.fault.Wrong.TheVariants.{NotBegun};

use rc_client::{Client, ClientFault, Phase};
use rc_ids::{Cluster, NoMemory, TxId};
use rc_msg::{Msg, Outbox};
use rc_report::{Lines, Wrong};
use rc_runs::Event;
use std::alloc::Global;
use std::collections::{BTreeMap, BTreeSet};
use std::marker::Model;

/// Why a client did not do what it was to do.
#[derive(Clone, Copy, Debug, PartialEq, Eq)]
pub(crate) enum Refused {
    /// There was no memory.
    NoMemory,
    /// The command names something wrongly.
    Naming(Wrong),
    /// A version has no next one.
    VersionSpent,
}

impl From<NoMemory> for Refused {
    ghost use Rattle.rc_world.specs.declared.clients.Refused.TheVariants.{NoMemory as OutOfMemory};

    ghost from_gives = { λ _ e. e ≡ OutOfMemory };

    fn from(_error: NoMemory) -> Self {
        Refused::NoMemory
    }
}

/// What a client's fault is in a script.
fn refused_of(tx: TxId, fault: ClientFault) -> Refused
    ensures { result ≡ refused_of tx fault }
{
    match fault {
        ClientFault::NotOpen => Refused::Naming(Wrong::NotOpen(tx)),
        ClientFault::TooManyKeys => Refused::Naming(Wrong::TooManyKeys(tx)),
        ClientFault::KeyWornOut => Refused::VersionSpent,
        ClientFault::NoMemory => Refused::NoMemory,
    }
}

/// Whether the client is gone.
fn is_gone(client: &Client) -> bool
    ensures { result ≡ is_vanished client.now.client.phase }
{
    matches!(client.phase(), Phase::Vanished)
}

/// Whether the client does not take the command of the event, since it is not open.
fn is_shut(client: &Client, event: &Event) -> bool
    ensures { result ≡ is_shut client.now.client event.now }
{
    match event {
        Event::Read(_, _) | Event::Write(_, _, _) | Event::Commit(_) | Event::Cancel(_, _) => {
            !matches!(client.phase(), Phase::Open)
        }
        _ => false,
    }
}

/// What became of a client's call, in a script.
fn answer(tx: TxId, outcome: Result<(), ClientFault>) -> Result<(), Refused>
    ensures { result ≡ answer_of tx outcome }
{
    match outcome {
        Ok(()) => Ok(()),
        Err(fault) => Err(refused_of(tx, fault)),
    }
}

/// A client that is not gone, and takes the command, does what it is told in the event.
fn tell(
    client: &mut Client,
    cluster: &Cluster,
    tx: TxId,
    event: &Event,
    out: &mut Outbox,
    lines: &mut Lines,
) -> Result<(), Refused>
    requires tx { client.old.tx ≡ tx }
    requires there { is_vanished client.old.client.phase ≡ false }
    requires takes { is_shut client.old.client event.now ≡ false }
    ensures { Answers result (site client.old out.old lines.old) (site client.new out.new lines.new) (told_act cluster.now tx client.old.client event.now) (told_name tx client.old.client event.now) }
{
    match event {
        Event::Read(_, key) => answer(tx, client.read(cluster, key.copy(), out, lines)),
        Event::Write(_, key, val) => answer(tx, client.write(key.copy(), val.copy()?)),
        Event::Commit(_) => answer(tx, client.commit(cluster, out, lines)),
        Event::Cancel(_, key) => answer(tx, client.cancel(cluster, key, out)),
        Event::Retry(_) => answer(tx, client.retry(cluster, out)),
        Event::Vanish(_) => {
            client.vanish();
            Ok(())
        }
        _ => Ok(()),
    }
}

/// The client of a transaction does what it is told in the event.
fn obey_at(
    clients: &mut BTreeMap<TxId, Client>,
    cluster: &Cluster,
    tx: TxId,
    event: &Event,
    out: &mut Outbox,
    lines: &mut Lines,
) -> Result<(), Refused>
    requires keyed { AreKeyed clients.old.entries }
    requires told { is_some (cause_of event.now) ≡ true }
    ensures absent { found nat_cmp clients.old.entries tx ≡ None → result ≡ Err (Naming (NotBegun tx)) }
    ensures served { (x : Core) → found nat_cmp clients.old.entries tx ≡ Some x → OnOk result (Served clients.old.entries clients.new.entries out.old out.new lines.old lines.new tx (told_act cluster.now tx x.client event.now)) }
    ensures right { (x : Core) → found nat_cmp clients.old.entries tx ≡ Some x → OnOk result (told_name tx x.client event.now ≡ None) }
    ensures says { (x : Core) → found nat_cmp clients.old.entries tx ≡ Some x → IfErr result (λ r. SaysOf r (told_name tx x.client event.now) (told_act cluster.now tx x.client event.now).refused) }
    ensures kept { OnErr result ((clients.new.entries ≡ clients.old.entries) × (out.new ≡ out.old) × (lines.new ≡ lines.old)) }
    ensures keyed { AreKeyed clients.new.entries }
    ensures of { AreOf cluster.now clients.old.entries → AreOf cluster.now clients.new.entries }
{
    let Some(client) = clients.get_mut(&tx) else {
        return Err(Refused::Naming(Wrong::NotBegun(tx)));
    };
    if is_gone(client) {
        return Err(Refused::Naming(Wrong::Vanished(tx)));
    }
    if is_shut(client, event) {
        return Err(Refused::Naming(Wrong::NotOpen(tx)));
    }
    tell(client, cluster, tx, event, out, lines)
}

/// The transaction whose client is told something in the event.
fn commanded(event: &Event) -> Option<TxId>
    ensures { result ≡ option_map (λ x. x.0) (command event.now) }
{
    match event {
        Event::Read(tx, _) | Event::Write(tx, _, _) | Event::Cancel(tx, _) => Some(*tx),
        Event::Commit(tx) | Event::Retry(tx) | Event::Vanish(tx) => Some(*tx),
        _ => None,
    }
}

/// The client of a transaction does what it does at a message, if there is one.
fn hear_at(
    clients: &mut BTreeMap<TxId, Client>,
    cluster: &Cluster,
    tx: TxId,
    msg: &Msg,
    out: &mut Outbox,
    lines: &mut Lines,
) -> Result<(), Refused>
    requires keyed { AreKeyed clients.old.entries }
    requires of { AreOf cluster.now clients.old.entries }
    ensures absent { found nat_cmp clients.old.entries tx ≡ None → (result ≡ Ok tt) × (clients.new.entries ≡ clients.old.entries) × (out.new ≡ out.old) × (lines.new ≡ lines.old) }
    ensures served { (x : Core) → found nat_cmp clients.old.entries tx ≡ Some x → OnOk result (Served clients.old.entries clients.new.entries out.old out.new lines.old lines.new tx (client_act cluster.now tx x.client (Hears msg.now))) }
    ensures says { (x : Core) → found nat_cmp clients.old.entries tx ≡ Some x → IfErr result (λ r. SaysOf r None (client_act cluster.now tx x.client (Hears msg.now)).refused) }
    ensures kept { OnErr result ((clients.new.entries ≡ clients.old.entries) × (out.new ≡ out.old) × (lines.new ≡ lines.old)) }
    ensures keyed { AreKeyed clients.new.entries }
    ensures of { AreOf cluster.now clients.new.entries }
{
    let Some(client) = clients.get_mut(&tx) else {
        return Ok(());
    };
    answer(tx, client.handle(cluster, msg, out, lines))
}

/// A transaction begins with a new client among these.
fn begin_in(clients: &mut BTreeMap<TxId, Client>, alloc: Global, tx: TxId) -> Result<(), NoMemory>
    requires { AreKeyed clients.old.entries }
    ensures begun { OnOk result (states_of clients.new.entries ≡ put nat_cmp (states_of clients.old.entries) tx new_client) }
    ensures kept { OnErr result (clients.new.entries ≡ clients.old.entries) }
    ensures keyed { AreKeyed clients.new.entries }
    ensures of { (c : Layout) → AreOf c clients.old.entries → AreOf c clients.new.entries }
{
    clients.insert(tx, Client::new(alloc, tx))?;
    Ok(())
}

/// The transactions that were begun: those that the logs name, and those with a client in this run.
#[derive(Drop)]
pub(crate) struct Clients {
    named: BTreeSet<TxId>,
    clients: BTreeMap<TxId, Client>,
}

impl Model for Clients {
    ghost use Rattle.rc_world.specs.Clients.{Roster, AreKeyed, roster};

    ghost Value = { Roster };

    ghost view = { λ c. roster c.named.keys c.clients.entries };

    ghost invariant = { λ c. AreKeyed c.clients.entries };
}

impl Clients {
    /// No client yet, and the transactions that the logs name.
    pub(crate) fn new(alloc: Global, named: BTreeSet<TxId>) -> Clients
        ensures { result ≡ roster named.keys [] }
    {
        Clients {
            named,
            clients: BTreeMap::new(alloc),
        }
    }

    /// How many clients there are.
    pub(crate) fn count(&self) -> usize
        ensures cores { result ≡ length self.now.cores }
        ensures clients { (p : Parties) → IsRoster self.now p → result ≡ length p.clients }
    {
        self.clients.len()
    }

    /// Whether the transaction was begun.
    pub(crate) fn is_begun(&self, tx: TxId) -> bool
        ensures { (p : Parties) → IsRoster self.now p → result ≡ refusals.is_begun p tx }
    {
        self.named.contains(&tx) || self.clients.contains_key(&tx)
    }

    /// A transaction begins with a new client, or all is as before.
    pub(crate) fn begin(&mut self, alloc: Global, tx: TxId) -> Result<(), NoMemory>
        ensures begun { (p : Parties) → IsRoster self.old p → OnOk result (IsRoster self.new (with_new_client p tx)) }
        ensures kept { OnErr result (self.new ≡ self.old) }
        ensures of { (c : Layout) → AreOf c self.old.cores → AreOf c self.new.cores }
    {
        begin_in(&mut self.clients, alloc, tx)
    }
}

impl Clients {
    /// A client does what it is told in the event; nobody does anything in an event that is no command of a client. At a refusal all is
    /// as before. Wrong names come before want of memory, except that a key may be one too many.
    pub(crate) fn obey(
        &mut self,
        cluster: &Cluster,
        event: &Event,
        out: &mut Outbox,
        lines: &mut Lines,
    ) -> Result<(), Refused>
        requires { AreOf cluster.now self.old.cores }
        ensures done { (p : Parties) → p.layout ≡ cluster.now → IsRoster self.old p → OnOk result (Did (scene self.old out.old lines.old) (scene self.new out.new lines.new) p (told p event.now)) }
        ensures right { (w : World) → IsRoster self.old w.parties → OnOk result (is_some (command event.now) ≡ true → wrong w event.now ≡ None) }
        ensures refused { (w : World) → w.parties.layout ≡ cluster.now → IsRoster self.old w.parties → IfErr result (λ r. Says r (wrong w event.now) (deed w.parties w.sent event.now)) }
        ensures kept { OnErr result (scene self.new out.new lines.new ≡ scene self.old out.old lines.old) }
        ensures of { AreOf cluster.now self.new.cores }
    {
        let Some(tx) = commanded(event) else {
            return Ok(());
        };
        if self.named.contains(&tx) {
            return Err(Refused::Naming(Wrong::Vanished(tx)));
        }
        obey_at(&mut self.clients, cluster, tx, event, out, lines)
    }

    /// A client does what it does at a message; nothing is done where there is none. At a refusal all is as before.
    pub(crate) fn hear(
        &mut self,
        cluster: &Cluster,
        tx: TxId,
        msg: &Msg,
        out: &mut Outbox,
        lines: &mut Lines,
    ) -> Result<(), Refused>
        requires { AreOf cluster.now self.old.cores }
        ensures done { (p : Parties) → p.layout ≡ cluster.now → IsRoster self.old p → OnOk result (Did (scene self.old out.old lines.old) (scene self.new out.new lines.new) p (client_does p tx (Hears msg.now))) }
        ensures refused { (p : Parties) → p.layout ≡ cluster.now → IsRoster self.old p → IfErr result (λ r. Says r None (client_does p tx (Hears msg.now))) }
        ensures kept { OnErr result (scene self.new out.new lines.new ≡ scene self.old out.old lines.old) }
        ensures of { AreOf cluster.now self.new.cores }
    {
        hear_at(&mut self.clients, cluster, tx, msg, out, lines)
    }
}
