// All that act: nodes with their disks, clients, and the order of what the votes chose.
ghost use Rattle.std.specs.Prelude.{◌≡◌, ◌+◌, ◌<◌, ◌++◌, ℕ, [], Some, None, true, false, IsTrue, OnOk, IfOk, IfErr, List, length, map, slice_get, if◌then◌else◌, Ok};
ghost use Rattle.std.specs.Option.{option_copied};
ghost use Rattle.std.specs.Ordering.{nat_cmp};
ghost use Rattle.rc_ids.specs.Cluster.{is_dc};
ghost use Rattle.rc_ids.specs.Tables.{found, maybe};
ghost use Rattle.rc_protocol.specs.Nodes.{coord_index, shard_index};
ghost use Rattle.rc_runs.specs.Refusals.{named_wrongly};
ghost use Rattle.rc_runs.specs.Refusals as refusals;
ghost use Rattle.rc_body.specs.declared.entry.Entry.{Entry};
ghost use Rattle.rc_protocol.specs.Client.{Client as ClientState};
ghost use Rattle.rc_runs.specs.World.{with_new_client, stops, restarts, Idle};
ghost use Rattle.rc_runs.specs.World as world_spec;
ghost use Rattle.rc_ids.specs.declared.names.NodeId.TheVariants.{Coord as CoordName, Shard as ShardName};
ghost use Rattle.std.specs.List.{flat_map};
ghost use Rattle.rc_ids.specs.Tables.{up_to};
ghost use Rattle.rc_runs.specs.Script.{shown_lines};
ghost use Rattle.rc_plain_world.specs.Lines.{host_at, shown_at};
ghost use Rattle.rc_runs.specs.Stored.{in_memory, new_session};
ghost use Rattle.rc_plain_world.specs.Networks.{new_network};
ghost use Rattle.rc_plain_world.specs.Starts.{coord_sites, shard_sites};
ghost use Rattle.rc_plain_world.specs.Sessions.{session_of};
ghost use Rattle.rc_plain_world.specs.Hosts.{coord_nodes, shard_nodes};
ghost use Rattle.rc_plain_world.specs.Acted.{housed, does_by, deed_work, stop_work, arm_work, start_work, command_for, Acted, Refuses, May, MayAct};

use crate::clients::client_acts;
use crate::coord_host::CoordHost;
use crate::coords::{coord_acts, coord_arms, coord_starts, coord_stops};
use crate::fault::ActFault;
use crate::shard_host::ShardHost;
use crate::shards::{shard_acts, shard_arms, shard_starts, shard_stops};
use crate::starts::{new_coords, new_shards};
use rc_body::Body;
use rc_ids::{Cluster, DcId, Key, NoMemory, NodeId, Party, ShardId, TxId};
use rc_msg::{Envelope, Messages};
use rc_plain_client::{Client, Phase};
use rc_report::{Lines, Wrong};
use rc_runs::Event;
use std::alloc::Global;
use std::collections::BTreeMap;
use std::marker::Model;

/// All that act, and the transactions that their votes committed.
#[derive(Drop)]
pub(crate) struct Parties {
    cluster: Cluster,
    coords: Vec<CoordHost>,
    shards: Vec<ShardHost>,
    clients: BTreeMap<TxId, Client>,
    committed: Vec<(TxId, Body)>,
}

impl Model for Parties {
    ghost use Rattle.std.specs.Prelude.{◌≡◌, length};
    ghost use Rattle.rc_plain_world.specs.Acted.{Housed};

    ghost Value = { Housed };

    ghost use Rattle.rc_plain_world.specs.Acted.{housed};

    ghost view = { λ p. housed p.cluster p.coords.items p.shards.items p.clients.entries p.committed.items };

    ghost invariant = { λ p. length p.coords.items ≡ p.cluster.dcs };
}

impl Parties {
    /// New nodes, each with a created log on its disk, and no client.
    pub(crate) fn new(alloc: Global, cluster: Cluster) -> Result<Parties, NoMemory>
        ensures parties { IfOk result (λ p. p ≡ housed cluster (coord_sites cluster cluster.dcs) (shard_sites cluster cluster.dcs) [] []) }
        ensures session { OnOk result (new_session in_memory cluster
            ≡ Ok (session_of (housed cluster (coord_sites cluster cluster.dcs) (shard_sites cluster cluster.dcs) [] []) new_network 0 0)) }
    {
        let coords = new_coords(alloc, &cluster)?;
        let shards = new_shards(alloc, &cluster)?;
        Ok(Parties {
            cluster,
            coords,
            shards,
            clients: BTreeMap::new(alloc),
            committed: Vec::new(alloc),
        })
    }

    /// A coordinator does its part in an event.
    pub(crate) fn coord_acts(
        &mut self,
        alloc: Global,
        dc: DcId,
        sent: &[Envelope],
        event: &Event,
        lines: &mut Lines,
    ) -> Result<Messages, ActFault>
        ensures done { IfOk result (λ out. let deed = does_by self.old.parties sent.now event.now (Party.Node (NodeId.Coord dc)) in
            Acted deed (deed_work self.old deed) self.old self.new out lines.old lines.new) }
        ensures refused { IfErr result (λ e. Refuses e (does_by self.old.parties sent.now event.now (Party.Node (NodeId.Coord dc)))) }
    {
        if dc.0 > self.cluster.dcs() {
            return Ok(Messages::new(alloc));
        }
        coord_acts(
            &mut self.coords,
            &mut self.committed,
            alloc,
            &self.cluster,
            dc,
            sent,
            event,
            lines,
        )
    }

    /// A shard server does its part in an event.
    pub(crate) fn shard_acts(
        &mut self,
        alloc: Global,
        dc: DcId,
        shard: ShardId,
        sent: &[Envelope],
        event: &Event,
        lines: &mut Lines,
    ) -> Result<Messages, NoMemory>
        ensures { IfOk result (λ out. let deed = does_by self.old.parties sent.now event.now (Party.Node (NodeId.Shard dc shard)) in
            Acted deed (deed_work self.old deed) self.old self.new out lines.old lines.new) }
    {
        if !is_shard_of(&self.cluster, dc, shard) {
            return Ok(Messages::new(alloc));
        }
        let place = place_of(&self.cluster, dc, shard);
        if place >= self.shards.len() {
            return Ok(Messages::new(alloc));
        }
        shard_acts(
            &mut self.shards,
            place,
            alloc,
            &self.cluster,
            dc,
            shard,
            sent,
            event,
            lines,
        )
    }

    /// A client does its part in an event.
    pub(crate) fn client_acts(
        &mut self,
        alloc: Global,
        tx: TxId,
        sent: &[Envelope],
        event: &Event,
        lines: &mut Lines,
    ) -> Result<Messages, ActFault>
        requires { (x : ClientState) → found nat_cmp self.old.parties.clients tx ≡ Some x → May sent.now event.now x }
        ensures done { IfOk result (λ out. let deed = does_by self.old.parties sent.now event.now (Party.Client tx) in
            Acted deed (deed_work self.old deed) self.old self.new out lines.old lines.new) }
        ensures refused { IfErr result (λ e. Refuses e (does_by self.old.parties sent.now event.now (Party.Client tx))) }
    {
        client_acts(
            &mut self.clients,
            alloc,
            &self.cluster,
            tx,
            sent,
            event,
            lines,
        )
    }
}

impl Parties {
    /// A party does its part in an event.
    pub(crate) fn act(
        &mut self,
        alloc: Global,
        party: &Party,
        sent: &[Envelope],
        event: &Event,
        lines: &mut Lines,
    ) -> Result<Messages, ActFault>
        requires { MayAct self.old.parties sent.now party.now event.now }
        ensures done { IfOk result (λ out. let deed = does_by self.old.parties sent.now event.now party.now in
            Acted deed (deed_work self.old deed) self.old self.new out lines.old lines.new) }
        ensures refused { IfErr result (λ e. Refuses e (does_by self.old.parties sent.now event.now party.now)) }
    {
        match party {
            Party::Node(NodeId::Coord(dc)) => self.coord_acts(alloc, *dc, sent, event, lines),
            Party::Node(NodeId::Shard(dc, shard)) => {
                Ok(self.shard_acts(alloc, *dc, *shard, sent, event, lines)?)
            }
            Party::Client(tx) => self.client_acts(alloc, *tx, sent, event, lines),
        }
    }

    /// A transaction begins with a new client.
    pub(crate) fn begin(&mut self, alloc: Global, tx: TxId) -> Result<(), NoMemory>
        ensures parties { OnOk result (self.new.parties ≡ with_new_client self.old.parties tx) }
        ensures coords { OnOk result (self.new.coords ≡ self.old.coords) }
        ensures shards { OnOk result (self.new.shards ≡ self.old.shards) }
    {
        self.clients.insert(tx, Client::new(alloc))?;
        Ok(())
    }

    /// What is wrong with the name of a transaction whose client is to take a command.
    pub(crate) fn misnamed(&self, tx: TxId, wants_open: bool, key: Option<&Key>) -> Option<Wrong>
        ensures { result ≡ named_wrongly self.now.parties tx (command_for wants_open (option_copied key.entry)) }
    {
        let Some(client) = self.clients.get(&tx) else {
            return Some(Wrong::NotBegun(tx));
        };
        if client.phase() == Phase::Vanished {
            return Some(Wrong::Vanished(tx));
        }
        if !wants_open {
            return None;
        }
        if !client.is_open() {
            return Some(Wrong::NotOpen(tx));
        }
        match key {
            Some(key) if client.is_full(key) => Some(Wrong::TooManyKeys(tx)),
            _ => None,
        }
    }

    /// Whether the transaction was begun.
    pub(crate) fn is_begun(&self, tx: TxId) -> bool
        ensures { result ≡ refusals.is_begun self.now.parties tx }
    {
        self.clients.contains_key(&tx)
    }

    /// Whether the node is up.
    pub(crate) fn is_up(&self, node: &NodeId) -> bool
        ensures { result ≡ world_spec.is_up self.now.parties node.now }
    {
        match node {
            NodeId::Coord(dc) => coord_is_up(&self.cluster, self.coords.as_slice(), *dc),
            NodeId::Shard(dc, shard) => {
                shard_is_up(&self.cluster, self.shards.as_slice(), *dc, *shard)
            }
        }
    }

    /// How many transactions were begun.
    pub(crate) fn count(&self) -> usize
        ensures { result ≡ length self.now.parties.clients }
    {
        self.clients.len()
    }

    /// The committed transactions, in order.
    pub(crate) fn order(&self, alloc: Global) -> Result<Vec<TxId>, NoMemory>
        ensures { IfOk result (λ txs. txs.items ≡ map (λ (x : ℕ × List Entry). x.0) self.now.parties.committed) }
    {
        let mut txs = Vec::new(alloc);
        for (tx, _) in &self.committed {
            txs.push(*tx)?;
        }
        Ok(txs)
    }
}

/// Whether the shard server is one of the world.
fn is_shard_of(cluster: &Cluster, dc: DcId, shard: ShardId) -> bool
    ensures { result ≡ world_spec.is_shard_of cluster.now dc shard }
{
    dc.0 <= cluster.dcs() && shard.0 <= cluster.shards()
}

/// The place of a shard server.
fn place_of(cluster: &Cluster, dc: DcId, shard: ShardId) -> usize
    ensures { result ≡ shard_index cluster.now dc shard }
{
    (dc.0 as usize - 1) * cluster.shards() as usize + (shard.0 as usize - 1)
}

impl Parties {
    /// A coordinator that is up stops.
    fn stop_coord(&mut self, dc: DcId, lines: &mut Lines) -> Result<(), NoMemory>
        requires { world_spec.is_up self.old.parties (CoordName dc) ≡ true }
        ensures { OnOk result (Acted (stops self.old.parties (CoordName dc)) (stop_work self.old (CoordName dc)) self.old self.new [] lines.old lines.new) }
    {
        coord_stops(&mut self.coords, dc, lines)
    }

    /// A shard server that is up stops.
    fn stop_shard(&mut self, dc: DcId, shard: ShardId, lines: &mut Lines) -> Result<(), NoMemory>
        requires { world_spec.is_up self.old.parties (ShardName dc shard) ≡ true }
        ensures { OnOk result (Acted (stops self.old.parties (ShardName dc shard)) (stop_work self.old (ShardName dc shard)) self.old self.new [] lines.old lines.new) }
    {
        let place = place_of(&self.cluster, dc, shard);
        shard_stops(&mut self.shards, place, dc, shard, lines)
    }

    /// A node that is up stops.
    pub(crate) fn stop(&mut self, node: &NodeId, lines: &mut Lines) -> Result<(), NoMemory>
        requires { world_spec.is_up self.old.parties node.now ≡ true }
        ensures { OnOk result (Acted (stops self.old.parties node.now) (stop_work self.old node.now) self.old self.new [] lines.old lines.new) }
    {
        match node {
            NodeId::Coord(dc) => self.stop_coord(*dc, lines),
            NodeId::Shard(dc, shard) => self.stop_shard(*dc, *shard, lines),
        }
    }
}

impl Parties {
    /// The power of the disk of a coordinator that is up is to be cut at this call from now on.
    fn arm_coord(&mut self, dc: DcId, call: u32, pick: u8)
        requires { world_spec.is_up self.old.parties (CoordName dc) ≡ true }
        ensures { Acted Idle (arm_work self.old (CoordName dc) call pick) self.old self.new [] [] [] }
    {
        coord_arms(&mut self.coords, dc, call, pick);
    }

    /// The power of the disk of a shard server that is up is to be cut at this call from now on.
    fn arm_shard(&mut self, dc: DcId, shard: ShardId, call: u32, pick: u8)
        requires { world_spec.is_up self.old.parties (ShardName dc shard) ≡ true }
        ensures { Acted Idle (arm_work self.old (ShardName dc shard) call pick) self.old self.new [] [] [] }
    {
        let place = place_of(&self.cluster, dc, shard);
        shard_arms(&mut self.shards, place, call, pick);
    }

    /// The power of the disk of a node that is up is to be cut at this call from now on.
    pub(crate) fn arm(&mut self, node: &NodeId, call: u32, pick: u8)
        requires { world_spec.is_up self.old.parties node.now ≡ true }
        ensures { Acted Idle (arm_work self.old node.now call pick) self.old self.new [] [] [] }
    {
        match node {
            NodeId::Coord(dc) => self.arm_coord(*dc, call, pick),
            NodeId::Shard(dc, shard) => self.arm_shard(*dc, *shard, call, pick),
        }
    }
}

impl Parties {
    /// A coordinator starts from its log, and begins to catch up. Outside the world nobody does.
    fn restart_coord(&mut self, alloc: Global, dc: DcId) -> Result<Messages, NoMemory>
        ensures { IfOk result (λ out. Acted (restarts self.old.parties (CoordName dc)) (start_work self.old (CoordName dc)) self.old self.new out [] []) }
    {
        if dc.0 > self.cluster.dcs() {
            return Ok(Messages::new(alloc));
        }
        coord_starts(&mut self.coords, alloc, &self.cluster, dc)
    }

    /// A shard server starts from its log, and begins to catch up. Outside the world nobody does.
    fn restart_shard(
        &mut self,
        alloc: Global,
        dc: DcId,
        shard: ShardId,
    ) -> Result<Messages, NoMemory>
        ensures { IfOk result (λ out. Acted (restarts self.old.parties (ShardName dc shard)) (start_work self.old (ShardName dc shard)) self.old self.new out [] []) }
    {
        if !is_shard_of(&self.cluster, dc, shard) {
            return Ok(Messages::new(alloc));
        }
        let place = place_of(&self.cluster, dc, shard);
        if place >= self.shards.len() {
            return Ok(Messages::new(alloc));
        }
        shard_starts(&mut self.shards, place, alloc, dc)
    }

    /// A node starts from its log, and begins to catch up.
    pub(crate) fn restart(&mut self, alloc: Global, node: &NodeId) -> Result<Messages, NoMemory>
        ensures { IfOk result (λ out. Acted (restarts self.old.parties node.now) (start_work self.old node.now) self.old self.new out [] []) }
    {
        match node {
            NodeId::Coord(dc) => self.restart_coord(alloc, *dc),
            NodeId::Shard(dc, shard) => self.restart_shard(alloc, *dc, *shard),
        }
    }
}

impl Parties {
    /// Adds the lines that show a datacentre's shards.
    pub(crate) fn push_shown(
        &self,
        alloc: Global,
        dc: DcId,
        lines: &mut Lines,
    ) -> Result<(), NoMemory>
        ensures { OnOk result (lines.new ≡ lines.old ++ shown_lines self.now.parties dc) }
    {
        show_all(&self.cluster, self.shards.as_slice(), alloc, dc, lines)
    }
}

/// Adds the lines that show a datacentre's shards.
fn show_all(
    cluster: &Cluster,
    shards: &[ShardHost],
    alloc: Global,
    dc: DcId,
    lines: &mut Lines,
) -> Result<(), NoMemory>
    ensures { OnOk result (lines.new ≡ lines.old ++ flat_map (shown_at cluster.now (shard_nodes shards.now) dc) (up_to cluster.now.shards)) }
{
    let shards_in_dc = cluster.shards();
    for shard in 1..shards_in_dc + 1 {
        show_one(cluster, shards, alloc, dc, ShardId(shard), lines)?;
    }
    Ok(())
}

/// A shard server, by its datacentre and number.
fn shard_host<'a>(
    cluster: &Cluster,
    shards: &'a [ShardHost],
    dc: DcId,
    shard: ShardId,
) -> Option<&'a ShardHost>
    ensures { option_copied result ≡ host_at cluster.now shards.now dc shard }
{
    if !is_shard_of(cluster, dc, shard) {
        return None;
    }
    shards.get(place_of(cluster, dc, shard))
}

/// Adds the lines that show a shard server.
fn show_one(
    cluster: &Cluster,
    shards: &[ShardHost],
    alloc: Global,
    dc: DcId,
    shard: ShardId,
    lines: &mut Lines,
) -> Result<(), NoMemory>
    ensures { OnOk result (lines.new ≡ lines.old ++ shown_at cluster.now (shard_nodes shards.now) dc shard) }
{
    match shard_host(cluster, shards, dc, shard) {
        None => Ok(()),
        Some(host) => host.show(alloc, dc, shard, lines),
    }
}

/// Whether the coordinator of a datacentre is up.
#[tactic(auto, using(crate::proofs::Sites::node_at))]
fn coord_is_up(cluster: &Cluster, coords: &[CoordHost], dc: DcId) -> bool
    ensures { result ≡ maybe (if is_dc cluster.now dc then slice_get (coord_nodes coords.now) (coord_index dc) else None) false (λ x. x.up) }
{
    if dc.0 > cluster.dcs() {
        return false;
    }
    match coords.get(dc.0 as usize - 1) {
        None => false,
        Some(host) => host.is_up(),
    }
}

/// Whether a shard server is up.
#[tactic(auto, using(crate::proofs::Sites::shard_node_at))]
fn shard_is_up(cluster: &Cluster, shards: &[ShardHost], dc: DcId, shard: ShardId) -> bool
    ensures { result ≡ maybe (if world_spec.is_shard_of cluster.now dc shard then slice_get (shard_nodes shards.now) (shard_index cluster.now dc shard) else None) false (λ x. x.up) }
{
    if !is_shard_of(cluster, dc, shard) {
        return false;
    }
    match shards.get(place_of(cluster, dc, shard)) {
        None => false,
        Some(host) => host.is_up(),
    }
}
