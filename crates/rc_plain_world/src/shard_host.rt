// A shard server with its disk.
ghost use Rattle.std.specs.Prelude.{◌≡◌, ◌<◌, ◌++◌, [], true, Some, None, OnOk, IfOk, length};
ghost use Rattle.rc_record.specs.ShardState.{new_durable};
ghost use Rattle.rc_protocol.specs.Shard.{ShardAct, do_catch, new_volatile};
ghost use Rattle.rc_protocol.specs.Nodes.{ShardNode, shard_after, shard_replayed, shard_started, shard_stopped};
ghost use Rattle.rc_runs.specs.Devices.{powered, armed, opened_once};
ghost use Rattle.rc_ids.specs.declared.names.NodeId.TheVariants.{Shard as ShardName};
ghost use Rattle.rc_protocol.specs.Shown.{row_lines};
ghost use Rattle.rc_plain_world.specs.Disks.{protocol_course};
ghost use Rattle.rc_plain_world.specs.Hosts.{ShardSite, ShardWent};
ghost use Rattle.rc_plain_world.specs.Hosts as hosts;

use crate::disk::{Course, Disk};
use crate::lengths::record_len;
use crate::network::message;
use rc_ids::{Cluster, DcId, NoMemory, ShardId};
use rc_msg::{Envelope, Messages};
use rc_plain_shard::Shard;
use rc_report::Lines;
use rc_runs::Event;
use std::alloc::Global;
use std::marker::Model;

/// A shard server with its disk. Where it is up its log is open.
#[derive(Drop)]
pub(crate) struct ShardHost {
    node: Shard,
    disk: Disk,
}

impl Model for ShardHost {
    ghost use Rattle.std.specs.Prelude.{◌≡◌, true};
    ghost use Rattle.rc_plain_world.specs.Hosts.{ShardSite};

    ghost Value = { ShardSite };

    ghost view = { λ h. record { node = h.node; device = h.disk } };

    ghost invariant = { λ h. h.node.up ≡ true → h.disk.is_open ≡ true };
}

/// The shard server does its part in an event.
fn shard_act(
    node: &mut Shard,
    alloc: Global,
    cluster: &Cluster,
    dc: DcId,
    shard: ShardId,
    sent: &[Envelope],
    event: &Event,
    out: &mut Messages,
) -> Result<(), NoMemory>
    ensures node { OnOk result (node.new ≡ shard_after node.old (hosts.shard_part cluster.now dc shard sent.now event.now node.old)) }
    ensures sends { OnOk result (out.new ≡ out.old ++ (hosts.shard_part cluster.now dc shard sent.now event.now node.old).sends) }
{
    match event {
        Event::Catch(_) => node.catch(dc, out),
        Event::Deliver(number) => match message(sent, *number) {
            Some(envelope) => node.handle(alloc, cluster, dc, shard, &envelope.msg, out),
            None => Ok(()),
        },
        _ => Ok(()),
    }
}

/// The record that a shard server's act added to its log, if it did, is appended on the disk. Where the server stops
/// inside that, it keeps the record or takes it back.
fn append(
    node: &mut Shard,
    disk: &mut Disk,
    alloc: Global,
    before: usize,
) -> Result<Course, NoMemory>
    ensures { IfOk result (λ course. (x : ShardNode) (act : ShardAct) → length x.log ≡ before → x.durable ≡ shard_replayed new_durable x.log
        → node.old ≡ shard_after x act → ShardWent act (record { node = x; device = disk.old }) (record { node = node.new; device = disk.new }) (protocol_course course)) }
{
    if node.log_len() <= before {
        return Ok(Course::Goes);
    }
    let len = record_len(alloc, node.record(before))?;
    let course = disk.append(len)?;
    if let Course::Stops(kept) = course {
        if !kept {
            node.take_back(alloc)?;
        }
        node.stop();
    }
    Ok(course)
}

/// The shard server does its part in an event, and its record is appended on the disk.
fn act(
    node: &mut Shard,
    disk: &mut Disk,
    alloc: Global,
    cluster: &Cluster,
    dc: DcId,
    shard: ShardId,
    sent: &[Envelope],
    event: &Event,
    out: &mut Messages,
) -> Result<Course, NoMemory>
    ensures went { IfOk result (λ course. ShardWent (hosts.shard_part cluster.now dc shard sent.now event.now node.old)
        (record { node = node.old; device = disk.old }) (record { node = node.new; device = disk.new }) (protocol_course course)) }
    ensures sends { OnOk result (out.new ≡ out.old ++ (hosts.shard_part cluster.now dc shard sent.now event.now node.old).sends) }
{
    let _up = node.is_up();
    let before = node.log_len();
    shard_act(node, alloc, cluster, dc, shard, sent, event, out)?;
    append(node, disk, alloc, before)
}

impl ShardHost {
    /// A shard server with an empty log, on a disk.
    pub(crate) fn new(alloc: Global, disk: Disk) -> ShardHost
        requires { disk.is_open ≡ true }
        ensures { result ≡ record { node = shard_started []; device = disk } }
    {
        ShardHost {
            node: Shard::new(alloc),
            disk,
        }
    }

    /// The shard server does its part in an event, and its record is appended. After a fault it is stopped.
    pub(crate) fn act(
        &mut self,
        alloc: Global,
        cluster: &Cluster,
        dc: DcId,
        shard: ShardId,
        sent: &[Envelope],
        event: &Event,
        out: &mut Messages,
    ) -> Result<Course, NoMemory>
        ensures went { IfOk result (λ course. ShardWent (hosts.shard_part cluster.now dc shard sent.now event.now self.old.node) self.old self.new (protocol_course course)) }
        ensures sends { OnOk result (out.new ≡ out.old ++ (hosts.shard_part cluster.now dc shard sent.now event.now self.old.node).sends) }
    {
        let acted = act(
            &mut self.node,
            &mut self.disk,
            alloc,
            cluster,
            dc,
            shard,
            sent,
            event,
            out,
        );
        match acted {
            Ok(course) => Ok(course),
            Err(NoMemory) => {
                self.node.stop();
                Err(NoMemory)
            }
        }
    }

    /// The shard server stops.
    pub(crate) fn stop(&mut self)
        ensures node { self.new.node ≡ shard_stopped self.old.node None }
        ensures device { self.new.device ≡ powered self.old.device }
    {
        self.node.stop();
        self.disk.stop();
    }

    /// The power of its disk is to be cut at this call from now on.
    pub(crate) fn arm(&mut self, call: u32, pick: u8)
        requires { self.old.node.up ≡ true }
        ensures node { self.new.node ≡ self.old.node }
        ensures device { self.new.device ≡ armed self.old.device call pick }
    {
        let _up = self.node.is_up();
        self.disk.arm(call, pick);
    }

    /// The shard server starts from its log, and begins to catch up.
    pub(crate) fn restart(&mut self, dc: DcId, out: &mut Messages) -> Result<(), NoMemory>
        ensures node { OnOk result (self.new.node ≡ shard_started self.old.node.log) }
        ensures device { OnOk result (opened_once self.old.device ≡ Some self.new.device) }
        ensures sends { OnOk result (out.new ≡ out.old ++ (do_catch dc new_volatile).sends) }
    {
        self.node.stop();
        self.disk.open_once()?;
        self.node.restart();
        self.node.catch(dc, out)
    }

    /// Adds the lines that show the shard server.
    pub(crate) fn show(
        &self,
        alloc: Global,
        dc: DcId,
        shard: ShardId,
        lines: &mut Lines,
    ) -> Result<(), NoMemory>
        ensures { OnOk result (lines.new ≡ lines.old ++ row_lines (ShardName dc shard) self.now.node) }
    {
        self.node.show(alloc, dc, shard, lines)
    }

    /// Whether the shard server is up.
    pub(crate) fn is_up(&self) -> bool
        ensures { result ≡ self.now.node.up }
    {
        self.node.is_up()
    }

    /// The shard server.
    pub(crate) fn node(&self) -> &Shard
        ensures { result.now ≡ self.now.node }
    {
        &self.node
    }
}
