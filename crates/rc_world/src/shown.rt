// What a world shows of its shard servers.
ghost use Rattle.std.specs.Prelude.{◌≡◌, ◌++◌, ◌-◌, ℕ, List, OnOk};
ghost use Rattle.std.specs.List.{flat_map};
ghost use Rattle.rc_ids.specs.Tables.{up_to};
ghost use Rattle.rc_protocol.specs.Nodes.{ShardNode};
ghost use Rattle.rc_protocol.specs.Shown.{row_lines};
ghost use Rattle.rc_runs.specs.Devices.{Device};
ghost use Rattle.rc_runs.specs.Script.{shown_lines};
ghost use Rattle.rc_runs.specs.Session.{Session};
ghost use Rattle.rc_host.specs.AnyNode.{shard_seen};
ghost use Rattle.rc_host.specs.Hosts.{sight};
ghost use Rattle.rc_begin.specs.Places.{AreAt};
ghost use Rattle.rc_begin.specs.Hosts.{Runs, IsShard, views};
ghost use Rattle.rc_world.specs.Shown.{shown_at};
ghost use Rattle.rc_world.specs.Words.{parts_of};
ghost use Rattle.rc_world.specs.Worlds.{IsWorld};

use crate::rows::show_rows;
use crate::shards::{is_shard_of, place_of};
use crate::world::World;
use rc_begin::ShardHost;
use rc_disk::{Disk, Farm};
use rc_host::Host;
use rc_ids::{Cluster, DcId, NoMemory, NodeId, ShardId};
use rc_log::{Journal, Log};
use rc_report::{Line, Lines};
use std::alloc::Global;

/// Adds the lines of a shard server, or the one line of one that is down.
fn show_host<D: Disk>(
    alloc: Global,
    node: NodeId,
    host: &ShardHost<D>,
    lines: &mut Lines,
) -> Result<(), NoMemory>
    ensures { (r : Runs) (place : ℕ) (x : ShardNode) (d : Device) → IsShard (sight shard_seen ⟦<Log<D> as Journal>⟧.state D.told D.content D.power) r place host.now x d → OnOk result (lines.new ≡ lines.old ++ row_lines node x) }
{
    match host {
        Host::Up(shard) => show_rows(alloc, node, shard, lines),
        _ => lines.push(Line::Down(node)),
    }
}

/// Adds the lines of a shard server, if it is one of the world.
fn show_one<D: Disk>(
    alloc: Global,
    cluster: &Cluster,
    shards: &[ShardHost<D>],
    dc: DcId,
    shard: ShardId,
    lines: &mut Lines,
) -> Result<(), NoMemory>
    ensures { (r : Runs) (nodes : List ShardNode) (devices : List Device) → AreAt (IsShard (sight shard_seen ⟦<Log<D> as Journal>⟧.state D.told D.content D.power) r) shards.now nodes devices → OnOk result (lines.new ≡ lines.old ++ shown_at cluster.now nodes dc shard) }
{
    if !is_shard_of(cluster, dc, shard) {
        return Ok(());
    }
    let place = place_of(cluster, dc, shard);
    if place >= shards.len() {
        return Ok(());
    }
    show_host(alloc, NodeId::Shard(dc, shard), &shards[place], lines)
}

/// Adds the lines of the shard servers of a datacentre.
fn show_all<D: Disk>(
    alloc: Global,
    cluster: &Cluster,
    shards: &[ShardHost<D>],
    dc: DcId,
    lines: &mut Lines,
) -> Result<(), NoMemory>
    ensures { (r : Runs) (nodes : List ShardNode) (devices : List Device) → AreAt (IsShard (sight shard_seen ⟦<Log<D> as Journal>⟧.state D.told D.content D.power) r) shards.now nodes devices
        → OnOk result (lines.new ≡ lines.old ++ flat_map (shown_at cluster.now nodes dc) (up_to cluster.now.shards)) }
{
    let last = cluster.shards();
    for shard in 1..last + 1 {
        show_one(alloc, cluster, shards, dc, ShardId(shard), lines)?;
    }
    Ok(())
}

impl<F: Farm> World<F> {
    /// Adds the lines of each shard server of a datacentre: those of its rows, or the one line of one that is down. Where there is no memory,
    /// some may have been added.
    pub fn show(&self, dc: DcId, lines: &mut Lines) -> Result<(), NoMemory>
        ensures { (r : Runs) (z : Session) → IsWorld (views ⟦<Log<F::D> as Journal>⟧.state F.D.told F.D.content F.D.power) r (parts_of self.now) z → OnOk result (lines.new ≡ lines.old ++ shown_lines z.world.parties dc) }
    {
        show_all(self.alloc, &self.cluster, self.shards.as_slice(), dc, lines)
    }
}
