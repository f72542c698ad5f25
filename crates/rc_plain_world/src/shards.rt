// Shard servers at their places.
ghost use Rattle.std.specs.Prelude.{◌≡◌, ◌<◌, ◌++◌, [], ◌∷◌, true, false, Some, OnOk, IfOk, length, slice_get, slice_set};
ghost use Rattle.rc_plain_world.specs.Hosts.{ShardSite, shard_part};
ghost use Rattle.rc_plain_world.specs.Acted.{ShardDone, ShardDid, ShardIdle, ShardStarts, stopped_shard, armed_shard};
ghost use Rattle.rc_ids.specs.declared.names.NodeId.TheVariants.{Shard as ShardName};
ghost use Rattle.rc_report.specs.declared.line.Line.TheVariants.{Stopped as StoppedLine};

use crate::disk::Course;
use crate::shard_host::ShardHost;
use rc_ids::{Cluster, DcId, NoMemory, NodeId, ShardId};
use rc_msg::{Envelope, Messages};
use rc_report::{Line, Lines};
use rc_runs::Event;
use std::alloc::Global;

/// A shard server does its part in an event. Where it stops inside that, it sends nothing.
fn act_at(
    host: &mut ShardHost,
    alloc: Global,
    cluster: &Cluster,
    dc: DcId,
    shard: ShardId,
    sent: &[Envelope],
    event: &Event,
    lines: &mut Lines,
) -> Result<Messages, NoMemory>
    ensures { IfOk result (λ out. ShardDone dc shard (shard_part cluster.now dc shard sent.now event.now host.old.node) host.old host.new out lines.old lines.new) }
{
    let mut out = Messages::new(alloc);
    let course = host.act(alloc, cluster, dc, shard, sent, event, &mut out)?;
    match course {
        Course::Goes => Ok(out),
        Course::Stops(_) => {
            lines.push(Line::Stopped(NodeId::Shard(dc, shard)))?;
            Ok(Messages::new(alloc))
        }
    }
}

/// The shard server at a place does its part in an event, if it is up.
pub(crate) fn shard_acts(
    shards: &mut Vec<ShardHost>,
    place: usize,
    alloc: Global,
    cluster: &Cluster,
    dc: DcId,
    shard: ShardId,
    sent: &[Envelope],
    event: &Event,
    lines: &mut Lines,
) -> Result<Messages, NoMemory>
    requires { place < length shards.old.items }
    ensures idle { IfOk result (λ out. (h : ShardSite) → slice_get shards.old.items place ≡ Some h → h.node.up ≡ false
        → ShardIdle shards.old.items shards.new.items out lines.old lines.new) }
    ensures did { IfOk result (λ out. (h : ShardSite) → slice_get shards.old.items place ≡ Some h → h.node.up ≡ true
        → ShardDid dc shard place (shard_part cluster.now dc shard sent.now event.now h.node) h shards.old.items shards.new.items out lines.old lines.new) }
{
    if !shards[place].is_up() {
        return Ok(Messages::new(alloc));
    }
    act_at(
        &mut shards[place],
        alloc,
        cluster,
        dc,
        shard,
        sent,
        event,
        lines,
    )
}

/// The shard server at a place stops.
pub(crate) fn shard_stops(
    shards: &mut Vec<ShardHost>,
    place: usize,
    dc: DcId,
    shard: ShardId,
    lines: &mut Lines,
) -> Result<(), NoMemory>
    requires { place < length shards.old.items }
    ensures stopped { (h : ShardSite) → slice_get shards.old.items place ≡ Some h → shards.new.items ≡ slice_set shards.old.items place (stopped_shard h) }
    ensures prints { OnOk result (lines.new ≡ lines.old ++ StoppedLine (ShardName dc shard) ∷ []) }
{
    shards[place].stop();
    lines.push(Line::Stopped(NodeId::Shard(dc, shard)))
}

/// The power of the disk of the shard server at a place is to be cut at this call from now on.
pub(crate) fn shard_arms(shards: &mut Vec<ShardHost>, place: usize, call: u32, pick: u8)
    requires inside { place < length shards.old.items }
    requires up { (h : ShardSite) → slice_get shards.old.items place ≡ Some h → h.node.up ≡ true }
    ensures { (h : ShardSite) → slice_get shards.old.items place ≡ Some h → shards.new.items ≡ slice_set shards.old.items place (armed_shard call pick h) }
{
    shards[place].arm(call, pick);
}

/// The shard server at a place starts from its log, and begins to catch up.
pub(crate) fn shard_starts(
    shards: &mut Vec<ShardHost>,
    place: usize,
    alloc: Global,
    dc: DcId,
) -> Result<Messages, NoMemory>
    requires { place < length shards.old.items }
    ensures { IfOk result (λ out. (h : ShardSite) → slice_get shards.old.items place ≡ Some h → ShardStarts dc place h shards.old.items shards.new.items out) }
{
    let mut out = Messages::new(alloc);
    shards[place].restart(dc, &mut out)?;
    Ok(out)
}
