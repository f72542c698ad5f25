// Coordinators at their places.
ghost use Rattle.std.specs.Prelude.{◌≡◌, ◌<◌, ◌++◌, [], ◌∷◌, true, false, Some, IsTrue, OnOk, IfOk, IfErr, length, slice_get, slice_set};
ghost use Rattle.rc_ids.specs.Cluster.{is_dc};
ghost use Rattle.rc_protocol.specs.Nodes.{coord_index};
ghost use Rattle.rc_plain_world.specs.Hosts.{CoordSite, coord_part};
ghost use Rattle.rc_plain_world.specs.Acted.{CoordDone, CoordDid, CoordIdle, CoordStarts, Lacking, stopped_coord, armed_coord};
ghost use Rattle.rc_ids.specs.declared.names.NodeId.TheVariants.{Coord as CoordName};
ghost use Rattle.rc_report.specs.declared.line.Line.TheVariants.{Stopped as StoppedLine};

use crate::coord_host::CoordHost;
use crate::disk::Course;
use crate::fault::ActFault;
use crate::order::note_written;
use rc_body::Body;
use rc_ids::{Cluster, DcId, NoMemory, NodeId, TxId};
use rc_msg::{Envelope, Messages};
use rc_report::{Line, Lines};
use rc_runs::Event;
use std::alloc::Global;

/// A coordinator does its part in an event. Where it stops inside that, it sends nothing.
fn act_at(
    host: &mut CoordHost,
    alloc: Global,
    cluster: &Cluster,
    dc: DcId,
    sent: &[Envelope],
    event: &Event,
    lines: &mut Lines,
) -> Result<Messages, ActFault>
    requires { IsTrue (is_dc cluster.now dc) }
    ensures done { IfOk result (λ out. CoordDone cluster.now dc (coord_part cluster.now dc sent.now event.now host.old.node) host.old host.new out lines.old lines.new) }
    ensures lacking { IfErr result (λ e. Lacking e (coord_part cluster.now dc sent.now event.now host.old.node)) }
{
    let mut out = Messages::new(alloc);
    let course = host.act(alloc, cluster, dc, sent, event, &mut out)?;
    match course {
        Course::Goes => Ok(out),
        Course::Stops(_) => {
            lines.push(Line::Stopped(NodeId::Coord(dc)))?;
            Ok(Messages::new(alloc))
        }
    }
}

/// The coordinator of a datacentre does its part in an event, if it is up, and the order is kept.
pub(crate) fn coord_acts(
    coords: &mut Vec<CoordHost>,
    committed: &mut Vec<(TxId, Body)>,
    alloc: Global,
    cluster: &Cluster,
    dc: DcId,
    sent: &[Envelope],
    event: &Event,
    lines: &mut Lines,
) -> Result<Messages, ActFault>
    requires dc { IsTrue (is_dc cluster.now dc) }
    requires inside { coord_index dc < length coords.old.items }
    ensures length { length coords.new.items ≡ length coords.old.items }
    ensures idle { IfOk result (λ out. (h : CoordSite) → slice_get coords.old.items (coord_index dc) ≡ Some h → h.node.up ≡ false
        → CoordIdle coords.old.items coords.new.items committed.old.items committed.new.items out lines.old lines.new) }
    ensures did { IfOk result (λ out. (h : CoordSite) → slice_get coords.old.items (coord_index dc) ≡ Some h → h.node.up ≡ true
        → CoordDid cluster.now dc (coord_part cluster.now dc sent.now event.now h.node) h coords.old.items coords.new.items committed.old.items committed.new.items out lines.old lines.new) }
    ensures lacking { IfErr result (λ e. (h : CoordSite) → slice_get coords.old.items (coord_index dc) ≡ Some h
        → (h.node.up ≡ true) × Lacking e (coord_part cluster.now dc sent.now event.now h.node)) }
{
    let place = dc.0 as usize - 1;
    if !coords[place].is_up() {
        return Ok(Messages::new(alloc));
    }
    let before = coords[place].log_len();
    let out = act_at(&mut coords[place], alloc, cluster, dc, sent, event, lines)?;
    note_written(cluster, coords.as_slice(), committed, place, before)?;
    Ok(out)
}

/// The coordinator of a datacentre stops.
pub(crate) fn coord_stops(
    coords: &mut Vec<CoordHost>,
    dc: DcId,
    lines: &mut Lines,
) -> Result<(), NoMemory>
    requires { coord_index dc < length coords.old.items }
    ensures length { length coords.new.items ≡ length coords.old.items }
    ensures stopped { (h : CoordSite) → slice_get coords.old.items (coord_index dc) ≡ Some h
        → coords.new.items ≡ slice_set coords.old.items (coord_index dc) (stopped_coord h) }
    ensures prints { OnOk result (lines.new ≡ lines.old ++ StoppedLine (CoordName dc) ∷ []) }
{
    coords[dc.0 as usize - 1].stop();
    lines.push(Line::Stopped(NodeId::Coord(dc)))
}

/// The power of the disk of a datacentre's coordinator is to be cut at this call from now on.
pub(crate) fn coord_arms(coords: &mut Vec<CoordHost>, dc: DcId, call: u32, pick: u8)
    requires inside { coord_index dc < length coords.old.items }
    requires up { (h : CoordSite) → slice_get coords.old.items (coord_index dc) ≡ Some h → h.node.up ≡ true }
    ensures length { length coords.new.items ≡ length coords.old.items }
    ensures armed { (h : CoordSite) → slice_get coords.old.items (coord_index dc) ≡ Some h
        → coords.new.items ≡ slice_set coords.old.items (coord_index dc) (armed_coord call pick h) }
{
    coords[dc.0 as usize - 1].arm(call, pick);
}

/// The coordinator of a datacentre starts from its log, and begins to catch up.
pub(crate) fn coord_starts(
    coords: &mut Vec<CoordHost>,
    alloc: Global,
    cluster: &Cluster,
    dc: DcId,
) -> Result<Messages, NoMemory>
    requires { coord_index dc < length coords.old.items }
    ensures length { length coords.new.items ≡ length coords.old.items }
    ensures started { IfOk result (λ out. (h : CoordSite) → slice_get coords.old.items (coord_index dc) ≡ Some h
        → CoordStarts cluster.now dc h coords.old.items coords.new.items out) }
{
    let mut out = Messages::new(alloc);
    coords[dc.0 as usize - 1].restart(cluster, dc, &mut out)?;
    Ok(out)
}
