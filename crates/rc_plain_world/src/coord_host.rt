// A coordinator with its disk.
ghost use Rattle.std.specs.Prelude.{◌≡◌, ◌<◌, ◌++◌, [], true, false, Some, None, IsTrue, OnOk, IfOk, IfErr, length, slice_get};
ghost use Rattle.std.specs.List.{list_any};
ghost use Rattle.rc_protocol.specs.Nodes.{is_vote};
ghost use Rattle.rc_ids.specs.Cluster.{is_dc};
ghost use Rattle.rc_record.specs.CoordState.{new_durable};
ghost use Rattle.rc_protocol.specs.Coordinator.{CoordAct, do_catch, new_volatile};
ghost use Rattle.rc_protocol.specs.Nodes.{CoordNode, coord_after, coord_replayed, coord_started, coord_stopped};
ghost use Rattle.rc_runs.specs.Devices.{powered, armed, opened_once};
ghost use Rattle.rc_plain_coord.specs.Rows.{Handled};
ghost use Rattle.rc_plain_world.specs.Disks.{protocol_course};
ghost use Rattle.rc_plain_world.specs.Hosts.{CoordSite, CoordWent, Lacks};
ghost use Rattle.rc_plain_world.specs.Hosts as hosts;

use crate::disk::{Course, Disk};
use crate::lengths::record_len;
use crate::network::message;
use rc_ids::{Ballot, Cluster, DcId, NoMemory, Outcome, TxId};
use rc_msg::{Envelope, Messages};
use rc_plain_coord::{Coord, CoordFault};
use rc_record::Record;
use rc_runs::Event;
use std::alloc::Global;
use std::marker::Model;

/// A coordinator with its disk. Where it is up its log is open.
#[derive(Drop)]
pub(crate) struct CoordHost {
    node: Coord,
    disk: Disk,
}

impl Model for CoordHost {
    ghost use Rattle.std.specs.Prelude.{◌≡◌, true};
    ghost use Rattle.rc_plain_world.specs.Hosts.{CoordSite};

    ghost Value = { CoordSite };

    ghost view = { λ h. record { node = h.node; device = h.disk } };

    ghost invariant = { λ h. h.node.up ≡ true → h.disk.is_open ≡ true };
}

/// The coordinator does its part in an event.
#[tactic(auto, using(crate::proofs::Spent::lacks_row, crate::proofs::Spent::lacks_take))]
fn coord_act(
    coord: &mut Coord,
    cluster: &Cluster,
    dc: DcId,
    sent: &[Envelope],
    event: &Event,
    out: &mut Messages,
) -> Result<(), CoordFault>
    requires { IsTrue (is_dc cluster.now dc) }
    ensures done { OnOk result (Handled (hosts.coord_part cluster.now dc sent.now event.now coord.old) coord.old coord.new out.old out.new) }
    ensures lacks { IfErr result (λ e. Lacks e (hosts.coord_part cluster.now dc sent.now event.now coord.old)) }
{
    match event {
        Event::Take(_, tx) => coord.take(cluster, dc, *tx, out),
        Event::Catch(_) => {
            coord.catch(cluster, dc, out)?;
            Ok(())
        }
        Event::Deliver(number) => match message(sent, *number) {
            Some(envelope) => coord.handle(cluster, dc, &envelope.from, &envelope.msg, out),
            None => Ok(()),
        },
        _ => Ok(()),
    }
}

/// The record that a coordinator's act added to its log, if it did, is appended on the disk. Where the coordinator stops
/// inside that, it keeps the record or takes it back.
fn append(
    coord: &mut Coord,
    disk: &mut Disk,
    alloc: Global,
    before: usize,
) -> Result<Course, NoMemory>
    ensures { IfOk result (λ course. (x : CoordNode) (act : CoordAct) → length x.log ≡ before → x.durable ≡ coord_replayed new_durable x.log
        → coord.old ≡ coord_after x act → CoordWent act (record { node = x; device = disk.old }) (record { node = coord.new; device = disk.new }) (protocol_course course)) }
{
    if coord.log_len() <= before {
        return Ok(Course::Goes);
    }
    let len = record_len(alloc, coord.record(before))?;
    let course = disk.append(len)?;
    if let Course::Stops(kept) = course {
        if !kept {
            coord.take_back(alloc)?;
        }
        coord.stop();
    }
    Ok(course)
}

/// The coordinator does its part in an event, and its record is appended on the disk.
fn act(
    coord: &mut Coord,
    disk: &mut Disk,
    alloc: Global,
    cluster: &Cluster,
    dc: DcId,
    sent: &[Envelope],
    event: &Event,
    out: &mut Messages,
) -> Result<Course, CoordFault>
    requires { IsTrue (is_dc cluster.now dc) }
    ensures went { IfOk result (λ course. CoordWent (hosts.coord_part cluster.now dc sent.now event.now coord.old)
        (record { node = coord.old; device = disk.old }) (record { node = coord.new; device = disk.new }) (protocol_course course)) }
    ensures sends { OnOk result (out.new ≡ out.old ++ (hosts.coord_part cluster.now dc sent.now event.now coord.old).sends) }
    ensures whole { OnOk result ((hosts.coord_part cluster.now dc sent.now event.now coord.old).spent ≡ false) }
    ensures lacks { IfErr result (λ e. Lacks e (hosts.coord_part cluster.now dc sent.now event.now coord.old)) }
{
    let _up = coord.is_up();
    let before = coord.log_len();
    coord_act(coord, cluster, dc, sent, event, out)?;
    Ok(append(coord, disk, alloc, before)?)
}

impl CoordHost {
    /// A coordinator with an empty log, on a disk.
    pub(crate) fn new(alloc: Global, disk: Disk) -> CoordHost
        requires { disk.is_open ≡ true }
        ensures { result ≡ record { node = coord_started []; device = disk } }
    {
        CoordHost {
            node: Coord::new(alloc),
            disk,
        }
    }

    /// The coordinator does its part in an event, and its record is appended. After a fault it is stopped.
    pub(crate) fn act(
        &mut self,
        alloc: Global,
        cluster: &Cluster,
        dc: DcId,
        sent: &[Envelope],
        event: &Event,
        out: &mut Messages,
    ) -> Result<Course, CoordFault>
        requires { IsTrue (is_dc cluster.now dc) }
        ensures went { IfOk result (λ course. CoordWent (hosts.coord_part cluster.now dc sent.now event.now self.old.node) self.old self.new (protocol_course course)) }
        ensures sends { OnOk result (out.new ≡ out.old ++ (hosts.coord_part cluster.now dc sent.now event.now self.old.node).sends) }
        ensures whole { OnOk result ((hosts.coord_part cluster.now dc sent.now event.now self.old.node).spent ≡ false) }
        ensures lacks { IfErr result (λ e. Lacks e (hosts.coord_part cluster.now dc sent.now event.now self.old.node)) }
    {
        let acted = act(
            &mut self.node,
            &mut self.disk,
            alloc,
            cluster,
            dc,
            sent,
            event,
            out,
        );
        match acted {
            Ok(course) => Ok(course),
            Err(fault) => {
                self.node.stop();
                Err(fault)
            }
        }
    }

    /// The coordinator stops.
    pub(crate) fn stop(&mut self)
        ensures node { self.new.node ≡ coord_stopped self.old.node None }
        ensures device { self.new.device ≡ powered self.old.device }
    {
        self.node.stop();
        self.disk.stop();
    }

    /// The power of its disk is to be cut at this call from now on.
    pub(crate) fn arm(&mut self, call: u32, pick: u8)
        requires { self.old.node.up ≡ true }
        ensures node { self.new.node ≡ self.old.node }
        ensures device { self.new.device ≡ armed self.old.device call pick }
    {
        let _up = self.node.is_up();
        self.disk.arm(call, pick);
    }

    /// The coordinator starts from its log, and begins to catch up.
    pub(crate) fn restart(
        &mut self,
        cluster: &Cluster,
        dc: DcId,
        out: &mut Messages,
    ) -> Result<(), NoMemory>
        ensures node { OnOk result (self.new.node ≡ coord_started self.old.node.log) }
        ensures device { OnOk result (opened_once self.old.device ≡ Some self.new.device) }
        ensures sends { OnOk result (out.new ≡ out.old ++ (do_catch cluster.now dc new_volatile).sends) }
    {
        self.node.stop();
        self.disk.open_once()?;
        self.node.restart();
        self.node.catch(cluster, dc, out)
    }

    /// Whether the coordinator is up.
    pub(crate) fn is_up(&self) -> bool
        ensures { result ≡ self.now.node.up }
    {
        self.node.is_up()
    }

    /// How many records the log has.
    pub(crate) fn log_len(&self) -> usize
        ensures { result ≡ length self.now.node.log }
    {
        self.node.log_len()
    }

    /// The record at a place of the log, counted from 0.
    pub(crate) fn record(&self, place: usize) -> &Record
        requires { place < length self.now.node.log }
        ensures { slice_get self.now.node.log place ≡ Some result.now }
    {
        self.node.record(place)
    }

    /// Whether the log has a vote of the transaction for commit at the ballot.
    pub(crate) fn has_vote(&self, tx: TxId, ballot: Ballot) -> bool
        ensures { result ≡ list_any (is_vote Outcome.Commit tx ballot) self.now.node.log }
    {
        self.node.has_vote(Outcome::Commit, tx, ballot)
    }
}
