// A node's disk in memory, by its counters: no call fails there but by a cut of its power.
ghost use Rattle.std.specs.Prelude.{◌≡◌, ◌<◌, ◌≤◌, ◌+◌, ◌-◌, [], true, false, Some, None, OnOk, IfOk, Option, ◌^◌, ℕ};
ghost use Rattle.rc_runs.specs.Devices.{new_device, appended, Made, powered, opened_once, armed};
ghost use Rattle.rc_runs.specs.Devices.{created, keeps};
ghost use Rattle.rc_disk.specs.declared.power.Cause.TheVariants.{ByCut};
ghost use Rattle.rc_plain_world.specs.Starts.{headed, Begins};
ghost use Rattle.rc_plain_world.specs.Disks.{Appended, reopened};
ghost use Rattle.rc_plain_world.specs.Disks as disks;

use crate::lengths::head_len;
use rc_ids::{Cluster, NoMemory, NodeId};
use std::alloc::Global;
use std::marker::Model;

/// The most bytes of a log.
const MOST_LOG_BYTES: u64 = 1 << 28;

/// The calls of an append.
const APPEND_CALLS: u32 = 4;

/// How an event's append went: the node goes on, or stops with its record kept or not.
#[derive(Clone, Copy, Debug, PartialEq, Eq)]
pub(crate) enum Course {
    Goes,
    Stops(bool),
}

/// A disk with a node's log.
#[derive(Drop)]
pub(crate) struct Disk {
    /// Where the closed gate stands behind the last frame.
    place: u64,
    /// The writes, cuts and syncs made.
    calls: u64,
    reads: u64,
    /// The power is cut at this call from now on, with this pick.
    cut: Option<(u32, u8)>,
    /// Its log was opened since its node stopped.
    is_open: bool,
}

impl Model for Disk {
    ghost use Rattle.std.specs.Prelude.{◌≡◌, ◌≤◌, [], true, false, None};
    ghost use Rattle.rc_runs.specs.Devices.{Device};

    ghost Value = { Device };

    ghost view = { λ d. record { offset = d.place; calls = d.calls; reads = d.reads; failing = []; failing_reads = []; cut = d.cut; is_open = d.is_open } };

    ghost invariant = { λ d. (d.place ≤ 268435456) × (d.is_open ≡ false → d.cut ≡ None) };
}

/// A number that is counted on; there is no memory for a longer one.
pub(crate) fn counted(count: u64, more: u64) -> Result<u64, NoMemory>
    ensures { IfOk result (λ sum. sum ≡ count + more) }
{
    count.checked_add(more).ok_or(NoMemory)
}

/// The call of an append at which a cut falls that is armed so, with its pick.
fn falling(cut: Option<(u32, u8)>) -> Option<(u32, u8)>
    ensures { result ≡ disks.falling cut }
{
    match cut {
        Some((call, pick)) if 1 <= call && call <= APPEND_CALLS => Some((call, pick)),
        _ => None,
    }
}

/// A cut that did not fall in an append, after it.
fn nearer(cut: Option<(u32, u8)>) -> Option<(u32, u8)>
    ensures { result ≡ disks.nearer_by_append cut }
{
    match cut {
        Some((call, pick)) => Some((call.saturating_sub(APPEND_CALLS), pick)),
        None => None,
    }
}

/// Whether the record stays of an append whose power was cut at this call.
fn is_kept(call: u32, pick: u8) -> bool
    ensures { result ≡ keeps call (ByCut pick) }
{
    call >= 3 && (pick == 1 || pick == 3)
}

impl Disk {
    /// An empty disk.
    pub(crate) fn new() -> Disk
        ensures { result ≡ new_device [] [] }
    {
        Disk {
            place: 0,
            calls: 0,
            reads: 0,
            cut: None,
            is_open: true,
        }
    }

    /// A log is created.
    pub(crate) fn create(&mut self) -> Result<(), NoMemory>
        requires { self.old.cut ≡ None }
        ensures made { OnOk result (created self.old ≡ (Made, self.new)) }
        ensures uncut { self.new.cut ≡ None }
    {
        self.calls = counted(self.calls, 2)?;
        Ok(())
    }

    /// An append of a record of this length. Where the node stops inside it, the log is opened again at once.
    pub(crate) fn append(&mut self, len: u64) -> Result<Course, NoMemory>
        ensures { IfOk result (λ course. Appended course (appended self.old len) self.old self.new) }
    {
        if len > MOST_LOG_BYTES || self.place + 5 + len + 1 > MOST_LOG_BYTES {
            self.reopen(0, self.place)?;
            return Ok(Course::Stops(false));
        }
        let end = self.place + 5 + len;
        match falling(self.cut) {
            None => {
                self.calls = counted(self.calls, APPEND_CALLS as u64)?;
                self.place = end;
                self.cut = nearer(self.cut);
                Ok(Course::Goes)
            }
            Some((call, pick)) => {
                let kept = is_kept(call, pick);
                let place = if kept { end } else { self.place };
                self.reopen(call as u64, place)?;
                Ok(Course::Stops(kept))
            }
        }
    }

    /// The log is opened again after so many calls, with the gate at this place.
    fn reopen(&mut self, calls: u64, place: u64) -> Result<(), NoMemory>
        requires { place ≤ 268435456 }
        ensures { OnOk result (self.new ≡ reopened self.old calls place) }
    {
        self.calls = counted(counted(self.calls, calls)?, 1)?;
        self.reads = counted(self.reads, 1)?;
        self.place = place;
        self.cut = None;
        self.is_open = true;
        Ok(())
    }

    /// The node stops.
    pub(crate) fn stop(&mut self)
        ensures { self.new ≡ powered self.old }
    {
        self.cut = None;
        self.is_open = false;
    }

    /// The power is to be cut at this call from now on.
    pub(crate) fn arm(&mut self, call: u32, pick: u8)
        requires { self.old.is_open ≡ true }
        ensures { self.new ≡ armed self.old call pick }
    {
        self.cut = Some((call, pick));
    }

    /// The log is opened, if it is not.
    pub(crate) fn open_once(&mut self) -> Result<(), NoMemory>
        ensures done { OnOk result (opened_once self.old ≡ Some self.new) }
        ensures ready { OnOk result (self.new.is_open ≡ true) }
    {
        if self.is_open {
            return Ok(());
        }
        self.reopen(0, self.place)
    }
}

/// A disk on which the node's log was created, with its head.
pub(crate) fn new_disk(alloc: Global, node: &NodeId, cluster: &Cluster) -> Result<Disk, NoMemory>
    ensures device { IfOk result (λ d. d ≡ headed cluster.now node.now) }
    ensures begins { OnOk result (Begins cluster.now node.now) }
    ensures ready { IfOk result (λ d. d.is_open ≡ true) }
{
    let mut disk = Disk::new();
    disk.create()?;
    match disk.append(head_len(alloc, node, cluster)?)? {
        Course::Goes => Ok(disk),
        Course::Stops(_) => Err(NoMemory),
    }
}
