// A coordinator.
ghost use Rattle.std.specs.Prelude.{◌≡◌, ◌<◌, List, [], ◌∷◌, ◌++◌, length, Some, None, IsTrue, IsOkAnd, IfOk, OnOk, OnErr, IsErrOf, slice_get};
ghost use Rattle.std.specs.List.{list_any};
ghost use Rattle.rc_ids.specs.Cluster.{is_dc};
ghost use Rattle.rc_record.specs.CoordState.{new_durable, coord_applied};
ghost use Rattle.rc_record.specs.declared.record.Record.{Record as RecordOf};
ghost use Rattle.rc_protocol.specs.Coordinator.{coord_row, do_take, do_catch};
ghost use Rattle.rc_protocol.specs.Nodes.{CoordNode, coord_started, coord_stopped, coord_replayed, logged, applied};
ghost use Rattle.rc_protocol.specs.Nodes as nodes;
ghost use Rattle.rc_plain_coord.specs.Rows.{Handled, Spent};
ghost use Rattle.rc_plain_coord.specs.declared.fault.CoordFault.TheVariants.{BallotsSpent};

use crate::CoordFault;
use crate::catching::catch_up;
use crate::overtaking::take;
use crate::replay::{apply, replay};
use crate::rows::row;
use crate::volatile::Volatile;
use rc_body::Decision;
use rc_ids::{Ballot, Cluster, DcId, NoMemory, Outcome, Party, TxId};
use rc_msg::{Messages, Msg};
use rc_record::{CoordDurable, Record};
use std::alloc::Global;
use std::marker::Model;

/// The coordinator of a datacentre: its log, what the log gives back, and what is lost when it stops.
#[derive(Drop)]
pub struct Coord {
    up: bool,
    log: Vec<Record>,
    /// What the log gives back, where there was memory to keep it.
    durable: Option<CoordDurable>,
    volatile: Volatile,
}

impl Model for Coord {
    ghost use Rattle.rc_record.specs.CoordState.{new_durable};
    ghost use Rattle.rc_protocol.specs.Nodes.{CoordNode, coord_replayed};
    ghost use Rattle.rc_plain_coord.specs.Replays.{IsReplay};

    ghost Value = { CoordNode };

    ghost view = { λ c. record { up = c.up; log = c.log.items; durable = coord_replayed new_durable c.log.items; volatile = c.volatile } };

    ghost invariant = { λ c. IsReplay c.durable c.log.items };
}

/// Whether the record is a vote for the outcome at the ballot.
fn is_vote(entry: &Record, outcome: Outcome, tx: TxId, ballot: Ballot) -> bool
    ensures { result ≡ nodes.is_vote outcome tx ballot entry.now }
{
    match (entry, outcome) {
        (Record::Accepted(voted, at, Decision::Commit(_)), Outcome::Commit) => *voted == tx
            && *at == ballot,
        (Record::Accepted(voted, at, Decision::Abort), Outcome::Abort) => *voted == tx
            && *at == ballot,
        _ => false,
    }
}

impl Coord {
    /// A coordinator that is up, with an empty log.
    pub fn new(alloc: Global) -> Coord
        ensures { result ≡ coord_started [] }
    {
        Coord {
            up: true,
            log: Vec::new(alloc),
            durable: Some(CoordDurable::new(alloc)),
            volatile: Volatile::new(alloc),
        }
    }

    /// What the log gives back, taken out of the coordinator to be put back or replayed again.
    fn durable(&mut self) -> Result<CoordDurable, NoMemory>
        ensures value { IfOk result (λ durable. durable ≡ self.old.durable) }
        ensures same { self.new ≡ self.old }
    {
        match self.durable.take() {
            Some(durable) => Ok(durable),
            None => replay(*self.log.allocator(), self.log.as_slice()),
        }
    }

    /// Puts what the log gives back in its place.
    fn keep(&mut self, durable: CoordDurable)
        requires { durable ≡ self.old.durable }
        ensures { self.new ≡ self.old }
    {
        self.durable = Some(durable);
    }

    /// Writes a record at the end of the log, and makes of it what replay makes of it.
    fn write(&mut self, mut durable: CoordDurable, entry: Record) -> Result<(), NoMemory>
        requires { durable ≡ self.old.durable }
        ensures ok { OnOk result (let node : CoordNode = record { up = self.old.up; log = self.old.log ++ entry ∷ []; durable = coord_applied self.old.durable entry; volatile = self.old.volatile } in self.new ≡ node) }
        ensures err { OnErr result (self.new ≡ self.old) }
    {
        apply(&mut durable, &entry)?;
        self.log.push(entry)?;
        self.durable = Some(durable);
        Ok(())
    }

    /// Writes the record, where there is one.
    fn leave(&mut self, durable: CoordDurable, written: Option<Record>) -> Result<(), NoMemory>
        requires { durable ≡ self.old.durable }
        ensures ok { OnOk result (let node : CoordNode = record { up = self.old.up; log = logged self.old.log written; durable = applied coord_applied self.old.durable written; volatile = self.old.volatile } in self.new ≡ node) }
        ensures err { OnErr result (self.new ≡ self.old) }
    {
        match written {
            Some(entry) => self.write(durable, entry),
            None => {
                self.keep(durable);
                Ok(())
            }
        }
    }

    /// Ends a row: its record is written, or its fault is handed on.
    fn end(
        &mut self,
        durable: CoordDurable,
        done: Result<Option<Record>, CoordFault>,
    ) -> Result<(), CoordFault>
        requires { durable ≡ self.old.durable }
        ensures ok { OnOk result (IsOkAnd done (λ written. let node : CoordNode = record { up = self.old.up; log = logged self.old.log written; durable = applied coord_applied self.old.durable written; volatile = self.old.volatile } in self.new ≡ node)) }
        ensures spent { IsErrOf result BallotsSpent → IsErrOf done BallotsSpent }
        ensures err { OnErr result (self.new ≡ self.old) }
    {
        match done {
            Ok(written) => Ok(self.leave(durable, written)?),
            Err(fault) => {
                self.keep(durable);
                Err(fault)
            }
        }
    }

    /// Handles a message to the coordinator of this datacentre, which is of the cluster: what is to be sent is added to
    /// `out`. `BallotsSpent` comes where a take-over would need a ballot above the last one. Without memory the log is as
    /// before.
    pub fn handle(
        &mut self,
        cluster: &Cluster,
        dc: DcId,
        from: &Party,
        msg: &Msg,
        out: &mut Messages,
    ) -> Result<(), CoordFault>
        requires { IsTrue (is_dc cluster.now dc) }
        ensures done { OnOk result (Handled (coord_row cluster.now dc self.old.durable self.old.volatile from.now msg.now) self.old self.new out.old out.new) }
        ensures spent { IsErrOf result BallotsSpent → Spent (coord_row cluster.now dc self.old.durable self.old.volatile from.now msg.now) self.old self.new out.old out.new }
        ensures log { OnErr result (self.new.log ≡ self.old.log) }
    {
        let alloc = *self.log.allocator();
        let durable = self.durable()?;
        let done = row(
            alloc,
            cluster,
            dc,
            &durable,
            &mut self.volatile,
            from,
            msg,
            out,
        );
        self.end(durable, done)
    }

    /// Takes a transaction over, eagerly; to be used as `handle`.
    pub fn take(
        &mut self,
        cluster: &Cluster,
        dc: DcId,
        tx: TxId,
        out: &mut Messages,
    ) -> Result<(), CoordFault>
        requires { IsTrue (is_dc cluster.now dc) }
        ensures done { OnOk result (Handled (do_take cluster.now dc self.old.durable self.old.volatile tx) self.old self.new out.old out.new) }
        ensures spent { IsErrOf result BallotsSpent → Spent (do_take cluster.now dc self.old.durable self.old.volatile tx) self.old self.new out.old out.new }
        ensures log { OnErr result (self.new.log ≡ self.old.log) }
    {
        let durable = self.durable()?;
        let done = take(cluster, dc, &durable, &mut self.volatile, tx, out);
        self.end(durable, done)
    }

    /// Asks each other coordinator for the outcomes that it may have more.
    pub fn catch(&self, cluster: &Cluster, dc: DcId, out: &mut Messages) -> Result<(), NoMemory>
        ensures { OnOk result (out.new ≡ out.old ++ (do_catch cluster.now dc self.now.volatile).sends) }
    {
        catch_up(cluster, dc, &self.volatile, out)
    }

    /// Whether it is up. What the log gives back is always its replay.
    pub fn is_up(&self) -> bool
        ensures up { result ≡ self.now.up }
        ensures replay { self.now.durable ≡ coord_replayed new_durable self.now.log }
    {
        self.up
    }

    /// Stops: what is not in the log is lost.
    pub fn stop(&mut self)
        ensures { self.new ≡ coord_stopped self.old None }
    {
        self.volatile = Volatile::new(*self.log.allocator());
        self.up = false;
    }

    /// Starts from the log.
    pub fn restart(&mut self)
        ensures { self.new ≡ coord_started self.old.log }
    {
        self.volatile = Volatile::new(*self.log.allocator());
        self.up = true;
    }

    /// Takes the last record back, as if it had never been written, or leaves all as before. What is not in the log stays.
    pub fn take_back(&mut self, alloc: Global) -> Result<(), NoMemory>
        requires { 0 < length self.old.log }
        ensures ok { OnOk result ((log : List RecordOf) (r : RecordOf) → self.old.log ≡ log ++ r ∷ []
            → (let node : CoordNode = record { up = self.old.up; log = log; durable = coord_replayed new_durable log; volatile = self.old.volatile } in self.new ≡ node)) }
        ensures err { OnErr result (self.new ≡ self.old) }
    {
        let rest = self.log.len() - 1;
        let durable = replay(alloc, &self.log.as_slice()[..rest])?;
        self.log.truncate(rest);
        self.durable = Some(durable);
        Ok(())
    }

    /// How many records the log has.
    pub fn log_len(&self) -> usize
        ensures { result ≡ length self.now.log }
    {
        self.log.len()
    }

    /// The record at a place of the log, counted from 0.
    pub fn record(&self, place: usize) -> &Record
        requires { place < length self.now.log }
        ensures { slice_get self.now.log place ≡ Some result.now }
    {
        &self.log[place]
    }

    /// Whether the log has a vote of the transaction for the outcome at the ballot.
    pub fn has_vote(&self, outcome: Outcome, tx: TxId, ballot: Ballot) -> bool
        ensures { result ≡ list_any (nodes.is_vote outcome tx ballot) self.now.log }
    {
        self.log
            .iter()
            .any(|entry| is_vote(entry, outcome, tx, ballot))
    }
}
