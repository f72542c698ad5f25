// A shard server.
ghost use Rattle.std.specs.Prelude.{◌≡◌, ◌+◌, ◌^◌, ◌<◌, [], ◌∷◌, ◌++◌, List, length, Some, None, is_some, IfOk, OnOk, OnErr, slice_get};
ghost use Rattle.rc_ids.specs.declared.names.NodeId.TheVariants.{Shard as ShardServer};
ghost use Rattle.rc_record.specs.ShardState.{new_durable};
ghost use Rattle.rc_record.specs.declared.record.Record.{Record as RecordState};
ghost use Rattle.rc_protocol.specs.Shard.{do_catch, shard_row, ignores_ask, on_read_ask, on_read_cancel, on_prepare, on_finish, on_catch_page, is_next_shard_page, test, takes_page, finishes_page, answers, asks_next_shard_page};
ghost use Rattle.rc_protocol.specs.Shard as shard_spec;
ghost use Rattle.rc_protocol.specs.Nodes.{ShardNode, shard_replayed, shard_started, shard_stopped, shard_after};
ghost use Rattle.rc_protocol.specs.Shown.{row_lines};
ghost use Rattle.rc_ids.specs.Cluster as cluster_spec;
ghost use Rattle.std.specs.Ordering.{nat_cmp};
ghost use Rattle.rc_ids.specs.Tables.{found};
ghost use Rattle.rc_plain_shard.specs.Acts.{HasActed, placed};

use crate::grants::send_grant;
use crate::log::ShardLog;
use crate::pages::unfinished;
use crate::parts::is_free;
use crate::reasons::refusal;
use crate::shown::show_rows;
use crate::volatile::Volatile;
use rc_body::{Body, Decision, Page, Reason};
use rc_ids::{Cluster, DcId, Key, NoMemory, NodeId, Party, ShardId, TxId};
use rc_msg::{Messages, Msg};
use rc_record::Record;
use rc_report::{Line, Lines};
use std::alloc::Global;
use std::marker::Model;

/// A shard server: its log, what the log gives back, and what a stop loses.
#[derive(Drop)]
pub struct Shard {
    up: bool,
    log: ShardLog,
    volatile: Volatile,
}

impl Model for Shard {
    ghost use Rattle.rc_protocol.specs.Nodes.{ShardNode};

    ghost Value = { ShardNode };

    ghost view = { λ s. record { up = s.up; log = s.log.log; durable = s.log.durable; volatile = s.volatile } };
}

/// Whether the datacentre is of the world.
fn is_dc(cluster: &Cluster, dc: DcId) -> bool
    ensures { result ≡ cluster_spec.is_dc cluster.now dc }
{
    1 <= dc.0 && dc.0 <= cluster.dcs()
}

/// Answers a prepare: yes, or no with a reason.
fn answer(
    dc: DcId,
    shard: ShardId,
    tx: TxId,
    reason: Option<Reason>,
    out: &mut Messages,
) -> Result<(), NoMemory>
    ensures { OnOk result (out.new ≡ out.old ++ answers dc shard tx reason) }
{
    out.push(
        Party::Node(NodeId::Coord(dc)),
        &Msg::Prepared(tx, shard, reason),
    )
}

/// Asks for the page after a full one, which began at the place and ended at the next one.
fn ask_next(dc: DcId, place: u32, page: &Page, out: &mut Messages) -> Result<(), NoMemory>
    requires { place + length page.now < 2 ^ 32 }
    ensures { OnOk result (out.new ≡ out.old ++ asks_next_shard_page dc place page.now) }
{
    if page.len() == Page::MOST_ENTRIES {
        let next = Msg::CatchAsk(place + page.len() as u32);
        out.push(Party::Node(NodeId::Coord(dc)), &next)?;
    }
    Ok(())
}

impl Shard {
    /// A shard server that keeps nothing yet.
    pub fn new(alloc: Global) -> Shard
        ensures { result ≡ shard_started [] }
    {
        Shard {
            up: true,
            log: ShardLog::new(alloc),
            volatile: Volatile::new(alloc),
        }
    }

    /// Whether the server is up. What the log gives back is always its replay.
    pub fn is_up(&self) -> bool
        ensures up { result ≡ self.now.up }
        ensures replay { self.now.durable ≡ shard_replayed new_durable self.now.log }
    {
        let _replayed = self.log.allocator();
        self.up
    }

    /// How many records the log has.
    pub fn log_len(&self) -> usize
        ensures { result ≡ length self.now.log }
    {
        self.log.len()
    }

    /// The record at a place of the log, counted from 0.
    pub fn record(&self, place: usize) -> &Record
        requires { place < length self.now.log }
        ensures { slice_get self.now.log place ≡ Some result.now }
    {
        self.log.record(place)
    }

    /// Stops the server: its log stays.
    pub fn stop(&mut self)
        ensures { self.new ≡ shard_stopped self.old None }
    {
        self.up = false;
        self.volatile = Volatile::new(self.log.allocator());
    }

    /// Starts the server from its log.
    pub fn restart(&mut self)
        ensures { self.new ≡ shard_started self.old.log }
    {
        let alloc = self.log.allocator();
        self.volatile = Volatile::new(alloc);
        self.up = true;
    }

    /// Drops the last record of the log, or leaves all as before.
    pub fn take_back(&mut self, alloc: Global) -> Result<(), NoMemory>
        requires { 0 < length self.old.log }
        ensures ok { (log : List RecordState) → (r : RecordState) → self.old.log ≡ log ++ r ∷ []
            → OnOk result (let node : ShardNode = record { up = self.old.up; log = log; durable = shard_replayed new_durable log; volatile = self.old.volatile } in self.new ≡ node) }
        ensures err { OnErr result (self.new ≡ self.old) }
    {
        self.log.take_back(alloc)
    }

    /// Does what this shard of this datacentre does at a message, and adds what it sends.
    pub fn handle(
        &mut self,
        alloc: Global,
        cluster: &Cluster,
        dc: DcId,
        shard: ShardId,
        msg: &Msg,
        out: &mut Messages,
    ) -> Result<(), NoMemory>
        ensures { let act = shard_row cluster.now dc shard self.old.durable self.old.volatile msg.now in
            OnOk result ((self.new ≡ shard_after self.old act) × (out.new ≡ out.old ++ act.sends)) }
    {
        self.act(alloc, cluster, dc, shard, msg, out)
    }

    /// The row of the message.
    fn act(
        &mut self,
        alloc: Global,
        cluster: &Cluster,
        dc: DcId,
        shard: ShardId,
        msg: &Msg,
        out: &mut Messages,
    ) -> Result<(), NoMemory>
        ensures { let act = shard_row cluster.now dc shard self.old.durable self.old.volatile msg.now in
            OnOk result (HasActed self.old self.new out.old out.new act) }
    {
        match msg {
            Msg::ReadAsk(tx, key) => self.read_ask(dc, (key.copy(), *tx), out),
            Msg::ReadCancel(tx, key) => {
                self.volatile.cancel(&(key.copy(), *tx));
                Ok(())
            }
            Msg::Prepare(tx, part) => self.prepare(dc, shard, *tx, part, out),
            Msg::Finish(tx, decision) => self.finish(alloc, dc, *tx, decision, out),
            Msg::CatchPage(from, place, page) => {
                if !is_dc(cluster, *from) {
                    return Ok(());
                }
                self.catch_page(alloc, cluster, dc, shard, *place, page, out)
            }
            _ => Ok(()),
        }
    }

    fn is_finished(&self, tx: TxId) -> bool
        ensures { result ≡ is_some (found nat_cmp self.now.durable.finished tx) }
    {
        self.log.durable().finished.has(tx)
    }

    fn is_prepared(&self, tx: TxId) -> bool
        ensures { result ≡ is_some (found nat_cmp self.now.durable.parts tx) }
    {
        self.log.durable().parts.has(tx)
    }

    /// Whether a read is of no use: the transaction is finished or prepared here, or lost the key.
    fn ignores(&self, mark: &(Key, TxId)) -> bool
        ensures { result ≡ ignores_ask self.now.durable self.now.volatile mark.now.1 mark.now.0 }
    {
        self.is_finished(mark.1) || self.is_prepared(mark.1) || self.volatile.has_lost(mark)
    }

    /// The row of a read: it is granted, or waits.
    fn read_ask(&mut self, dc: DcId, mark: (Key, TxId), out: &mut Messages) -> Result<(), NoMemory>
        ensures { let act = on_read_ask dc self.old.durable self.old.volatile mark.1 mark.0 in
            OnOk result (HasActed self.old self.new out.old out.new act) }
    {
        if self.ignores(&mark) {
            return Ok(());
        }
        let durable = self.log.durable();
        if !is_free(&durable.parts, &mark) {
            return self.volatile.wait(mark);
        }
        send_grant(dc, &durable.rows, &mark, out)?;
        self.volatile.lock_plain(mark)
    }

    /// Why the part of the transaction may not be prepared, where it may not.
    fn refusal(&self, tx: TxId, part: &Body) -> Option<Reason>
        ensures { result ≡ test self.now.durable self.now.volatile tx part.now }
    {
        refusal(self.log.durable(), &self.volatile, tx, part)
    }

    /// The row of a prepare: yes, or no with a reason.
    fn prepare(
        &mut self,
        dc: DcId,
        shard: ShardId,
        tx: TxId,
        part: &Body,
        out: &mut Messages,
    ) -> Result<(), NoMemory>
        ensures { let act = on_prepare dc shard self.old.durable self.old.volatile tx part.now in
            OnOk result (HasActed self.old self.new out.old out.new act) }
    {
        if self.is_finished(tx) {
            return Ok(());
        }
        if self.is_prepared(tx) {
            return answer(dc, shard, tx, None, out);
        }
        if let Some(reason) = self.refusal(tx, part) {
            return answer(dc, shard, tx, Some(reason), out);
        }
        self.volatile.preempt(tx, part)?;
        self.log.write(Record::Prepared(tx, part.copy()?))?;
        answer(dc, shard, tx, None, out)
    }

    /// The row of an outcome.
    fn finish(
        &mut self,
        alloc: Global,
        dc: DcId,
        tx: TxId,
        decision: &Decision,
        out: &mut Messages,
    ) -> Result<(), NoMemory>
        ensures { let act = on_finish dc self.old.durable self.old.volatile tx decision.now in
            OnOk result (HasActed self.old self.new out.old out.new act) }
    {
        if self.is_finished(tx) {
            return Ok(());
        }
        let page = Page::one(alloc, tx, decision.copy()?)?;
        self.settle(dc, page, out)
    }

    /// Keeps the outcomes of the page, and grants the reads that waited for its keys.
    fn settle(&mut self, dc: DcId, page: Page, out: &mut Messages) -> Result<(), NoMemory>
        ensures { OnOk result (HasActed self.old self.new out.old out.new (finishes_page dc self.old.durable self.old.volatile page)) }
    {
        self.volatile.forget_all(&page);
        self.log.write(Record::Finished(page))?;
        self.volatile.send_grants(dc, self.log.durable(), out)?;
        self.volatile.grant(self.log.durable())
    }

    /// Keeps the outcomes of the page, if there are any.
    fn take_page(&mut self, dc: DcId, page: Page, out: &mut Messages) -> Result<(), NoMemory>
        ensures { OnOk result (HasActed self.old self.new out.old out.new (takes_page dc self.old.durable self.old.volatile page)) }
    {
        if page.is_empty() {
            return Ok(());
        }
        self.settle(dc, page, out)
    }

    fn is_next_page(&self, place: u32, page: &Page) -> bool
        ensures { result ≡ is_next_shard_page self.now.volatile place page.now }
    {
        self.volatile.is_next_page(place, page)
    }

    /// What of the page concerns the shard and is not finished here.
    fn unfinished(
        &self,
        alloc: Global,
        cluster: &Cluster,
        shard: ShardId,
        page: &Page,
    ) -> Result<Page, NoMemory>
        ensures { IfOk result (λ left. left ≡ shard_spec.unfinished cluster.now shard self.now.durable page.now) }
    {
        unfinished(alloc, cluster, shard, self.log.durable(), page)
    }

    fn set_place(&mut self, place: u32)
        ensures { self.new ≡ placed self.old place }
    {
        self.volatile.set_place(place);
    }

    /// The row of a page of outcomes: what is not finished here is kept, and after a full page the next one is asked for.
    fn catch_page(
        &mut self,
        alloc: Global,
        cluster: &Cluster,
        dc: DcId,
        shard: ShardId,
        place: u32,
        page: &Page,
        out: &mut Messages,
    ) -> Result<(), NoMemory>
        ensures { let act = on_catch_page cluster.now dc shard self.old.durable self.old.volatile place page.now in
            OnOk result (HasActed self.old self.new out.old out.new act) }
    {
        if !self.is_next_page(place, page) {
            return Ok(());
        }
        let left = self.unfinished(alloc, cluster, shard, page)?;
        self.set_place(place + page.len() as u32);
        self.take_page(dc, left, out)?;
        ask_next(dc, place, page, out)
    }

    /// Asks the coordinator for the outcomes that come after those that were caught up with.
    pub fn catch(&self, dc: DcId, out: &mut Messages) -> Result<(), NoMemory>
        ensures { OnOk result (out.new ≡ out.old ++ (do_catch dc self.now.volatile).sends) }
    {
        self.volatile.send_catch(dc, out)
    }

    /// Adds a line for each key that was written or is held exclusively, in key order, or the one line of a stopped server.
    pub fn show(
        &self,
        alloc: Global,
        dc: DcId,
        shard: ShardId,
        lines: &mut Lines,
    ) -> Result<(), NoMemory>
        ensures { OnOk result (lines.new ≡ lines.old ++ row_lines (ShardServer dc shard) self.now) }
    {
        if !self.up {
            return lines.push(Line::Down(NodeId::Shard(dc, shard)));
        }
        show_rows(alloc, dc, shard, self.log.durable(), lines)
    }
}
