// What a stop loses.
ghost use Rattle.std.specs.Prelude.{◌≡◌, ◌++◌, OnOk};
ghost use Rattle.rc_ids.specs.Tables.{member};
ghost use Rattle.rc_protocol.specs.Shard.{new_volatile, mark_cmp, forgotten, forgotten_all, is_next_shard_page, with_shard_cursor, do_catch, granted, grants, waits, locks_plain, on_read_cancel, preempted};

use crate::durable::Durable;
use crate::marks::Marks;
use crate::waiting::Waiting;
use rc_body::{Body, Page};
use rc_ids::{DcId, Key, NoMemory, NodeId, Party, TxId};
use rc_msg::{Messages, Msg};
use std::alloc::Global;
use std::marker::Model;

/// What a stop loses: plain read locks, the marks of those that a prepare took away, the reads that wait, and how far the coordinator's
/// list of outcomes was caught up with.
#[derive(Drop)]
pub struct Volatile {
    pub(crate) plain: Marks,
    pub(crate) lost: Marks,
    pub(crate) waiting: Waiting,
    place: u32,
}

impl Model for Volatile {
    ghost use Rattle.rc_protocol.specs.Shard.{ShardVolatile};

    ghost Value = { ShardVolatile };

    ghost view = { λ v. record { plain = v.plain; lost = v.lost; waiting = v.waiting; cursor = v.place } };
}

impl Volatile {
    /// Nothing yet.
    pub fn new(alloc: Global) -> Volatile
        ensures { result ≡ new_volatile }
    {
        Volatile {
            plain: Marks::new(alloc),
            lost: Marks::new(alloc),
            waiting: Waiting::new(alloc),
            place: 0,
        }
    }

    /// Whether the transaction lost its plain lock on the key.
    pub fn has_lost(&self, mark: &(Key, TxId)) -> bool
        ensures { result ≡ member mark_cmp self.now.lost mark.now }
    {
        self.lost.has(mark)
    }

    /// Lets the transaction wait for the key, once.
    pub fn wait(&mut self, mark: (Key, TxId)) -> Result<(), NoMemory>
        ensures { OnOk result (self.new ≡ waits self.old mark) }
    {
        if self.waiting.has(&mark) {
            return Ok(());
        }
        self.waiting.push(mark)
    }

    /// Gives the transaction a plain lock on the key.
    pub fn lock_plain(&mut self, mark: (Key, TxId)) -> Result<(), NoMemory>
        ensures { OnOk result (self.new ≡ locks_plain self.old mark) }
    {
        self.plain.add(mark)
    }

    /// Takes a read back: its plain lock, or its place among those that wait.
    pub fn cancel(&mut self, mark: &(Key, TxId))
        ensures { self.new ≡ (on_read_cancel self.old mark.now.1 mark.now.0).after }
    {
        self.plain.remove(mark);
        self.waiting.remove(mark);
    }

    /// Forgets the transaction.
    pub fn forget(&mut self, tx: TxId)
        ensures { self.new ≡ forgotten self.old tx }
    {
        self.plain.clear(tx);
        self.lost.clear(tx);
        self.waiting.clear(tx);
    }

    /// Forgets each transaction of the page.
    pub fn forget_all(&mut self, page: &Page)
        ensures { self.new ≡ forgotten_all self.old page.now }
    {
        for index in 0..page.len() {
            let (tx, _) = page.entry(index);
            self.forget(tx);
        }
    }

    /// Whether the page of outcomes is the next one, and its end is a place.
    pub fn is_next_page(&self, place: u32, page: &Page) -> bool
        ensures { result ≡ is_next_shard_page self.now place page.now }
    {
        place == self.place && place as u64 + (page.len() as u64) < 1 << 32
    }

    /// Keeps how far the list of outcomes was caught up with.
    pub fn set_place(&mut self, place: u32)
        ensures { self.new ≡ with_shard_cursor self.old place }
    {
        self.place = place;
    }

    /// Asks the coordinator for the outcomes from the place on.
    pub fn send_catch(&self, dc: DcId, out: &mut Messages) -> Result<(), NoMemory>
        ensures { OnOk result (out.new ≡ out.old ++ (do_catch dc self.now).sends) }
    {
        out.push(Party::Node(NodeId::Coord(dc)), &Msg::CatchAsk(self.place))
    }

    /// Takes the plain locks of others on keys that the part writes away, and lets the transaction's own locks and reads go.
    pub fn preempt(&mut self, tx: TxId, part: &Body) -> Result<(), NoMemory>
        ensures { OnOk result (self.new ≡ preempted self.old tx part.now) }
    {
        self.lost.add_taken(&self.plain, tx, part)?;
        self.plain.drop_taken(tx, part);
        self.plain.clear(tx);
        self.waiting.clear(tx);
        Ok(())
    }

    /// Sends a grant to each waiting read whose key nobody holds exclusively.
    pub fn send_grants(
        &self,
        dc: DcId,
        durable: &Durable,
        out: &mut Messages,
    ) -> Result<(), NoMemory>
        ensures { OnOk result (out.new ≡ out.old ++ grants dc durable.now self.now) }
    {
        self.waiting.send_grants(dc, durable, out)
    }

    /// Gives each waiting read whose key nobody holds exclusively a plain lock.
    pub fn grant(&mut self, durable: &Durable) -> Result<(), NoMemory>
        ensures { OnOk result (self.new ≡ granted durable.now self.old) }
    {
        self.plain.add_free(&self.waiting, &durable.parts)?;
        self.waiting.drop_free(&durable.parts);
        Ok(())
    }
}
