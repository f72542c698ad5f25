// The gathers of open transactions.
ghost use Rattle.std.specs.Prelude.{◌≡◌, ◌≤◌, ◌<◌, [], OnOk};
ghost use Rattle.std.specs.Option.{option_map, option_copied};
ghost use Rattle.std.specs.Ordering.{nat_cmp};
ghost use Rattle.rc_ids.specs.Tables.{found, put as with_entry, without};
ghost use Rattle.rc_coord_tables.specs.Gathers.{gather_of, asked_of, answered, answered_in, raised_to, raised_in, asked_again};

use indexmap::IndexMap;
use rc_body::Body;
use rc_ids::{Ballot, NoMemory, ShardId, TxId};
use rc_vote::Gather;
use std::alloc::Global;
use std::marker::Model;

/// A gather, and the body whose shards it asks.
#[derive(Drop)]
pub struct Asked {
    pub gather: Gather,
    pub body: Body,
}

/// The gather of each open transaction for which this datacentre's shards were asked.
#[derive(Drop)]
pub struct Gathers {
    list: IndexMap<TxId, Asked>,
}

impl Model for Gathers {
    ghost use Rattle.indexmap.specs.IndexMap.{spare};
    ghost use Rattle.rc_body.specs.Pages.{TxsDiffer};
    ghost use Rattle.rc_coord_tables.specs.Maps.{shown_by};
    ghost use Rattle.rc_coord_tables.specs.Gathers.{GatherTable, gather_table, gather_of, asked_of};

    ghost Value = { GatherTable };

    ghost view = { λ g. gather_table (shown_by gather_of g.list.entries) (shown_by asked_of g.list.entries) (spare g.list) };

    ghost invariant = { λ g. TxsDiffer g.list.entries };
}

/// The shard says yes. Only its first yes counts.
fn say_yes(asked: &mut Asked, shard: ShardId)
    ensures gather { gather_of asked.new ≡ answered (asked_of asked.old) (gather_of asked.old) shard }
    ensures asked { asked_of asked.new ≡ asked_of asked.old }
{
    let _said = asked.gather.answer(shard, true);
}

/// The ballot becomes this one, if it is larger.
fn raise_to(asked: &mut Asked, ballot: Ballot)
    ensures gather { gather_of asked.new ≡ raised_to (gather_of asked.old) ballot }
    ensures asked { asked_of asked.new ≡ asked_of asked.old }
{
    let _left = asked.gather.start(ballot);
}

impl Gathers {
    /// No gathers.
    pub fn new(alloc: Global) -> Gathers
        ensures table { result.table ≡ [] }
        ensures asked { result.asked ≡ [] }
    {
        Gathers {
            list: IndexMap::new(alloc),
        }
    }

    /// The gather of the transaction, if there is one.
    pub fn get(&self, tx: TxId) -> Option<&Asked>
        ensures table { option_map gather_of (option_copied result) ≡ found nat_cmp self.now.table tx }
        ensures asked { option_map asked_of (option_copied result) ≡ found nat_cmp self.now.asked tx }
    {
        self.list.get(&tx)
    }

    /// Makes room for one more. All stays as it is.
    pub fn room(&mut self) -> Result<(), NoMemory>
        ensures ok { OnOk result (1 ≤ self.new.spare) }
        ensures table { self.new.table ≡ self.old.table }
        ensures asked { self.new.asked ≡ self.old.asked }
    {
        self.list.reserve(1)?;
        Ok(())
    }

    /// Keeps the gather, in the place of an earlier one. There is room for it.
    pub fn put(&mut self, tx: TxId, asked: Asked)
        requires { 0 < self.old.spare }
        ensures table { self.new.table ≡ with_entry nat_cmp self.old.table tx (gather_of asked) }
        ensures asked { self.new.asked ≡ with_entry nat_cmp self.old.asked tx (asked_of asked) }
    {
        let _ = self.list.insert(tx, asked).unwrap();
    }

    /// The shard says yes. It takes no memory.
    pub fn yes(&mut self, tx: TxId, shard: ShardId)
        ensures table { self.new.table ≡ answered_in self.old tx shard }
        ensures asked { self.new.asked ≡ asked_again self.old.asked tx }
    {
        match self.list.get_mut(&tx) {
            None => return,
            Some(asked) => say_yes(asked, shard),
        }
    }

    /// The ballot of the gather becomes this one, if it is larger. It takes no memory.
    pub fn raise(&mut self, tx: TxId, ballot: Ballot)
        ensures table { self.new.table ≡ raised_in self.old.table tx ballot }
        ensures asked { self.new.asked ≡ asked_again self.old.asked tx }
    {
        match self.list.get_mut(&tx) {
            None => return,
            Some(asked) => raise_to(asked, ballot),
        }
    }

    /// Forgets the gather of the transaction.
    pub fn remove(&mut self, tx: TxId)
        ensures table { self.new.table ≡ without nat_cmp self.old.table tx }
        ensures asked { self.new.asked ≡ without nat_cmp self.old.asked tx }
    {
        let _gather = self.list.swap_remove(&tx);
    }
}
