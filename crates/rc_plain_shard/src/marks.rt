// Keys that transactions locked or lost.
ghost use Rattle.std.specs.Prelude.{◌≡◌, [], not, filter, OnOk};
ghost use Rattle.rc_ids.specs.Tables.{member, added};
ghost use Rattle.rc_protocol.specs.Shard.{Mark, mark_cmp, cleared, is_other, is_taken, added_all};
ghost use Rattle.rc_protocol.specs.Shard as shard;

use crate::entries::takes;
use crate::parts::is_free;
use crate::prepared::PreparedParts;
use crate::waiting::Waiting;
use rc_body::Body;
use rc_ids::{Key, NoMemory, TxId};
use std::alloc::Global;
use std::collections::BTreeSet;
use std::marker::Model;

/// Keys, each with a transaction that locked it or lost its lock on it.
#[derive(Drop)]
pub struct Marks {
    set: BTreeSet<(Key, TxId)>,
}

impl Model for Marks {
    ghost use Rattle.std.specs.Prelude.{List};
    ghost use Rattle.rc_protocol.specs.Shard.{Mark};

    ghost Value = { List Mark };

    ghost view = { λ a. a.set.keys };
}

impl Marks {
    /// No marks.
    pub fn new(alloc: Global) -> Marks
        ensures { result ≡ [] }
    {
        Marks {
            set: BTreeSet::new(alloc),
        }
    }

    /// Whether the transaction has the key.
    pub fn has(&self, mark: &(Key, TxId)) -> bool
        ensures { result ≡ member mark_cmp self.now mark.now }
    {
        self.set.contains(mark)
    }

    /// Gives the key to the transaction.
    pub fn add(&mut self, mark: (Key, TxId)) -> Result<(), NoMemory>
        ensures { OnOk result (self.new ≡ added mark_cmp self.old mark) }
    {
        self.set.insert(mark)?;
        Ok(())
    }

    /// Takes the key from the transaction.
    pub fn remove(&mut self, removed: &(Key, TxId))
        ensures { self.new ≡ filter (is_other removed.now) self.old }
    {
        self.set.retain(|mark| removed.cmp(mark).is_ne());
    }

    /// Takes all keys from the transaction.
    pub fn clear(&mut self, tx: TxId)
        ensures { self.new ≡ cleared self.old tx }
    {
        self.set.retain(|mark| mark.1 != tx);
    }

    /// Adds each mark that a prepare of the part takes away from the given ones.
    pub fn add_taken(&mut self, plain: &Marks, tx: TxId, part: &Body) -> Result<(), NoMemory>
        ensures { OnOk result (self.new ≡ added_all self.old (filter (is_taken tx part.now) plain.now)) }
    {
        for mark in &plain.set {
            if takes(tx, part, mark) {
                self.add((mark.0.copy(), mark.1))?;
            }
        }
        Ok(())
    }

    /// Adds each waiting read whose key nobody holds exclusively.
    pub fn add_free(&mut self, waiting: &Waiting, parts: &PreparedParts) -> Result<(), NoMemory>
        ensures { OnOk result (self.new ≡ added_all self.old (filter (shard.is_free parts.now) waiting.now)) }
    {
        for mark in &waiting.marks {
            if is_free(parts, mark) {
                self.add((mark.0.copy(), mark.1))?;
            }
        }
        Ok(())
    }

    /// Removes each mark that a prepare of the part takes away.
    pub fn drop_taken(&mut self, tx: TxId, part: &Body)
        ensures { self.new ≡ filter (λ (m : Mark). not (is_taken tx part.now m)) self.old }
    {
        self.set.retain(|mark| !takes(tx, part, mark));
    }
}
