// Reads that wait for a key.
ghost use Rattle.std.specs.Prelude.{◌≡◌, [], ◌∷◌, ◌++◌, not, filter, map, OnOk};
ghost use Rattle.rc_ids.specs.Tables.{member};
ghost use Rattle.rc_protocol.specs.Shard.{Mark, mark_cmp, cleared, is_other, grant_of};
ghost use Rattle.rc_protocol.specs.Shard as shard;

use crate::durable::Durable;
use crate::grants::send_grant;
use crate::parts::is_free;
use crate::prepared::PreparedParts;
use rc_ids::{DcId, Key, NoMemory, TxId};
use rc_msg::Messages;
use std::alloc::Global;
use std::marker::Model;

/// The reads that wait for a key to become free, in order of arrival.
#[derive(Drop)]
pub struct Waiting {
    pub(crate) marks: Vec<(Key, TxId)>,
}

impl Model for Waiting {
    ghost use Rattle.std.specs.Prelude.{List};
    ghost use Rattle.rc_protocol.specs.Shard.{Mark};

    ghost Value = { List Mark };

    ghost view = { λ a. a.marks.items };
}

impl Waiting {
    /// No reads.
    pub fn new(alloc: Global) -> Waiting
        ensures { result ≡ [] }
    {
        Waiting {
            marks: Vec::new(alloc),
        }
    }

    /// Whether the transaction waits for the key.
    pub fn has(&self, wanted: &(Key, TxId)) -> bool
        ensures { result ≡ member mark_cmp self.now wanted.now }
    {
        self.marks.iter().any(|mark| wanted.cmp(mark).is_eq())
    }

    /// Adds a read at the end.
    pub fn push(&mut self, mark: (Key, TxId)) -> Result<(), NoMemory>
        ensures { OnOk result (self.new ≡ self.old ++ mark ∷ []) }
    {
        self.marks.push(mark)?;
        Ok(())
    }

    /// Removes the read.
    pub fn remove(&mut self, removed: &(Key, TxId))
        ensures { self.new ≡ filter (is_other removed.now) self.old }
    {
        self.marks.retain(|mark| removed.cmp(mark).is_ne());
    }

    /// Removes all reads of the transaction.
    pub fn clear(&mut self, tx: TxId)
        ensures { self.new ≡ cleared self.old tx }
    {
        self.marks.retain(|mark| mark.1 != tx);
    }

    /// Removes the reads whose key nobody holds exclusively.
    pub fn drop_free(&mut self, parts: &PreparedParts)
        ensures { self.new ≡ filter (λ (m : Mark). not (shard.is_free parts.now m)) self.old }
    {
        self.marks.retain(|mark| !is_free(parts, mark));
    }

    /// Sends a grant to each read whose key nobody holds exclusively.
    pub fn send_grants(
        &self,
        dc: DcId,
        durable: &Durable,
        out: &mut Messages,
    ) -> Result<(), NoMemory>
        ensures { OnOk result (out.new ≡ out.old ++ map (grant_of dc durable.now.rows) (filter (shard.is_free durable.now.parts) self.now)) }
    {
        for mark in &self.marks {
            if is_free(&durable.parts, mark) {
                send_grant(dc, &durable.rows, mark, out)?;
            }
        }
        Ok(())
    }
}
