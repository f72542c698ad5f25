// The prepared parts of transactions, by number. A stand-in until nodes stand on their tables.
ghost use Rattle.std.specs.Prelude.{◌≡◌, [], is_some, OnOk};
ghost use Rattle.std.specs.Ordering.{nat_cmp};
ghost use Rattle.rc_ids.specs.Tables.{found, put, without};

use rc_body::Body;
use rc_ids::{NoMemory, TxId};
use std::alloc::Global;
use std::collections::BTreeMap;
use std::marker::Model;

/// The part of each transaction that is prepared and not finished.
#[derive(Drop)]
pub struct PreparedParts {
    map: BTreeMap<TxId, Body>,
}

impl Model for PreparedParts {
    ghost use Rattle.std.specs.Prelude.{ℕ, List};
    ghost use Rattle.rc_ids.specs.Tables.{Table};
    ghost use Rattle.rc_body.specs.declared.entry.Entry.{Entry};

    ghost Value = { Table ℕ (List Entry) };

    ghost view = { λ a. a.map.entries };
}

impl PreparedParts {
    /// No parts.
    pub fn new(alloc: Global) -> PreparedParts
        ensures { result ≡ [] }
    {
        PreparedParts {
            map: BTreeMap::new(alloc),
        }
    }

    /// Whether a part of the transaction is there.
    pub fn has(&self, tx: TxId) -> bool
        ensures { result ≡ is_some (found nat_cmp self.now tx) }
    {
        self.map.contains_key(&tx)
    }

    /// Keeps the part of the transaction.
    pub fn put(&mut self, tx: TxId, part: Body) -> Result<(), NoMemory>
        ensures { OnOk result (self.new ≡ put nat_cmp self.old tx part) }
    {
        self.map.insert(tx, part)?;
        Ok(())
    }

    /// Lets the part of the transaction go.
    pub fn remove(&mut self, tx: TxId)
        ensures { self.new ≡ without nat_cmp self.old tx }
    {
        let _ = self.map.remove(&tx);
    }

    /// The parts as a map.
    pub fn as_map(&self) -> &BTreeMap<TxId, Body>
        ensures { result.now.entries ≡ self.now }
    {
        &self.map
    }
}
