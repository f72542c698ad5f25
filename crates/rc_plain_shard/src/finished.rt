// The outcomes of finished transactions, by number. A stand-in until nodes stand on their tables.
ghost use Rattle.std.specs.Prelude.{◌≡◌, [], is_some, OnOk};
ghost use Rattle.std.specs.Ordering.{nat_cmp};
ghost use Rattle.rc_ids.specs.Tables.{found, put};

use rc_ids::{NoMemory, Outcome, TxId};
use std::alloc::Global;
use std::collections::BTreeMap;
use std::marker::Model;

/// The outcome of each transaction that is finished here.
#[derive(Drop)]
pub struct Finished {
    map: BTreeMap<TxId, Outcome>,
}

impl Model for Finished {
    ghost use Rattle.std.specs.Prelude.{ℕ};
    ghost use Rattle.rc_ids.specs.Tables.{Table};
    ghost use Rattle.rc_ids.specs.declared.names.Outcome.{Outcome};

    ghost Value = { Table ℕ Outcome };

    ghost view = { λ a. a.map.entries };
}

impl Finished {
    /// No outcomes.
    pub fn new(alloc: Global) -> Finished
        ensures { result ≡ [] }
    {
        Finished {
            map: BTreeMap::new(alloc),
        }
    }

    /// Whether the transaction is finished.
    pub fn has(&self, tx: TxId) -> bool
        ensures { result ≡ is_some (found nat_cmp self.now tx) }
    {
        self.map.contains_key(&tx)
    }

    /// Keeps the outcome of the transaction.
    pub fn put(&mut self, tx: TxId, outcome: Outcome) -> Result<(), NoMemory>
        ensures { OnOk result (self.new ≡ put nat_cmp self.old tx outcome) }
    {
        self.map.insert(tx, outcome)?;
        Ok(())
    }
}
