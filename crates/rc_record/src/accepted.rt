// What a coordinator accepted.
ghost use Rattle.std.specs.Prelude.{◌≡◌, [], OnOk};
ghost use Rattle.std.specs.Option.{option_copied};
ghost use Rattle.std.specs.Ordering.{nat_cmp};
ghost use Rattle.rc_ids.specs.Tables.{found};
ghost use Rattle.rc_ids.specs.Tables as tables;

use rc_body::Decision;
use rc_ids::{Ballot, NoMemory, TxId};
use std::alloc::Global;
use std::collections::BTreeMap;
use std::marker::Model;

/// The highest ballot at which a decision was accepted for each transaction, with that decision.
#[derive(Drop)]
pub struct Acceptances {
    map: BTreeMap<TxId, (Ballot, Decision)>,
}

impl Model for Acceptances {
    ghost use Rattle.std.specs.Prelude.{ℕ};
    ghost use Rattle.rc_ids.specs.Tables.{Table};
    ghost use Rattle.rc_body.specs.declared.decision.Decision.{Decision};

    ghost Value = { Table ℕ (ℕ × Decision) };

    ghost view = { λ a. a.map.entries };
}

impl Acceptances {
    pub fn new(alloc: Global) -> Acceptances
        ensures { result ≡ [] }
    {
        Acceptances {
            map: BTreeMap::new(alloc),
        }
    }

    pub fn get(&self, tx: TxId) -> Option<&(Ballot, Decision)>
        ensures { option_copied result ≡ found nat_cmp self.now tx }
    {
        self.map.get(&tx)
    }

    pub fn put(&mut self, tx: TxId, ballot: Ballot, decision: Decision) -> Result<(), NoMemory>
        ensures { OnOk result (self.new ≡ tables.put nat_cmp self.old tx (ballot, decision)) }
    {
        self.map.insert(tx, (ballot, decision))?;
        Ok(())
    }

    /// What was accepted, by transaction.
    pub fn into_map(self) -> BTreeMap<TxId, (Ballot, Decision)>
        ensures { result.entries ≡ self }
    {
        self.map
    }
}
