// The promises of a coordinator.
ghost use Rattle.std.specs.Prelude.{◌≡◌, [], OnOk};
ghost use Rattle.rc_record.specs.CoordState.{promise_of, promise_raised};

use rc_ids::{Ballot, NoMemory, TxId};
use std::alloc::Global;
use std::collections::BTreeMap;
use std::marker::Model;

/// The highest ballot that was promised for each transaction.
#[derive(Drop)]
pub struct Promises {
    map: BTreeMap<TxId, Ballot>,
}

impl Model for Promises {
    ghost use Rattle.std.specs.Prelude.{ℕ};
    ghost use Rattle.rc_ids.specs.Tables.{Table};

    ghost Value = { Table ℕ ℕ };

    ghost view = { λ p. p.map.entries };
}

impl Promises {
    pub fn new(alloc: Global) -> Promises
        ensures { result ≡ [] }
    {
        Promises {
            map: BTreeMap::new(alloc),
        }
    }

    /// The promise; ballot 0 where there is none.
    pub fn get(&self, tx: TxId) -> Ballot
        ensures { result ≡ promise_of self.now tx }
    {
        match self.map.get(&tx) {
            Some(ballot) => *ballot,
            None => Ballot(0),
        }
    }

    /// Raises the promise to the ballot, if it is lower.
    pub fn raise(&mut self, tx: TxId, ballot: Ballot) -> Result<(), NoMemory>
        ensures { OnOk result (self.new ≡ promise_raised self.old tx ballot) }
    {
        let promise = self.get(tx);
        let raised = if promise < ballot { ballot } else { promise };
        self.map.insert(tx, raised)?;
        Ok(())
    }

    /// The promises by transaction.
    pub fn into_map(self) -> BTreeMap<TxId, Ballot>
        ensures { result.entries ≡ self }
    {
        self.map
    }
}
