// The table of take-overs.
ghost use Rattle.std.specs.Prelude.{◌≡◌, [], OnOk};
ghost use Rattle.std.specs.Option.{option_copied};
ghost use Rattle.std.specs.Ordering.{nat_cmp};
ghost use Rattle.rc_ids.specs.Tables.{found, without};
ghost use Rattle.rc_ids.specs.Tables as tables;

use crate::takeover::TakeOver;
use rc_ids::{NoMemory, TxId};
use std::alloc::Global;
use std::collections::BTreeMap;
use std::marker::Model;

/// The last take-over of each transaction that this datacentre took over.
#[derive(Drop)]
pub struct TakeOvers {
    map: BTreeMap<TxId, TakeOver>,
}

impl Model for TakeOvers {
    ghost use Rattle.std.specs.Prelude.{ℕ};
    ghost use Rattle.rc_ids.specs.Tables.{Table};
    ghost use Rattle.rc_protocol.specs.Coordinator.{TakeoverState as TakeOverOf};

    ghost Value = { Table ℕ TakeOverOf };

    ghost view = { λ t. t.map.entries };
}

impl TakeOvers {
    pub fn new(alloc: Global) -> TakeOvers
        ensures { result ≡ [] }
    {
        TakeOvers {
            map: BTreeMap::new(alloc),
        }
    }

    pub fn get(&self, tx: TxId) -> Option<&TakeOver>
        ensures { option_copied result ≡ found nat_cmp self.now tx }
    {
        self.map.get(&tx)
    }

    pub fn put(&mut self, tx: TxId, takeover: TakeOver) -> Result<(), NoMemory>
        ensures { OnOk result (self.new ≡ tables.put nat_cmp self.old tx takeover) }
    {
        self.map.insert(tx, takeover)?;
        Ok(())
    }

    pub fn remove(&mut self, tx: TxId)
        ensures { self.new ≡ without nat_cmp self.old tx }
    {
        let _ = self.map.remove(&tx);
    }
}
