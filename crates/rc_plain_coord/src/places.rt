// Places in the lists of other coordinators.
ghost use Rattle.std.specs.Prelude.{◌≡◌, [], OnOk};
ghost use Rattle.std.specs.Ordering.{nat_cmp};
ghost use Rattle.rc_ids.specs.Tables.{found, maybe};
ghost use Rattle.rc_ids.specs.Tables as tables;

use rc_ids::{DcId, NoMemory};
use std::alloc::Global;
use std::collections::BTreeMap;
use std::marker::Model;

/// How far the list of outcomes of each other coordinator was caught up with.
#[derive(Drop)]
pub struct Places {
    map: BTreeMap<DcId, u32>,
}

impl Model for Places {
    ghost use Rattle.std.specs.Prelude.{ℕ};
    ghost use Rattle.rc_ids.specs.Tables.{Table};

    ghost Value = { Table ℕ ℕ };

    ghost view = { λ p. p.map.entries };
}

impl Places {
    pub fn new(alloc: Global) -> Places
        ensures { result ≡ [] }
    {
        Places {
            map: BTreeMap::new(alloc),
        }
    }

    /// The place; 0 where there is none.
    pub fn get(&self, dc: DcId) -> u32
        ensures { result ≡ maybe (found nat_cmp self.now dc) 0 (λ place. place) }
    {
        match self.map.get(&dc) {
            Some(place) => *place,
            None => 0,
        }
    }

    pub fn put(&mut self, dc: DcId, place: u32) -> Result<(), NoMemory>
        ensures { OnOk result (self.new ≡ tables.put nat_cmp self.old dc place) }
    {
        self.map.insert(dc, place)?;
        Ok(())
    }
}
