// Places in the lists of other coordinators.
ghost use Rattle.std.specs.Prelude.{◌≡◌, ◌≤◌, ◌<◌, [], OnOk};
ghost use Rattle.std.specs.Ordering.{nat_cmp};
ghost use Rattle.rc_ids.specs.Tables.{found, put as with_entry, maybe};

use indexmap::IndexMap;
use rc_ids::{DcId, NoMemory};
use std::alloc::Global;
use std::marker::Model;

/// How far the list of outcomes of each datacentre was caught up with.
#[derive(Drop)]
pub struct Places {
    list: IndexMap<DcId, u32>,
}

impl Model for Places {
    ghost use Rattle.std.specs.Prelude.{[]};
    ghost use Rattle.indexmap.specs.IndexMap.{spare};
    ghost use Rattle.rc_body.specs.Pages.{TxsDiffer};
    ghost use Rattle.rc_record.specs.InOrder.{filed};
    ghost use Rattle.rc_coord_tables.specs.Places.{PlaceTable, place_table};

    ghost Value = { PlaceTable };

    ghost view = { λ p. place_table (filed [] p.list.entries) (spare p.list) };

    ghost invariant = { λ p. TxsDiffer p.list.entries };
}

impl Places {
    /// Nothing was caught up with.
    pub fn new(alloc: Global) -> Places
        ensures { result.table ≡ [] }
    {
        Places {
            list: IndexMap::new(alloc),
        }
    }

    /// The place in the list of the datacentre, 0 where nothing was caught up with.
    pub fn get(&self, dc: DcId) -> u32
        ensures { result ≡ maybe (found nat_cmp self.now.table dc) 0 (λ place. place) }
    {
        match self.list.get(&dc) {
            Some(place) => *place,
            None => 0,
        }
    }

    /// Makes room for one datacentre more. All stays as it is.
    pub fn room(&mut self) -> Result<(), NoMemory>
        ensures ok { OnOk result (1 ≤ self.new.spare) }
        ensures table { self.new.table ≡ self.old.table }
    {
        self.list.reserve(1)?;
        Ok(())
    }

    /// Moves the place in the list of the datacentre. There is room for it.
    pub fn put(&mut self, dc: DcId, place: u32)
        requires { 0 < self.old.spare }
        ensures { self.new.table ≡ with_entry nat_cmp self.old.table dc place }
    {
        let _ = self.list.insert(dc, place).unwrap();
    }
}
