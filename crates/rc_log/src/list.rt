// A journal in memory.
ghost use Rattle.std.specs.Prelude.{◌≡◌, ◌+◌, ◌<◌, ◌≤◌, ◌++◌, [], ◌∷◌, length, false, vec_capacity, OnOk, OnErr, IsErrOf, refl};
ghost use Rattle.rc_log.specs.Journals.{list_state};
ghost use Rattle.rc_log.specs.Lists.{items_of, HasSpare};

use crate::{AppendFault, Journal};
use rc_ids::NoMemory;
use std::alloc::Global;
use std::mem;

/// A journal in memory. It has no disk, so that it never fails, and no limit.
#[derive(Drop)]
pub struct ListJournal {
    alloc: Global,
    records: Vec<Vec<u8>>,
    next: Vec<u8>,
    spare: u64,
    ghost has_spare: { HasSpare (length records.items) (vec_capacity records) next.items (vec_capacity next) spare },
}

impl ListJournal {
    ghost use Rattle.rc_log.specs.Words.{list_of};

    /// A journal without records.
    pub fn new(alloc: Global) -> ListJournal
        ensures { list_of result ≡ [] }
    {
        ListJournal {
            alloc,
            records: Vec::new(alloc),
            next: Vec::new(alloc),
            spare: 0,
        }
    }

    fn make_room(&mut self, len: usize) -> Result<(), NoMemory>
        ensures ok { OnOk result (len < self.new.spare) }
        ensures err { OnErr result (self.old.spare ≤ len) }
        ensures same { items_of self.new.records.items ≡ items_of self.old.records.items }
    {
        if (len as u64) < self.spare {
            return Ok(());
        }
        if len == usize::MAX {
            return Err(NoMemory);
        }
        self.spare = 0;
        self.next.reserve(len)?;
        self.records.reserve(1)?;
        self.spare = len as u64 + 1;
        Ok(())
    }

    /// Adds a record, for which there is room.
    fn add(&mut self, bytes: &[u8])
        requires { length bytes.now < self.old.spare }
        ensures { items_of self.new.records.items ≡ items_of self.old.records.items ++ bytes.now ∷ [] }
    {
        self.spare = 0;
        self.next.extend_from_slice(bytes).unwrap();
        let record = mem::replace(&mut self.next, Vec::new(self.alloc));
        self.records.push(record).unwrap();
    }
}

impl Journal for ListJournal {
    ghost use Rattle.rc_log.specs.Words.{list_of};

    ghost state = { λ j. list_state (items_of j.records.items) };

    ghost spare = { λ j. j.spare };

    ghost may_leave = { λ j left. ⊥ };

    ghost moment = { λ j. 0 };

    ghost left_since = { λ j t left. ⊥ };

    ghost counted = { λ j. refl };

    ghost sized = { λ j sound. refl };

    ghost at_rest = { λ j sound left none. absurd none };

    ghost no_other = { λ j left none. none };

    fn room(&mut self, len: usize) -> Result<(), NoMemory> {
        self.make_room(len)
    }

    fn append(&mut self, bytes: &[u8]) -> Result<(), AppendFault>
        ensures done { OnOk result (list_of self.new ≡ list_of self.old ++ bytes.now ∷ []) }
        ensures same { OnErr result (list_of self.new ≡ list_of self.old) }

        // Want of memory is all that can stop it.
        ensures only { OnErr result (IsErrOf result AppendFault.NoMemory) }
        ensures no_memory { OnErr result (self.old.spare ≤ length bytes.now) }
    {
        self.make_room(bytes.len())?;
        self.add(bytes);
        Ok(())
    }

    fn failed(&self) -> bool {
        false
    }

    fn count(&self) -> u64 {
        self.records.len() as u64
    }

    fn power_cut(&mut self, _k: u64, _pick: u8) {}
}
