// What a memory disk had, kept so that each moment of its past can be told.
ghost use Rattle.std.specs.Prelude.{◌≡◌, ◌+◌, ◌-◌, ◌≤◌, ℕ, [], length, OnOk};
ghost use Rattle.rc_disk.specs.Calls.{all_synced};
ghost use Rattle.rc_disk.specs.Past.{Grows, IsKept, count_of};
ghost use Rattle.rc_disk.specs.Memory.{HasPast, history_of};

use crate::change::Event;
use rc_ids::NoMemory;
use std::alloc::Global;

/// What was there at first, each change since, and the bytes of all writes one after another.
#[derive(Debug, Drop)]
pub struct Past {
    pub first: Vec<u8>,
    pub bytes: Vec<u8>,
    pub events: Vec<Event>,
}

impl Past {
    /// No change yet.
    pub fn new(alloc: Global, first: Vec<u8>) -> Past
        ensures room { HasPast result 0 0 }
        ensures kept { IsKept (history_of result) (all_synced first.items) }
    {
        Past {
            first,
            bytes: Vec::new(alloc),
            events: Vec::new(alloc),
        }
    }

    /// Makes room for so many more changes and bytes.
    pub fn reserve(&mut self, calls: u32, bytes: usize) -> Result<(), NoMemory>
        ensures same { history_of self.new ≡ history_of self.old }
        ensures ok { OnOk result (HasPast self.new calls bytes) }
        ensures keeps { (c b : ℕ) → HasPast self.old c b → HasPast self.new c b }
    {
        self.events.reserve(calls as usize)?;
        self.bytes.reserve(bytes)?;
        Ok(())
    }

    /// Keeps a change.
    pub fn note(&mut self, event: Event, written: &[u8], calls: u64, spare: usize)
        requires room { HasPast self.old calls spare }
        requires calls { 1 ≤ calls }
        requires spare { length written.now ≤ spare }
        requires counted { count_of event.change ≡ length written.now }
        ensures grows { Grows (history_of self.old) event written.now (history_of self.new) }
        ensures room { HasPast self.new (calls - 1) (spare - length written.now) }
    {
        self.events.push(event).unwrap();
        self.bytes.extend_from_slice(written).unwrap();
    }
}
