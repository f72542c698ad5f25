// What the host's farm has of a node.
ghost use Rattle.std.specs.Prelude.{◌≡◌, ◌≤◌, ◌<◌, ℕ, All, length, IfOk, MatchOption, slice_index_or, slice_set, Some, None, true, false};
ghost use Rattle.rc_disk.specs.HostFarms.{slot_standing, slot_start, slot_is_lent, place_standing, place_is_lent, is_counted, standing_host};
ghost use Rattle.rc_disk.specs.declared.host_slot.HostSlot.{HostSlot as HostSlotOf};

use crate::file_disk::FileState;
use crate::marks::Marks;
use crate::shelf::Slot;
use crate::{HostDisk, MemDisk, Power};
use rc_ids::NoMemory;
use std::alloc::Global;
use std::mem;

/// What a farm has of a node: a disk in memory, what is kept of its file, or nothing while it is lent.
#[derive(Drop)]
pub enum HostPlace {
    Memory(MemDisk),
    Counted(FileState),
    Lent,
}

/// The place of a node, with the counts at the last selection.
#[derive(Drop)]
pub struct HostSlot {
    pub here: HostPlace,
    pub marks: Marks,
}

impl Slot for HostSlot {
    ghost use Rattle.rc_disk.specs.Shelves.{IsSelected};

    ghost stands = { λ s. slot_standing s };

    ghost start = { λ s. slot_start s };

    ghost is_lent = { λ s. slot_is_lent s };

    ghost selects = { λ folder old new. IsSelected folder (slot_standing old) (slot_standing new) (slot_start new) (slot_is_lent new) };

    fn select(&mut self, alloc: Global, folder: bool) {
        let (faults, cuts) = match &self.here {
            HostPlace::Memory(disk) => {
                let marks = disk.marks();
                (marks.faults, marks.cuts)
            }
            HostPlace::Counted(state) => (state.faults, state.cuts),
            HostPlace::Lent => return,
        };
        if folder {
            self.marks = Marks {
                told: None,
                faults,
                cuts,
            };
            self.here = HostPlace::Counted(FileState {
                power: Power::On,
                faults,
                cuts,
            });
        } else {
            let mut disk = MemDisk::new(alloc);
            disk.renew(faults, cuts);
            self.marks = disk.marks();
            self.here = HostPlace::Memory(disk);
        }
    }
}

/// Empty disks in memory, one for each node.
pub fn empty_slots(alloc: Global) -> Result<Vec<HostSlot>, NoMemory>
    ensures length { IfOk result (λ v. length v.items ≡ 63) }
    ensures here { IfOk result (λ v. All (λ s. slot_is_lent s ≡ false) v.items) }
{
    let mut slots = Vec::with_capacity(alloc, 63)?;
    'filling: while slots.len() < 63 {
        slots.push_reserved(HostSlot::new(alloc));
    }
    Ok(slots)
}

/// Takes out what a slot has.
pub fn lend(slots: &mut Vec<HostSlot>, place: usize) -> HostPlace
    requires { place < length slots.old.items }
    ensures length { length slots.new.items ≡ length slots.old.items }
    ensures disk { (d : HostSlotOf) → result ≡ (slice_index_or slots.old.items place d).here }
    ensures slots { (d : HostSlotOf) → slots.new.items ≡ slice_set slots.old.items place (record (slice_index_or slots.old.items place d) { here = HostPlace.Lent }) }
{
    mem::replace(&mut slots[place].here, HostPlace::Lent)
}

/// Puts a disk, or what is kept of a file, into a slot.
pub fn put(slots: &mut Vec<HostSlot>, place: usize, here: HostPlace)
    requires { place < length slots.old.items }
    ensures length { length slots.new.items ≡ length slots.old.items }
    ensures slots { (d : HostSlotOf) → slots.new.items ≡ slice_set slots.old.items place (record (slice_index_or slots.old.items place d) { here = here }) }
{
    slots[place].here = here;
}

/// What is kept of a node's file, where the folder is selected.
pub fn file_state(slots: &Vec<HostSlot>, place: usize) -> Option<FileState>
    requires { place < length slots.now.items }
    ensures { (d : HostSlotOf) → MatchOption result (is_counted (slice_index_or slots.now.items place d).here ≡ false)
        (λ s. (slice_index_or slots.now.items place d).here ≡ HostPlace.Counted s) }
{
    match &slots[place].here {
        HostPlace::Counted(state) => Some(*state),
        _ => None,
    }
}

/// What is put back of a disk.
pub fn place_for(disk: HostDisk) -> HostPlace
    ensures stands { place_standing result ≡ standing_host disk }
    ensures here { place_is_lent result ≡ false }
{
    match disk {
        HostDisk::Memory(disk) => HostPlace::Memory(disk),
        HostDisk::File(file) => HostPlace::Counted(file.state),
    }
}

impl HostSlot {
    fn new(alloc: Global) -> HostSlot
        ensures { slot_is_lent result ≡ false }
    {
        HostSlot {
            here: HostPlace::Memory(MemDisk::new(alloc)),
            marks: Marks {
                told: None,
                faults: 0,
                cuts: 0,
            },
        }
    }
}
