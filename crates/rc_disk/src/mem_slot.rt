// What a farm in memory has of a node.
ghost use Rattle.std.specs.Prelude.{◌≡◌, ◌<◌, ℕ, length, All, IfOk, Some, None, true, false, if◌then◌else◌, slice_index_or, slice_set};
ghost use Rattle.rc_disk.specs.MemFarms.{IsFirst, given};
ghost use Rattle.rc_disk.specs.declared.mem_slot.MemSlot.{MemSlot as MemSlotOf};

use crate::MemDisk;
use crate::marks::Marks;
use crate::shelf::Slot;
use rc_ids::NoMemory;
use std::alloc::Global;

/// The disk of a node that is selected, and the folder's disk while no folder is.
#[derive(Debug, Drop)]
pub struct MemSlot {
    pub here: Option<MemDisk>,
    pub aside: Option<MemDisk>,
    pub marks: Marks,
}

impl MemSlot {
    ghost use Rattle.rc_disk.specs.Places.{start_of};
    ghost use Rattle.rc_disk.specs.MemDisks.{standing_of};
    ghost use Rattle.rc_disk.specs.MemFarms.{IsFirst, fresh, folder_disk};

    /// Empty disks.
    fn new(alloc: Global) -> MemSlot
        ensures { IsFirst result }
    {
        let here = MemDisk::new(alloc);
        let marks = here.marks();
        MemSlot {
            here: Some(here),
            aside: Some(MemDisk::new(alloc)),
            marks,
        }
    }

    /// Takes the folder's disk, which is this one where none was put aside.
    fn take_folder(&mut self, disk: MemDisk) -> MemDisk
        ensures disk { result ≡ folder_disk self.old.aside disk }
        ensures same { self.new ≡ record self.old { aside = None } }
    {
        match self.aside.take() {
            Some(aside) => aside,
            None => disk,
        }
    }

    /// The folder's disk, or an empty one while that is put aside.
    fn choose(&mut self, alloc: Global, of_folder: MemDisk, folder: bool) -> MemDisk
        requires { self.old.aside ≡ None }
        ensures disk { folder ≡ true → result ≡ of_folder }
        ensures empty { folder ≡ false → standing_of result ≡ fresh }
        ensures same { self.new ≡ record self.old { aside = (if folder then None else Some of_folder) } }
    {
        if folder {
            return of_folder;
        }
        self.aside = Some(of_folder);
        MemDisk::new(alloc)
    }
}

impl Slot for MemSlot {
    ghost use Rattle.rc_disk.specs.MemFarms.{slot_standing, slot_start, slot_is_lent, Selects};

    ghost stands = { λ s. slot_standing s };

    ghost start = { λ s. slot_start s };

    ghost is_lent = { λ s. slot_is_lent s };

    ghost selects = { λ folder old new. Selects folder old new };

    fn select(&mut self, alloc: Global, folder: bool) {
        let Some(disk) = self.here.take() else {
            return;
        };
        let before = disk.marks();
        let of_folder = self.take_folder(disk);
        let mut disk = self.choose(alloc, of_folder, folder);
        disk.renew(before.faults, before.cuts);
        self.marks = disk.marks();
        self.here = Some(disk);
    }
}

/// Empty disks, one for each node.
pub fn empty_slots(alloc: Global) -> Result<Vec<MemSlot>, NoMemory>
    ensures length { IfOk result (λ v. length v.items ≡ 63) }
    ensures first { IfOk result (λ v. All (λ s. IsFirst s) v.items) }
{
    let mut slots = Vec::with_capacity(alloc, 63)?;
    'filling: while slots.len() < 63 {
        slots.push_reserved(MemSlot::new(alloc));
    }
    Ok(slots)
}

/// Takes out the disk of a slot.
pub fn lend(slots: &mut Vec<MemSlot>, place: usize) -> Option<MemDisk>
    requires { place < length slots.old.items }
    ensures length { length slots.new.items ≡ length slots.old.items }
    ensures disk { (d : MemSlotOf) → result ≡ (slice_index_or slots.old.items place d).here }
    ensures slots { (d : MemSlotOf) → slots.new.items ≡ slice_set slots.old.items place (record (slice_index_or slots.old.items place d) { here = None }) }
{
    slots[place].here.take()
}

/// Gives the folder of a slot a disk.
pub fn give(slots: &mut Vec<MemSlot>, place: usize, disk: MemDisk)
    requires { place < length slots.old.items }
    ensures length { length slots.new.items ≡ length slots.old.items }
    ensures slots { (d : MemSlotOf) → slots.new.items ≡ slice_set slots.old.items place (given disk (slice_index_or slots.old.items place d)) }
{
    let slot = &mut slots[place];
    if slot.aside.is_none() {
        slot.here = Some(disk);
    } else {
        slot.aside = Some(disk);
    }
}

/// Puts a disk into a slot.
pub fn put(slots: &mut Vec<MemSlot>, place: usize, disk: MemDisk)
    requires { place < length slots.old.items }
    ensures length { length slots.new.items ≡ length slots.old.items }
    ensures slots { (d : MemSlotOf) → slots.new.items ≡ slice_set slots.old.items place (record (slice_index_or slots.old.items place d) { here = Some disk }) }
{
    slots[place].here = Some(disk);
}
