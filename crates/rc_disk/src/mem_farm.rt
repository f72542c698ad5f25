// A farm of disks in memory.
ghost use Rattle.std.specs.Prelude.{◌≡◌, ◌≢◌, ◌+◌, ◌≤◌, ◌<◌, ◌==◌, ℕ, length, IsTrue, IfOk, OnOk, OnErr, true, false, [], slice_index_or, slice_set, Some, None, if◌then◌else◌, All, MatchOption};
ghost use Rattle.rc_ports.specs.Causes.{Rose, is_listed, raised};

use crate::mem_slot::{MemSlot, empty_slots, give, lend, put};
use crate::shelf::{place_of, select_all};
use crate::{DeviceRefusal, Farm, MemDisk};
use rc_ids::{NoMemory, NodeId};
use rc_ports::Word;
use std::alloc::Global;

/// A farm of disks in memory, with a place for every node. A folder's are those that it was given, and empty ones
/// for the nodes without. The calls of `select` and `disk` whose numbers are in its list fail; they are counted
/// together, from 1.
#[derive(Debug, Drop)]
pub struct MemFarm {
    alloc: Global,
    slots: Vec<MemSlot>,
    calls: u64,
    fails: Vec<u64>,
    faults: u64,
    ghost whole: { length slots.items ≡ 63 },
}

impl MemFarm {
    ghost use Rattle.rc_ids.specs.declared.names.NodeId.{NodeId as NodeName};
    ghost use Rattle.rc_disk.specs.Places.{start_of};
    ghost use Rattle.rc_disk.specs.Shelves.{is_node};
    ghost use Rattle.rc_disk.specs.MemDisks.{standing_of};
    ghost use Rattle.rc_disk.specs.MemFarms.{mem_stands, mem_start, mem_is_lent, mem_folder, mem_in_folder, fresh, GivesFolder};

    /// A farm of empty disks, with the numbers of the calls that are to fail.
    pub fn new(alloc: Global, fails: Vec<u64>) -> Result<MemFarm, NoMemory>
        ensures lent { IfOk result (λ f. (n : NodeName) → mem_is_lent f n ≡ false) }
        ensures fails { IfOk result (λ f. f.fails ≡ fails) }
        ensures calls { IfOk result (λ f. (f.calls ≡ 0) × (f.faults ≡ 0)) }
        ensures empty { IfOk result (λ f. (n : NodeName) → is_node n ≡ true → mem_stands f n ≡ fresh) }
        ensures start { IfOk result (λ f. (n : NodeName) → mem_start f n ≡ start_of (mem_stands f n)) }
        ensures folder { IfOk result (λ f. (n : NodeName) → is_node n ≡ true → mem_folder f n ≡ fresh) }
        ensures in_folder { IfOk result (λ f. (n : NodeName) → mem_in_folder f n ≡ false) }
    {
        Ok(MemFarm {
            alloc,
            slots: empty_slots(alloc)?,
            calls: 0,
            fails,
            faults: 0,
        })
    }

    /// Gives the folder a disk for a node. Where the folder is selected, it takes the place of the node's disk.
    pub fn give(&mut self, node: NodeId, disk: MemDisk)
        requires { mem_is_lent self.old node ≡ false }
        ensures lent { (n : NodeName) → mem_is_lent self.new n ≡ mem_is_lent self.old n }
        ensures others { (n : NodeName) → n ≢ node → mem_stands self.new n ≡ mem_stands self.old n }
        ensures folder { GivesFolder (standing_of disk) self.old self.new node }
        ensures lists { (self.new.fails ≡ self.old.fails) × (self.new.calls ≡ self.old.calls) × (self.new.faults ≡ self.old.faults) }
    {
        let place = place_of(&node);
        give(&mut self.slots, place, disk);
    }

    /// The disk of a node that is selected, where it is not lent.
    pub fn look(&self, node: NodeId) -> Option<&MemDisk>
        ensures { MatchOption result (mem_is_lent self.now node ≡ true) (λ d. mem_stands self.now node ≡ standing_of d.now) }
    {
        let place = place_of(&node);
        self.slots[place].here.as_ref()
    }

    // Counts a call, and says whether it fails.
    fn counts(&mut self) -> bool
        ensures fails { result ≡ is_listed self.old.fails.items (raised self.old.calls) }
        ensures calls { self.new.calls ≡ raised self.old.calls }
        ensures slots { self.new.slots ≡ self.old.slots }
        ensures list { self.new.fails ≡ self.old.fails }
        ensures later { self.old.faults ≤ self.new.faults }
        ensures cause { result ≡ true → Rose self.old.faults self.new.faults }
        ensures one { result ≡ true → self.new.faults ≡ raised self.old.faults }
        ensures none { result ≡ false → self.new.faults ≡ self.old.faults }
    {
        self.calls = self.calls.saturating_add(1);
        if self.fails.contains(&self.calls) {
            self.faults = self.faults.saturating_add(1);
            true
        } else {
            false
        }
    }
}

impl Farm for MemFarm {
    ghost use Rattle.std.specs.Prelude.{IsNone, IsErrOf, is_err, is_some};
    ghost use Rattle.rc_ids.specs.declared.names.NodeId.{NodeId as NodeName};
    ghost use Rattle.rc_disk.specs.Places.{start_of, IsReady, IsFresh, HasLaterCounts};
    ghost use Rattle.rc_disk.specs.MemDisks.{standing_of};
    ghost use Rattle.rc_disk.specs.MemFarms.{mem_stands, mem_start, mem_is_lent, next_fails, CountsCall, CountsNone, Refuses, SelectsEach, KeepsFolder};

    type D = MemDisk;

    ghost stands = { λ f n. mem_stands f n };

    ghost start = { λ f n. mem_start f n };

    ghost is_lent = { λ f n. mem_is_lent f n };

    ghost faults = { λ f. f.faults };

    fn select(&mut self, dir: Option<&Word>) -> Result<(), DeviceRefusal>
        requires { (n : NodeName) → mem_is_lent self.old n ≡ false }
        ensures lent { (n : NodeName) → mem_is_lent self.new n ≡ false }
        ensures start { OnOk result ((n : NodeName) → mem_start self.new n ≡ start_of (mem_stands self.new n)) }
        ensures ready { OnOk result ((n : NodeName) → IsReady (mem_stands self.new n)) }
        ensures empty { OnOk result (IsNone dir.entry → (n : NodeName) → IsFresh (mem_stands self.new n)) }
        ensures same { OnErr result ((n : NodeName) → mem_stands self.new n ≡ mem_stands self.old n) }
        ensures same_start { OnErr result ((n : NodeName) → mem_start self.new n ≡ mem_start self.old n) }
        ensures counts { (n : NodeName) → HasLaterCounts (mem_stands self.old n) (mem_stands self.new n) }
        ensures later { self.old.faults ≤ self.new.faults }
        ensures cause { IsErrOf result DeviceRefusal.Failed → Rose (self.old.faults) (self.new.faults) }
        ensures no_memory { IsErrOf result DeviceRefusal.NoMemory → self.new.faults ≡ self.old.faults }

        // By its list. A call that fails answers Failed, and changes the counts alone.
        ensures by_list { is_err result ≡ next_fails self.old }
        ensures list { CountsCall self.old self.new }
        ensures refusal { OnErr result (IsErrOf result DeviceRefusal.Failed) }
        ensures refuses { OnErr result (Refuses self.old self.new) }
        ensures no_fault { OnOk result (self.new.faults ≡ self.old.faults) }

        // What stands afterwards.
        ensures each { OnOk result ((n : NodeName) → SelectsEach (is_some dir.entry) self.old self.new n) }
    {
        if self.counts() {
            return Err(DeviceRefusal::Failed);
        }
        select_all(self.alloc, &mut self.slots, dir.is_some());
        Ok(())
    }

    fn disk(&mut self, node: NodeId) -> Result<MemDisk, DeviceRefusal>
        requires { mem_is_lent self.old node ≡ false }
        ensures disk { IfOk result (λ d. mem_stands self.old node ≡ standing_of d) }
        ensures lent { OnOk result (mem_is_lent self.new node ≡ true) }
        ensures not_lent { OnErr result (mem_is_lent self.new node ≡ false) }
        ensures same { OnErr result (mem_stands self.new node ≡ mem_stands self.old node) }
        ensures others_lent { (n : NodeName) → n ≢ node → mem_is_lent self.new n ≡ mem_is_lent self.old n }
        ensures others { (n : NodeName) → n ≢ node → mem_stands self.new n ≡ mem_stands self.old n }
        ensures start { (n : NodeName) → mem_start self.new n ≡ mem_start self.old n }
        ensures later { self.old.faults ≤ self.new.faults }
        ensures cause { IsErrOf result DeviceRefusal.Failed → Rose (self.old.faults) (self.new.faults) }
        ensures no_memory { IsErrOf result DeviceRefusal.NoMemory → self.new.faults ≡ self.old.faults }

        // By its list. A call that fails answers Failed, and changes the counts alone.
        ensures by_list { is_err result ≡ next_fails self.old }
        ensures list { CountsCall self.old self.new }
        ensures refusal { OnErr result (IsErrOf result DeviceRefusal.Failed) }
        ensures refuses { OnErr result (Refuses self.old self.new) }
        ensures no_fault { OnOk result (self.new.faults ≡ self.old.faults) }

        ensures folder { OnOk result (KeepsFolder None self.old self.new node) }
    {
        if self.counts() {
            return Err(DeviceRefusal::Failed);
        }
        let place = place_of(&node);
        Ok(lend(&mut self.slots, place).unwrap())
    }

    fn back(&mut self, node: NodeId, disk: MemDisk)
        requires { mem_is_lent self.old node ≡ true }
        ensures disk { mem_stands self.new node ≡ standing_of disk }
        ensures lent { mem_is_lent self.new node ≡ false }
        ensures others_lent { (n : NodeName) → n ≢ node → mem_is_lent self.new n ≡ mem_is_lent self.old n }
        ensures others { (n : NodeName) → n ≢ node → mem_stands self.new n ≡ mem_stands self.old n }
        ensures start { (n : NodeName) → mem_start self.new n ≡ mem_start self.old n }
        ensures faults { self.new.faults ≡ self.old.faults }

        // By its list.
        ensures list { CountsNone self.old self.new }

        ensures folder { KeepsFolder (Some disk) self.old self.new node }
    {
        let place = place_of(&node);
        put(&mut self.slots, place, disk);
    }
}
