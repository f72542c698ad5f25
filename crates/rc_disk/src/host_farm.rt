// The farm of the host: a folder of files, or disks in memory.
ghost use Rattle.std.specs.Prelude.{◌≡◌, ◌≢◌, ◌+◌, ◌≤◌, ◌<◌, ℕ, All, length, IsErrOf, IfOk, OnOk, OnErr, MatchOption, slice_index_or, slice_set, Some, None, true, false};
ghost use Rattle.rc_ports.specs.Causes.{Rose};
ghost use Rattle.rc_ids.specs.declared.names.NodeId.{NodeId as NodeName};
ghost use Rattle.rc_disk.specs.Places.{start_of};
ghost use Rattle.rc_disk.specs.Shelves.{stands_in, start_in, lent_in};
ghost use Rattle.rc_disk.specs.HostFarms.{slot_standing, slot_start, slot_is_lent};

use crate::file_disk::{FileDisk, FileState};
use crate::host_slot::{HostPlace, HostSlot, empty_slots, file_state, lend, place_for, put};
use crate::shelf::{place_of, select_all};
use crate::{DeviceRefusal, Farm, HostDisk};
use rc_ids::{NoMemory, NodeId};
use rc_ports::Word;
use std::alloc::{AllocError, Global};
use std::fs::{File, OpenOptions};
use std::rt::Files;
use std::{fs, io};

/// The farm of the host. The disks of a folder are files named after the nodes, as `d1.s1.log`; a missing folder and
/// missing files are made. Without a folder the disks are empty and in memory, and no call fails.
#[derive(Drop)]
pub struct HostFarm<'a, R> {
    rt: &'a R,
    alloc: Global,
    dir: String,
    slots: Vec<HostSlot>,
    faults: u64,
    ghost whole: { length slots.items ≡ 63 },
}

/// Opens the file of a node in a folder, and makes it where it is missing.
fn open_log<R: Files<File = File>>(rt: &R, dir: &str, path: &str) -> io::Result<File> {
    if fs::exists(rt, path)? {
        return OpenOptions::new().read(true).write(true).open(rt, path);
    }
    let file = OpenOptions::new()
        .read(true)
        .write(true)
        .create(true)
        .open(rt, path)?;
    fs::open(rt, dir)?.sync_all()?;
    Ok(file)
}

fn log_path(alloc: Global, dir: &str, node: &NodeId) -> Result<String, AllocError> {
    match node {
        NodeId::Coord(dc) => format!(in alloc; "{}/d{}.log", dir, dc.0),
        NodeId::Shard(dc, shard) => format!(in alloc; "{}/d{}.s{}.log", dir, dc.0, shard.0),
    }
}

impl<'a, R: Files<File = File>> HostFarm<'a, R> {
    /// A farm of empty disks in memory.
    pub fn new(rt: &'a R, alloc: Global) -> Result<HostFarm<'a, R>, NoMemory>
        ensures lent { IfOk result (λ f. (n : NodeName) → lent_in slot_is_lent f.slots.items n ≡ false) }
        ensures faults { IfOk result (λ f. f.faults ≡ 0) }
    {
        let slots = empty_slots(alloc)?;
        Ok(HostFarm {
            rt,
            alloc,
            dir: String::new(alloc),
            slots,
            faults: 0,
        })
    }

    fn fail(&mut self) -> DeviceRefusal
        ensures refusal { result ≡ DeviceRefusal.Failed }
        ensures slots { self.new.slots ≡ self.old.slots }
        ensures rose { Rose self.old.faults self.new.faults }
        ensures later { self.old.faults ≤ self.new.faults }
    {
        self.faults = self.faults.saturating_add(1);
        DeviceRefusal::Failed
    }

    /// The folder's path, after it was made where it was missing.
    fn make_folder(&mut self, dir: &Word) -> Result<String, DeviceRefusal>
        ensures slots { self.new.slots ≡ self.old.slots }
        ensures later { self.old.faults ≤ self.new.faults }
        ensures cause { IsErrOf result DeviceRefusal.Failed → Rose self.old.faults self.new.faults }
        ensures no_memory { IsErrOf result DeviceRefusal.NoMemory → self.new.faults ≡ self.old.faults }
    {
        let Ok(text) = str::from_utf8(dir.as_bytes()) else {
            return Err(self.fail());
        };
        let Ok(path) = String::from_str(self.alloc, text) else {
            return Err(DeviceRefusal::NoMemory);
        };
        if fs::create_dir_all(self.rt, text).is_err() {
            return Err(self.fail());
        }
        Ok(path)
    }

    /// The file of a node, with the power and the counts that it has so far.
    fn open(&mut self, node: &NodeId, state: FileState) -> Result<FileDisk, DeviceRefusal>
        ensures state { IfOk result (λ d. d.state ≡ state) }
        ensures slots { self.new.slots ≡ self.old.slots }
        ensures later { self.old.faults ≤ self.new.faults }
        ensures cause { IsErrOf result DeviceRefusal.Failed → Rose self.old.faults self.new.faults }
        ensures no_memory { IsErrOf result DeviceRefusal.NoMemory → self.new.faults ≡ self.old.faults }
    {
        let Ok(path) = log_path(self.alloc, self.dir.as_str(), node) else {
            return Err(DeviceRefusal::NoMemory);
        };
        let Ok(file) = open_log(self.rt, self.dir.as_str(), path.as_str()) else {
            return Err(self.fail());
        };
        match FileDisk::new(file, state) {
            Ok(disk) => Ok(disk),
            Err(_) => Err(self.fail()),
        }
    }
}

impl<'a, R: Files<File = File>> Farm for HostFarm<'a, R> {
    ghost use Rattle.std.specs.Prelude.{IsNone, IsOk, IsSome};
    ghost use Rattle.rc_disk.specs.Places.{start_of, IsReady, IsFresh, HasLaterCounts};
    ghost use Rattle.rc_disk.specs.HostFarms.{standing_host};

    type D = HostDisk;

    ghost stands = { λ f n. stands_in slot_standing f.slots.items n };

    ghost start = { λ f n. start_in slot_start f.slots.items n };

    ghost is_lent = { λ f n. lent_in slot_is_lent f.slots.items n };

    ghost faults = { λ f. f.faults };

    fn select(&mut self, dir: Option<&Word>) -> Result<(), DeviceRefusal>
        requires { (n : NodeName) → lent_in slot_is_lent self.old.slots.items n ≡ false }
        ensures lent { (n : NodeName) → lent_in slot_is_lent self.new.slots.items n ≡ false }
        ensures start { OnOk result ((n : NodeName) → start_in slot_start self.new.slots.items n ≡ start_of (stands_in slot_standing self.new.slots.items n)) }
        ensures ready { OnOk result ((n : NodeName) → IsReady (stands_in slot_standing self.new.slots.items n)) }
        ensures empty { OnOk result (IsNone dir.entry → (n : NodeName) → IsFresh (stands_in slot_standing self.new.slots.items n)) }
        ensures same { OnErr result ((n : NodeName) → stands_in slot_standing self.new.slots.items n ≡ stands_in slot_standing self.old.slots.items n) }
        ensures same_start { OnErr result ((n : NodeName) → start_in slot_start self.new.slots.items n ≡ start_in slot_start self.old.slots.items n) }
        ensures counts { (n : NodeName) → HasLaterCounts (stands_in slot_standing self.old.slots.items n) (stands_in slot_standing self.new.slots.items n) }
        ensures later { self.old.faults ≤ self.new.faults }
        ensures cause { IsErrOf result DeviceRefusal.Failed → Rose (self.old.faults) (self.new.faults) }
        ensures no_memory { IsErrOf result DeviceRefusal.NoMemory → self.new.faults ≡ self.old.faults }

        // Without a folder it does not fail.
        ensures sure { IsNone dir.entry → IsOk result }
    {
        if let Some(dir) = dir {
            self.dir = self.make_folder(dir)?;
        }
        select_all(self.alloc, &mut self.slots, dir.is_some());
        Ok(())
    }

    fn disk(&mut self, node: NodeId) -> Result<HostDisk, DeviceRefusal>
        requires { lent_in slot_is_lent self.old.slots.items node ≡ false }
        ensures disk { IfOk result (λ d. stands_in slot_standing self.old.slots.items node ≡ standing_host d) }
        ensures lent { OnOk result (lent_in slot_is_lent self.new.slots.items node ≡ true) }
        ensures not_lent { OnErr result (lent_in slot_is_lent self.new.slots.items node ≡ false) }
        ensures same { OnErr result (stands_in slot_standing self.new.slots.items node ≡ stands_in slot_standing self.old.slots.items node) }
        ensures others_lent { (n : NodeName) → n ≢ node → lent_in slot_is_lent self.new.slots.items n ≡ lent_in slot_is_lent self.old.slots.items n }
        ensures others { (n : NodeName) → n ≢ node → stands_in slot_standing self.new.slots.items n ≡ stands_in slot_standing self.old.slots.items n }
        ensures start { (n : NodeName) → start_in slot_start self.new.slots.items n ≡ start_in slot_start self.old.slots.items n }
        ensures later { self.old.faults ≤ self.new.faults }
        ensures cause { IsErrOf result DeviceRefusal.Failed → Rose (self.old.faults) (self.new.faults) }
        ensures no_memory { IsErrOf result DeviceRefusal.NoMemory → self.new.faults ≡ self.old.faults }

        // Without a folder it does not fail.
        ensures sure { IsSome (stands_in slot_standing self.old.slots.items node).told → IsOk result }
    {
        let place = place_of(&node);
        let Some(state) = file_state(&self.slots, place) else {
            return match lend(&mut self.slots, place) {
                HostPlace::Memory(disk) => Ok(HostDisk::Memory(disk)),
                _ => unreachable!(),
            };
        };
        let disk = self.open(&node, state)?;
        put(&mut self.slots, place, HostPlace::Lent);
        Ok(HostDisk::File(disk))
    }

    fn back(&mut self, node: NodeId, disk: HostDisk) {
        let place = place_of(&node);
        put(&mut self.slots, place, place_for(disk));
    }
}
