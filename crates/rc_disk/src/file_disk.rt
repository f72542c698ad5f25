// A disk that is a file.
ghost use Rattle.std.specs.Prelude.{◌≡◌, ◌+◌, ◌≤◌, IfOk, None, true, false, if◌then◌else◌};
ghost use Rattle.rc_ports.specs.Causes.{raised};
ghost use Rattle.rc_disk.specs.Calls.{power_after, holds, cause_at};
ghost use Rattle.rc_disk.specs.Counts.{is_cut};

use crate::{Disk, Power};
use rc_ids::NoMemory;
use rc_ports::Failed;
use std::fs::File;
use std::io;
use std::os::unix::fs::FileExt;

/// What is kept of a file's disk while it is not lent: its power and its counts.
#[derive(Clone, Copy, Debug, PartialEq, Eq)]
pub struct FileState {
    pub power: Power,
    pub faults: u64,
    pub cuts: u64,
}

/// A disk that is a file of the system's. It tells nothing of its content, and counts its errors. At a cut of the
/// power the call fails and is not made.
#[derive(Drop)]
pub struct FileDisk {
    pub file: File,
    pub len: u64,
    pub state: FileState,
    pub spare_calls: u64,
    pub spare_bytes: u64,
}

impl FileDisk {
    /// A disk that is this file, with the power and the counts that it has so far.
    pub fn new(file: File, state: FileState) -> io::Result<FileDisk>
        ensures { IfOk result (λ d. d.state ≡ state) }
    {
        let len = file.metadata()?.len();
        Ok(FileDisk {
            file,
            len,
            state,
            spare_calls: 0,
            spare_bytes: 0,
        })
    }

    /// Counts a fault, for want of power or not.
    fn fail(&mut self, for_power: bool)
        ensures faults { self.new.state.faults ≡ raised self.old.state.faults }
        ensures cuts { self.new.state.cuts ≡ (if for_power then raised self.old.state.cuts else self.old.state.cuts) }
        ensures power { self.new.state.power ≡ self.old.state.power }
        ensures later { self.old.state.faults ≤ self.new.state.faults }
        ensures later_cuts { self.old.state.cuts ≤ self.new.state.cuts }
        ensures len { self.new.len ≡ self.old.len }
        ensures calls { self.new.spare_calls ≡ self.old.spare_calls }
        ensures bytes { self.new.spare_bytes ≡ self.old.spare_bytes }
    {
        self.state.faults = self.state.faults.saturating_add(1);
        if for_power {
            self.state.cuts = self.state.cuts.saturating_add(1);
        }
    }

    /// Counts a call, and says whether it is to be made.
    fn begin(&mut self) -> bool
        requires { 1 ≤ self.old.spare_calls }
        ensures made { result ≡ holds self.old.state.power }
        ensures power { self.new.state.power ≡ power_after self.old.state.power }
        ensures cause { result ≡ true → is_cut (cause_at self.old.state.power) ≡ false }
        ensures refused { result ≡ false → is_cut (cause_at self.old.state.power) ≡ true }
        ensures faults { self.new.state.faults ≡ (if result then self.old.state.faults else raised self.old.state.faults) }
        ensures cuts { self.new.state.cuts ≡ (if result then self.old.state.cuts else raised self.old.state.cuts) }
        ensures later { self.old.state.faults ≤ self.new.state.faults }
        ensures later_cuts { self.old.state.cuts ≤ self.new.state.cuts }
        ensures len { self.new.len ≡ self.old.len }
        ensures calls { self.new.spare_calls + 1 ≡ self.old.spare_calls }
        ensures bytes { self.new.spare_bytes ≡ self.old.spare_bytes }
    {
        self.spare_calls -= 1;
        match self.state.power {
            Power::On => true,
            Power::Armed(1, _) => {
                self.state.power = Power::Off;
                self.fail(true);
                false
            }
            Power::Armed(k, pick) => {
                self.state.power = Power::Armed(k.saturating_sub(1), pick);
                true
            }
            Power::Off => {
                self.fail(true);
                false
            }
        }
    }

    /// Counts a fault of the file, which may have another length now.
    fn file_failed(&mut self)
        ensures faults { self.new.state.faults ≡ raised self.old.state.faults }
        ensures cuts { self.new.state.cuts ≡ self.old.state.cuts }
        ensures power { self.new.state.power ≡ self.old.state.power }
        ensures later { self.old.state.faults ≤ self.new.state.faults }
        ensures calls { self.new.spare_calls ≡ self.old.spare_calls }
        ensures bytes { self.new.spare_bytes ≡ self.old.spare_bytes }
    {
        if let Ok(found) = self.file.metadata() {
            self.len = found.len();
        }
        self.fail(false);
    }
}

impl Disk for FileDisk {
    ghost use Rattle.std.specs.Prelude.{ℕ, List};

    ghost content = { λ _. None };

    ghost may_leave = { λ _ _. ⊥ };

    ghost moment = { λ _. 0 };

    ghost left_since = { λ _ _ _. ⊥ };

    ghost told = { λ _. None };

    ghost power = { λ d. d.state.power };

    ghost faults = { λ d. d.state.faults };

    ghost cuts = { λ d. d.state.cuts };

    ghost spare_calls = { λ d. d.spare_calls };

    ghost spare_bytes = { λ d. d.spare_bytes };

    ghost length_of = { λ d. d.len };

    ghost told_content = { λ d. tt };

    ghost told_power = { λ d. tt };

    ghost may_stay = { λ d. tt };

    ghost has_length = { λ d. tt };

    ghost now_too = { λ d t left earlier none. none };

    ghost no_other = { λ d left none. none };

    fn len(&self) -> u64 {
        self.len
    }

    fn read(&mut self, place: u64, buf: &mut [u8]) -> Result<(), Failed> {
        if self.state.power == Power::Off {
            self.fail(true);
            return Err(Failed);
        }
        match self.file.read_exact_at(buf, place) {
            Ok(()) => Ok(()),
            Err(_) => {
                self.fail(false);
                Err(Failed)
            }
        }
    }

    fn write_at(&mut self, place: u64, bytes: &[u8]) -> Result<(), Failed> {
        let count = bytes.len() as u64;
        self.spare_bytes -= count;
        if !self.begin() {
            return Err(Failed);
        }
        match (
            place.checked_add(count),
            self.file.write_all_at(bytes, place),
        ) {
            (Some(end), Ok(())) => {
                self.len = self.len.max(end);
                Ok(())
            }
            _ => {
                self.file_failed();
                Err(Failed)
            }
        }
    }

    fn cut(&mut self, len: u64) -> Result<(), Failed> {
        if !self.begin() {
            return Err(Failed);
        }
        match self.file.set_len(len) {
            Ok(()) => {
                self.len = len;
                Ok(())
            }
            Err(_) => {
                self.file_failed();
                Err(Failed)
            }
        }
    }

    fn sync(&mut self) -> Result<(), Failed> {
        if !self.begin() {
            return Err(Failed);
        }
        match self.file.sync_all() {
            Ok(()) => Ok(()),
            Err(_) => {
                self.fail(false);
                Err(Failed)
            }
        }
    }

    fn room(&mut self, bytes: u64, calls: u32) -> Result<(), NoMemory> {
        self.spare_bytes = bytes;
        self.spare_calls = u64::from(calls);
        Ok(())
    }

    fn power_cut(&mut self, k: u64, pick: u8) {
        self.state.power = Power::Armed(k, pick);
    }

    fn power_on(&mut self) {
        self.state.power = Power::On;
    }
}
