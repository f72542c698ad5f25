// A disk of the host's farm.
ghost use Rattle.std.specs.Prelude.{◌≡◌};

use crate::file_disk::FileDisk;
use crate::{Disk, MemDisk};
use rc_ids::NoMemory;
use rc_ports::Failed;

/// A file where a folder is selected, and a disk in memory where none is.
#[derive(Drop)]
pub enum HostDisk {
    Memory(MemDisk),
    File(FileDisk),
}

impl Disk for HostDisk {
    ghost use Rattle.rc_disk.specs.HostDisks.{told_host, content_host, may_leave_host, moment_host, left_since_host, power_host, faults_host, cuts_host, spare_calls_host, spare_bytes_host, length_host};
    ghost use Rattle.rc_disk.specs.HostDisks.{told_content_host, told_power_host, may_stay_host, has_length_host, now_too_host, no_other_host};

    ghost content = { λ d. content_host d };

    ghost may_leave = { λ d left. may_leave_host d left };

    ghost moment = { λ d. moment_host d };

    ghost left_since = { λ d t left. left_since_host d t left };

    ghost told = { λ d. told_host d };

    ghost power = { λ d. power_host d };

    ghost faults = { λ d. faults_host d };

    ghost cuts = { λ d. cuts_host d };

    ghost spare_calls = { λ d. spare_calls_host d };

    ghost spare_bytes = { λ d. spare_bytes_host d };

    ghost length_of = { λ d. length_host d };

    ghost told_content = { λ d. told_content_host d };

    ghost told_power = { λ d. told_power_host d };

    ghost may_stay = { λ d. may_stay_host d };

    ghost has_length = { λ d. has_length_host d };

    ghost now_too = { λ d t left earlier one. now_too_host d t left earlier one };

    ghost no_other = { λ d left since. no_other_host d left since };

    fn len(&self) -> u64 {
        match self {
            HostDisk::Memory(disk) => disk.len(),
            HostDisk::File(disk) => disk.len(),
        }
    }

    fn read(&mut self, place: u64, buf: &mut [u8]) -> Result<(), Failed> {
        match self {
            HostDisk::Memory(disk) => disk.read(place, buf),
            HostDisk::File(disk) => disk.read(place, buf),
        }
    }

    fn write_at(&mut self, place: u64, bytes: &[u8]) -> Result<(), Failed> {
        match self {
            HostDisk::Memory(disk) => disk.write_at(place, bytes),
            HostDisk::File(disk) => disk.write_at(place, bytes),
        }
    }

    fn cut(&mut self, len: u64) -> Result<(), Failed> {
        match self {
            HostDisk::Memory(disk) => disk.cut(len),
            HostDisk::File(disk) => disk.cut(len),
        }
    }

    fn sync(&mut self) -> Result<(), Failed> {
        match self {
            HostDisk::Memory(disk) => disk.sync(),
            HostDisk::File(disk) => disk.sync(),
        }
    }

    fn room(&mut self, bytes: u64, calls: u32) -> Result<(), NoMemory> {
        match self {
            HostDisk::Memory(disk) => disk.room(bytes, calls),
            HostDisk::File(disk) => disk.room(bytes, calls),
        }
    }

    fn power_cut(&mut self, k: u64, pick: u8) {
        match self {
            HostDisk::Memory(disk) => disk.power_cut(k, pick),
            HostDisk::File(disk) => disk.power_cut(k, pick),
        }
    }

    fn power_on(&mut self) {
        match self {
            HostDisk::Memory(disk) => disk.power_on(),
            HostDisk::File(disk) => disk.power_on(),
        }
    }
}
