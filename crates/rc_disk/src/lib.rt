//! Disks: what a read gives, what a crash may leave, what a disk tells of its calls, and where the nodes' disks are.
#![tactic(auto)]

mod calls;
mod change;
mod disk;
mod farm;
mod file_disk;
mod host_disk;
mod host_farm;
mod host_slot;
mod images;
mod marks;
mod mem_disk;
mod mem_farm;
mod mem_slot;
mod past;
mod power;
mod reads;
mod shelf;
#[cfg(test)]
mod tests;

pub use disk::Disk;
pub use farm::{DeviceRefusal, Farm};
pub use file_disk::FileDisk;
pub use host_disk::HostDisk;
pub use host_farm::HostFarm;
pub use mem_disk::MemDisk;
pub use mem_farm::MemFarm;
pub use power::{Cause, Failure, Power};
