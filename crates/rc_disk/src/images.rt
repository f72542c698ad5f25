// The four images of a memory disk.
ghost use Rattle.std.specs.Prelude.{◌≡◌, ◌+◌, ◌-◌, ◌≤◌, ◌<◌, max, ℕ, length, List, [], ◌∷◌, ◌++◌, take, drop, Option, None, Some, vec_capacity, OnOk, OnErr, IfOk};
ghost use Rattle.rc_disk.specs.Calls.{Writes, Shortens, made, all_synced, image};
ghost use Rattle.rc_disk.specs.Past.{call_of, fits, images_moved};
ghost use Rattle.rc_disk.specs.Memory.{HasRoom, images_of, inked};

use crate::change::{Change, Event};
use rc_ids::NoMemory;
use std::alloc::Global;

/// What a cut of the power leaves by each pick. Up to the place `clean` all four are the same.
#[derive(Debug, Drop)]
pub struct FourImages {
    pub synced: Vec<u8>,
    pub plain: Vec<u8>,
    pub full: Vec<u8>,
    pub ones: Vec<u8>,
    pub clean: usize,
}

fn put(bytes: &mut Vec<u8>, at: usize, byte: u8)
    requires inside { at ≤ length bytes.old.items }
    requires room { at < vec_capacity bytes.old }
    ensures items { bytes.new.items ≡ take at bytes.old.items ++ byte ∷ drop (at + 1) bytes.old.items }
    ensures capacity { vec_capacity bytes.old ≤ vec_capacity bytes.new }
{
    if at < bytes.len() {
        bytes[at] = byte;
    } else {
        bytes.push(byte).unwrap();
    }
}

/// Writes the bytes, or as many times another, over what is there, and past the end.
fn overwrite(bytes: &mut Vec<u8>, place: usize, written: &[u8], fill: Option<u8>)
    requires inside { place ≤ length bytes.old.items }
    requires room { place + length written.now ≤ vec_capacity bytes.old }
    ensures items { bytes.new.items ≡ take place bytes.old.items ++ inked fill written.now ++ drop (place + length written.now) bytes.old.items }
    ensures capacity { vec_capacity bytes.old ≤ vec_capacity bytes.new }
{
    for (i, byte) in written.iter().enumerate() {
        put(bytes, place + i, fill.unwrap_or(*byte));
    }
}

/// Makes the bytes those of `from`, where they are the same up to a place.
fn copy_over(bytes: &mut Vec<u8>, from: &[u8], clean: usize)
    requires same { take clean bytes.old.items ≡ take clean from.now }
    requires inside { clean ≤ length from.now }
    requires room { length from.now ≤ vec_capacity bytes.old }
    ensures items { bytes.new.items ≡ from.now }
    ensures capacity { vec_capacity bytes.old ≤ vec_capacity bytes.new }
{
    bytes.truncate(clean);
    bytes.extend_from_slice(&from[clean..]).unwrap();
}

impl FourImages {
    /// Images of nothing.
    pub fn new(alloc: Global) -> FourImages
        ensures images { images_of result ≡ all_synced [] }
        ensures room { HasRoom result 0 }
    {
        FourImages {
            synced: Vec::new(alloc),
            plain: Vec::new(alloc),
            full: Vec::new(alloc),
            ones: Vec::new(alloc),
            clean: 0,
        }
    }

    /// Images of these bytes.
    pub fn of(alloc: Global, bytes: Vec<u8>) -> Result<FourImages, NoMemory>
        ensures images { IfOk result (λ im. images_of im ≡ all_synced bytes.items) }
        ensures room { IfOk result (λ im. HasRoom im 0) }
    {
        let synced = Vec::from_slice(alloc, &bytes)?;
        let full = Vec::from_slice(alloc, &bytes)?;
        let ones = Vec::from_slice(alloc, &bytes)?;
        Ok(FourImages {
            synced,
            plain: bytes,
            full,
            ones,
            clean: 0,
        })
    }

    /// Makes room for so many more bytes.
    pub fn reserve(&mut self, bytes: usize, spare: usize) -> Result<(), NoMemory>
        requires room { HasRoom self.old spare }
        ensures same { images_of self.new ≡ images_of self.old }
        ensures ok { OnOk result (HasRoom self.new bytes) }
        ensures err { OnErr result (HasRoom self.new spare) }
    {
        let longest = self.plain.len().max(self.synced.len());
        let Some(total) = longest.checked_add(bytes) else {
            return Err(NoMemory);
        };
        self.synced.reserve(total - self.synced.len())?;
        self.plain.reserve(total - self.plain.len())?;
        self.full.reserve(total - self.plain.len())?;
        self.ones.reserve(total - self.plain.len())?;
        Ok(())
    }

    /// Nothing is on the disk.
    pub fn erase(&mut self)
        ensures images { images_of self.new ≡ all_synced [] }
        ensures room { HasRoom self.new 0 }
    {
        self.synced.clear();
        self.plain.clear();
        self.full.clear();
        self.ones.clear();
        self.clean = 0;
    }

    fn write(&mut self, place: usize, written: &[u8], spare: usize)
        requires inside { place ≤ length self.old.plain.items }
        requires room { HasRoom self.old spare }
        requires spare { length written.now ≤ spare }
        ensures made { images_of self.new ≡ made (Writes place written.now) (images_of self.old) }
        ensures room { HasRoom self.new (spare - length written.now) }
    {
        overwrite(&mut self.plain, place, written, None);
        overwrite(&mut self.full, place, written, Some(255));
        overwrite(&mut self.ones, place, written, Some(1));
        self.clean = self.clean.min(place);
    }

    fn cut(&mut self, len: usize, spare: usize)
        requires inside { len ≤ length self.old.plain.items }
        requires room { HasRoom self.old spare }
        ensures made { images_of self.new ≡ made (Shortens len) (images_of self.old) }
        ensures room { HasRoom self.new spare }
    {
        self.plain.truncate(len);
        self.full.truncate(len);
        self.ones.truncate(len);
        self.clean = self.clean.min(len);
    }

    /// Leaves the image of a pick.
    fn settle(&mut self, pick: u8, spare: usize)
        requires room { HasRoom self.old spare }
        ensures settled { images_of self.new ≡ all_synced (image pick (images_of self.old)) }
        ensures room { HasRoom self.new spare }
    {
        let clean = self.clean;
        if pick == 0 {
            copy_over(&mut self.plain, &self.synced, clean);
            copy_over(&mut self.full, &self.synced, clean);
            copy_over(&mut self.ones, &self.synced, clean);
        } else if pick == 1 {
            copy_over(&mut self.synced, &self.plain, clean);
            copy_over(&mut self.full, &self.plain, clean);
            copy_over(&mut self.ones, &self.plain, clean);
        } else if pick == 3 {
            copy_over(&mut self.synced, &self.ones, clean);
            copy_over(&mut self.plain, &self.ones, clean);
            copy_over(&mut self.full, &self.ones, clean);
        } else {
            copy_over(&mut self.synced, &self.full, clean);
            copy_over(&mut self.plain, &self.full, clean);
            copy_over(&mut self.ones, &self.full, clean);
        }
        self.clean = self.plain.len();
    }
    /// The content after a change that no sync has followed.
    fn make(&mut self, change: Change, written: &[u8], spare: usize)
        requires inside { fits (call_of change written.now) (length self.old.plain.items) }
        requires room { HasRoom self.old spare }
        requires spare { length written.now ≤ spare }
        ensures made { images_of self.new ≡ made (call_of change written.now) (images_of self.old) }
        ensures room { HasRoom self.new (spare - length written.now) }
    {
        match change {
            Change::Wrote(place, _) => self.write(place as usize, written, spare),
            Change::Shortened(len) => self.cut(len as usize, spare),
            Change::Synced => {}
        }
    }

    /// The content after a change, or after one at which the power went off.
    pub fn moves(&mut self, event: Event, written: &[u8], spare: usize)
        requires inside { fits (call_of event.change written.now) (length self.old.plain.items) }
        requires room { HasRoom self.old spare }
        requires spare { length written.now ≤ spare }
        ensures moved { images_of self.new ≡ images_moved event written.now (images_of self.old) }
        ensures room { HasRoom self.new (spare - length written.now) }
    {
        self.make(event.change, written, spare);
        let rest = spare - written.len();
        match event.fell {
            Some(pick) => self.settle(pick, rest),
            None => {
                if event.change == Change::Synced {
                    self.settle(1, rest);
                }
            }
        }
    }
}
