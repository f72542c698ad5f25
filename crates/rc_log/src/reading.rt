// Reading the records of a log's bytes.
ghost use Rattle.std.specs.Prelude.{◌≡◌, ◌<◌, ◌≤◌, length, true, Ok, Err, IfOk, IfErr, OnOk, IfSome};
ghost use Rattle.std.specs.Option.{option_map};
ghost use Rattle.rc_disk.specs.Crashes.{AddsNone, TakesTime};
ghost use Rattle.rc_log.specs.Append.{AreStill};
ghost use Rattle.rc_log.specs.Opening.{read_or_none, IsNoRead};
ghost use Rattle.rc_log.specs.Records.{frame_at, records, size_of};
ghost use Rattle.rc_log.specs.Reading.{IsReadFault};

use crate::OpenFault;
use rc_disk::Disk;
use rc_fields::{FieldFault, Fields};
use rc_ids::{Blob, Blobs};
use std::alloc::Global;

const OPEN: u8 = 1;

/// The record whose length stands first, and what follows it.
fn next_frame(bytes: &[u8]) -> Result<(&[u8], &[u8]), FieldFault>
    ensures ok { IfOk result (λ frame. frame_at bytes.now ≡ Ok (frame.0.now, frame.1.now)) }
    ensures err { IfErr result (λ e. frame_at bytes.now ≡ Err e) }
{
    let mut fields = Fields::new(bytes);
    let len = fields.u32()? as usize;
    let rest = fields.rest();
    if rest.len() < len {
        return Err(FieldFault::Short);
    }
    Ok(rest.split_at(len))
}

/// The records of a log's bytes, and the place of the gate behind them.
pub fn read_records(alloc: Global, bytes: &[u8]) -> Result<(Blobs, u64), OpenFault>
    ensures ok { IfOk result (λ found. records bytes.now ≡ Ok found.0) }
    ensures end { IfOk result (λ found. found.1 ≡ size_of found.0) }
    ensures inside { IfOk result (λ found. found.1 < length bytes.now) }
    ensures err { IfErr result (IsReadFault bytes.now) }
{
    let mut all = Blobs::new(alloc);
    let mut rest = bytes;
    let mut place = 0;
    while let Some((gate, behind)) = rest.split_first() {
        if *gate != OPEN {
            return Ok((all, place));
        }
        let Ok((record, after)) = next_frame(behind) else {
            return Err(OpenFault::Damaged { place });
        };
        all.push(Blob::from_bytes(alloc, record)?)?;
        place += 5 + record.len() as u64;
        rest = after;
    }
    Err(OpenFault::Damaged { place })
}

/// All bytes of a disk. An empty one is not read.
pub fn read_whole<D: Disk>(alloc: Global, disk: &mut D) -> Result<Vec<u8>, OpenFault>
    ensures bytes { IfOk result (λ bytes. IfSome (D.content disk.old) (λ c. bytes.items ≡ c)) }
    ensures size { IfOk result (λ bytes. length bytes.items ≡ D.length_of disk.old) }
    ensures content { D.content disk.new ≡ D.content disk.old }
    ensures length { D.length_of disk.new ≡ D.length_of disk.old }
    ensures told { OnOk result (D.told disk.new ≡ option_map (read_or_none (D.length_of disk.old) true) (D.told disk.old)) }
    ensures power { D.power disk.new ≡ D.power disk.old }
    ensures counts { OnOk result (AreStill (D.faults disk.old) (D.faults disk.new) (D.cuts disk.old) (D.cuts disk.new)) }
    ensures err { IfErr result (λ e. IsNoRead (D.length_of disk.old) e (D.told disk.old) (D.told disk.new) (D.power disk.old) (D.faults disk.old) (D.faults disk.new) (D.cuts disk.old) (D.cuts disk.new)) }
    ensures later_faults { D.faults disk.old ≤ D.faults disk.new }
    ensures later_cuts { D.cuts disk.old ≤ D.cuts disk.new }
    ensures crash { AddsNone (D.may_leave disk.old) (D.may_leave disk.new) }
    ensures time { TakesTime (D.moment disk.old) (D.moment disk.new) (D.left_since disk.old) (D.left_since disk.new) (D.may_leave disk.new) }
{
    let len = disk.len();
    if len == 0 {
        return Ok(Vec::new(alloc));
    }
    let mut bytes = vec![in alloc; 0u8; len as usize]?;
    disk.read(0, bytes.as_mut_slice())?;
    Ok(bytes)
}
