// A log byte for byte, its fronts, and what is opened after each device call has failed.
ghost use Rattle.std.specs.Prelude.{◌≡◌, []};
ghost use Rattle.rc_disk.specs.MemDisks.{content_of};

use crate::{AppendFault, Journal, ListJournal, Log, OpenFault};
use rc_disk::{Disk, MemDisk};
use std::alloc::Global;
use std::test::Fail;

const FIRST: [u8; 10] = [0, 3, 1, 1, 1, 3, 1, 1, 1, 1];

const SECOND: [u8; 6] = [1, 0, 0, 0, 1, 0];

// The log of the two records.
const LOG: [u8; 27] = [
    1, 0, 0, 0, 10, 0, 3, 1, 1, 1, 3, 1, 1, 1, 1, 1, 0, 0, 0, 6, 1, 0, 0, 0, 1, 0, 0,
];

// The log of the first alone.
const SHORT: [u8; 16] = [1, 0, 0, 0, 10, 0, 3, 1, 1, 1, 3, 1, 1, 1, 1, 0];

/// Adds a record, unless an append failed before.
fn add(log: &mut Log<MemDisk>, bytes: &[u8]) -> Result<(), AppendFault> {
    if log.failed() {
        return Err(AppendFault::Failed);
    }
    log.append(bytes)
}

/// Creates a log on an empty disk and adds the two records: how many are counted, if there is a log, and the disk.
fn write_both(alloc: Global, disk: MemDisk) -> (Option<u64>, MemDisk)
    requires { content_of disk ≡ [] }
{
    match Log::create(alloc, disk, 64) {
        Ok(mut log) => {
            let _ = add(&mut log, &FIRST);
            let _ = add(&mut log, &SECOND);
            (Some(log.count()), log.into_disk())
        }
        Err((_, disk)) => (None, disk),
    }
}

/// Opens the log of a disk whose power is on again: how many of the two records it has, in order.
fn open_again(alloc: Global, disk: MemDisk) -> Result<usize, OpenFault> {
    let mut disk = disk;
    disk.power_on();
    match Log::open(alloc, disk, 64) {
        Ok((_, records)) => {
            for (record, want) in records.as_slice().iter().zip([FIRST.as_slice(), &SECOND]) {
                if record.as_bytes() != want {
                    return Err(OpenFault::Damaged { place: u64::MAX });
                }
            }
            Ok(records.len())
        }
        Err((fault, _)) => Err(fault),
    }
}

#[test]
fn byte_for_byte(rt: HostRuntime) -> Result<(), Fail> {
    let alloc = rt.alloc();
    // limit, how the second append goes, how many records there are, and the bytes
    let rows: [(u64, Result<(), AppendFault>, u64, &[u8]); 3] = [
        (64, Ok(()), 2, &LOG),
        (27, Ok(()), 2, &LOG),
        (26, Err(AppendFault::Full), 1, &SHORT),
    ];
    for (limit, second, count, bytes) in rows {
        let Ok(mut log) = Log::create(alloc, MemDisk::new(alloc), limit) else {
            panic!(rt; "no log");
        };
        log.room(FIRST.len())?;
        assert_eq!(rt; add(&mut log, &FIRST), Ok(()));
        assert_eq!(rt; add(&mut log, &SECOND), second);
        assert_eq!(rt; log.failed(), false);
        assert_eq!(rt; log.count(), count);
        assert_eq!(rt; log.into_disk().content(), bytes);
    }
    Ok(())
}

#[test]
fn fronts(rt: HostRuntime) -> Result<(), Fail> {
    let alloc = rt.alloc();
    for n in 0..=LOG.len() {
        let want = match n {
            0..=14 => Err(OpenFault::Damaged { place: 0 }),
            15..=25 => Err(OpenFault::Damaged { place: 15 }),
            26 => Err(OpenFault::Damaged { place: 26 }),
            _ => Ok(2),
        };
        let disk = MemDisk::with_content(alloc, LOG[..n].to_vec(alloc)?)?;
        assert_eq!(rt; open_again(alloc, disk), want);
    }
    Ok(())
}

#[test]
fn each_call_fails(rt: HostRuntime) -> Result<(), Fail> {
    let alloc = rt.alloc();
    let none = Err(OpenFault::Damaged { place: 0 });
    // the call that fails, how many records are counted, and how many are there when it is opened
    let rows: [(u64, Option<u64>, Result<usize, OpenFault>); 12] = [
        (1, None, none),
        (2, None, Ok(0)),
        (3, Some(0), Ok(0)),
        (4, Some(0), Ok(0)),
        (5, Some(0), Ok(0)),
        (6, Some(0), Ok(1)),
        (7, Some(1), Ok(1)),
        (8, Some(1), Ok(1)),
        (9, Some(1), Ok(1)),
        (10, Some(1), Ok(2)),
        (11, Some(2), Err(OpenFault::Failed)),
        (12, Some(2), Ok(2)),
    ];
    for (call, count, opened) in rows {
        let disk = MemDisk::failing(alloc, vec![in alloc; call; 1]?, Vec::new(alloc))?;
        let run = write_both(alloc, disk);
        assert_eq!(rt; run.0, count, "call {call}");
        assert_eq!(rt; open_again(alloc, run.1), opened, "call {call}");
    }
    Ok(())
}

#[test]
fn each_cut(rt: HostRuntime) -> Result<(), Fail> {
    let alloc = rt.alloc();
    let none = Err(OpenFault::Damaged { place: 0 });
    // the call at which the power goes off, the pick, and how many records there are when it is opened
    let rows: [(u64, u8, Result<usize, OpenFault>); 16] = [
        (1, 0, none),
        (2, 1, Ok(0)),
        (2, 2, Ok(0)),
        (2, 3, none),
        (3, 1, Ok(0)),
        (4, 3, Ok(0)),
        (5, 0, Ok(0)),
        (5, 1, Ok(1)),
        (5, 2, Ok(0)),
        (5, 3, Ok(1)),
        (6, 0, Ok(0)),
        (6, 3, Ok(1)),
        (8, 3, Ok(1)),
        (9, 2, Ok(1)),
        (10, 1, Ok(2)),
        (11, 0, Ok(2)),
    ];
    for (call, pick, opened) in rows {
        let mut disk = MemDisk::new(alloc);
        disk.power_cut(call.max(1), pick.min(3));
        let run = write_both(alloc, disk);
        assert_eq!(rt;
            open_again(alloc, run.1),
            opened,
            "call {call}, pick {pick}"
        );
    }
    Ok(())
}

#[test]
fn a_read_fails(rt: HostRuntime) -> Result<(), Fail> {
    let alloc = rt.alloc();
    let disk = MemDisk::failing(alloc, Vec::new(alloc), vec![in alloc; 1u64; 1]?)?;
    let run = write_both(alloc, disk);
    let Err((fault, disk)) = Log::open(alloc, run.1, 64) else {
        panic!(rt; "the read does not fail");
    };
    assert_eq!(rt; fault, OpenFault::Failed);
    assert_eq!(rt; open_again(alloc, disk), Ok(2));
    Ok(())
}

#[test]
fn in_memory(rt: HostRuntime) -> Result<(), Fail> {
    let mut journal = ListJournal::new(rt.alloc());
    journal.room(FIRST.len())?;
    assert_eq!(rt; journal.append(&FIRST), Ok(()));
    assert_eq!(rt; journal.append(&SECOND), Ok(()));
    journal.power_cut(1, 0);
    assert_eq!(rt; journal.failed(), false);
    assert_eq!(rt; journal.count(), 2);
    Ok(())
}
