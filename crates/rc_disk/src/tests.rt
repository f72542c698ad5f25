// Files as disks, and disks in memory that lose their power.
use crate::{Disk, Farm, HostFarm, MemDisk, MemFarm};
use rc_ids::{DcId, NodeId, ShardId};
use rc_ports::{Failed, Word};
use std::test::Fail;

/// The folder of the files, which is made.
const FOLDER: &[u8] = b"out/farm/logs";

#[test]
fn files(rt: HostRuntime) -> Result<(), Fail> {
    let alloc = rt.alloc();
    let folder = Word::new(alloc, FOLDER)?;
    let mut farm = HostFarm::new(&rt, alloc)?;
    farm.select(Some(&folder))?;
    let mut disk = farm.disk(NodeId::Shard(DcId(1), ShardId(2)))?;
    disk.room(8, 4)?;
    disk.cut(0)?;
    disk.write_at(0, b"abcd")?;
    disk.cut(3)?;
    disk.sync()?;
    farm.back(NodeId::Shard(DcId(1), ShardId(2)), disk);
    let mut farm = HostFarm::new(&rt, alloc)?;
    farm.select(Some(&folder))?;
    let mut disk = farm.disk(NodeId::Shard(DcId(1), ShardId(2)))?;
    assert_eq!(rt; disk.len(), 3);
    let mut bytes = [0; 3];
    disk.read(0, &mut bytes)?;
    assert_eq!(rt; bytes.as_slice(), b"abc".as_slice());
    disk.room(1, 2)?;
    disk.power_cut(1, 0);
    assert_eq!(rt; disk.write_at(3, b"d"), Err(Failed));
    disk.power_on();
    assert_eq!(rt; disk.len(), 3);
    Ok(())
}

#[test]
fn without_a_folder(rt: HostRuntime) -> Result<(), Fail> {
    let mut farm = HostFarm::new(&rt, rt.alloc())?;
    farm.select(None)?;
    let mut disk = farm.disk(NodeId::Coord(DcId(1)))?;
    assert_eq!(rt; disk.len(), 0);
    disk.room(1, 2)?;
    disk.write_at(0, b"x")?;
    disk.sync()?;
    assert_eq!(rt; disk.len(), 1);
    Ok(())
}

#[test]
fn picks(rt: HostRuntime) -> Result<(), Fail> {
    let alloc = rt.alloc();
    // what each pick leaves of a write at whose call the power is cut
    let rows: [(u8, &[u8]); 4] = [(0, b"abc"), (1, b"axc"), (2, b"a\xffc"), (3, b"a\x01c")];
    for (pick, left) in rows {
        let mut disk = MemDisk::with_content(alloc, b"abc".to_vec(alloc)?)?;
        disk.room(1, 1)?;
        disk.power_cut(1, pick % 4);
        assert_eq!(rt; disk.write_at(1, b"x"), Err(Failed));
        disk.power_on();
        assert_eq!(rt; disk.content(), left);
    }
    Ok(())
}

#[test]
fn in_memory(rt: HostRuntime) -> Result<(), Fail> {
    let alloc = rt.alloc();
    let mut farm = MemFarm::new(alloc, Vec::new(alloc))?;
    farm.give(
        NodeId::Coord(DcId(2)),
        MemDisk::failing(alloc, vec![in alloc; 2]?, Vec::new(alloc))?,
    );
    farm.select(Some(&Word::new(alloc, b"disks")?))?;
    let mut disk = farm.disk(NodeId::Coord(DcId(2)))?;
    disk.room(2, 3)?;
    disk.write_at(0, b"a")?;
    assert_eq!(rt; disk.sync(), Err(Failed));
    disk.sync()?;
    farm.back(NodeId::Coord(DcId(2)), disk);
    match farm.look(NodeId::Coord(DcId(2))) {
        Some(disk) => assert_eq!(rt; disk.content(), b"a".as_slice()),
        None => panic!(rt; "the disk is not there"),
    }
    Ok(())
}
