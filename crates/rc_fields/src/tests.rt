// That calls answer where there is memory, and bytes that stand in the description of messages.
use crate::*;
use rc_ids::{Blob, Key, Val};
use std::alloc::Global;
use std::test::Fail;

#[test]
fn fields(rt: HostRuntime) -> Result<(), Fail> {
    let alloc = rt.alloc();
    let mut out = Blob::new(alloc);
    put_u8(&mut out, 1)?;
    put_u16(&mut out, 2)?;
    put_u32(&mut out, 3)?;
    put_u64(&mut out, 4)?;
    put_key(&mut out, &Key::new(b"x")?)?;
    put_val(&mut out, &Val::gone(alloc)?)?;
    let bytes = [
        1, 0, 2, 0, 0, 0, 3, 0, 0, 0, 0, 0, 0, 0, 4, 1, b'x', 0, 1, 0,
    ];
    assert_eq!(rt; out.as_bytes(), bytes.as_slice());
    let mut fields = Fields::new(&bytes);
    assert_eq!(rt; fields.tag(1)?, 1);
    assert_eq!(rt; fields.u16()?, 2);
    assert_eq!(rt; fields.u32()?, 3);
    assert_eq!(rt; fields.u64()?, 4);
    assert_eq!(rt; fields.counted(64)?, b"x".as_slice());
    assert_eq!(rt; fields.counted(1024)?, b"\0".as_slice());
    assert!(rt; fields.is_end());
    assert_eq!(rt; fields.u8(), Err(FieldFault::Short));
    Ok(())
}

#[test]
fn faults(rt: HostRuntime) {
    let mut fields = Fields::new(&[2, 7]);
    assert!(rt; matches!(fields.tag(1), Err(FieldFault::BadTag)));
    assert!(rt; matches!(fields.counted(1), Err(FieldFault::TooLong)));
    assert!(rt; matches!(fields.counted(2), Err(FieldFault::Short)));
    assert!(rt; matches!(fields.u32(), Err(FieldFault::Short)));
    assert_eq!(rt; fields.rest(), [2, 7].as_slice());
    // the length stands before its bytes
    assert!(rt; matches!(Fields::new(&[65]).counted(64), Err(FieldFault::TooLong)));
    assert!(rt; matches!(Fields::new(&[4, 1]).counted(1024), Err(FieldFault::TooLong)));
    assert!(rt; matches!(Fields::new(&[4]).counted(1024), Err(FieldFault::Short)));
    assert!(rt; matches!(Fields::new(&[]).counted(64), Err(FieldFault::Short)));
}

/// Whether the bytes are a party, and are written so again.
fn is_party(alloc: Global, bytes: &[u8]) -> Result<bool, Fail> {
    let Some(party) = Fields::new(bytes).party() else {
        return Ok(false);
    };
    let mut out = Blob::new(alloc);
    put_party(&mut out, &party)?;
    Ok(out.as_bytes() == bytes)
}

/// Whether the bytes are a node, and are written so again.
fn is_node(alloc: Global, bytes: &[u8]) -> Result<bool, Fail> {
    let Some(node) = Fields::new(bytes).node() else {
        return Ok(false);
    };
    let mut out = Blob::new(alloc);
    put_node(&mut out, &node)?;
    Ok(out.as_bytes() == bytes)
}

#[test]
fn parties(rt: HostRuntime) -> Result<(), Fail> {
    let spelled: [&[u8]; 3] = [&[0, 7], &[1, 1, 8], &[2, 0, 0, 0, 1]];
    for bytes in &spelled {
        assert!(rt; is_party(rt.alloc(), *bytes)?);
    }
    let refused: [&[u8]; 6] = [
        &[],
        &[0, 0],
        &[0, 8],
        &[1, 1, 9],
        &[2, 0, 0, 0, 0],
        &[3, 1, 1],
    ];
    for bytes in &refused {
        assert!(rt; !is_party(rt.alloc(), *bytes)?);
    }
    assert!(rt; is_node(rt.alloc(), &[1, 1, 2])?);
    assert!(rt; !is_node(rt.alloc(), &[2, 1, 2])?);
    Ok(())
}

#[test]
fn numbers(rt: HostRuntime) {
    assert!(rt; Fields::new(&[128, 0, 0, 0]).ballot().is_some());
    assert!(rt; Fields::new(&[128, 0, 0, 1]).ballot().is_none());
    assert!(rt; Fields::new(&[63, 0, 0, 0, 0, 0, 0, 0]).version().is_some());
    assert!(rt; Fields::new(&[64, 0, 0, 0, 0, 0, 0, 0]).version().is_none());
    assert_eq!(rt; Fields::new(&[0, 0, 0, 2]).place(), Some(2));
    assert!(rt; Fields::new(&[8]).shard().is_some());
}
