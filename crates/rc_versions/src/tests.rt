// Keys that are written, read and written again.
use crate::Versions;
use rc_ids::{Key, Val, Version};
use std::alloc::Global;
use std::process::Abort;
use std::test::Fail;

/// Writes the text at the key, and says whether it was newer.
fn apply(
    alloc: Global,
    versions: &mut Versions,
    key: &[u8],
    version: Version,
    text: &[u8],
) -> Result<bool, Fail> {
    Ok(versions.apply(&Key::new(key)?, version, Val::new(alloc, text)?)?)
}

/// Three digits.
fn digits(number: u8) -> [u8; 3] {
    [
        b'0' + number / 100,
        b'0' + number / 10 % 10,
        b'0' + number % 10,
    ]
}

#[test]
fn newest_wins(rt: HostRuntime) -> Result<(), Fail> {
    let alloc = rt.alloc();
    let mut versions = Versions::new(alloc);
    versions.room(2)?;
    assert!(rt; apply(alloc, &mut versions, b"m", Version(2), b"second")?);
    assert!(rt; !apply(alloc, &mut versions, b"m", Version(1), b"first")?);
    assert!(rt; !apply(alloc, &mut versions, b"k", Version(0), b"never")?);
    assert!(rt; apply(alloc, &mut versions, b"a", Version(1), b"other")?);
    assert!(rt; apply(alloc, &mut versions, b"z", Version(1), b"last")?);
    assert_eq!(rt; versions.get(&Key::new(b"k")?).0, Version(0));
    let key = Key::new(b"m")?;
    let (version, value) = versions.get(&key);
    assert_eq!(rt; version, Version(2));
    assert_eq!(rt; value.ok_or("no value")?.as_bytes(), b"second".as_slice());
    Ok(())
}

/// Writes all numbers below 250, in the order of their multiples of 37.
fn numbered(rt: &impl Abort, alloc: Global) -> Result<Versions, Fail> {
    let mut versions = Versions::new(alloc);
    for step in 0..250u32 {
        let key = digits((step * 37 % 250) as u8);
        assert!(rt; apply(alloc, &mut versions, &key, Version(1), &key)?);
    }
    Ok(versions)
}

#[test]
fn rows_rise_over_pages(rt: HostRuntime) -> Result<(), Fail> {
    let versions = numbered(&rt, rt.alloc())?;
    let mut rows = versions.rows();
    for number in 0..250u8 {
        let Some((key, _, value)) = rows.next() else {
            return Err(Fail::from("no row"));
        };
        assert_eq!(rt; key.as_bytes(), digits(number).as_slice());
        assert_eq!(rt; value.as_bytes(), digits(number).as_slice());
    }
    assert!(rt; rows.next().is_none());
    Ok(())
}

/// Writes a long key and three others, which differ from it behind their first eight bytes or by their length alone.
fn alike(alloc: Global) -> Result<Versions, Fail> {
    let mut versions = Versions::new(alloc);
    apply(alloc, &mut versions, b"account-2", Version(2), b"b")?;
    apply(alloc, &mut versions, b"account-10", Version(3), b"c")?;
    apply(alloc, &mut versions, b"account", Version(4), b"d")?;
    apply(alloc, &mut versions, b"account-", Version(5), b"e")?;
    Ok(versions)
}

#[test]
fn long_keys_rise_too(rt: HostRuntime) -> Result<(), Fail> {
    let versions = alike(rt.alloc())?;
    let mut rows = versions.rows();
    for wanted in [4, 5, 3, 2] {
        let Some((_, version, _)) = rows.next() else {
            return Err(Fail::from("no row"));
        };
        assert_eq!(rt; version, Version(wanted));
    }
    Ok(())
}
