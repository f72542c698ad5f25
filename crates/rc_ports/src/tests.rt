// Each public call once, and the order of the statuses.
use crate::{
    Failed, HostSink, HostSource, MemSink, MemSource, ReadFault, Sink, Source, Status, SureSink,
    SureSource, Word, read_all, write_all,
};
use std::test::Fail;

#[test]
fn reads(rt: HostRuntime) -> Result<(), Fail> {
    let alloc = rt.alloc();
    // bytes, largest piece, failing calls, limit, what is read or None at a failure
    let rows: [(&[u8], usize, &[u64], usize, Option<&[u8]>); 5] = [
        (b"hello", 2, &[], 5, Some(b"hello")),
        (b"hello", 2, &[], 4, Some(b"hello")),
        (b"hello", 2, &[], 1, Some(b"he")),
        (b"hello", 2, &[2], 5, None),
        (b"", 1, &[2], 0, Some(b"")),
    ];
    for (bytes, piece, fails, limit, want) in rows {
        let bytes = bytes.to_vec(alloc)?;
        let mut source = MemSource::new(bytes, fails.to_vec(alloc)?).with_pieces(piece.max(1));
        match (read_all(alloc, &mut source, limit), want) {
            (Ok(all), Some(want)) => assert_eq!(rt; all.as_slice(), want),
            (Err(fault), None) => assert_eq!(rt; fault, ReadFault::Failed),
            _ => panic!(rt; "a failure where none is wanted, or none where one is"),
        }
    }
    let mut buffer = [0; 3];
    let mut sure = SureSource::new(b"four".to_vec(alloc)?);
    assert_eq!(rt; sure.read(&mut buffer), Ok(3));
    assert_eq!(rt; buffer.as_slice(), b"fou".as_slice());
    let text: &[u8] = b"host";
    let mut host = HostSource::new(text);
    assert_eq!(rt; host.read(&mut buffer), Ok(3));
    assert_eq!(rt; buffer.as_slice(), b"hos".as_slice());
    Ok(())
}

#[test]
fn writes(rt: HostRuntime) -> Result<(), Fail> {
    let alloc = rt.alloc();
    // capacity, failing calls, how it ends, what is taken
    let rows: [(usize, &[u64], Result<(), Failed>, &[u8]); 4] = [
        (8, &[], Ok(()), b"hello"),
        (5, &[4], Ok(()), b"hello"),
        (4, &[], Err(Failed), b"hell"),
        (8, &[2], Err(Failed), b"he"),
    ];
    for (capacity, fails, end, taken) in rows {
        let mut sink = MemSink::new(alloc, capacity, fails.to_vec(alloc)?)?.with_pieces(2);
        assert_eq!(rt; write_all(&mut sink, b"hello"), end);
        assert_eq!(rt; sink.bytes(), taken);
        assert_eq!(rt; sink.into_bytes().as_slice(), taken);
    }
    let mut sure = SureSink::new();
    assert_eq!(rt; sure.write(b"four"), Ok(4));
    assert_eq!(rt; sure.count(), 4);
    let mut host = HostSink::new(Vec::new(alloc));
    assert_eq!(rt; host.write(b"host"), Ok(4));
    assert_eq!(rt; host.into_writer().as_slice(), b"host".as_slice());
    Ok(())
}

#[test]
fn names_and_numbers(rt: HostRuntime) -> Result<(), Fail> {
    let word = Word::new(rt.alloc(), b"--logs")?;
    assert_eq!(rt; word.as_bytes(), b"--logs".as_slice());
    for (status, number) in [
        (Status::Done, 0),
        (Status::BadScript, 3),
        (Status::BadLog, 10),
        (Status::Disagreement, 12),
    ] {
        assert_eq!(rt; status.number(), number);
    }
    Ok(())
}
