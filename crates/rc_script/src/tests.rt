use super::*;
use std::alloc::{AllocError, Global};
use std::test::Fail;

/// The line at which the script is refused, or None where it is read.
fn refused_at(alloc: Global, script: &[u8]) -> Option<u32> {
    match parse(alloc, script) {
        Ok(_) => None,
        Err(ScriptFault::Line { number }) => Some(number),
        Err(ScriptFault::TooManyLines) => Some(0),
        Err(ScriptFault::NoMemory) => Some(u32::MAX),
    }
}

/// A front, so many times the byte, and an end.
fn with_many(alloc: Global, front: &[u8], byte: u8, count: usize) -> Result<Vec<u8>, AllocError> {
    let mut script = Vec::from_slice(alloc, front)?;
    for _ in 0..count {
        script.push(byte)?;
    }
    Ok(script)
}

#[test]
fn one_line_of_each_form(rt: HostRuntime) -> Result<(), Fail> {
    let script =
        b"# all forms\r\nworld 3 2 1 2 3\n\nsplit m\nbegin t1\nread t1 k-1\nwrite t1 K_2 a b\nwrite t1 k\nwrite t1 k \ndelete t1 k\ncommit t1\ncancel t4294967295 k\nretry t1\nvanish t1\nstep 2000000\nsettle\ndeliver 0 4294967295\nlose 7\ncrash d3\ncrash d1.s2 at 1000 pick 3\nrestart d2.s1\ntake d2 t9\ncatch d1\npending\nshow d3\norder";
    let forms = [
        (
            2,
            "World { dcs: 3, shards: 2, weights: Some(Weights { items: [1, 2, 3] }) }",
        ),
        (4, "Split([109])"),
        (5, "Begin(TxId(1))"),
        (6, "Read(TxId(1), [107, 45, 49])"),
        (7, "Write(TxId(1), [75, 95, 50], [97, 32, 98])"),
        (8, "Write(TxId(1), [107], [])"),
        (9, "Write(TxId(1), [107], [])"),
        (10, "Delete(TxId(1), [107])"),
        (11, "Commit(TxId(1))"),
        (12, "Cancel(TxId(4294967295), [107])"),
        (13, "Retry(TxId(1))"),
        (14, "Vanish(TxId(1))"),
        (15, "Step(2000000)"),
        (16, "Settle"),
        (17, "Deliver(Numbers { items: [0, 4294967295] })"),
        (18, "Lose(Numbers { items: [7] })"),
        (19, "Crash(Coord(DcId(3)))"),
        (
            20,
            "CrashAt { node: Shard(DcId(1), ShardId(2)), call: 1000, pick: 3 }",
        ),
        (21, "Restart(Shard(DcId(2), ShardId(1)))"),
        (22, "Take(DcId(2), TxId(9))"),
        (23, "Catch(Coord(DcId(1)))"),
        (24, "Pending"),
        (25, "Show(DcId(3))"),
        (26, "Order"),
    ];
    let script = parse(rt.alloc(), script)?;
    assert_eq!(rt; script.lines().len(), forms.len());
    for (line, (number, form)) in script.lines().iter().zip(&forms) {
        assert_eq!(rt; line.number, *number);
        let shown = format!(in rt.alloc(); "{:?}", line.command)?;
        assert_eq!(rt; shown.as_str(), *form);
    }
    assert_eq!(rt; script.into_lines().len(), forms.len());
    Ok(())
}

#[test]
fn refusals(rt: HostRuntime) {
    let cases = [
        ("", None),
        ("# nothing\n\r\n\n#", None),
        ("#\t", Some(1)),
        ("\n#\x7f\n", Some(2)),
        ("begin t1", Some(1)),
        ("world 3 1\r\nbegin t1\r\n", None),
        ("world 3 1\r", Some(1)),
        ("world 3 1\r\r\n", Some(1)),
        ("world 2 1", Some(1)),
        ("world 9 1", Some(1)),
        ("world 3 0", Some(1)),
        ("world 3 9", Some(1)),
        ("world 7 1 9 9 9 9 9 9 9", None),
        ("world 3 1 1 1", Some(1)),
        ("world 3 1 1 1 1 1", Some(1)),
        ("world 3 1 1 0 1", Some(1)),
        ("world 3 1 1 10 1", Some(1)),
        ("world 3 1\nworld 3 1", Some(2)),
        ("world 3 1\nsplit m", Some(2)),
        ("world 3 2", Some(2)),
        ("world 3 2\n#\n", Some(3)),
        ("world 3 2\nbegin t1", Some(2)),
        ("world 3 3\nsplit b\nsplit c\nsettle", None),
        ("world 3 3\nsplit b\nsplit b", Some(3)),
        ("world 3 3\nsplit b\nsplit Z", Some(3)),
        ("world 3 1\nbegin  t1", Some(2)),
        ("world 3 1\nbegin t1 ", Some(2)),
        ("world 3 1\n begin t1", Some(2)),
        ("world 3 1\nbegin t0", Some(2)),
        ("world 3 1\nbegin t01", Some(2)),
        ("world 3 1\nbegin t4294967296", Some(2)),
        ("world 3 1\nbegin", Some(2)),
        ("world 3 1\nBegin t1", Some(2)),
        ("world 3 1\nread t1", Some(2)),
        ("world 3 1\nread t1 ", Some(2)),
        ("world 3 1\nread t1 a.b", Some(2)),
        ("world 3 1\nwrite t1", Some(2)),
        ("world 3 1\nstep 0", Some(2)),
        ("world 3 1\nstep 2000001", Some(2)),
        ("world 3 1\nsettle ", Some(2)),
        ("world 3 1\ndeliver", Some(2)),
        ("world 3 1\ndeliver 00", Some(2)),
        ("world 3 1\ndeliver 4294967296", Some(2)),
        ("world 3 1\ncrash d4", Some(2)),
        ("world 3 1\ncrash d3.s2", Some(2)),
        ("world 3 1\ncrash d3.", Some(2)),
        ("world 3 1\ncrash d1 at 1001 pick 0", Some(2)),
        ("world 3 1\ncrash d1 at 0 pick 0", Some(2)),
        ("world 3 1\ncrash d1 at 1 pick 4", Some(2)),
        ("world 3 1\ncrash d1 at 1 pick 0", None),
        ("world 3 1\ntake d1.s1 t1", Some(2)),
        ("world 3 1\nshow d4", Some(2)),
    ];
    for (script, wanted) in cases {
        assert_eq!(rt;
            refused_at(rt.alloc(), script.as_bytes()),
            wanted,
            "{script:?}"
        );
    }
}

#[test]
fn limits(rt: HostRuntime) -> Result<(), Fail> {
    let read = b"world 3 1\nbegin t1\nread t1 ".as_slice();
    let write = b"world 3 1\nbegin t1\nwrite t1 x ".as_slice();
    let cases = [
        (read, b'k', 64, None),
        (read, b'k', 65, Some(3)),
        (write, b'~', 1024, None),
        (write, b'~', 1025, Some(3)),
        (b"".as_slice(), b'\n', 65_536, None),
        (b"".as_slice(), b'\n', 65_537, Some(0)),
        (b"no line".as_slice(), b'\n', 65_537, Some(0)),
    ];
    for (front, byte, count, wanted) in cases {
        let script = with_many(rt.alloc(), front, byte, count)?;
        assert_eq!(rt;
            refused_at(rt.alloc(), &script),
            wanted,
            "{count} of {byte}"
        );
    }
    let mut script = Vec::from_slice(rt.alloc(), b"world 3 1\nlose 1")?;
    for _ in 0..63 {
        script.extend_from_slice(b" 1")?;
    }
    assert_eq!(rt; refused_at(rt.alloc(), &script), None);
    script.extend_from_slice(b" 1")?;
    assert_eq!(rt; refused_at(rt.alloc(), &script), Some(2));
    Ok(())
}
