// Scripts with their texts, and the statuses.
use rc_player::play;
use rc_ports::{MemSink, MemSource, Status, Word};
use std::alloc::Global;
use std::test::Fail;

const STORED: &str =
    "world 3 1\nbegin t1\nwrite t1 x a\ncommit t1\nsettle\nbegin t2\nread t2 x\nsettle\ncommit t2\nsettle\norder\n";

const STORED_TEXT: &str =
    "t1 committed\nsettled 31\nt2 read x 1 a\nsettled 7\nt2 committed\nsettled 24\norder t1 t2\n";

/// How much the sinks of these tests take.
const ROOM: usize = 1024;

/// A run without words, with a source and a sink that are told which calls fail.
fn run(
    alloc: Global,
    script: &str,
    reads: &[u64],
    writes: &[u64],
) -> Result<(Status, Vec<u8>), Fail> {
    let mut source = MemSource::new(script.as_bytes().to_vec(alloc)?, reads.to_vec(alloc)?);
    let mut sink = MemSink::new(alloc, ROOM, writes.to_vec(alloc)?)?;
    let status = play(alloc, &[], &mut source, &mut sink);
    Ok((status, sink.into_bytes()))
}

#[test]
fn texts(rt: HostRuntime) -> Result<(), Fail> {
    let rows = [
        ("world 1 1\norder\n", "order\n"),
        (
            "world 3 1\nbegin t1\nread t1 x\nsettle\nwrite t1 x\nread t1 x\nsettle\ncommit t1\nsettle\nbegin t2\nread t2 x\nsettle\n",
            "t1 read x 0 -\nsettled 7\nt1 own x \nsettled 0\nt1 committed\nsettled 24\nt2 read x 1 \nsettled 7\n",
        ),
        (
            "world 3 1\nbegin t1\nbegin t2\nread t1 x\nread t2 x\nsettle\nwrite t1 x a\nwrite t2 x b\ncommit t1\ncommit t2\ndeliver 15 19 21 22\nsettle\norder\n",
            "t1 read x 0 -\nt2 read x 0 -\nsettled 14\nt1 refused d2 locked x t2\nt1 committed\nt2 refused d1 locked x t1\nt2 refused d3 locked x t1\nt2 aborted\nsettled 57\norder t1\n",
        ),
        (
            "world 1 1\nbegin t1\nwrite t1 x a\ncommit t1\nstep 4\nbegin t2\nbegin t3\nread t2 x\nread t3 x\ndeliver 6 7\ncancel t3 x\ndeliver 8\nsettle\ncommit t2\nsettle\norder\n",
            "t1 committed\nt2 read x 1 a\nsettled 5\nt2 committed\nsettled 6\norder t1 t2\n",
        ),
        (
            "world 3 1\nbegin t1\nbegin t2\nread t1 x\ndeliver 1 2 4 5\nwrite t2 x b\ncommit t2\ndeliver 7 9 10 11 13 15 16 17 18 19\ndeliver 20 24 22 26 23 27 28 29 3\ncommit t1\ndeliver 33 34 35 36\nsettle\norder\n",
            "t1 read x 0 -\nt2 committed\nt1 refused d3 stale x 1\nt1 refused d1 lost x\nt1 refused d2 lost x\nt1 aborted\nsettled 44\norder t2\n",
        ),
        (
            "world 3 2\nsplit m\nbegin t1\nwrite t1 a 1\nwrite t1 z 2\ncommit t1\nstep 12\nvanish t1\nstep 17\nlose 30 31 32 33 34 35 36 37 38 39 40 41\ntake d2 t1\nsettle\nshow d2\norder\n",
            "settled 27\nd2.s1 a 1 free 1\nd2.s2 z 1 free 2\norder t1\n",
        ),
        (
            "world 3 1\nbegin t1\nwrite t1 x a\ncommit t1\nsettle\ndeliver 11 11 11 29 29 29 17 17 17\npending\ndeliver 8\npending\nsettle\nshow d1\n",
            "t1 committed\nsettled 31\n32 d1 t1 Decided t1 commit\nsettled 1\nd1.s1 x 1 free a\n",
        ),
        (
            "world 3 1\nbegin t1\nread t1 x\nlose 1 2 3\nretry t1\nsettle\nwrite t1 x a\ncommit t1\nsettle\ncatch d1.s1\nsettle\n",
            "t1 read x 0 -\nsettled 7\nt1 committed\nsettled 24\nsettled 2\n",
        ),
        (
            "world 3 1 3 1 1\nbegin t1\nwrite t1 x a\ncommit t1\nsettle\norder\n",
            "t1 committed\nsettled 32\norder t1\n",
        ),
        (
            "world 3 1\nbegin t1\nwrite t1 x a\ncommit t1\nsettle\nbegin t2\ndelete t2 x\nread t2 x\ncommit t2\nsettle\nbegin t3\nread t3 x\nsettle\nshow d1\norder\n",
            "t1 committed\nsettled 31\nt2 deletes x\nt2 committed\nsettled 31\nt3 gone x 2\nsettled 7\nd1.s1 x 2 gone free\norder t1 t2\n",
        ),
    ];
    for (script, text) in rows {
        let (status, taken) = run(rt.alloc(), script, &[], &[])?;
        assert_eq!(rt; status, Status::Done, "of {script:?}");
        assert_eq!(rt; taken.as_slice(), text.as_bytes(), "of {script:?}");
    }
    Ok(())
}

#[test]
fn stops(rt: HostRuntime) -> Result<(), Fail> {
    let rows = [
        (
            "world 3 1\nbegin t1\nwrite t1 x a\ncommit t1\ncrash d1.s1 at 3 pick 0\nsettle\nrestart d1.s1\nshow d1\nsettle\nshow d1\n",
            "d1.s1 stopped\nt1 committed\nsettled 26\nd1.s1 up\nsettled 2\nd1.s1 x 1 free a\n",
        ),
        (
            "world 3 1\nbegin t1\nwrite t1 x a\ncommit t1\ncrash d1.s1 at 3 pick 1\nsettle\nrestart d1.s1\nshow d1\nsettle\nshow d1\n",
            "d1.s1 stopped\nt1 committed\nsettled 26\nd1.s1 up\nd1.s1 x 0 held -\nsettled 2\nd1.s1 x 1 free a\n",
        ),
        (
            "world 3 1\nbegin t1\nwrite t1 x a\ncommit t1\nstep 16\ndeliver 20 24\ncrash d1\ncrash d2\ncrash d3\ncrash d1.s1\ncrash d2.s1\ncrash d3.s1\nsettle\nrestart d1\nrestart d2\nrestart d3\nrestart d1.s1\nrestart d2.s1\nrestart d3.s1\nsettle\nshow d1\ntake d1 t1\nsettle\nshow d1\norder\n",
            "t1 committed\nd1 stopped\nd2 stopped\nd3 stopped\nd1.s1 stopped\nd2.s1 stopped\nd3.s1 stopped\nsettled 10\nd1 up\nd2 up\nd3 up\nd1.s1 up\nd2.s1 up\nd3.s1 up\nsettled 18\nd1.s1 x 0 held -\nsettled 30\nd1.s1 x 1 free a\norder t1\n",
        ),
    ];
    for (script, text) in rows {
        let (status, taken) = run(rt.alloc(), script, &[], &[])?;
        assert_eq!(rt; status, Status::Done, "of {script:?}");
        assert_eq!(rt; taken.as_slice(), text.as_bytes(), "of {script:?}");
    }
    Ok(())
}

#[test]
fn statuses(rt: HostRuntime) -> Result<(), Fail> {
    // script, failing reads, failing writes, how it ends, what is written
    let rows: [(&str, &[u64], &[u64], Status, &str); 10] = [
        (STORED, &[], &[], Status::Done, STORED_TEXT),
        ("", &[], &[], Status::Done, ""),
        (STORED, &[1], &[], Status::ReadFault, ""),
        (
            STORED,
            &[],
            &[2],
            Status::WriteFault,
            "t1 committed\nsettled 31\n",
        ),
        (
            "world 3 1\ndeliver 99\n",
            &[],
            &[],
            Status::BadScript,
            "line 2: message 99 was not sent\n",
        ),
        (
            "world 3 1\nbegin t1\nread t1 x\ndeliver 1\nlose 1\n",
            &[],
            &[],
            Status::BadScript,
            "line 5: message 1 is not pending\n",
        ),
        (
            "world 3 1\nbegin t1\nbegin t1\n",
            &[],
            &[],
            Status::BadScript,
            "line 3: t1 is begun twice\n",
        ),
        (
            "world 3 1\ncrash d1\ntake d1 t1\n",
            &[],
            &[],
            Status::BadScript,
            "d1 stopped\nline 3: d1 is down\n",
        ),
        (
            "world 2 1\n",
            &[],
            &[],
            Status::BadScript,
            "line 1: outside the grammar\n",
        ),
        (
            "world 3 1\nbegi",
            &[],
            &[],
            Status::BadScript,
            "line 2: outside the grammar\n",
        ),
    ];
    for (script, reads, writes, end, text) in rows {
        let (status, taken) = run(rt.alloc(), script, reads, writes)?;
        assert_eq!(rt; status, end, "of {script:?}");
        assert_eq!(rt; taken.as_slice(), text.as_bytes(), "of {script:?}");
    }
    Ok(())
}

#[test]
fn words(rt: HostRuntime) -> Result<(), Fail> {
    let alloc = rt.alloc();
    let words = [Word::new(alloc, b"x")?];
    let mut source = MemSource::new(STORED.as_bytes().to_vec(alloc)?, Vec::new(alloc));
    let mut sink = MemSink::new(alloc, ROOM, Vec::new(alloc))?;
    assert_eq!(rt;
        play(alloc, &words, &mut source, &mut sink),
        Status::BadWords
    );
    assert_eq!(rt; sink.bytes(), b"".as_slice());
    Ok(())
}

#[test]
fn limits(rt: HostRuntime) -> Result<(), Fail> {
    let alloc = rt.alloc();
    let rows = [
        (1_048_577, "limit of script bytes\n"),
        (65_537, "limit of lines\n"),
    ];
    for (lines, text) in rows {
        let mut source = MemSource::new(vec![in alloc; b'\n'; lines]?, Vec::new(alloc));
        let mut sink = MemSink::new(alloc, ROOM, Vec::new(alloc))?;
        assert_eq!(rt; play(alloc, &[], &mut source, &mut sink), Status::Limit);
        assert_eq!(rt; sink.bytes(), text.as_bytes());
    }
    Ok(())
}

#[test]
fn small_pieces(rt: HostRuntime) -> Result<(), Fail> {
    let alloc = rt.alloc();
    let source = MemSource::new(STORED.as_bytes().to_vec(alloc)?, Vec::new(alloc));
    let sink = MemSink::new(alloc, ROOM, Vec::new(alloc))?;
    let (mut source, mut sink) = (source.with_pieces(3), sink.with_pieces(1));
    assert_eq!(rt; play(alloc, &[], &mut source, &mut sink), Status::Done);
    assert_eq!(rt; sink.bytes(), STORED_TEXT.as_bytes());
    Ok(())
}
