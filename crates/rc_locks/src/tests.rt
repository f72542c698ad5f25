// Reads and a write of one key, the same over each lock table.
use crate::{
    Answer, Answers, Asked, LockAnswer, LockCall, LockTable, Locks, PlainLocks, run_locks,
};
use rc_body::{Body, Entry, Parts};
use rc_ids::{Key, TxId, Val, Version};
use rc_versions::Versions;
use std::alloc::Global;
use std::process::Abort;
use std::test::Fail;

/// A body that writes the key, which was never written.
fn write_of(alloc: Global, key: &Key) -> Result<Body, Fail> {
    let mut body = Body::new(alloc);
    body.add(Entry {
        key: key.copy(),
        version: Version(0),
        write: Some(Val::new(alloc, b"a")?),
    })?;
    Ok(body)
}

/// A read's lock is lost to a write, for which another read waits until it is finished.
fn takes_a_lock<L: LockTable>(rt: &impl Abort, alloc: Global) -> Result<(), Fail> {
    let mut locks = L::new(alloc);
    let key = Key::new(b"x")?;
    assert!(rt; locks.ask(TxId(1), &key)? == Asked::Granted);
    let part = write_of(alloc, &key)?;
    assert!(rt;
        matches!(
            locks.test(TxId(2), &part, &Versions::new(alloc)),
            Answer::Yes
        )
    );
    locks.room(TxId(2), &part)?;
    locks.prepare(TxId(2), part);
    assert!(rt; locks.ask(TxId(3), &key)? == Asked::Waits);
    assert!(rt; locks.ask(TxId(1), &key)? == Asked::Ignored);
    assert!(rt; locks.holder(&key) == Some(TxId(2)));
    assert!(rt; locks.prepared(TxId(2)).is_some());
    assert!(rt; locks.waiting(&key) == 1);
    assert!(rt; locks.would_finish(&[TxId(2)])?.len() == 1);
    locks.room_finish(&[TxId(2)])?;
    let freed = locks.finish(&[TxId(2)]);
    assert!(rt; freed.len() == 1);
    assert!(rt; freed[0].1 == TxId(3));
    assert!(rt; locks.would_ask(TxId(1), &key) == Asked::Ignored);
    Ok(())
}

#[test]
fn a_write_takes_a_lock_and_gives_it_back(rt: HostRuntime) -> Result<(), Fail> {
    takes_a_lock::<PlainLocks>(&rt, rt.alloc())?;
    takes_a_lock::<Locks>(&rt, rt.alloc())
}

/// A restored part holds the key that it writes.
fn restores<L: LockTable>(rt: &impl Abort, alloc: Global) -> Result<(), Fail> {
    let key = Key::new(b"x")?;
    let mut parts = Parts::new(alloc);
    parts.push(TxId(7), write_of(alloc, &key)?)?;
    let locks = L::restore(alloc, parts)?;
    assert!(rt; locks.holder(&key) == Some(TxId(7)));
    assert!(rt; locks.would_ask(TxId(1), &key) == Asked::Waits);
    Ok(())
}

#[test]
fn restored_parts_hold_their_keys(rt: HostRuntime) -> Result<(), Fail> {
    restores::<PlainLocks>(&rt, rt.alloc())?;
    restores::<Locks>(&rt, rt.alloc())
}

/// What is answered where a transaction reads the key, a second one writes it, a third one asks for it, may take this back, and then the
/// second one is finished.
fn answers<L: LockTable>(alloc: Global, is_cancelled: bool) -> Result<Answers, Fail> {
    let key = Key::new(b"x")?;
    let mut table = L::new(alloc);
    let begin = [
        LockCall::Ask(TxId(1), key.copy()),
        LockCall::Prepare(TxId(2), write_of(alloc, &key)?),
        LockCall::Ask(TxId(3), key.copy()),
    ];
    let mut answers = run_locks(alloc, &mut table, &begin)?;
    if is_cancelled {
        let cancel = [LockCall::Cancel(TxId(3), key.copy())];
        answers.append(&mut run_locks(alloc, &mut table, &cancel)?)?;
    }
    answers.append(&mut run_locks(alloc, &mut table, &[LockCall::Finish(TxId(2))])?)?;
    Ok(answers)
}

/// The third transaction waited, and was granted at the finish.
fn is_granted(rt: &impl Abort, answers: &Answers) -> Result<(), Fail> {
    assert_eq!(rt; answers.len(), 4);
    assert!(rt; matches!(answers[0], LockAnswer::Asked(Asked::Granted)));
    assert!(rt; matches!(answers[1], LockAnswer::Tested(Answer::Yes)));
    assert!(rt; matches!(answers[2], LockAnswer::Asked(Asked::Waits)));
    let LockAnswer::Finished(freed) = &answers[3] else {
        return Err("no finish".into());
    };
    assert_eq!(rt; freed.len(), 1);
    assert!(rt; freed[0].0 == Key::new(b"x")?);
    assert_eq!(rt; freed[0].1, TxId(3));
    Ok(())
}

#[test]
fn a_read_that_waits_is_granted(rt: HostRuntime) -> Result<(), Fail> {
    is_granted(&rt, &answers::<PlainLocks>(rt.alloc(), false)?)?;
    is_granted(&rt, &answers::<Locks>(rt.alloc(), false)?)
}

/// The third transaction waited, and was not granted once it had taken its read back.
fn is_taken_back(rt: &impl Abort, answers: &Answers) -> Result<(), Fail> {
    assert_eq!(rt; answers.len(), 5);
    assert!(rt; matches!(answers[2], LockAnswer::Asked(Asked::Waits)));
    assert!(rt; matches!(answers[3], LockAnswer::Cancelled));
    assert!(rt; matches!(&answers[4], LockAnswer::Finished(freed) if freed.is_empty()));
    Ok(())
}

#[test]
fn a_read_that_was_taken_back_is_not(rt: HostRuntime) -> Result<(), Fail> {
    is_taken_back(&rt, &answers::<PlainLocks>(rt.alloc(), true)?)?;
    is_taken_back(&rt, &answers::<Locks>(rt.alloc(), true)?)
}
