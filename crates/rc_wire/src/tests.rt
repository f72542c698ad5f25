// One message on a wire under its rules, and threads that share a wire.
ghost use Rattle.std.specs.Prelude.{◌≡◌, ◌+◌, ◌≤◌, true, [], length, All, vec_len, IfOk};
ghost use Rattle.std.specs.List.{list_any, list_all};
ghost use Rattle.rc_ids.specs.Parties.{is_same_party};
ghost use Rattle.rc_wire.specs.Parties.{all_differ, is_client};
ghost use Rattle.rc_wire.specs.declared.pass.Known.{Known};

use crate::pairs::{one, one_message, rider, without_mail};
use crate::riding::{Answer, Closed, Job, Rider, close, is_as_counted, ride};
use crate::{Act, Blank, History, Passes, Rules, Want, Wire, WireName};
use rc_ids::{DcId, NodeId, Party, Sends, TxId};
use std::alloc::{AllocError, Global};
use std::marker::Brand;
use std::process::Abort;
use std::sync::Wait;
use std::test::Fail;
use std::thread;
use std::thread::Threads;

/// How many threads share a wire, and how many messages each of them sends.
const THREADS: u32 = 32;

const MESSAGES: u32 = 25;

fn rules(lose_every: u32, repeat_every: u32) -> Rules {
    Rules {
        lose_every,
        repeat_every,
    }
}

fn client(number: u32) -> Party
    requires { 1 ≤ number }
{
    Party::Client(TxId(number))
}

/// The clients t1, t2 and so on.
fn clients(alloc: Global, count: u32) -> Result<Vec<Party>, AllocError> {
    (0..count)
        .map(|place| client(place.saturating_add(1)))
        .collect(alloc)
}

fn has(parties: &[Party], party: &Party) -> bool
    ensures { result ≡ list_any (is_same_party party.now) parties.now }
{
    parties.iter().any(|other| party.is(other))
}

fn differ(parties: &[Party]) -> bool
    ensures { result ≡ all_differ parties.now }
{
    match parties.split_first() {
        Some((first, rest)) => !has(rest, first) && differ(rest),
        None => true,
    }
}

fn are_clients(parties: &[Party]) -> bool
    ensures { result ≡ list_all is_client parties.now }
{
    parties
        .iter()
        .all(|party| matches!(party, Party::Client(_)))
}

/// A job for each client, which sends to the next one, the last one to the first.
fn jobs<W: WireName>(
    alloc: Global,
    mut passes: Passes<W>,
    count: u32,
) -> Result<(Passes<W>, Vec<Job<W>>), Fail>
    requires { All (λ (x : Known). (is_client x.party ≡ true) × (x.mine ≡ [])) passes }
    ensures { IfOk result (λ r. length r.0 + vec_len r.1 ≡ length passes) }
{
    let mut jobs = Vec::new(alloc);
    for place in 0..count {
        let to = if place == 0 { 1 } else { count - place + 1 };
        let rider = rider(alloc, &mut passes, client(count - place))?;
        jobs.push(Job::new(rider, one(alloc, client(to))?, Sends::new(alloc)))?;
    }
    Ok((passes, jobs))
}

/// Each client works in a thread of its own.
fn beside<R: Threads + Wait + Sync, W: WireName + Send + Sync>(
    rt: &R,
    alloc: Global,
    blank: Blank,
    count: u32,
    times: u32,
) -> Result<Closed, Fail>
    requires name { (blank.lock.board.shared.table_id ≡ W.table) × (blank.lock.board.shared.key ≡ W.names) }
    requires clients { list_all is_client W.names.parties ≡ true }
{
    let (wire, passes) = Wire::<W>::open(blank);
    let (passes, jobs) = jobs(alloc, passes, count)?;
    let shared = &wire;
    let riders = thread::map_vec(rt, jobs, &|job| ride(rt, shared, job, times))?;
    Ok(close(alloc, wire, passes, riders)?)
}

/// So many clients, each in a thread of its own, send so many messages each.
fn ring<R: Threads + Wait + Sync>(
    rt: &R,
    alloc: Global,
    count: u32,
    times: u32,
    rules: Rules,
) -> Result<Closed, Fail> {
    let parties = clients(alloc, count)?;
    if parties.is_empty() || !differ(parties.as_slice()) || !are_clients(parties.as_slice()) {
        return Err(Fail::from("not clients that differ"));
    }
    let blank = Wire::<Brand>::make(alloc, parties.as_slice(), rules)?;
    beside::<R, Brand>(rt, alloc, blank, count, times)
}

fn assert_as_counted<R: Abort>(rt: &R, closed: &Closed) {
    for record in closed.records.as_slice() {
        assert!(rt; is_as_counted(record, &closed.history));
    }
}

/// How often a message is taken.
fn takes(history: &History, number: u32) -> usize {
    let mut takes = 0usize;
    for turn in history.turns() {
        if matches!(turn.act, Act::Took(taken) if taken == number) {
            takes = takes.saturating_add(1);
        }
    }
    takes
}

/// How often a message arrives.
fn arrivals(rules: Rules, number: u32) -> usize {
    if rules.lose_every != 0 && number % rules.lose_every == 0 {
        0
    } else if rules.repeat_every != 0 && number % rules.repeat_every == 0 {
        2
    } else {
        1
    }
}

/// What d1 takes of one message, by these wishes and once more when its sender has ended.
fn assert_takes<R: Wait + Abort>(
    rt: &R,
    alloc: Global,
    rules: Rules,
    wants: &[Want],
    answers: &[Answer],
) -> Result<(), Fail> {
    let parties = [Party::Node(NodeId::Coord(DcId(1))), Party::Client(TxId(1))];
    let blank = Wire::<Brand>::make(alloc, &parties, rules)?;
    let (taken, closed) = one_message::<R, Brand>(rt, alloc, blank, wants)?;
    assert_eq!(rt; taken.as_slice(), answers);
    assert_as_counted(rt, &closed);
    Ok(())
}

/// What d1 takes where t1 sent nothing, and halted or waits, and how many entries there are.
fn still<R: Wait>(rt: &R, alloc: Global, halts: bool) -> Result<(Answer, usize), Fail> {
    let parties = [Party::Node(NodeId::Coord(DcId(1))), Party::Client(TxId(1))];
    let blank = Wire::<Brand>::make(alloc, &parties, rules(0, 0))?;
    without_mail::<R, Brand>(rt, alloc, blank, halts)
}

#[test]
fn one_message_arrives_by_the_rules(rt: HostRuntime) -> Result<(), Fail> {
    let alloc = rt.alloc();
    let (any, reads) = (Want::Any, Want::Reads);
    let (mail, empty, closed) = (Answer::Mail(1), Answer::Empty, Answer::Closed);
    assert_takes(&rt, alloc, rules(0, 0), &[any, any], &[mail, empty, closed])?;
    assert_takes(&rt, alloc, rules(1, 0), &[any], &[empty, closed])?;
    assert_takes(&rt, alloc, rules(0, 1), &[any, any], &[mail, mail, closed])?;
    assert_takes(&rt, alloc, rules(0, 0), &[reads], &[empty, mail])?;
    Ok(())
}

#[test]
fn a_wire_without_mail_closes(rt: HostRuntime) -> Result<(), Fail> {
    assert!(rt; History::new(rt.alloc()).turns().is_empty());
    for halts in [true, false] {
        let (taken, entries) = still(&rt, rt.alloc(), halts)?;
        assert_eq!(rt; taken, Answer::Closed);
        assert_eq!(rt; entries, 1);
    }
    Ok(())
}

#[test]
fn two_threads_share_a_wire(rt: HostRuntime) -> Result<(), Fail> {
    let closed = ring(&rt, rt.alloc(), 2, 100, rules(0, 0))?;
    for record in closed.records.as_slice() {
        assert!(rt; record.is_done);
        assert_eq!(rt; record.deeds.len(), 301);
    }
    assert_as_counted(&rt, &closed);
    assert_eq!(rt; closed.history.turns().len(), 602);
    Ok(())
}

#[test]
fn many_threads_lose_what_the_rules_lose(rt: HostRuntime) -> Result<(), Fail> {
    for (lose_every, repeat_every) in [(0, 0), (13, 0), (0, 7), (13, 7)] {
        let rules = rules(lose_every, repeat_every);
        let closed = ring(&rt, rt.alloc(), THREADS, MESSAGES, rules)?;
        assert_as_counted(&rt, &closed);
        for number in 1..THREADS * MESSAGES + 1 {
            assert_eq!(rt;
                takes(&closed.history, number),
                arrivals(rules, number),
                "at {number}"
            );
        }
    }
    Ok(())
}
