// The row that asks for a promise.
ghost use Rattle.std.specs.Prelude.{◌≡◌, ◌<◌, ◌≤◌, false, true, Some, OnOk, OnErr, IfOk, IfErr};
ghost use Rattle.std.specs.Option.{option_copied};
ghost use Rattle.rc_ids.specs.Cluster.{owner_of};
ghost use Rattle.rc_msg.specs.declared.msg.Msg.TheVariants.{Promise};
ghost use Rattle.rc_msg.specs.Posts.{posted_all};
ghost use Rattle.rc_record.specs.declared.record.Record.TheVariants.{Promised};
ghost use Rattle.rc_record.specs.CoordState.{promise_of, outcome_of};
ghost use Rattle.rc_record.specs.Spelling.{record_bytes};
ghost use Rattle.rc_protocol.specs.Messages.{coordinator as coordinator_of, one};
ghost use Rattle.rc_protocol.specs.Coordinator.{on_ask, promises_at};
ghost use Rattle.rc_node.specs.Acts.{Acts, Refuses, Tells, coord_does};
ghost use Rattle.rc_coord.specs.Rows.{asks_open};
ghost use Rattle.rc_coord.specs.Sites.{site_of, view_of, Fits};

use crate::home::Home;
use crate::posting::{owner, post_outcome, post_refusal};
use crate::tables::{Store, Tables, promise_for};
use rc_body::{Decision, Reason};
use rc_ids::{Ballot, Blob, NoMemory, TxId};
use rc_log::Journal;
use rc_msg::{Msg, Outbox};
use rc_node::{NodeFault, append};
use rc_record::{Record, encode};
use std::alloc::Global;

/// The bytes of the record of a promise.
pub(crate) fn promised_bytes(alloc: Global, tx: TxId, ballot: Ballot) -> Result<Blob, NoMemory>
    ensures { IfOk result (λ bytes. bytes ≡ record_bytes (Promised tx ballot)) }
{
    encode(alloc, &Record::Promised(tx, ballot))
}

/// A copy of what was accepted last, as a report.
fn report_of(accepted: Option<&(Ballot, Decision)>) -> Result<Option<(Ballot, Decision)>, NoMemory>
    ensures { IfOk result (λ report. report ≡ option_copied accepted.entry) }
{
    match accepted {
        Some(accepted) => Ok(Some((accepted.0, accepted.1.copy()?))),
        None => Ok(None),
    }
}

/// Posts the promise of the ballot with a report of what was accepted last, or leaves all as before.
fn post_promise(
    home: &Home,
    tx: TxId,
    ballot: Ballot,
    accepted: Option<&(Ballot, Decision)>,
    out: &mut Outbox,
) -> Result<(), NoMemory>
    ensures ok { OnOk result (out.new ≡ posted_all out.old (one (coordinator_of (owner_of home.now.cluster ballot)) (Promise tx ballot home.now.dc (option_copied accepted.entry)))) }
    ensures err { OnErr result (out.new ≡ out.old) }
{
    let report = report_of(accepted)?;
    let to = owner(&home.cluster, ballot);
    out.push(to, &Msg::Promise(tx, ballot, home.dc, report))
}

/// Raises the promise to the ballot, which is above it.
fn raise<J: Journal>(
    home: &Home,
    store: &mut Store<J>,
    tx: TxId,
    ballot: Ballot,
    out: &mut Outbox,
) -> Result<(), NodeFault>
    requires sound { (J.state store.old.journal).failed ≡ false }
    requires above { promise_of store.old.tables.acceptor.promises.table tx < ballot }
    requires fit { Fits home.now.cluster store.old.tables }
    ensures fit { Fits home.now.cluster store.new.tables }
    ensures ok { let old = site_of J.state store.old out.old in
        OnOk result (Acts old (site_of J.state store.new out.new) (coord_does old.durable (promises_at home.now.cluster home.now.dc old.durable old.volatile tx ballot))) }
    ensures err { let old = site_of J.state store.old out.old in
        IfErr result (λ fault. Refuses fault (J.may_leave store.new.journal) old (site_of J.state store.new out.new) (coord_does old.durable (promises_at home.now.cluster home.now.dc old.durable old.volatile tx ballot))) }
{
    let before = out.len();
    let bytes = promised_bytes(home.alloc, tx, ballot)?;
    store.tables.acceptor.promises.room(1)?;
    post_promise(
        home,
        tx,
        ballot,
        store.tables.acceptor.accepted.get(tx),
        out,
    )?;
    match append(&mut store.journal, bytes.as_bytes()) {
        Ok(()) => {
            store.tables.acceptor.promises.put(tx, ballot);
            Ok(())
        }
        Err(fault) => {
            out.cut(before);
            Err(fault)
        }
    }
}

/// Promises the ballot again, which is the promise.
fn repeat(
    home: &Home,
    tables: &Tables,
    tx: TxId,
    ballot: Ballot,
    out: &mut Outbox,
) -> Result<(), NoMemory>
    requires { promise_of tables.now.acceptor.promises.table tx ≡ ballot }
    ensures ok { let old = view_of tables.now out.old in
        OnOk result (Tells old (view_of tables.now out.new) (coord_does old.durable (promises_at home.now.cluster home.now.dc old.durable old.volatile tx ballot))) }
    ensures err { OnErr result (out.new ≡ out.old) }
{
    post_promise(home, tx, ballot, tables.acceptor.accepted.get(tx), out)
}

/// Promises the ballot, unless a higher one was promised, of a transaction that is not decided.
fn ask_open<J: Journal>(
    home: &Home,
    store: &mut Store<J>,
    tx: TxId,
    ballot: Ballot,
    out: &mut Outbox,
) -> Result<(), NodeFault>
    requires sound { (J.state store.old.journal).failed ≡ false }
    requires fit { Fits home.now.cluster store.old.tables }
    ensures fit { Fits home.now.cluster store.new.tables }
    ensures ok { let old = site_of J.state store.old out.old in
        OnOk result (Acts old (site_of J.state store.new out.new) (coord_does old.durable (asks_open home.now.cluster home.now.dc old.durable old.volatile tx ballot))) }
    ensures err { let old = site_of J.state store.old out.old in
        IfErr result (λ fault. Refuses fault (J.may_leave store.new.journal) old (site_of J.state store.new out.new) (coord_does old.durable (asks_open home.now.cluster home.now.dc old.durable old.volatile tx ballot))) }
{
    let promise = promise_for(&store.tables.acceptor.promises, tx);
    if ballot < promise {
        let to = owner(&home.cluster, ballot);
        post_refusal(to, home.dc, tx, ballot, Reason::Promised(promise), out)?;
        return Ok(());
    }
    if promise < ballot {
        return raise(home, store, tx, ballot, out);
    }
    repeat(home, &store.tables, tx, ballot, out)?;
    Ok(())
}

/// The row that asks for a promise: the ballot is promised, unless the transaction is decided or a higher one was promised.
pub(crate) fn ask<J: Journal>(
    home: &Home,
    store: &mut Store<J>,
    tx: TxId,
    ballot: Ballot,
    out: &mut Outbox,
) -> Result<(), NodeFault>
    requires sound { (J.state store.old.journal).failed ≡ false }
    requires fit { Fits home.now.cluster store.old.tables }
    ensures fit { Fits home.now.cluster store.new.tables }
    ensures ok { let old = site_of J.state store.old out.old in
        OnOk result (Acts old (site_of J.state store.new out.new) (coord_does old.durable (on_ask home.now.cluster home.now.dc old.durable old.volatile tx ballot))) }
    ensures err { let old = site_of J.state store.old out.old in
        IfErr result (λ fault. Refuses fault (J.may_leave store.new.journal) old (site_of J.state store.new out.new) (coord_does old.durable (on_ask home.now.cluster home.now.dc old.durable old.volatile tx ballot))) }
{
    if let Some(outcome) = store.tables.outcomes.get(tx) {
        post_outcome(owner(&home.cluster, ballot), tx, outcome, out)?;
        return Ok(());
    }
    ask_open(home, store, tx, ballot, out)
}
