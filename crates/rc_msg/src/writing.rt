// Messages as bytes.
ghost use Rattle.std.specs.Prelude.{◌≡◌, ◌++◌, OnOk, IfOk};
ghost use Rattle.rc_fields.specs.Spelling.{u8_bytes, u32_bytes, key_bytes};
ghost use Rattle.rc_body.specs.Spelling.{decision_bytes};
ghost use Rattle.rc_msg.specs.Spelling.{answer_bytes, msg_bytes, envelope_bytes};
ghost use Rattle.rc_msg.specs.declared.msg.Msg.TheVariants.{Granted, Propose, Prepare, Prepared, Voted, Refused, Promise, CatchPage};

use crate::{Envelope, Msg};
use rc_body::{
    Body, Decision, Page, Reason, put_body, put_decision, put_held, put_page, put_reason,
    put_report,
};
use rc_fields::{put_key, put_party, put_u8, put_u32, put_u64};
use rc_ids::{Ballot, Blob, DcId, Key, NoMemory, Party, ShardId, TxId, Val, Version};
use std::alloc::Global;

/// The one spelling of a message with its sender and its receiver.
pub fn encode(alloc: Global, e: &Envelope) -> Result<Blob, NoMemory>
    ensures { IfOk result (λ bytes. bytes ≡ envelope_bytes e.now) }
{
    spelled(alloc, &e.from, &e.to, &e.msg)
}

/// The one spelling of a message from one party to another.
pub(crate) fn spelled(alloc: Global, from: &Party, to: &Party, msg: &Msg) -> Result<Blob, NoMemory>
    ensures { IfOk result (λ bytes. bytes ≡ envelope_bytes (record { from = from.now; to = to.now; msg = msg.now })) }
{
    let mut out = Blob::new(alloc);
    put_party(&mut out, from)?;
    put_party(&mut out, to)?;
    put_msg(&mut out, msg)?;
    Ok(out)
}

/// Adds a kind and a transaction.
fn put_kind(out: &mut Blob, kind: u8, tx: TxId) -> Result<(), NoMemory>
    ensures { OnOk result (out.new ≡ out.old ++ (u8_bytes kind ++ u32_bytes tx)) }
{
    put_u8(out, kind)?;
    put_u32(out, tx.0)
}

/// Adds a kind, a transaction and a key.
fn put_tx_key(out: &mut Blob, kind: u8, tx: TxId, key: &Key) -> Result<(), NoMemory>
    ensures { OnOk result (out.new ≡ out.old ++ (u8_bytes kind ++ u32_bytes tx ++ key_bytes key.now)) }
{
    put_kind(out, kind, tx)?;
    put_key(out, key)
}

/// Adds a kind, a transaction and a ballot.
fn put_tx_ballot(out: &mut Blob, kind: u8, tx: TxId, ballot: Ballot) -> Result<(), NoMemory>
    ensures { OnOk result (out.new ≡ out.old ++ (u8_bytes kind ++ u32_bytes tx ++ u32_bytes ballot)) }
{
    put_kind(out, kind, tx)?;
    put_u32(out, ballot.0)
}

/// Adds a kind, a transaction and a decision.
fn put_tx_decision(out: &mut Blob, kind: u8, tx: TxId, decision: &Decision) -> Result<(), NoMemory>
    ensures { OnOk result (out.new ≡ out.old ++ (u8_bytes kind ++ u32_bytes tx ++ decision_bytes decision.now)) }
{
    put_kind(out, kind, tx)?;
    put_decision(out, decision)
}

fn put_granted(
    out: &mut Blob,
    tx: TxId,
    key: &Key,
    dc: DcId,
    version: Version,
    value: &Option<Val>,
) -> Result<(), NoMemory>
    ensures { OnOk result (out.new ≡ out.old ++ msg_bytes (Granted tx key.now dc version value.now)) }
{
    put_tx_key(out, 3, tx, key)?;
    put_u8(out, dc.0)?;
    put_u64(out, version.0)?;
    put_held(out, value.as_ref())
}

fn put_propose(
    out: &mut Blob,
    tx: TxId,
    ballot: Ballot,
    decision: &Decision,
) -> Result<(), NoMemory>
    ensures { OnOk result (out.new ≡ out.old ++ msg_bytes (Propose tx ballot decision.now)) }
{
    put_tx_ballot(out, 4, tx, ballot)?;
    put_decision(out, decision)
}

fn put_prepare(out: &mut Blob, tx: TxId, part: &Body) -> Result<(), NoMemory>
    ensures { OnOk result (out.new ≡ out.old ++ msg_bytes (Prepare tx part.now)) }
{
    put_kind(out, 5, tx)?;
    put_body(out, part)
}

/// Adds 0 for yes, or 1 and the reason of a no.
fn put_answer(out: &mut Blob, answer: &Option<Reason>) -> Result<(), NoMemory>
    ensures { OnOk result (out.new ≡ out.old ++ answer_bytes answer.now) }
{
    match answer {
        None => put_u8(out, 0),
        Some(reason) => {
            put_u8(out, 1)?;
            put_reason(out, reason)
        }
    }
}

fn put_prepared(
    out: &mut Blob,
    tx: TxId,
    shard: ShardId,
    answer: &Option<Reason>,
) -> Result<(), NoMemory>
    ensures { OnOk result (out.new ≡ out.old ++ msg_bytes (Prepared tx shard answer.now)) }
{
    put_kind(out, 6, tx)?;
    put_u8(out, shard.0)?;
    put_answer(out, answer)
}

fn put_voted(
    out: &mut Blob,
    tx: TxId,
    ballot: Ballot,
    dc: DcId,
    decision: &Decision,
) -> Result<(), NoMemory>
    ensures { OnOk result (out.new ≡ out.old ++ msg_bytes (Voted tx ballot dc decision.now)) }
{
    put_tx_ballot(out, 7, tx, ballot)?;
    put_u8(out, dc.0)?;
    put_decision(out, decision)
}

fn put_refused(
    out: &mut Blob,
    tx: TxId,
    ballot: Ballot,
    dc: DcId,
    reason: &Reason,
) -> Result<(), NoMemory>
    ensures { OnOk result (out.new ≡ out.old ++ msg_bytes (Refused tx ballot dc reason.now)) }
{
    put_tx_ballot(out, 8, tx, ballot)?;
    put_u8(out, dc.0)?;
    put_reason(out, reason)
}

fn put_promise(
    out: &mut Blob,
    tx: TxId,
    ballot: Ballot,
    dc: DcId,
    report: &Option<(Ballot, Decision)>,
) -> Result<(), NoMemory>
    ensures { OnOk result (out.new ≡ out.old ++ msg_bytes (Promise tx ballot dc report.now)) }
{
    put_tx_ballot(out, 10, tx, ballot)?;
    put_u8(out, dc.0)?;
    put_report(out, report)
}

fn put_catch_page(out: &mut Blob, dc: DcId, place: u32, page: &Page) -> Result<(), NoMemory>
    ensures { OnOk result (out.new ≡ out.old ++ msg_bytes (CatchPage dc place page.now)) }
{
    put_u8(out, 15)?;
    put_u8(out, dc.0)?;
    put_u32(out, place)?;
    put_page(out, page)
}

fn put_catch_ask(out: &mut Blob, place: u32) -> Result<(), NoMemory>
    ensures { OnOk result (out.new ≡ out.old ++ (u8_bytes 14 ++ u32_bytes place)) }
{
    put_u8(out, 14)?;
    put_u32(out, place)
}

/// Adds the kind of the message and its fields.
fn put_msg(out: &mut Blob, msg: &Msg) -> Result<(), NoMemory>
    ensures { OnOk result (out.new ≡ out.old ++ msg_bytes msg.now) }
{
    match msg {
        Msg::ReadAsk(tx, key) => put_tx_key(out, 1, *tx, key),
        Msg::ReadCancel(tx, key) => put_tx_key(out, 2, *tx, key),
        Msg::Granted(tx, key, dc, version, value) => put_granted(
            out, *tx, key, *dc, *version, value,
        ),
        Msg::Propose(tx, ballot, decision) => put_propose(out, *tx, *ballot, decision),
        Msg::Prepare(tx, part) => put_prepare(out, *tx, part),
        Msg::Prepared(tx, shard, answer) => put_prepared(out, *tx, *shard, answer),
        Msg::Voted(tx, ballot, dc, decision) => put_voted(out, *tx, *ballot, *dc, decision),
        Msg::Refused(tx, ballot, dc, reason) => put_refused(out, *tx, *ballot, *dc, reason),
        Msg::Ask(tx, ballot) => put_tx_ballot(out, 9, *tx, *ballot),
        Msg::Promise(tx, ballot, dc, report) => put_promise(out, *tx, *ballot, *dc, report),
        Msg::Decided(tx, decision) => put_tx_decision(out, 11, *tx, decision),
        Msg::Finish(tx, decision) => put_tx_decision(out, 12, *tx, decision),
        Msg::Abandon(tx) => put_kind(out, 13, *tx),
        Msg::CatchAsk(place) => put_catch_ask(out, *place),
        Msg::CatchPage(dc, place, page) => put_catch_page(out, *dc, *place, page),
    }
}
