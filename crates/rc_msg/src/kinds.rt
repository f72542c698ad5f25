// The kinds of messages, read from bytes. Where there is none, any of the bytes may have been read.
ghost use Rattle.std.specs.Prelude.{◌≡◌, IfOk};
ghost use Rattle.rc_fields.specs.Formats.{Gives, tested_at, pick};
ghost use Rattle.rc_body.specs.Reading.{reason_at};
ghost use Rattle.rc_msg.specs.Reading.{tx_key_at, tx_ballot_at, owned_at, tx_owned_at, answer_at, read_ask_at, read_cancel_at, granted_at, propose_at, prepare_at, prepared_at, voted_at, refused_at, ask_at, promise_at, decided_at, finish_at, abandon_at, catch_ask_at, catch_page_at, kinds_at, msg_at};
ghost use Rattle.rc_msg.specs.Reading as reading_spec;

use crate::Msg;
use rc_body::{Reason, reading};
use rc_fields::Fields;
use rc_ids::{Ballot, Key, NoMemory, TxId};
use std::alloc::Global;

#[tactic(auto, unfolding(crate::specs::Reading::tx_key_at, rc_fields::specs::Formats::both_at))]
fn tx_key(fields: &mut Fields<'_>) -> Option<(TxId, Key)>
    ensures { Gives result fields.new (tx_key_at fields.old) }
{
    let tx = fields.tx()?;
    let key = reading::key(fields)?;
    Some((tx, key))
}

#[tactic(auto, unfolding(crate::specs::Reading::tx_ballot_at, rc_fields::specs::Formats::both_at))]
fn tx_ballot(fields: &mut Fields<'_>) -> Option<(TxId, Ballot)>
    ensures { Gives result fields.new (tx_ballot_at fields.old) }
{
    let tx = fields.tx()?;
    let ballot = fields.ballot()?;
    Some((tx, ballot))
}

/// A ballot from 1 on.
#[tactic(auto, unfolding(crate::specs::Reading::owned_at, rc_fields::specs::Formats::tested_at))]
fn owned(fields: &mut Fields<'_>) -> Option<Ballot>
    ensures { Gives result fields.new (owned_at fields.old) }
{
    let ballot = fields.ballot()?;
    if ballot.0 < 1 {
        return None;
    }
    Some(ballot)
}

#[tactic(auto, unfolding(crate::specs::Reading::tx_owned_at, rc_fields::specs::Formats::both_at))]
fn tx_owned(fields: &mut Fields<'_>) -> Option<(TxId, Ballot)>
    ensures { Gives result fields.new (tx_owned_at fields.old) }
{
    let tx = fields.tx()?;
    let ballot = owned(fields)?;
    Some((tx, ballot))
}

#[tactic(auto, unfolding(crate::specs::Reading::read_ask_at, rc_fields::specs::Formats::mapped_at))]
fn read_ask(fields: &mut Fields<'_>) -> Option<Msg>
    ensures { Gives result fields.new (read_ask_at fields.old) }
{
    let (tx, key) = tx_key(fields)?;
    Some(Msg::ReadAsk(tx, key))
}

#[tactic(auto, unfolding(crate::specs::Reading::read_cancel_at, rc_fields::specs::Formats::mapped_at))]
fn read_cancel(fields: &mut Fields<'_>) -> Option<Msg>
    ensures { Gives result fields.new (read_cancel_at fields.old) }
{
    let (tx, key) = tx_key(fields)?;
    Some(Msg::ReadCancel(tx, key))
}

#[tactic(auto, unfolding(crate::specs::Reading::granted_at, crate::specs::Reading::grant_at, rc_fields::specs::Formats::mapped_at, rc_fields::specs::Formats::tested_at, rc_fields::specs::Formats::both_at))]
fn granted(alloc: Global, fields: &mut Fields<'_>) -> Result<Option<Msg>, NoMemory>
    ensures { IfOk result (λ found. Gives found fields.new (granted_at fields.old)) }
{
    let Some((tx, key)) = tx_key(fields) else {
        return Ok(None);
    };
    let Some(dc) = fields.dc() else {
        return Ok(None);
    };
    let Some(version) = fields.version() else {
        return Ok(None);
    };
    let Some(value) = reading::held(alloc, fields)? else {
        return Ok(None);
    };
    if (version.0 == 0) == value.is_some() {
        return Ok(None);
    }
    Ok(Some(Msg::Granted(tx, key, dc, version, value)))
}

#[tactic(auto, unfolding(crate::specs::Reading::propose_at, rc_fields::specs::Formats::mapped_at, rc_fields::specs::Formats::both_at))]
fn propose(alloc: Global, fields: &mut Fields<'_>) -> Result<Option<Msg>, NoMemory>
    ensures { IfOk result (λ found. Gives found fields.new (propose_at fields.old)) }
{
    let Some((tx, ballot)) = tx_ballot(fields) else {
        return Ok(None);
    };
    let Some(decision) = reading::decision(alloc, fields)? else {
        return Ok(None);
    };
    Ok(Some(Msg::Propose(tx, ballot, decision)))
}

#[tactic(auto, unfolding(crate::specs::Reading::prepare_at, rc_fields::specs::Formats::mapped_at, rc_fields::specs::Formats::both_at))]
fn prepare(alloc: Global, fields: &mut Fields<'_>) -> Result<Option<Msg>, NoMemory>
    ensures { IfOk result (λ found. Gives found fields.new (prepare_at fields.old)) }
{
    let Some(tx) = fields.tx() else {
        return Ok(None);
    };
    let Some(part) = reading::body(alloc, fields)? else {
        return Ok(None);
    };
    Ok(Some(Msg::Prepare(tx, part)))
}

/// A shard's no is of locks or versions.
fn is_shard_reason(reason: &Reason) -> bool
    ensures { result ≡ reading_spec.is_shard_reason reason.now }
{
    !matches!(reason, Reason::Promised(_))
}

#[tactic(auto, unfolding(rc_fields::specs::Formats::tested_at))]
fn shard_reason(fields: &mut Fields<'_>) -> Option<Reason>
    ensures { Gives result fields.new (tested_at reading_spec.is_shard_reason reason_at fields.old) }
{
    let reason = reading::reason(fields)?;
    if is_shard_reason(&reason) {
        Some(reason)
    } else {
        None
    }
}

/// A shard's yes, or its no with a reason.
fn answer(fields: &mut Fields<'_>) -> Option<Option<Reason>>
    ensures { Gives result fields.new (answer_at fields.old) }
{
    let tag = fields.byte()?;
    if tag == 0 {
        return Some(None);
    }
    if tag != 1 {
        return None;
    }
    let reason = shard_reason(fields)?;
    Some(Some(reason))
}

#[tactic(auto, unfolding(crate::specs::Reading::prepared_at, rc_fields::specs::Formats::mapped_at, rc_fields::specs::Formats::both_at))]
fn prepared(fields: &mut Fields<'_>) -> Option<Msg>
    ensures { Gives result fields.new (prepared_at fields.old) }
{
    let tx = fields.tx()?;
    let shard = fields.shard()?;
    let answer = answer(fields)?;
    Some(Msg::Prepared(tx, shard, answer))
}

#[tactic(auto, unfolding(crate::specs::Reading::voted_at, rc_fields::specs::Formats::mapped_at, rc_fields::specs::Formats::both_at))]
fn voted(alloc: Global, fields: &mut Fields<'_>) -> Result<Option<Msg>, NoMemory>
    ensures { IfOk result (λ found. Gives found fields.new (voted_at fields.old)) }
{
    let Some((tx, ballot)) = tx_ballot(fields) else {
        return Ok(None);
    };
    let Some(dc) = fields.dc() else {
        return Ok(None);
    };
    let Some(decision) = reading::decision(alloc, fields)? else {
        return Ok(None);
    };
    Ok(Some(Msg::Voted(tx, ballot, dc, decision)))
}

#[tactic(auto, unfolding(crate::specs::Reading::refused_at, rc_fields::specs::Formats::mapped_at, rc_fields::specs::Formats::both_at))]
fn refused(fields: &mut Fields<'_>) -> Option<Msg>
    ensures { Gives result fields.new (refused_at fields.old) }
{
    let (tx, ballot) = tx_ballot(fields)?;
    let dc = fields.dc()?;
    let reason = reading::reason(fields)?;
    Some(Msg::Refused(tx, ballot, dc, reason))
}

#[tactic(auto, unfolding(crate::specs::Reading::ask_at, rc_fields::specs::Formats::mapped_at))]
fn ask(fields: &mut Fields<'_>) -> Option<Msg>
    ensures { Gives result fields.new (ask_at fields.old) }
{
    let (tx, ballot) = tx_owned(fields)?;
    Some(Msg::Ask(tx, ballot))
}

#[tactic(auto, unfolding(crate::specs::Reading::promise_at, rc_fields::specs::Formats::mapped_at, rc_fields::specs::Formats::both_at))]
fn promise(alloc: Global, fields: &mut Fields<'_>) -> Result<Option<Msg>, NoMemory>
    ensures { IfOk result (λ found. Gives found fields.new (promise_at fields.old)) }
{
    let Some((tx, ballot)) = tx_owned(fields) else {
        return Ok(None);
    };
    let Some(dc) = fields.dc() else {
        return Ok(None);
    };
    let Some(report) = reading::report(alloc, fields)? else {
        return Ok(None);
    };
    Ok(Some(Msg::Promise(tx, ballot, dc, report)))
}

#[tactic(auto, unfolding(crate::specs::Reading::decided_at, rc_fields::specs::Formats::mapped_at, rc_fields::specs::Formats::both_at))]
fn decided(alloc: Global, fields: &mut Fields<'_>) -> Result<Option<Msg>, NoMemory>
    ensures { IfOk result (λ found. Gives found fields.new (decided_at fields.old)) }
{
    let Some(tx) = fields.tx() else {
        return Ok(None);
    };
    let Some(decision) = reading::decision(alloc, fields)? else {
        return Ok(None);
    };
    Ok(Some(Msg::Decided(tx, decision)))
}

#[tactic(auto, unfolding(crate::specs::Reading::finish_at, rc_fields::specs::Formats::mapped_at, rc_fields::specs::Formats::both_at))]
fn finish(alloc: Global, fields: &mut Fields<'_>) -> Result<Option<Msg>, NoMemory>
    ensures { IfOk result (λ found. Gives found fields.new (finish_at fields.old)) }
{
    let Some(tx) = fields.tx() else {
        return Ok(None);
    };
    let Some(decision) = reading::decision(alloc, fields)? else {
        return Ok(None);
    };
    Ok(Some(Msg::Finish(tx, decision)))
}

#[tactic(auto, unfolding(crate::specs::Reading::abandon_at, rc_fields::specs::Formats::mapped_at))]
fn abandon(fields: &mut Fields<'_>) -> Option<Msg>
    ensures { Gives result fields.new (abandon_at fields.old) }
{
    Some(Msg::Abandon(fields.tx()?))
}

#[tactic(auto, unfolding(crate::specs::Reading::catch_ask_at, rc_fields::specs::Formats::mapped_at))]
fn catch_ask(fields: &mut Fields<'_>) -> Option<Msg>
    ensures { Gives result fields.new (catch_ask_at fields.old) }
{
    Some(Msg::CatchAsk(fields.place()?))
}

#[tactic(auto, unfolding(crate::specs::Reading::catch_page_at, rc_fields::specs::Formats::mapped_at, rc_fields::specs::Formats::both_at))]
fn catch_page(alloc: Global, fields: &mut Fields<'_>) -> Result<Option<Msg>, NoMemory>
    ensures { IfOk result (λ found. Gives found fields.new (catch_page_at fields.old)) }
{
    let Some(dc) = fields.dc() else {
        return Ok(None);
    };
    let Some(place) = fields.place() else {
        return Ok(None);
    };
    let Some(page) = reading::page(alloc, fields)? else {
        return Ok(None);
    };
    Ok(Some(Msg::CatchPage(dc, place, page)))
}

/// The fields of a message of a kind.
#[tactic(auto, unfolding(rc_fields::specs::Formats::pick))]
fn of_kind(alloc: Global, kind: u8, fields: &mut Fields<'_>) -> Result<Option<Msg>, NoMemory>
    ensures { IfOk result (λ found. Gives found fields.new (pick kinds_at kind fields.old)) }
{
    match kind {
        1 => Ok(read_ask(fields)),
        2 => Ok(read_cancel(fields)),
        3 => granted(alloc, fields),
        4 => propose(alloc, fields),
        5 => prepare(alloc, fields),
        6 => Ok(prepared(fields)),
        7 => voted(alloc, fields),
        8 => Ok(refused(fields)),
        9 => Ok(ask(fields)),
        10 => promise(alloc, fields),
        11 => decided(alloc, fields),
        12 => finish(alloc, fields),
        13 => Ok(abandon(fields)),
        14 => Ok(catch_ask(fields)),
        15 => catch_page(alloc, fields),
        _ => Ok(None),
    }
}

/// The message that stands first.
pub(crate) fn msg(alloc: Global, fields: &mut Fields<'_>) -> Result<Option<Msg>, NoMemory>
    ensures { IfOk result (λ found. Gives found fields.new (msg_at fields.old)) }
{
    match fields.byte() {
        Some(kind) => of_kind(alloc, kind, fields),
        None => Ok(None),
    }
}
