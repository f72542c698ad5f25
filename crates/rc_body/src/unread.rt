// Readers that leave the bytes anywhere where they find nothing or have no memory.
ghost use Rattle.std.specs.Prelude.{◌≡◌, ℕ, true, false, [], ◌∷◌, ◌++◌, IfOk, IfErr, OnOk};
ghost use Rattle.rc_fields.specs.Formats.{Gives, Tells, tested_at, many_at, both_at};
ghost use Rattle.rc_fields.specs.Names.{is_value, key_at, value_at, tx_at};
ghost use Rattle.rc_fields.specs.Names as names;
ghost use Rattle.rc_fields.specs.declared.fault.ReadFault.TheVariants.{NotThere};
ghost use Rattle.rc_body.specs.Reading.{held_at, entry_at, is_body, body_at, decision_at, reason_at, report_at, is_page, page_at};

use crate::{Body, BodyFault, Decision, Entry, Page, Reason};
use rc_fields::{Fields, ReadFault};
use rc_ids::{Ballot, Key, TextFault, TxId, Val};
use std::alloc::Global;

/// The key that stands first.
#[tactic(auto, unfolding(rc_fields::specs::Names::key_at, rc_fields::specs::Names::short_at, rc_fields::specs::Formats::tested_at))]
pub(crate) fn read_key(fields: &mut Fields<'_>) -> Option<Key>
    ensures { Gives result fields.new (key_at fields.old) }
{
    let bytes = fields.counted(64).ok()?;
    match Key::new(bytes) {
        Ok(key) => Some(key),
        Err(_) => None,
    }
}

/// Whether the bytes stand for the gone value.
fn is_gone(bytes: &[u8]) -> bool
    ensures { result ≡ names.is_gone bytes.now }
{
    matches!(bytes, [0])
}

/// The value of these bytes.
fn value_of(alloc: Global, bytes: &[u8]) -> Result<Val, ReadFault>
    ensures ok { IfOk result (λ v. (v ≡ bytes.now) × (is_value bytes.now ≡ true)) }
    ensures err { IfErr result (λ e. e ≡ NotThere → is_value bytes.now ≡ false) }
{
    if is_gone(bytes) {
        return Ok(Val::gone(alloc)?);
    }
    match Val::new(alloc, bytes) {
        Ok(value) => Ok(value),
        Err(TextFault::NoMemory) => Err(ReadFault::NoMemory),
        Err(TextFault::BadLength) => Err(ReadFault::NotThere),
        Err(TextFault::BadByte(_)) => Err(ReadFault::NotThere),
    }
}

/// The value that stands first.
#[tactic(auto, unfolding(rc_fields::specs::Names::value_at, rc_fields::specs::Names::text_at, rc_fields::specs::Formats::tested_at))]
pub(crate) fn read_value(alloc: Global, fields: &mut Fields<'_>) -> Result<Val, ReadFault>
    ensures { Tells result fields.new (value_at fields.old) }
{
    let bytes = fields.counted(1024)?;
    value_of(alloc, bytes)
}

/// The value or none that stands first.
#[tactic(auto, unfolding(crate::specs::Reading::held_at, rc_fields::specs::Formats::option_at))]
pub(crate) fn read_held(alloc: Global, fields: &mut Fields<'_>) -> Result<Option<Val>, ReadFault>
    ensures { Tells result fields.new (held_at fields.old) }
{
    match fields.u8()? {
        0 => Ok(None),
        1 => Ok(Some(read_value(alloc, fields)?)),
        _ => Err(ReadFault::NotThere),
    }
}

/// The entry that stands first.
#[tactic(auto, unfolding(crate::specs::Reading::entry_at, rc_fields::specs::Formats::mapped_at, rc_fields::specs::Formats::both_at))]
fn read_entry(alloc: Global, fields: &mut Fields<'_>) -> Result<Entry, ReadFault>
    ensures { Tells result fields.new (entry_at fields.old) }
{
    let key = read_key(fields).ok_or(ReadFault::NotThere)?;
    let version = fields.version().ok_or(ReadFault::NotThere)?;
    let write = read_held(alloc, fields)?;
    Ok(Entry {
        key,
        version,
        write,
    })
}

/// Adds an entry that was read, where it may follow.
fn grow_body(body: &mut Body, entry: Entry) -> Result<(), ReadFault>
    ensures ok { OnOk result (body.new ≡ body.old ++ (entry ∷ [])) }
    ensures err { IfErr result (λ e. e ≡ NotThere → is_body (body.old ++ (entry ∷ [])) ≡ false) }
{
    if body.has(&entry.key) {
        return Err(ReadFault::NotThere);
    }
    match body.add(entry) {
        Ok(()) => Ok(()),
        Err(BodyFault::NoMemory) => Err(ReadFault::NoMemory),
        Err(BodyFault::TooManyKeys) => Err(ReadFault::NotThere),
        Err(BodyFault::KeyWornOut) => Err(ReadFault::NotThere),
    }
}

/// So many entries that stand first.
fn read_entries(alloc: Global, count: u8, fields: &mut Fields<'_>) -> Result<Body, ReadFault>
    ensures { Tells result fields.new (tested_at is_body (many_at entry_at count) fields.old) }
{
    let mut body = Body::new(alloc);
    for _ in 0..count {
        let entry = read_entry(alloc, fields)?;
        grow_body(&mut body, entry)?;
    }
    Ok(body)
}

/// The body that stands first.
#[tactic(auto, unfolding(crate::specs::Reading::body_at, rc_fields::specs::Formats::list_at, rc_fields::specs::Formats::tested_at, rc_fields::specs::Formats::tagged_at))]
pub(crate) fn read_body(alloc: Global, fields: &mut Fields<'_>) -> Result<Body, ReadFault>
    ensures { Tells result fields.new (body_at fields.old) }
{
    let count = fields.u8()?;
    read_entries(alloc, count, fields)
}

/// The decision that stands first.
#[tactic(auto, unfolding(crate::specs::Reading::decision_at, rc_fields::specs::Formats::tagged_at, rc_fields::specs::Formats::pick, rc_fields::specs::Formats::mapped_at, rc_fields::specs::Formats::nothing_at))]
pub(crate) fn read_decision(alloc: Global, fields: &mut Fields<'_>) -> Result<Decision, ReadFault>
    ensures { Tells result fields.new (decision_at fields.old) }
{
    match fields.u8()? {
        0 => Ok(Decision::Abort),
        1 => Ok(Decision::Commit(read_body(alloc, fields)?)),
        _ => Err(ReadFault::NotThere),
    }
}

/// The reason that stands first.
#[tactic(auto, unfolding(crate::specs::Reading::reason_at, rc_fields::specs::Formats::tagged_at, rc_fields::specs::Formats::pick, rc_fields::specs::Formats::none_at, rc_fields::specs::Formats::mapped_at, rc_fields::specs::Formats::both_at, rc_fields::specs::Names::byte_at))]
pub(crate) fn read_reason(fields: &mut Fields<'_>) -> Option<Reason>
    ensures { Gives result fields.new (reason_at fields.old) }
{
    match fields.byte()? {
        1 => {
            let key = read_key(fields)?;
            Some(Reason::Locked(key, fields.tx()?))
        }
        2 => Some(Reason::Lost(read_key(fields)?)),
        3 => {
            let key = read_key(fields)?;
            Some(Reason::Stale(key, fields.version()?))
        }
        4 => Some(Reason::Promised(fields.ballot()?)),
        _ => None,
    }
}

/// The report that stands first.
#[tactic(auto, unfolding(crate::specs::Reading::report_at, rc_fields::specs::Formats::option_at, rc_fields::specs::Formats::both_at))]
pub(crate) fn read_report(
    alloc: Global,
    fields: &mut Fields<'_>,
) -> Result<Option<(Ballot, Decision)>, ReadFault>
    ensures { Tells result fields.new (report_at fields.old) }
{
    match fields.u8()? {
        0 => Ok(None),
        1 => {
            let ballot = fields.ballot().ok_or(ReadFault::NotThere)?;
            Ok(Some((ballot, read_decision(alloc, fields)?)))
        }
        _ => Err(ReadFault::NotThere),
    }
}

/// The transaction that stands first, and its decision.
#[tactic(auto, unfolding(rc_fields::specs::Formats::both_at))]
fn read_outcome(alloc: Global, fields: &mut Fields<'_>) -> Result<(TxId, Decision), ReadFault>
    ensures { Tells result fields.new (both_at tx_at decision_at fields.old) }
{
    let tx = fields.tx().ok_or(ReadFault::NotThere)?;
    Ok((tx, read_decision(alloc, fields)?))
}

/// Adds a transaction that was read, where it may follow.
fn grow_page(page: &mut Page, tx: TxId, decision: Decision) -> Result<(), ReadFault>
    ensures ok { OnOk result (page.new ≡ page.old ++ ((tx, decision) ∷ [])) }
    ensures err { IfErr result (λ e. e ≡ NotThere → is_page (page.old ++ ((tx, decision) ∷ [])) ≡ false) }
{
    if page.len() == Page::MOST_ENTRIES {
        return Err(ReadFault::NotThere);
    }
    if page.has(tx) {
        return Err(ReadFault::NotThere);
    }
    page.push(tx, decision)?;
    Ok(())
}

/// So many transactions that stand first, with their decisions.
fn read_outcomes(alloc: Global, count: u8, fields: &mut Fields<'_>) -> Result<Page, ReadFault>
    ensures { Tells result fields.new (tested_at is_page (many_at (both_at tx_at decision_at) count) fields.old) }
{
    let mut page = Page::new(alloc);
    for _ in 0..count {
        let (tx, decision) = read_outcome(alloc, fields)?;
        grow_page(&mut page, tx, decision)?;
    }
    Ok(page)
}

/// The page that stands first.
#[tactic(auto, unfolding(crate::specs::Reading::page_at, rc_fields::specs::Formats::list_at, rc_fields::specs::Formats::tested_at, rc_fields::specs::Formats::tagged_at))]
pub(crate) fn read_page(alloc: Global, fields: &mut Fields<'_>) -> Result<Page, ReadFault>
    ensures { Tells result fields.new (page_at fields.old) }
{
    let count = fields.u8()?;
    read_outcomes(alloc, count, fields)
}
