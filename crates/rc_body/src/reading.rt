// Reading keys, values, bodies, decisions, reasons, reports and pages. Where there is none, or no memory, the reader is as before.
ghost use Rattle.std.specs.Prelude.{◌≡◌, IfOk, OnErr};
ghost use Rattle.rc_ids.specs.Texts.{IsKey, IsValue};
ghost use Rattle.rc_fields.specs.Spelling.{key_bytes, val_bytes};
ghost use Rattle.rc_fields.specs.Formats.{Finds, Gives};
ghost use Rattle.rc_fields.specs.Names.{key_at, value_at};
ghost use Rattle.rc_body.specs.Spelling.{held_bytes, body_bytes, decision_bytes, reason_bytes, report_bytes, page_bytes, HasHeld, HasBody, HasDecision, HasReason, HasReport, HasPage};
ghost use Rattle.rc_body.specs.Reading.{held_at, body_at, decision_at, reason_at, report_at, page_at};

use crate::unread::{
    read_body, read_decision, read_held, read_key, read_page, read_reason, read_report, read_value,
};
use crate::{Body, Decision, Page, Reason};
use rc_fields::{Fields, ReadFault};
use rc_ids::{Ballot, Key, NoMemory, Val};
use std::alloc::Global;

/// The key that stands first.
pub fn key(fields: &mut Fields<'_>) -> Option<Key>
    ensures finds { Finds key_bytes IsKey result fields.old fields.new }
    ensures gives { Gives result fields.new (key_at fields.old) }
{
    let mut ahead = Fields::new(fields.rest());
    match read_key(&mut ahead) {
        Some(key) => {
            *fields = ahead;
            Some(key)
        }
        None => None,
    }
}

/// The reason that stands first.
pub fn reason(fields: &mut Fields<'_>) -> Option<Reason>
    ensures finds { Finds reason_bytes HasReason result fields.old fields.new }
    ensures gives { Gives result fields.new (reason_at fields.old) }
{
    let mut ahead = Fields::new(fields.rest());
    match read_reason(&mut ahead) {
        Some(reason) => {
            *fields = ahead;
            Some(reason)
        }
        None => None,
    }
}

/// The value that stands first.
pub fn value(alloc: Global, fields: &mut Fields<'_>) -> Result<Option<Val>, NoMemory>
    ensures finds { IfOk result (λ found. Finds val_bytes IsValue found fields.old fields.new) }
    ensures gives { IfOk result (λ found. Gives found fields.new (value_at fields.old)) }
    ensures err { OnErr result (fields.new ≡ fields.old) }
{
    let mut ahead = Fields::new(fields.rest());
    match read_value(alloc, &mut ahead) {
        Ok(value) => {
            *fields = ahead;
            Ok(Some(value))
        }
        Err(ReadFault::NotThere) => Ok(None),
        Err(ReadFault::NoMemory) => Err(NoMemory),
    }
}

/// The value or none that stands first.
pub fn held(alloc: Global, fields: &mut Fields<'_>) -> Result<Option<Option<Val>>, NoMemory>
    ensures finds { IfOk result (λ found. Finds held_bytes HasHeld found fields.old fields.new) }
    ensures gives { IfOk result (λ found. Gives found fields.new (held_at fields.old)) }
    ensures err { OnErr result (fields.new ≡ fields.old) }
{
    let mut ahead = Fields::new(fields.rest());
    match read_held(alloc, &mut ahead) {
        Ok(held) => {
            *fields = ahead;
            Ok(Some(held))
        }
        Err(ReadFault::NotThere) => Ok(None),
        Err(ReadFault::NoMemory) => Err(NoMemory),
    }
}

/// The body that stands first.
pub fn body(alloc: Global, fields: &mut Fields<'_>) -> Result<Option<Body>, NoMemory>
    ensures finds { IfOk result (λ found. Finds body_bytes HasBody found fields.old fields.new) }
    ensures gives { IfOk result (λ found. Gives found fields.new (body_at fields.old)) }
    ensures err { OnErr result (fields.new ≡ fields.old) }
{
    let mut ahead = Fields::new(fields.rest());
    match read_body(alloc, &mut ahead) {
        Ok(body) => {
            *fields = ahead;
            Ok(Some(body))
        }
        Err(ReadFault::NotThere) => Ok(None),
        Err(ReadFault::NoMemory) => Err(NoMemory),
    }
}

/// The decision that stands first.
pub fn decision(alloc: Global, fields: &mut Fields<'_>) -> Result<Option<Decision>, NoMemory>
    ensures finds { IfOk result (λ found. Finds decision_bytes HasDecision found fields.old fields.new) }
    ensures gives { IfOk result (λ found. Gives found fields.new (decision_at fields.old)) }
    ensures err { OnErr result (fields.new ≡ fields.old) }
{
    let mut ahead = Fields::new(fields.rest());
    match read_decision(alloc, &mut ahead) {
        Ok(decision) => {
            *fields = ahead;
            Ok(Some(decision))
        }
        Err(ReadFault::NotThere) => Ok(None),
        Err(ReadFault::NoMemory) => Err(NoMemory),
    }
}

/// The report that stands first.
pub fn report(
    alloc: Global,
    fields: &mut Fields<'_>,
) -> Result<Option<Option<(Ballot, Decision)>>, NoMemory>
    ensures finds { IfOk result (λ found. Finds report_bytes HasReport found fields.old fields.new) }
    ensures gives { IfOk result (λ found. Gives found fields.new (report_at fields.old)) }
    ensures err { OnErr result (fields.new ≡ fields.old) }
{
    let mut ahead = Fields::new(fields.rest());
    match read_report(alloc, &mut ahead) {
        Ok(report) => {
            *fields = ahead;
            Ok(Some(report))
        }
        Err(ReadFault::NotThere) => Ok(None),
        Err(ReadFault::NoMemory) => Err(NoMemory),
    }
}

/// The page that stands first.
pub fn page(alloc: Global, fields: &mut Fields<'_>) -> Result<Option<Page>, NoMemory>
    ensures finds { IfOk result (λ found. Finds page_bytes HasPage found fields.old fields.new) }
    ensures gives { IfOk result (λ found. Gives found fields.new (page_at fields.old)) }
    ensures err { OnErr result (fields.new ≡ fields.old) }
{
    let mut ahead = Fields::new(fields.rest());
    match read_page(alloc, &mut ahead) {
        Ok(page) => {
            *fields = ahead;
            Ok(Some(page))
        }
        Err(ReadFault::NotThere) => Ok(None),
        Err(ReadFault::NoMemory) => Err(NoMemory),
    }
}
