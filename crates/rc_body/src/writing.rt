// Writing values, bodies, decisions, reasons, reports and pages.
ghost use Rattle.std.specs.Prelude.{◌≡◌, ◌++◌, length, take, OnOk, OnErr};
ghost use Rattle.std.specs.Option.{option_copied};
ghost use Rattle.rc_fields.specs.Spelling.{u8_bytes, u32_bytes, u64_bytes, key_bytes, val_bytes};
ghost use Rattle.rc_body.specs.Spelling.{held_bytes, body_bytes, decision_bytes, reason_bytes, report_bytes, page_bytes};

use crate::{Body, Decision, Page, Reason};
use rc_fields::{cut_on_err, put_key, put_u8, put_u32, put_u64, put_val};
use rc_ids::{Ballot, Blob, Key, NoMemory, TxId, Val, Version};

/// Adds a value or none at the end, or leaves all as before.
pub fn put_held(out: &mut Blob, v: Option<&Val>) -> Result<(), NoMemory>
    ensures ok { OnOk result (out.new ≡ out.old ++ held_bytes (option_copied v.entry)) }
    ensures err { OnErr result (out.new ≡ out.old) }
{
    match v {
        None => put_u8(out, 0),
        Some(value) => put_one(out, value),
    }
}

/// Adds a value that is there, or leaves all as before.
fn put_one(out: &mut Blob, value: &Val) -> Result<(), NoMemory>
    ensures ok { OnOk result (out.new ≡ out.old ++ (u8_bytes 1 ++ val_bytes value.now)) }
    ensures err { OnErr result (out.new ≡ out.old) }
{
    let start = out.len();
    put_u8(out, 1)?;
    let written = put_val(out, value);
    cut_on_err(out, start, written)
}

/// Adds an entry. After a fault what was there stands in front.
fn write_entry(
    out: &mut Blob,
    key: &Key,
    version: Version,
    write: Option<&Val>,
) -> Result<(), NoMemory>
    ensures ok { OnOk result (out.new ≡ out.old ++ (key_bytes key.now ++ u64_bytes version ++ held_bytes (option_copied write.entry))) }
    ensures err { OnErr result (take (length out.old) out.new ≡ out.old) }
{
    put_key(out, key)?;
    put_u64(out, version.0)?;
    put_held(out, write)
}

/// Adds a body. After a fault what was there stands in front.
fn write_body(out: &mut Blob, v: &Body) -> Result<(), NoMemory>
    ensures ok { OnOk result (out.new ≡ out.old ++ body_bytes v.now) }
    ensures err { OnErr result (take (length out.old) out.new ≡ out.old) }
{
    put_u8(out, v.len() as u8)?;
    for index in 0..v.len() {
        let entry = v.entry(index);
        write_entry(out, entry.key, entry.version, entry.write)?;
    }
    Ok(())
}

/// Adds a body at the end, or leaves all as before.
pub fn put_body(out: &mut Blob, v: &Body) -> Result<(), NoMemory>
    ensures ok { OnOk result (out.new ≡ out.old ++ body_bytes v.now) }
    ensures err { OnErr result (out.new ≡ out.old) }
{
    let start = out.len();
    let written = write_body(out, v);
    cut_on_err(out, start, written)
}

/// Adds a commit of a body, or leaves all as before.
fn put_commit(out: &mut Blob, body: &Body) -> Result<(), NoMemory>
    ensures ok { OnOk result (out.new ≡ out.old ++ (u8_bytes 1 ++ body_bytes body.now)) }
    ensures err { OnErr result (out.new ≡ out.old) }
{
    let start = out.len();
    put_u8(out, 1)?;
    let written = put_body(out, body);
    cut_on_err(out, start, written)
}

/// Adds a decision at the end, or leaves all as before.
pub fn put_decision(out: &mut Blob, v: &Decision) -> Result<(), NoMemory>
    ensures ok { OnOk result (out.new ≡ out.old ++ decision_bytes v.now) }
    ensures err { OnErr result (out.new ≡ out.old) }
{
    match v {
        Decision::Abort => put_u8(out, 0),
        Decision::Commit(body) => put_commit(out, body),
    }
}

/// Adds a reason. After a fault what was there stands in front.
fn write_reason(out: &mut Blob, v: &Reason) -> Result<(), NoMemory>
    ensures ok { OnOk result (out.new ≡ out.old ++ reason_bytes v.now) }
    ensures err { OnErr result (take (length out.old) out.new ≡ out.old) }
{
    match v {
        Reason::Locked(key, tx) => {
            put_u8(out, 1)?;
            put_key(out, key)?;
            put_u32(out, tx.0)
        }
        Reason::Lost(key) => {
            put_u8(out, 2)?;
            put_key(out, key)
        }
        Reason::Stale(key, version) => {
            put_u8(out, 3)?;
            put_key(out, key)?;
            put_u64(out, version.0)
        }
        Reason::Promised(ballot) => {
            put_u8(out, 4)?;
            put_u32(out, ballot.0)
        }
    }
}

/// Adds a reason at the end, or leaves all as before.
pub fn put_reason(out: &mut Blob, v: &Reason) -> Result<(), NoMemory>
    ensures ok { OnOk result (out.new ≡ out.old ++ reason_bytes v.now) }
    ensures err { OnErr result (out.new ≡ out.old) }
{
    let start = out.len();
    let written = write_reason(out, v);
    cut_on_err(out, start, written)
}

/// Adds a ballot and the decision that was accepted there. After a fault what was there stands in front.
fn write_accepted(out: &mut Blob, ballot: Ballot, decision: &Decision) -> Result<(), NoMemory>
    ensures ok { OnOk result (out.new ≡ out.old ++ (u8_bytes 1 ++ u32_bytes ballot ++ decision_bytes decision.now)) }
    ensures err { OnErr result (take (length out.old) out.new ≡ out.old) }
{
    put_u8(out, 1)?;
    put_u32(out, ballot.0)?;
    put_decision(out, decision)
}

/// Adds a report. After a fault what was there stands in front.
fn write_report(out: &mut Blob, v: &Option<(Ballot, Decision)>) -> Result<(), NoMemory>
    ensures ok { OnOk result (out.new ≡ out.old ++ report_bytes v.now) }
    ensures err { OnErr result (take (length out.old) out.new ≡ out.old) }
{
    match v {
        None => put_u8(out, 0),
        Some((ballot, decision)) => write_accepted(out, *ballot, decision),
    }
}

/// Adds a report at the end, or leaves all as before.
pub fn put_report(out: &mut Blob, v: &Option<(Ballot, Decision)>) -> Result<(), NoMemory>
    ensures ok { OnOk result (out.new ≡ out.old ++ report_bytes v.now) }
    ensures err { OnErr result (out.new ≡ out.old) }
{
    let start = out.len();
    let written = write_report(out, v);
    cut_on_err(out, start, written)
}

/// Adds a transaction and its decision. After a fault what was there stands in front.
fn write_outcome(out: &mut Blob, tx: TxId, decision: &Decision) -> Result<(), NoMemory>
    ensures ok { OnOk result (out.new ≡ out.old ++ (u32_bytes tx ++ decision_bytes decision.now)) }
    ensures err { OnErr result (take (length out.old) out.new ≡ out.old) }
{
    put_u32(out, tx.0)?;
    put_decision(out, decision)
}

/// Adds a page. After a fault what was there stands in front.
fn write_page(out: &mut Blob, v: &Page) -> Result<(), NoMemory>
    ensures ok { OnOk result (out.new ≡ out.old ++ page_bytes v.now) }
    ensures err { OnErr result (take (length out.old) out.new ≡ out.old) }
{
    put_u8(out, v.len() as u8)?;
    for index in 0..v.len() {
        let (tx, decision) = v.entry(index);
        write_outcome(out, tx, decision)?;
    }
    Ok(())
}

/// Adds a page at the end, or leaves all as before.
pub fn put_page(out: &mut Blob, v: &Page) -> Result<(), NoMemory>
    ensures ok { OnOk result (out.new ≡ out.old ++ page_bytes v.now) }
    ensures err { OnErr result (out.new ≡ out.old) }
{
    let start = out.len();
    let written = write_page(out, v);
    cut_on_err(out, start, written)
}
