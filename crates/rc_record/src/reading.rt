// Records from bytes.
ghost use Rattle.std.specs.Prelude.{◌≡◌, ◌≢◌, None, Some, IfOk, IfSome, MatchResult, if◌then◌else◌};
ghost use Rattle.rc_fields.specs.declared.fault.ReadFault.TheVariants.{NotThere};
ghost use Rattle.rc_fields.specs.Laws.{IsKind};
ghost use Rattle.rc_record.specs.Spelling.{record_bytes, HasRecord};
ghost use Rattle.rc_record.specs.Reading.{decoded};
ghost use Rattle.rc_record.specs.declared.record.Record.{Record as AnyRecord};

use crate::Record;
use crate::unread::read_record;
use rc_fields::{Fields, ReadFault};
use rc_ids::NoMemory;
use std::alloc::Global;

/// The record that all of the bytes spell; None where they spell none.
pub fn decode(alloc: Global, bytes: &[u8]) -> Result<Option<Record>, NoMemory>
    ensures found { IfOk result (λ found. IfSome found (λ r. (bytes.now ≡ record_bytes r) × HasRecord r)) }
    ensures none { IfOk result (λ found. found ≡ None → (r : AnyRecord) → HasRecord r → bytes.now ≢ record_bytes r) }
    ensures value { IfOk result (λ found. found ≡ decoded bytes.now) }
{
    all_of(alloc, bytes)
}

/// The record that all of the bytes spell, by reading them from the left.
fn all_of(alloc: Global, bytes: &[u8]) -> Result<Option<Record>, NoMemory>
    ensures { IfOk result (λ found. found ≡ decoded bytes.now) }
{
    let mut fields = Fields::new(bytes);
    let read = read_record(alloc, &mut fields);
    let found = found(read)?;
    Ok(at_end(found, fields.is_end()))
}

/// What was read, if it was there.
fn found(read: Result<Record, ReadFault>) -> Result<Option<Record>, NoMemory>
    ensures { IfOk result (λ found. MatchResult read (λ r. found ≡ Some r) (λ fault. (fault ≡ NotThere) × (found ≡ None))) }
{
    match read {
        Ok(record) => Ok(Some(record)),
        Err(ReadFault::NotThere) => Ok(None),
        Err(ReadFault::NoMemory) => Err(NoMemory),
    }
}

/// The record, where no byte is left behind it.
fn at_end(found: Option<Record>, is_end: bool) -> Option<Record>
    ensures { result ≡ (if is_end then found else None) }
{
    if is_end { found } else { None }
}

/// Two records with one spelling are the same, and no spelling of a record begins another.
pub fn record_laws()
    ensures one { (q r : AnyRecord) → HasRecord q → HasRecord r → record_bytes q ≡ record_bytes r → q ≡ r }
    ensures apart { IsKind record_bytes HasRecord }
    ensures again { (r : AnyRecord) → HasRecord r → decoded (record_bytes r) ≡ Some r }
{}
