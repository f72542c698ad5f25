// What a record is, and what it holds.
ghost use Rattle.std.specs.Prelude.{◌≡◌, false};
ghost use Rattle.std.specs.Option.{option_copied};
ghost use Rattle.rc_ids.specs.Tables.{maybe};
ghost use Rattle.rc_ids.specs.Texts.{gone, same_key};
ghost use Rattle.rc_record.specs.Kinds as kinds;

use crate::{Head, Record};
use rc_body::{Body, Decision, Page};
use rc_ids::Val;

/// The head, if the record is one.
pub(crate) fn head_of(entry: &Record) -> Option<&Head>
    ensures { option_copied result ≡ kinds.head_of entry.now }
{
    match entry {
        Record::Head(head) => Some(head),
        _ => None,
    }
}

/// Whether the record is of a shard server's log.
pub(crate) fn is_shard_record(entry: &Record) -> bool
    ensures { result ≡ kinds.is_shard_record entry.now }
{
    matches!(entry, Record::Prepared(_, _) | Record::Finished(_))
}

/// Whether the record is of a coordinator's log.
pub(crate) fn is_coord_record(entry: &Record) -> bool
    ensures { result ≡ kinds.is_coord_record entry.now }
{
    matches!(
        entry,
        Record::Promised(_, _) | Record::Accepted(_, _, _) | Record::Decided(_)
    )
}

fn is_gone(value: &Val) -> bool
    ensures { result ≡ same_key value.now gone }
{
    value.is_gone()
}

/// Whether there is a value, and it is gone.
fn some_gone(value: Option<&Val>) -> bool
    ensures { result ≡ maybe (option_copied value.entry) false (λ v. same_key v gone) }
{
    match value {
        Some(value) => is_gone(value),
        None => false,
    }
}

/// Whether the body writes a gone value.
fn body_has_gone(body: &Body) -> bool
    ensures { result ≡ kinds.body_has_gone body.now }
{
    for index in 0..body.len() {
        let entry = body.entry(index);
        if some_gone(entry.write) {
            return true;
        }
    }
    false
}

fn decision_has_gone(decision: &Decision) -> bool
    ensures { result ≡ kinds.decision_has_gone decision.now }
{
    match decision {
        Decision::Commit(body) => body_has_gone(body),
        Decision::Abort => false,
    }
}

fn page_has_gone(page: &Page) -> bool
    ensures { result ≡ kinds.page_has_gone page.now }
{
    for index in 0..page.len() {
        let (_, decision) = page.entry(index);
        if decision_has_gone(decision) {
            return true;
        }
    }
    false
}

/// Whether the record holds a gone value.
pub(crate) fn has_gone(entry: &Record) -> bool
    ensures { result ≡ kinds.has_gone entry.now }
{
    match entry {
        Record::Head(_) | Record::Promised(_, _) => false,
        Record::Prepared(_, part) => body_has_gone(part),
        Record::Accepted(_, _, decision) => decision_has_gone(decision),
        Record::Finished(page) | Record::Decided(page) => page_has_gone(page),
    }
}
