//! In what order a client's operations may stand.
ghost use Rattle.std.specs.Prelude.{◌≡◌, [], true, false, IfOk, OnOk, length};
ghost use Rattle.std.specs.Option.{option_map};
ghost use Rattle.rc_ids.specs.Tables.{added};
ghost use Rattle.rc_ids.specs.Texts.{key_cmp};
ghost use Rattle.rc_config.specs.Plans.{new_course, with_key, cancelled, course_with, course_after};
ghost use Rattle.rc_config.specs.Plans as plans;

use crate::operation::Operation;
use rc_ids::{Key, NoMemory};
use std::alloc::Global;
use std::collections::BTreeSet;
use std::marker::Model;

/// How far a client is.
#[derive(Drop)]
struct Course {
    ended: bool,
    run: BTreeSet<Key>,
}

impl Model for Course {
    ghost use Rattle.rc_config.specs.Plans.{Course as Stage};

    ghost Value = { Stage };

    ghost view = { λ c. record { ended = c.ended; run = c.run.keys } };
}

/// A client that did nothing yet, or nothing but writes last.
fn fresh(alloc: Global) -> Course
    ensures { result ≡ new_course }
{
    Course {
        ended: false,
        run: BTreeSet::new(alloc),
    }
}

/// A client that commits or vanishes.
fn ended(alloc: Global) -> Course
    ensures { result ≡ record { ended = true; run = [] } }
{
    Course {
        ended: true,
        run: BTreeSet::new(alloc),
    }
}

impl Course {
    /// After a read of the key.
    fn after_read(self, key: &Key) -> Result<Course, NoMemory>
        ensures { IfOk result (λ c. c ≡ record { ended = false; run = added key_cmp self.run key.now }) }
    {
        let Course { ended: _, mut run } = self;
        run.insert(key.copy())?;
        Ok(Course { ended: false, run })
    }

    /// After a cancel of the key, if there was a read to cancel.
    fn after_cancel(self, key: &Key) -> Option<Course>
        ensures { result ≡ cancelled self key.now }
    {
        if !self.run.contains(key) {
            return None;
        }
        Some(self)
    }

    /// After the operation, if it may stand there.
    fn after(self, alloc: Global, operation: &Operation) -> Result<Option<Course>, NoMemory>
        ensures { IfOk result (λ found. found ≡ course_after self operation.now) }
    {
        if self.ended {
            return Ok(None);
        }
        match operation {
            Operation::Read(key) => Ok(Some(self.after_read(key)?)),
            Operation::Write(_, _) => Ok(Some(fresh(alloc))),
            Operation::Cancel(key) => Ok(self.after_cancel(key)),
            Operation::Commit | Operation::Vanish => Ok(Some(ended(alloc))),
        }
    }
}

/// Whether each operation may stand where it stands.
fn may_follow(alloc: Global, operations: &[Operation]) -> Result<bool, NoMemory>
    ensures { IfOk result (λ may. may ≡ plans.may_follow new_course operations.now) }
{
    let mut course = fresh(alloc);
    for operation in operations {
        let Some(next) = course.after(alloc, operation)? else {
            return Ok(false);
        };
        course = next;
    }
    Ok(true)
}

/// The key that the operation names.
fn key_in(operation: &Operation) -> Option<&Key>
    ensures { option_map (λ k. k.now) result ≡ plans.key_in operation.now }
{
    match operation {
        Operation::Read(key) | Operation::Write(key, _) | Operation::Cancel(key) => Some(key),
        Operation::Commit | Operation::Vanish => None,
    }
}

/// Adds the key, if there is one.
fn add_key(keys: &mut BTreeSet<Key>, key: Option<&Key>) -> Result<(), NoMemory>
    ensures { OnOk result (keys.new.keys ≡ with_key keys.old.keys (option_map (λ k. k.now) key.entry)) }
{
    if let Some(key) = key {
        keys.insert(key.copy())?;
    }
    Ok(())
}

/// How many different keys the operations name.
fn key_count(alloc: Global, operations: &[Operation]) -> Result<usize, NoMemory>
    ensures { IfOk result (λ count. count ≡ length (plans.keys_named [] operations.now)) }
{
    let mut keys = BTreeSet::new(alloc);
    for operation in operations {
        add_key(&mut keys, key_in(operation))?;
    }
    Ok(keys.len())
}

/// Whether a client may have these operations.
pub(crate) fn are_operations(alloc: Global, operations: &[Operation]) -> Result<bool, NoMemory>
    ensures { IfOk result (λ are. are ≡ plans.are_operations operations.now) }
{
    if key_count(alloc, operations)? > 32 {
        return Ok(false);
    }
    may_follow(alloc, operations)
}
