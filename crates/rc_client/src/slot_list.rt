// Lists of slots.
ghost use Rattle.std.specs.Prelude.{◌≡◌, ◌≤◌, false, length, IfOk};
ghost use Rattle.rc_protocol.specs.Client.{body_of};
ghost use Rattle.rc_protocol.specs.Client as client;
ghost use Rattle.rc_client.specs.Slots.{Differ, keys_of, waits_once_begun};

use crate::slot::Slot;
use rc_body::{Body, BodyFault};
use rc_ids::{Key, NoMemory};
use std::alloc::Global;
use std::collections::BTreeSet;

/// Whether a read would be under way once the reads are begun.
pub fn would_wait(slots: &[Slot]) -> bool
    ensures { result ≡ waits_once_begun slots.now }
{
    slots
        .iter()
        .any(|slot| slot.is_under_way() || slot.is_unread())
}

/// The keys whose read is under way, by bytes.
pub fn waiting_among(alloc: Global, slots: &[Slot]) -> Result<BTreeSet<Key>, NoMemory>
    ensures { IfOk result (λ keys. keys.keys ≡ client.waiting_keys slots.now) }
{
    let Some((slot, rest)) = slots.split_first() else {
        return Ok(BTreeSet::new(alloc));
    };
    let mut keys = waiting_among(alloc, rest)?;
    if slot.is_under_way() {
        keys.insert(slot.key().copy())?;
    }
    Ok(keys)
}

/// The keys that were not read, by bytes.
pub fn unread_among(alloc: Global, slots: &[Slot]) -> Result<BTreeSet<Key>, NoMemory>
    ensures { IfOk result (λ keys. keys.keys ≡ client.unread_keys slots.now) }
{
    let Some((slot, rest)) = slots.split_first() else {
        return Ok(BTreeSet::new(alloc));
    };
    let mut keys = unread_among(alloc, rest)?;
    if slot.is_unread() {
        keys.insert(slot.key().copy())?;
    }
    Ok(keys)
}

/// The body of the slots. No entry is refused but for want of memory.
pub fn body_from(alloc: Global, slots: &[Slot]) -> Result<Body, NoMemory>
    requires few { length slots.now ≤ 32 }
    requires apart { Differ (keys_of slots.now) }
    requires lasting { client.is_worn slots.now ≡ false }
    ensures { IfOk result (λ body. body ≡ body_of slots.now) }
{
    let mut body = Body::new(alloc);
    for slot in slots {
        match body.add(slot.entry()?) {
            Ok(()) => {}
            Err(BodyFault::NoMemory) => return Err(NoMemory),
            Err(_) => unreachable!(),
        }
    }
    Ok(body)
}
