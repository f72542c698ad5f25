// The keys that a transaction touched.
ghost use Rattle.std.specs.Prelude.{◌≡◌, ◌≤◌, ◌<◌, ◌&&◌, true, false, [], ◌∷◌, ◌++◌, length, filter, not, None, Some, is_none, nat_le, IfOk, OnOk, OnErr, IfSome, IfNone};
ghost use Rattle.std.specs.List.{flat_map};
ghost use Rattle.std.specs.Option.{option_copied};
ghost use Rattle.rc_ids.specs.Tables.{maybe};
ghost use Rattle.rc_ids.specs.Texts.{same_key};
ghost use Rattle.rc_protocol.specs.Client.{Slot as SlotState, slot_of, slot_set, with_read, with_write, reads_begun, waits_for_read, read_dropped, body_of, NotRead as IsUnread, UnderWay as IsUnderWay};
ghost use Rattle.rc_protocol.specs.Client as client;
ghost use Rattle.rc_plain_client.specs.Reads.{read_of};
ghost use Rattle.rc_plain_client.specs.Slots.{IsPlace, Differ, keys_of, waits_once_begun, waits_at, written_at, IsSlots};

use crate::read::KeyRead;
use crate::slot::Slot;
use rc_body::{Body, BodyFault};
use rc_ids::{Key, NoMemory, Val};
use std::alloc::Global;
use std::collections::BTreeSet;
use std::marker::Model;

/// The keys that a transaction touched, in order of first touch; at most 32, and each once.
#[derive(Drop)]
pub struct Slots {
    items: Vec<Slot>,
}

impl Model for Slots {
    ghost use Rattle.std.specs.Prelude.{List};
    ghost use Rattle.rc_protocol.specs.Client.{Slot as SlotState};
    ghost use Rattle.rc_plain_client.specs.Slots.{IsSlots};

    ghost Value = { List SlotState };

    ghost view = { λ s. s.items.items };

    ghost invariant = { λ s. IsSlots s.items.items };
}

/// Where the key stands, if it does.
fn place_of(slots: &[Slot], key: &Key) -> Option<usize>
    ensures found { IfSome result (IsPlace slots.now key.now) }
    ensures none { IfNone result (slot_of slots.now key.now ≡ None) }
{
    for (place, slot) in slots.iter().enumerate() {
        if slot.key() == key {
            return Some(place);
        }
    }
    None
}

/// Whether a read would be under way once the reads are begun.
fn would_wait(slots: &[Slot]) -> bool
    ensures { result ≡ waits_once_begun slots.now }
{
    slots
        .iter()
        .any(|slot| slot.is_under_way() || slot.is_unread())
}

/// The keys whose read is under way, by bytes.
fn waiting_among(alloc: Global, slots: &[Slot]) -> Result<BTreeSet<Key>, NoMemory>
    ensures { IfOk result (λ keys. keys.keys ≡ client.waiting_keys slots.now) }
{
    let Some((slot, rest)) = slots.split_first() else {
        return Ok(BTreeSet::new(alloc));
    };
    let mut keys = waiting_among(alloc, rest)?;
    if slot.is_under_way() {
        keys.insert(slot.key().copy())?;
    }
    Ok(keys)
}

/// The keys that were not read, by bytes.
fn unread_among(alloc: Global, slots: &[Slot]) -> Result<BTreeSet<Key>, NoMemory>
    ensures { IfOk result (λ keys. keys.keys ≡ client.unread_keys slots.now) }
{
    let Some((slot, rest)) = slots.split_first() else {
        return Ok(BTreeSet::new(alloc));
    };
    let mut keys = unread_among(alloc, rest)?;
    if slot.is_unread() {
        keys.insert(slot.key().copy())?;
    }
    Ok(keys)
}

impl Slots {
    /// The most keys that a transaction touches.
    pub const MOST: usize = 32;

    /// No keys.
    pub fn new(alloc: Global) -> Slots
        ensures { result ≡ [] }
    {
        Slots {
            items: Vec::new(alloc),
        }
    }

    /// The key's slot, if it was touched.
    pub fn get(&self, key: &Key) -> Option<&Slot>
        ensures { option_copied result ≡ slot_of self.now key.now }
    {
        let place = place_of(self.items.as_slice(), key)?;
        Some(&self.items[place])
    }

    /// Whether the key would be one too many.
    pub fn is_full(&self, key: &Key) -> bool
        ensures { result ≡ (is_none (slot_of self.now key.now) && nat_le 32 (length self.now)) }
    {
        self.get(key).is_none() && Self::MOST <= self.items.len()
    }

    /// Adds a key, which was not touched, or leaves all as before.
    fn add(&mut self, slot: Slot) -> Result<(), NoMemory>
        requires absent { slot_of self.old slot.key ≡ None }
        requires room { length self.old < 32 }
        ensures ok { OnOk result (self.new ≡ self.old ++ slot ∷ []) }
        ensures err { OnErr result (self.new ≡ self.old) }
    {
        self.items.push(slot)?;
        Ok(())
    }

    /// Adds a key, which was not touched, whose read begins, or leaves all as before.
    pub fn ask(&mut self, key: &Key) -> Result<(), NoMemory>
        requires absent { slot_of self.old key.now ≡ None }
        requires room { length self.old < 32 }
        ensures err { OnErr result (self.new ≡ self.old) }
        ensures ok { OnOk result (self.new ≡ self.old ++ record { key = key.now; write = None; read = IsUnderWay true [] } ∷ []) }
    {
        let slot = Slot::asked(*self.items.allocator(), key);
        self.add(slot)
    }

    /// Buffers a write.
    pub fn write(&mut self, key: &Key, value: &Val) -> Result<(), NoMemory>
        requires { (is_none (slot_of self.old key.now) && nat_le 32 (length self.old)) ≡ false }
        ensures { OnOk result (self.new ≡ maybe (slot_of self.old key.now)
            (self.old ++ record { key = key.now; write = Some value.now; read = IsUnread } ∷ [])
            (λ (s : SlotState). slot_set self.old (with_write s value.now))) }
    {
        let Some(place) = place_of(self.items.as_slice(), key) else {
            return self.add(Slot::written(key, value)?);
        };
        let slot = &mut self.items[place];
        slot.set_write(value)
    }

    /// Keeps how far the read of a touched key is.
    pub fn set_read(&mut self, key: &Key, read: KeyRead)
        ensures { self.new ≡ maybe (slot_of self.old key.now) self.old (λ (s : SlotState). slot_set self.old (with_read s (read_of read))) }
    {
        if let Some(place) = place_of(self.items.as_slice(), key) {
            let slot = &mut self.items[place];
            slot.set_read(read);
        }
    }

    /// Whether a read of the key is under way.
    pub fn wait_for(&self, key: &Key) -> bool
        ensures { result ≡ waits_at self.now key.now }
    {
        match self.get(key) {
            Some(slot) => slot.is_under_way(),
            None => false,
        }
    }

    /// Whether the key is written.
    fn is_written(&self, key: &Key) -> bool
        ensures written { result ≡ written_at self.now key.now }
        ensures slots { IsSlots self.now }
    {
        match place_of(self.items.as_slice(), key) {
            Some(place) => self.items[place].write().is_some(),
            None => false,
        }
    }

    /// Removes the key.
    fn remove(&mut self, key: &Key)
        ensures { self.new ≡ filter (λ (s : SlotState). not (same_key s.key key.now)) self.old }
    {
        self.items.retain(|slot| slot.key() != key);
    }

    /// Drops the read of a key, and the key with it unless it is written.
    pub fn drop_read(&mut self, key: &Key)
        ensures { self.new ≡ flat_map (read_dropped key.now) self.old }
    {
        if self.is_written(key) {
            self.set_read(key, KeyRead::NotRead);
        } else {
            self.remove(key);
        }
    }

    /// The keys whose read is under way, by bytes.
    pub fn waiting_keys(&self) -> Result<BTreeSet<Key>, NoMemory>
        ensures { IfOk result (λ keys. keys.keys ≡ client.waiting_keys self.now) }
    {
        waiting_among(*self.items.allocator(), self.items.as_slice())
    }

    /// Begins the reads of the keys that were not read.
    pub fn begin_reads(&mut self)
        ensures { self.new ≡ reads_begun self.old }
    {
        let alloc = *self.items.allocator();
        for slot in self.items.iter_mut() {
            slot.begin_read(alloc);
        }
    }

    /// Whether a read is under way.
    pub fn wait(&self) -> bool
        ensures { result ≡ waits_for_read self.now }
    {
        self.items.iter().any(|slot| slot.is_under_way())
    }

    /// Whether a read would be under way once the reads are begun.
    pub fn wait_once_begun(&self) -> bool
        ensures { result ≡ waits_for_read (reads_begun self.now) }
    {
        would_wait(self.items.as_slice())
    }

    /// The keys that were not read, by bytes.
    pub fn unread_keys(&self) -> Result<BTreeSet<Key>, NoMemory>
        ensures { IfOk result (λ keys. keys.keys ≡ client.unread_keys self.now) }
    {
        unread_among(*self.items.allocator(), self.items.as_slice())
    }

    /// Whether a key is written, and no version comes after the one that was read.
    pub fn is_worn(&self) -> bool
        ensures { result ≡ client.is_worn self.now }
    {
        self.items.iter().any(|slot| slot.wears_out())
    }

    /// What the transaction does.
    pub fn body(&self) -> Result<Body, NoMemory>
        requires { client.is_worn self.now ≡ false }
        ensures { IfOk result (λ body. body ≡ body_of self.now) }
    {
        body_from(*self.items.allocator(), self.items.as_slice())
    }
}

/// The body of the slots. No entry is refused but for want of memory.
fn body_from(alloc: Global, slots: &[Slot]) -> Result<Body, NoMemory>
    requires few { length slots.now ≤ 32 }
    requires apart { Differ (keys_of slots.now) }
    requires lasting { client.is_worn slots.now ≡ false }
    ensures { IfOk result (λ body. body ≡ body_of slots.now) }
{
    let mut body = Body::new(alloc);
    for slot in slots {
        match body.add(slot.entry()?) {
            Ok(()) => {}
            Err(BodyFault::NoMemory) => return Err(NoMemory),
            Err(_) => unreachable!(),
        }
    }
    Ok(body)
}
