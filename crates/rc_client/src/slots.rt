// The keys that a transaction touched.
ghost use Rattle.std.specs.Prelude.{◌≡◌, ◌≤◌, ◌<◌, ◌&&◌, true, false, [], ◌∷◌, ◌++◌, length, filter, not, None, Some, is_none, nat_le, IfOk, OnOk, OnErr, IfSome, IfNone};
ghost use Rattle.std.specs.List.{flat_map};
ghost use Rattle.std.specs.Option.{option_copied};
ghost use Rattle.rc_ids.specs.Tables.{maybe};
ghost use Rattle.rc_ids.specs.Texts.{same_key};
ghost use Rattle.rc_protocol.specs.Client.{Slot as SlotState, slot_of, slot_set, prints_of, wants_grant, with_grant, with_read, with_write, reads_begun, waits_for_read, read_dropped, body_of, NotRead as IsUnread, UnderWay as IsUnderWay};
ghost use Rattle.rc_protocol.specs.Client as client;
ghost use Rattle.rc_client.specs.Reads.{read_of};
ghost use Rattle.rc_client.specs.Slots.{IsPlace, Differ, keys_of, waits_once_begun, waits_at, written_at, granted_more, granted_at, IsSlots};
ghost use Rattle.rc_read.specs.Reads.{done_by};

use crate::key_read::KeyRead;
use crate::slot::Slot;
use crate::slot_list::{body_from, unread_among, waiting_among, would_wait};
use rc_body::Body;
use rc_ids::{DcId, DcSet, Key, NoMemory, Val};
use rc_read::{Grant, ReadDone};
use std::alloc::Global;
use std::collections::BTreeSet;
use std::marker::Model;

/// The keys that a transaction touched, in order of first touch; at most 32, and each once.
#[derive(Drop)]
pub struct Slots {
    items: Vec<Slot>,
}

impl Model for Slots {
    ghost use Rattle.std.specs.Prelude.{List};
    ghost use Rattle.rc_protocol.specs.Client.{Slot as SlotState};
    ghost use Rattle.rc_client.specs.Slots.{IsSlots};

    ghost Value = { List SlotState };

    ghost view = { λ s. s.items.items };

    ghost invariant = { λ s. IsSlots s.items.items };
}

/// Where the key stands, if it does.
fn place_of(slots: &[Slot], key: &Key) -> Option<usize>
    ensures found { IfSome result (IsPlace slots.now key.now) }
    ensures none { IfNone result (slot_of slots.now key.now ≡ None) }
{
    for (place, slot) in slots.iter().enumerate() {
        if slot.key() == key {
            return Some(place);
        }
    }
    None
}

impl Slots {
    /// The most keys that a transaction touches.
    pub const MOST: usize = 32;

    /// No keys.
    pub fn new(alloc: Global) -> Slots
        ensures { result ≡ [] }
    {
        Slots {
            items: Vec::new(alloc),
        }
    }

    /// The key's slot, if it was touched.
    pub fn get(&self, key: &Key) -> Option<&Slot>
        ensures { option_copied result ≡ slot_of self.now key.now }
    {
        let place = place_of(self.items.as_slice(), key)?;
        Some(&self.items[place])
    }

    /// Whether a line is printed at the end of the key's read that is under way.
    pub fn prints(&self, key: &Key) -> bool
        ensures { result ≡ maybe (slot_of self.now key.now) false (λ (s : SlotState). prints_of s.read) }
    {
        match self.get(key) {
            Some(slot) => slot.prints(),
            None => false,
        }
    }

    /// Whether a read of the key is under way that this datacentre has not granted.
    pub fn want_grant(&self, key: &Key, dc: DcId) -> bool
        ensures { result ≡ maybe (slot_of self.now key.now) false (λ (s : SlotState). wants_grant s dc) }
    {
        match self.get(key) {
            Some(slot) => slot.wants_grant(dc),
            None => false,
        }
    }

    /// The datacentres that granted the key's read that is under way, and one more.
    pub fn granted_with(&self, key: &Key, dc: DcId) -> DcSet
        ensures { result ≡ granted_at self.now key.now dc }
    {
        match self.get(key) {
            Some(slot) => slot.granted_by().with(dc),
            None => DcSet::new(),
        }
    }

    /// What is read of the key with one grant more.
    pub fn done_with(&self, key: &Key, grant: &Grant) -> Result<ReadDone, NoMemory>
        requires { waits_at self.now key.now ≡ true }
        ensures { IfOk result (λ done. done ≡ maybe (slot_of self.now key.now) (done_by []) (λ (s : SlotState). done_by (with_grant s grant.now))) }
    {
        match self.get(key) {
            Some(slot) => slot.done_with(grant),
            None => unreachable!(),
        }
    }

    /// Whether the key would be one too many.
    pub fn is_full(&self, key: &Key) -> bool
        ensures { result ≡ (is_none (slot_of self.now key.now) && nat_le 32 (length self.now)) }
    {
        self.get(key).is_none() && Self::MOST <= self.items.len()
    }

    /// Adds a key, which was not touched, or leaves all as before.
    fn add(&mut self, slot: Slot) -> Result<(), NoMemory>
        requires absent { slot_of self.old slot.key ≡ None }
        requires room { length self.old < 32 }
        ensures ok { OnOk result (self.new ≡ self.old ++ slot ∷ []) }
        ensures err { OnErr result (self.new ≡ self.old) }
    {
        self.items.push(slot)?;
        Ok(())
    }

    /// Adds a key, which was not touched, whose read begins, or leaves all as before.
    pub fn ask(&mut self, key: Key) -> Result<(), NoMemory>
        requires absent { slot_of self.old key ≡ None }
        requires room { length self.old < 32 }
        ensures ok { OnOk result (self.new ≡ self.old ++ record { key = key; write = None; read = IsUnderWay true [] } ∷ []) }
        ensures err { OnErr result (self.new ≡ self.old) }
    {
        let slot = Slot::asked(*self.items.allocator(), key);
        self.add(slot)
    }

    /// Buffers a write, or leaves all as before.
    pub fn write(&mut self, key: Key, value: Val) -> Result<(), NoMemory>
        requires { (is_none (slot_of self.old key) && nat_le 32 (length self.old)) ≡ false }
        ensures ok { OnOk result (self.new ≡ maybe (slot_of self.old key)
            (self.old ++ record { key = key; write = Some value; read = IsUnread } ∷ [])
            (λ (s : SlotState). slot_set self.old (with_write s value))) }
        ensures err { OnErr result (self.new ≡ self.old) }
    {
        match place_of(self.items.as_slice(), &key) {
            None => self.add(Slot::written(key, value)),
            Some(place) => {
                self.write_at(place, &key, value);
                Ok(())
            }
        }
    }

    /// Buffers a write of the key that stands at this place.
    fn write_at(&mut self, place: usize, key: &Key, value: Val)
        requires { IsPlace self.old key.now place }
        ensures { self.new ≡ maybe (slot_of self.old key.now) self.old (λ (s : SlotState). slot_set self.old (with_write s value)) }
    {
        let slot = &mut self.items[place];
        slot.set_write(value);
    }

    /// Keeps how far the read of a touched key is.
    pub fn set_read(&mut self, key: &Key, read: KeyRead)
        ensures { self.new ≡ maybe (slot_of self.old key.now) self.old (λ (s : SlotState). slot_set self.old (with_read s (read_of read))) }
    {
        let _before = self.replace_read(key, read);
    }

    /// Keeps how far the read of a touched key is, and gives how far it was.
    pub fn replace_read(&mut self, key: &Key, read: KeyRead) -> KeyRead
        ensures before { read_of result ≡ maybe (slot_of self.old key.now) (read_of read) (λ (s : SlotState). s.read) }
        ensures after { self.new ≡ maybe (slot_of self.old key.now) self.old (λ (s : SlotState). slot_set self.old (with_read s (read_of read))) }
    {
        match place_of(self.items.as_slice(), key) {
            None => read,
            Some(place) => {
                let slot = &mut self.items[place];
                slot.replace_read(read)
            }
        }
    }

    /// Keeps a grant of the key's read that is under way, or leaves all as before.
    pub fn push_grant(&mut self, key: &Key, grant: Grant) -> Result<(), NoMemory>
        requires { waits_at self.old key.now ≡ true }
        ensures ok { OnOk result (self.new ≡ maybe (slot_of self.old key.now) self.old (λ (s : SlotState). slot_set self.old (granted_more s grant))) }
        ensures err { OnErr result (self.new ≡ self.old) }
    {
        match place_of(self.items.as_slice(), key) {
            None => unreachable!(),
            Some(place) => {
                let slot = &mut self.items[place];
                slot.push_grant(grant)
            }
        }
    }

    /// Whether a read of the key is under way.
    pub fn wait_for(&self, key: &Key) -> bool
        ensures { result ≡ waits_at self.now key.now }
    {
        match self.get(key) {
            Some(slot) => slot.is_under_way(),
            None => false,
        }
    }

    /// Whether the key is written.
    fn is_written(&self, key: &Key) -> bool
        ensures written { result ≡ written_at self.now key.now }
        ensures slots { IsSlots self.now }
    {
        match place_of(self.items.as_slice(), key) {
            Some(place) => self.items[place].write().is_some(),
            None => false,
        }
    }

    /// Removes the key.
    fn remove(&mut self, key: &Key)
        ensures { self.new ≡ filter (λ (s : SlotState). not (same_key s.key key.now)) self.old }
    {
        self.items.retain(|slot| slot.key() != key);
    }

    /// Drops the read of a key, and the key with it unless it is written.
    pub fn drop_read(&mut self, key: &Key)
        ensures { self.new ≡ flat_map (read_dropped key.now) self.old }
    {
        if self.is_written(key) {
            self.set_read(key, KeyRead::NotRead);
        } else {
            self.remove(key);
        }
    }

    /// The keys whose read is under way, by bytes.
    pub fn waiting_keys(&self) -> Result<BTreeSet<Key>, NoMemory>
        ensures { IfOk result (λ keys. keys.keys ≡ client.waiting_keys self.now) }
    {
        waiting_among(*self.items.allocator(), self.items.as_slice())
    }

    /// Begins the reads of the keys that were not read.
    pub fn begin_reads(&mut self)
        ensures { self.new ≡ reads_begun self.old }
    {
        let alloc = *self.items.allocator();
        for slot in self.items.iter_mut() {
            slot.begin_read(alloc);
        }
    }

    /// Whether a read is under way.
    pub fn wait(&self) -> bool
        ensures { result ≡ waits_for_read self.now }
    {
        self.items.iter().any(|slot| slot.is_under_way())
    }

    /// Whether a read would be under way once the reads are begun.
    pub fn wait_once_begun(&self) -> bool
        ensures { result ≡ waits_for_read (reads_begun self.now) }
    {
        would_wait(self.items.as_slice())
    }

    /// The keys that were not read, by bytes.
    pub fn unread_keys(&self) -> Result<BTreeSet<Key>, NoMemory>
        ensures { IfOk result (λ keys. keys.keys ≡ client.unread_keys self.now) }
    {
        unread_among(*self.items.allocator(), self.items.as_slice())
    }

    /// Whether a key is written, and no version comes after the one that was read.
    pub fn is_worn(&self) -> bool
        ensures { result ≡ client.is_worn self.now }
    {
        self.items.iter().any(|slot| slot.wears_out())
    }

    /// What the transaction does.
    pub fn body(&self) -> Result<Body, NoMemory>
        requires { client.is_worn self.now ≡ false }
        ensures { IfOk result (λ body. body ≡ body_of self.now) }
    {
        body_from(*self.items.allocator(), self.items.as_slice())
    }
}
