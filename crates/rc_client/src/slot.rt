// A key that a transaction touched.
ghost use Rattle.std.specs.Prelude.{◌≡◌, ◌++◌, [], IfOk, OnOk, OnErr, None, Some, true};
ghost use Rattle.std.specs.Option.{option_copied};
ghost use Rattle.rc_protocol.specs.Client.{grants_of, prints_of, with_grant, with_read, with_write, read_begun, entry_of, NotRead as IsUnread, UnderWay as IsUnderWay, Complete as IsComplete};
ghost use Rattle.rc_protocol.specs.Client as client;
ghost use Rattle.rc_body.specs.Entries.{wears_out};
ghost use Rattle.rc_read.specs.Reads.{done_by};
ghost use Rattle.rc_client.specs.Reads.{read_of};

use crate::grants::{Grants, copied_value};
use crate::key_read::KeyRead;
use rc_body::Entry;
use rc_ids::{DcId, DcSet, Key, NoMemory, Val, Version};
use rc_read::{Grant, ReadDone};
use std::alloc::Global;
use std::marker::Model;
use std::mem;

/// A key that the transaction touched, with its buffered write and its read.
#[derive(Drop)]
pub struct Slot {
    key: Key,
    write: Option<Val>,
    read: KeyRead,
}

impl Model for Slot {
    ghost use Rattle.rc_protocol.specs.Client.{Slot as SlotState};
    ghost use Rattle.rc_client.specs.Reads.{read_of};

    ghost Value = { SlotState };

    ghost view = { λ s. record { key = s.key; write = s.write; read = read_of s.read } };
}

impl Slot {
    /// A key that is asked for first, by a read that prints a line at its end.
    pub fn asked(alloc: Global, key: Key) -> Slot
        ensures { result ≡ record { key = key; write = None; read = IsUnderWay true [] } }
    {
        Slot {
            key,
            write: None,
            read: KeyRead::UnderWay(true, Grants::new(alloc)),
        }
    }

    /// A key that is written first.
    pub fn written(key: Key, value: Val) -> Slot
        ensures { result ≡ record { key = key; write = Some value; read = IsUnread } }
    {
        Slot {
            key,
            write: Some(value),
            read: KeyRead::NotRead,
        }
    }

    /// The key.
    pub fn key(&self) -> &Key
        ensures { result.now ≡ self.now.key }
    {
        &self.key
    }

    /// The buffered write, if there is one.
    pub fn write(&self) -> Option<&Val>
        ensures { option_copied result ≡ self.now.write }
    {
        self.write.as_ref()
    }

    /// How far the read is.
    pub fn read(&self) -> &KeyRead
        ensures { read_of result.now ≡ self.now.read }
    {
        &self.read
    }

    /// Whether the key was not read.
    pub fn is_unread(&self) -> bool
        ensures { result ≡ client.is_unread self.now.read }
    {
        matches!(self.read, KeyRead::NotRead)
    }

    /// Whether the read is under way.
    pub fn is_under_way(&self) -> bool
        ensures { result ≡ client.is_under_way self.now.read }
    {
        matches!(self.read, KeyRead::UnderWay(_, _))
    }

    /// Whether a line is printed at the end of the read that is under way.
    pub fn prints(&self) -> bool
        ensures { result ≡ prints_of self.now.read }
    {
        match self.read {
            KeyRead::UnderWay(prints, _) => prints,
            _ => false,
        }
    }

    /// Whether the read is under way, and this datacentre has not granted it.
    pub fn wants_grant(&self, dc: DcId) -> bool
        ensures { result ≡ client.wants_grant self.now dc }
    {
        match &self.read {
            KeyRead::UnderWay(_, grants) => !grants.granted_by().has(dc),
            _ => false,
        }
    }

    /// The datacentres that granted the read that is under way.
    pub fn granted_by(&self) -> DcSet
        ensures { result ≡ client.granted_by (grants_of self.now.read) }
    {
        match &self.read {
            KeyRead::UnderWay(_, grants) => grants.granted_by(),
            _ => DcSet::new(),
        }
    }

    /// What is read with one grant more.
    pub fn done_with(&self, grant: &Grant) -> Result<ReadDone, NoMemory>
        requires { client.is_under_way self.now.read ≡ true }
        ensures { IfOk result (λ done. done ≡ done_by (with_grant self.now grant.now)) }
    {
        match &self.read {
            KeyRead::UnderWay(_, grants) => grants.done_with(grant),
            _ => unreachable!(),
        }
    }

    /// Keeps a grant of the read that is under way, or leaves all as before.
    pub fn push_grant(&mut self, grant: Grant) -> Result<(), NoMemory>
        requires { client.is_under_way self.old.read ≡ true }
        ensures ok { OnOk result (self.new ≡ with_read self.old (IsUnderWay (prints_of self.old.read) (with_grant self.old grant))) }
        ensures err { OnErr result (self.new ≡ self.old) }
        ensures key { self.new.key ≡ self.old.key }
    {
        match &mut self.read {
            KeyRead::UnderWay(_, grants) => grants.push(grant),
            _ => unreachable!(),
        }
    }

    /// Keeps how far the read is, and gives how far it was.
    pub fn replace_read(&mut self, read: KeyRead) -> KeyRead
        ensures before { read_of result ≡ self.old.read }
        ensures after { self.new ≡ with_read self.old (read_of read) }
    {
        mem::replace(&mut self.read, read)
    }

    /// Buffers a write.
    pub fn set_write(&mut self, value: Val)
        ensures { self.new ≡ with_write self.old value }
    {
        self.write = Some(value);
    }

    /// Begins the read, without a line at its end, where the key was not read.
    pub fn begin_read(&mut self, alloc: Global)
        ensures { self.new ≡ read_begun self.old }
    {
        if self.is_unread() {
            self.read = KeyRead::UnderWay(false, Grants::new(alloc));
        }
    }

    /// The version that was read; 0 where no read is complete.
    fn version(&self) -> Version
        ensures { result ≡ (entry_of self.now).version }
    {
        match &self.read {
            KeyRead::Complete(version, _) => *version,
            _ => Version(0),
        }
    }

    /// What the transaction does with the key.
    pub fn entry(&self) -> Result<Entry, NoMemory>
        ensures { IfOk result (λ e. e ≡ entry_of self.now) }
    {
        Ok(Entry {
            key: self.key.copy(),
            version: self.version(),
            write: copied_value(&self.write)?,
        })
    }

    /// Whether the key is written, and no version comes after the one that was read.
    pub fn wears_out(&self) -> bool
        ensures { result ≡ wears_out (entry_of self.now) }
    {
        self.write.is_some() && self.version().0 == (1 << 62) - 1
    }
}
