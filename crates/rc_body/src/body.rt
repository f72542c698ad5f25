// The keys of a transaction.
ghost use Rattle.std.specs.Prelude.{◌≡◌, ◌<◌, ◌↔◌, false, [], ◌∷◌, ◌++◌, length, Some, IsTrue, OnOk, OnErr, IfOk, IsErrOf, slice_get, ◌==◌};
ghost use Rattle.std.specs.List.{list_any};
ghost use Rattle.indexmap.specs.IndexMap.{keys};
ghost use Rattle.rc_ids.specs.Cluster.{shard_of};
ghost use Rattle.rc_body.specs.Entries.{entry_seen, wears_out};
ghost use Rattle.rc_body.specs.Bodies.{has_key, IsBody};
ghost use Rattle.rc_body.specs.Bodies as bodies;
ghost use Rattle.rc_body.specs.declared.fault.BodyFault.TheVariants.{TooManyKeys, KeyWornOut};

use crate::entry::Access;
use crate::{BodyFault, Entry, EntryRef};
use indexmap::IndexMap;
use rc_ids::{Cluster, Key, NoMemory, ShardId};
use std::alloc::Global;
use std::marker::Model;

/// The keys that a transaction read or wrote, in the order in which it first touched them; at most 32, and each once.
/// No written key's version is the last one.
#[derive(Drop)]
pub struct Body {
    entries: IndexMap<Key, Access>,
}

impl Model for Body {
    ghost use Rattle.std.specs.Prelude.{List};
    ghost use Rattle.rc_body.specs.declared.entry.Entry.{Entry};
    ghost use Rattle.rc_body.specs.Entries.{entries_of};
    ghost use Rattle.rc_body.specs.Bodies.{IsBody};

    ghost Value = { List Entry };

    ghost view = { λ b. entries_of b.entries.entries };

    ghost invariant = { λ b. IsBody (entries_of b.entries.entries) };
}

/// Whether a key of the map is of the shard.
fn any_of_shard(entries: &IndexMap<Key, Access>, cluster: &Cluster, shard: ShardId) -> bool
    ensures { result ≡ list_any (λ k. shard_of cluster.now k == shard) (keys entries.now) }
{
    entries.keys().any(|key| cluster.shard_of(key) == shard)
}

impl Body {
    /// The most keys that a body has.
    pub const MOST_KEYS: usize = 32;

    /// A body without keys.
    pub fn new(alloc: Global) -> Body
        ensures { result ≡ [] }
    {
        Body {
            entries: IndexMap::new(alloc),
        }
    }

    /// Adds an entry at the end, whose key is not there. After a fault the body is as before.
    pub fn add(&mut self, entry: Entry) -> Result<(), BodyFault>
        requires { has_key entry.key self.old ≡ false }
        ensures ok { OnOk result (self.new ≡ self.old ++ (entry ∷ [])) }
        ensures err { OnErr result (self.new ≡ self.old) }
        ensures too_many { IsErrOf result TooManyKeys ↔ (length self.old ≡ 32) }
        ensures worn_out { IsErrOf result KeyWornOut ↔ ((length self.old < 32) × IsTrue (wears_out entry)) }
    {
        if self.entries.len() == Self::MOST_KEYS {
            return Err(BodyFault::TooManyKeys);
        }
        if entry.wears_out() {
            return Err(BodyFault::KeyWornOut);
        }
        self.keep(entry)?;
        Ok(())
    }

    /// Adds an entry that fits, at the end.
    fn keep(&mut self, entry: Entry) -> Result<(), NoMemory>
        requires absent { has_key entry.key self.old ≡ false }
        requires room { length self.old < 32 }
        requires lasting { wears_out entry ≡ false }
        ensures ok { OnOk result (self.new ≡ self.old ++ (entry ∷ [])) }
        ensures err { OnErr result (self.new ≡ self.old) }
    {
        let Entry {
            key,
            version,
            write,
        } = entry;
        self.entries.insert(key, Access { version, write })?;
        Ok(())
    }

    /// Whether the key is read or written.
    pub fn has(&self, key: &Key) -> bool
        ensures { result ≡ has_key key.now self.now }
    {
        self.entries.contains_key(key)
    }

    /// How many keys there are.
    pub fn len(&self) -> usize
        ensures count { result ≡ length self.now }
        ensures body { IsBody self.now }
    {
        self.entries.len()
    }

    /// Whether there is no key.
    pub fn is_empty(&self) -> bool
        ensures { result ≡ (length self.now == 0) }
    {
        self.entries.is_empty()
    }

    /// The entry at a place, counted from 0.
    pub fn entry(&self, index: usize) -> EntryRef<'_>
        requires { index < length self.now }
        ensures { slice_get self.now index ≡ Some (entry_seen result) }
    {
        let (key, access) = self.entries.get_index(index).unwrap();
        EntryRef {
            key,
            version: access.version,
            write: access.write.as_ref(),
        }
    }

    /// A copy of the body.
    pub fn copy(&self) -> Result<Body, NoMemory>
        ensures { IfOk result (λ b. b ≡ self.now) }
    {
        let mut copied = Body::new(*self.entries.allocator());
        for index in 0..self.len() {
            copied.keep(self.entry(index).to_entry()?)?;
        }
        Ok(copied)
    }

    /// The entries with keys of a shard, in their order.
    pub fn part(&self, cluster: &Cluster, shard: ShardId) -> Result<Body, NoMemory>
        ensures { IfOk result (λ b. b ≡ bodies.part cluster.now shard self.now) }
    {
        let mut parted = Body::new(*self.entries.allocator());
        for index in 0..self.len() {
            let entry = self.entry(index);
            if cluster.shard_of(entry.key) == shard {
                parted.keep(entry.to_entry()?)?;
            }
        }
        Ok(parted)
    }

    /// Whether a key is of the shard.
    pub fn touches(&self, cluster: &Cluster, shard: ShardId) -> bool
        ensures { result ≡ bodies.touches cluster.now self.now shard }
    {
        any_of_shard(&self.entries, cluster, shard)
    }
}
