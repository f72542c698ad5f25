// The version and the value of each key.
ghost use Rattle.std.specs.Prelude.{◌≡◌, ◌==◌, ◌-◌, ◌^◌, false, [], Some, IfOk, OnOk};
ghost use Rattle.rc_record.specs.Rows.{version_at, value_at, set_row, set_rows, AreWritten};

use rc_body::Body;
use rc_ids::{Key, NoMemory, Val, Version};
use std::alloc::Global;
use std::collections::BTreeMap;
use std::marker::Model;

/// The rows of a shard: the version and the value of each key that was ever written there. Each version is 1 or more.
#[derive(Drop)]
pub struct Rows {
    map: BTreeMap<Key, (Version, Val)>,
}

impl Model for Rows {
    ghost use Rattle.std.specs.Prelude.{ℕ, List};
    ghost use Rattle.rc_ids.specs.Tables.{Table};
    ghost use Rattle.rc_record.specs.Rows.{AreWritten};

    ghost Value = { Table (List ℕ) (ℕ × List ℕ) };

    ghost view = { λ a. a.map.entries };

    ghost invariant = { λ a. AreWritten a.map.entries };
}

impl Rows {
    /// No rows.
    pub fn new(alloc: Global) -> Rows
        ensures { result ≡ [] }
    {
        Rows {
            map: BTreeMap::new(alloc),
        }
    }

    /// The key's version, 0 where it was never written.
    pub fn version(&self, key: &Key) -> Version
        ensures { result ≡ version_at self.now key.now }
    {
        match self.map.get(key) {
            Some(row) => row.0,
            None => Version(0),
        }
    }

    /// The key's value, where it was ever written.
    pub fn value(&self, key: &Key) -> Result<Option<Val>, NoMemory>
        ensures { IfOk result (λ value. value ≡ value_at self.now key.now) }
    {
        match self.map.get(key) {
            Some(row) => Ok(Some(row.1.copy()?)),
            None => Ok(None),
        }
    }

    /// The rows as a map.
    pub fn as_map(&self) -> &BTreeMap<Key, (Version, Val)>
        ensures entries { result.now.entries ≡ self.now }
        ensures written { AreWritten self.now }
    {
        &self.map
    }

    /// Gives the key the version after the one that was read, and the value, if its version here is lower.
    fn raise(&mut self, key: &Key, read: Version, value: &Val) -> Result<(), NoMemory>
        requires { (read == 2 ^ 62 - 1) ≡ false }
        ensures { OnOk result (self.new ≡ set_row self.old (record { key = key.now; version = read; write = Some value.now })) }
    {
        let version = Version(read.0 + 1);
        if self.version(key) < version {
            let row = (version, value.copy()?);
            self.map.insert(key.copy(), row)?;
        }
        Ok(())
    }

    /// Raises each key that the part writes.
    pub fn raise_all(&mut self, part: &Body) -> Result<(), NoMemory>
        ensures { OnOk result (self.new ≡ set_rows self.old part.now) }
    {
        for index in 0..part.len() {
            let entry = part.entry(index);
            if let Some(value) = entry.write {
                self.raise(entry.key, entry.version, value)?;
            }
        }
        Ok(())
    }
}
