// The version of each key of a map.
ghost use Rattle.std.specs.Prelude.{◌≡◌, [], ◌+◌, ◌-◌, ◌^◌, ◌==◌, false, IfOk, OnOk};
ghost use Rattle.std.specs.Option.{option_map};
ghost use Rattle.rc_ids.specs.Tables.{put};
ghost use Rattle.rc_ids.specs.Texts.{key_cmp};
ghost use Rattle.rc_serial.specs.OneMap.{Map, wrong_entry};
ghost use Rattle.rc_serial.specs.Orders.{map_of, wrong_of};
ghost use Rattle.rc_serial.specs.Versions.{version_in, versions_of, body_raised, Agree};

use crate::FirstWrong;
use rc_body::{Body, Rows};
use rc_ids::{Key, NoMemory, Version};
use std::alloc::Global;
use std::collections::BTreeMap;
use std::marker::Model;

/// The version of each key that was written.
#[derive(Drop)]
pub struct Versions {
    map: BTreeMap<Key, Version>,
}

impl Model for Versions {
    ghost use Rattle.std.specs.Prelude.{ℕ, List};
    ghost use Rattle.rc_ids.specs.Tables.{Table};

    ghost Value = { Table (List ℕ) ℕ };

    ghost view = { λ v. v.map.entries };
}

impl Versions {
    /// No versions.
    fn new(alloc: Global) -> Versions
        ensures { result ≡ [] }
    {
        Versions {
            map: BTreeMap::new(alloc),
        }
    }

    /// The versions of the rows.
    pub fn of(alloc: Global, rows: &Rows) -> Result<Versions, NoMemory>
        ensures { IfOk result (λ versions. versions ≡ versions_of (map_of rows.now)) }
    {
        let mut versions = Versions::new(alloc);
        for index in 0..rows.len() {
            let (key, version, _) = rows.entry(index);
            versions.set(key, version)?;
        }
        Ok(versions)
    }

    /// The key's version, 0 where it was never written.
    fn version(&self, key: &Key) -> Version
        ensures { result ≡ version_in self.now key.now }
    {
        match self.map.get(key) {
            Some(version) => *version,
            None => Version(0),
        }
    }

    /// Gives the key this version.
    fn set(&mut self, key: &Key, version: Version) -> Result<(), NoMemory>
        ensures { OnOk result (self.new ≡ put key_cmp self.old key.now version) }
    {
        self.map.insert(key.copy(), version)?;
        Ok(())
    }

    /// Gives the key the version after the one that was read.
    fn raise(&mut self, key: &Key, read: Version) -> Result<(), NoMemory>
        requires { (read == 2 ^ 62 - 1) ≡ false }
        ensures { OnOk result (self.new ≡ put key_cmp self.old key.now (read + 1)) }
    {
        self.set(key, Version(read.0 + 1))
    }

    /// The first entry of the body whose key has another version here than the one that was read.
    pub fn first_wrong(&self, place: u32, body: &Body) -> Option<FirstWrong>
        ensures { (m : Map) → versions_of m ≡ self.now → option_map wrong_of result ≡ wrong_entry m place body.now }
    {
        for index in 0..body.len() {
            let entry = body.entry(index);
            let expected = self.version(entry.key);
            if entry.version != expected {
                return Some(FirstWrong {
                    place,
                    key: entry.key.copy(),
                    expected,
                    read: entry.version,
                });
            }
        }
        None
    }

    /// Raises the version of each key that the body writes by one. The body read the versions that are here.
    pub fn raise_all(&mut self, body: &Body) -> Result<(), NoMemory>
        requires { Agree self.old body.now }
        ensures { OnOk result (self.new ≡ body_raised self.old body.now) }
    {
        for index in 0..body.len() {
            let entry = body.entry(index);
            if entry.write.is_some() {
                self.raise(entry.key, entry.version)?;
            }
        }
        Ok(())
    }
}
