// The version and the value of each key, in pages.
ghost use Rattle.std.specs.Prelude.{◌≡◌, ◌≤◌, ◌+◌, [], None, OnOk, OnErr, IfOk, nat_lt};
ghost use Rattle.std.specs.Option.{option_copied};
ghost use Rattle.rc_ids.specs.Tables.{found};
ghost use Rattle.rc_ids.specs.Texts.{key_cmp};
ghost use Rattle.rc_record.specs.ShardState.{version_at, value_at};
ghost use Rattle.rc_versions.specs.Rows.{newest};

use crate::page::Page;
use crate::pages::{insert_in, insert_with, is_open, page_of, raise_in, row_at, spare_page};
use crate::spares::Spares;
use crate::{HeadedKey, Rows};
use rc_ids::{Key, NoMemory, Val, Version};
use std::alloc::Global;
use std::marker::Model;

/// The version and the value of each key that was ever written, in pages, and how many calls of `apply` more take no memory.
#[derive(Drop)]
pub struct Versions {
    pages: Vec<Page>,
    spares: Spares,
    spare: usize,
}

impl Model for Versions {
    ghost use Rattle.std.specs.Prelude.{vec_capacity};
    ghost use Rattle.rc_versions.specs.Rows.{VersionMap};
    ghost use Rattle.rc_versions.specs.Pages.{all_rows, IsKept};

    ghost Value = { VersionMap };

    ghost view = { λ v. record { rows = all_rows v.pages.items; spare = v.spare } };

    ghost invariant = { λ v. IsKept v.pages.items v.spares v.spare (vec_capacity v.pages) };
}

impl Versions {
    /// No key was written.
    pub fn new(alloc: Global) -> Versions
        ensures { result.rows ≡ [] }
    {
        Versions {
            pages: Vec::new(alloc),
            spares: Spares::new(alloc),
            spare: 0,
        }
    }

    /// The key's version and its value: 0 and none where it was never written.
    pub fn get(&self, key: &Key) -> (Version, Option<&Val>)
        ensures version { result.0 ≡ version_at self.now.rows key.now }
        ensures value { option_copied result.1 ≡ value_at self.now.rows key.now }
    {
        let key = HeadedKey::new(key);
        let at = page_of(&self.pages, &key);
        match row_at(&self.pages, at, &key) {
            Some(row) => (row.0, Some(&row.1)),
            None => (Version(0), None),
        }
    }

    /// Makes room, so that so many calls of `apply` take no memory; or leaves all as before.
    pub fn room(&mut self, rows: usize) -> Result<(), NoMemory>
        ensures same { self.new.rows ≡ self.old.rows }
        ensures ok { OnOk result (rows ≤ self.new.spare) }
        ensures kept { self.old.spare ≤ self.new.spare }
        ensures err { OnErr result (self.new ≡ self.old) }
    {
        self.pages.reserve(rows)?;
        self.spares.make(rows)?;
        self.spare = self.spare.max(rows);
        Ok(())
    }

    /// Gives the key this version and this value, if its version here is lower, and says so. Each call takes at most one of the
    /// spare rows, and there is no want of memory while one is left.
    pub fn apply(&mut self, key: &Key, version: Version, val: Val) -> Result<bool, NoMemory>
        ensures said { IfOk result (λ set. set ≡ nat_lt (version_at self.old.rows key.now) version) }
        ensures ok { OnOk result (self.new.rows ≡ newest self.old.rows key.now version val) }
        ensures spare { self.old.spare ≤ self.new.spare + 1 }
        ensures err { OnErr result (self.new ≡ self.old) }
        ensures full { OnErr result (self.old.spare ≡ 0) }
        ensures absent { OnErr result (found key_cmp self.old.rows key.now ≡ None) }
    {
        let key = HeadedKey::new(key);
        let at = page_of(&self.pages, &key);
        if row_at(&self.pages, at, &key).is_some() {
            return Ok(raise_in(&mut self.pages, at, &key, version, val));
        }
        if version == Version(0) {
            return Ok(false);
        }
        if is_open(&self.pages, at) {
            insert_in(&mut self.pages, at, &key, version, val);
            return Ok(true);
        }
        let page = spare_page(&mut self.pages, &mut self.spares)?;
        self.spare = self.spare.saturating_sub(1);
        insert_with(&mut self.pages, at, page, &key, version, val);
        Ok(true)
    }

    /// The keys that were written, with their versions and values, in the order of the keys.
    pub fn rows(&self) -> Rows<'_>
        ensures { result ≡ self.now.rows }
    {
        Rows::new(&[], &self.pages)
    }
}
