// Rows of keys.
ghost use Rattle.std.specs.Prelude.{◌≡◌, ◌<◌, ◌==◌, false, [], ◌∷◌, ◌++◌, length, Some, OnOk, OnErr, slice_get};
ghost use Rattle.rc_body.specs.Rows.{has_row, RowsDiffer};

use rc_ids::{Key, NoMemory, Val, Version};
use std::alloc::Global;
use std::marker::Model;

/// Keys, each once, with their versions and values.
#[derive(Drop)]
pub struct Rows {
    entries: Vec<(Key, (Version, Val))>,
}

impl Model for Rows {
    ghost use Rattle.std.specs.Prelude.{List};
    ghost use Rattle.rc_body.specs.Rows.{Row, RowsDiffer};

    ghost Value = { List Row };

    ghost view = { λ r. r.entries.items };

    ghost invariant = { λ r. RowsDiffer r.entries.items };
}

impl Rows {
    /// No keys.
    pub fn new(alloc: Global) -> Rows
        ensures { result ≡ [] }
    {
        Rows {
            entries: Vec::new(alloc),
        }
    }

    /// Adds a key at the end, or leaves all as before. It is not there.
    pub fn push(&mut self, key: Key, version: Version, value: Val) -> Result<(), NoMemory>
        requires { has_row key self.old ≡ false }
        ensures ok { OnOk result (self.new ≡ self.old ++ ((key, (version, value)) ∷ [])) }
        ensures err { OnErr result (self.new ≡ self.old) }
    {
        self.entries.push((key, (version, value)))?;
        Ok(())
    }

    /// How many keys there are.
    pub fn len(&self) -> usize
        ensures count { result ≡ length self.now }
        ensures apart { RowsDiffer self.now }
    {
        self.entries.len()
    }

    /// Whether there is no key.
    pub fn is_empty(&self) -> bool
        ensures { result ≡ (length self.now == 0) }
    {
        self.entries.is_empty()
    }

    /// Whether the key is there.
    pub fn has(&self, key: &Key) -> bool
        ensures { result ≡ has_row key.now self.now }
    {
        self.entries.iter().any(|row| row.0 == *key)
    }

    /// The key at a place, counted from 0, with its version and value.
    pub fn entry(&self, index: usize) -> (&Key, Version, &Val)
        requires { index < length self.now }
        ensures { slice_get self.now index ≡ Some (result.0.now, (result.1, result.2.now)) }
    {
        let row = &self.entries[index];
        (&row.0, row.1.0, &row.1.1)
    }

    /// The keys with their versions and values, as they stand in the list.
    pub fn into_entries(self) -> Vec<(Key, (Version, Val))>
        ensures entries { result.items ≡ self }
        ensures apart { RowsDiffer self }
    {
        self.entries
    }
}
