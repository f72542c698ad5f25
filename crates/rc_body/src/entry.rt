// One key of a transaction.
ghost use Rattle.std.specs.Prelude.{◌≡◌, IfOk, IsTrue, ◌↔◌};
ghost use Rattle.rc_body.specs.Entries.{entry_seen, wears_out};

use rc_ids::{Key, NoMemory, Val, Version};

/// The last version, after which there is none.
const LAST_VERSION: u64 = (1 << 62) - 1;

/// One key of a transaction: the version at which it read the key, and what it writes there, if it does.
#[derive(Debug, Drop)]
pub struct Entry {
    pub key: Key,
    pub version: Version,
    pub write: Option<Val>,
}

/// What a transaction does with a key: an entry without the key.
#[derive(Debug, Drop)]
pub struct Access {
    pub version: Version,
    pub write: Option<Val>,
}

/// An entry of a body, looked at in its place.
#[derive(Clone, Copy)]
pub struct EntryRef<'a> {
    pub key: &'a Key,
    pub version: Version,
    pub write: Option<&'a Val>,
}

impl Entry {
    /// Whether the key is written, and no version comes after the one that was read.
    pub fn wears_out(&self) -> bool
        ensures { result ≡ wears_out self.now }
    {
        self.write.is_some() && self.version.0 == LAST_VERSION
    }
}

impl EntryRef<'_> {
    /// The entry, by itself.
    pub fn to_entry(&self) -> Result<Entry, NoMemory>
        ensures { IfOk result (λ e. e ≡ entry_seen self.now) }
    {
        let write = match self.write {
            Some(value) => Some(value.copy()?),
            None => None,
        };
        Ok(Entry {
            key: self.key.copy(),
            version: self.version,
            write,
        })
    }
}
