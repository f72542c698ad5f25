// Keys with their heads.
ghost use Rattle.std.specs.Prelude.{◌≡◌, slice_index, Some, refl};
ghost use Rattle.std.specs.Cmp.{on_equiv, on_total, on_po, on_per, partial_equiv_from_equiv};
ghost use Rattle.std.specs.Cmp.Lexicographic.{nat_list_eq_equiv, nat_list_cmp_total, texts_po, texts_ties};
ghost use Rattle.rc_ids.specs.Texts.{IsKey, key_cmp, same_key};
ghost use Rattle.rc_versions.specs.Heads as heads_spec;

use rc_ids::Key;
use std::cmp::Ordering;
use std::marker::Model;

/// A key, and beside it its head, which decides most comparisons: the first eight bytes as a number, the first byte the highest, with
/// zeros behind a shorter key.
#[derive(Drop)]
pub struct HeadedKey {
    head: u64,
    key: Key,
}

impl Model for HeadedKey {
    ghost use Rattle.std.specs.Prelude.{◌≡◌, ℕ, List};
    ghost use Rattle.rc_ids.specs.Texts.{IsKey};
    ghost use Rattle.rc_versions.specs.Heads as heads_spec;

    ghost Value = { List ℕ };

    ghost view = { λ k. k.key };

    ghost invariant = { λ k. (k.head ≡ heads_spec.head_of k.key) × IsKey k.key };
}

/// The byte at the place; 0 behind the end.
fn byte_at(bytes: &[u8], place: usize) -> u8
    ensures { result ≡ slice_index bytes.now place }
{
    if place < bytes.len() { bytes[place] } else { 0 }
}

/// The head of the key.
fn head_of(key: &Key) -> u64
    ensures head { result ≡ heads_spec.head_of key.now }
    ensures key { IsKey key.now }
{
    let bytes = key.as_bytes();
    u64::from_be_bytes([
        byte_at(bytes, 0),
        byte_at(bytes, 1),
        byte_at(bytes, 2),
        byte_at(bytes, 3),
        byte_at(bytes, 4),
        byte_at(bytes, 5),
        byte_at(bytes, 6),
        byte_at(bytes, 7),
    ])
}

impl HeadedKey {
    /// The key with its head.
    pub fn new(key: &Key) -> HeadedKey
        ensures { result ≡ key.now }
    {
        HeadedKey {
            head: head_of(key),
            key: key.copy(),
        }
    }

    /// A copy of the key.
    pub fn copy(&self) -> HeadedKey
        ensures { result ≡ self.now }
    {
        HeadedKey {
            head: self.head,
            key: self.key.copy(),
        }
    }

    /// The key alone.
    pub fn key(&self) -> &Key
        ensures { result.now ≡ self.now }
    {
        &self.key
    }
}

impl PartialEq for HeadedKey {
    ghost eq = { λ k l. same_key k l };

    ghost laws = { on_per (λ k. k) (partial_equiv_from_equiv nat_list_eq_equiv) };

    fn eq(&self, other: &Self) -> bool {
        self.key == other.key
    }
}

impl Eq for HeadedKey {
    ghost laws = { on_equiv (λ k. k) nat_list_eq_equiv };
}

impl PartialOrd for HeadedKey {
    ghost partial_cmp = { λ k l. Some (key_cmp k l) };

    ghost laws = { on_po (λ k. k) texts_po };

    fn partial_cmp(&self, other: &Self) -> Option<Ordering> {
        Some(self.cmp(other))
    }
}

impl Ord for HeadedKey {
    ghost cmp = { λ k l. key_cmp k l };

    ghost total = { on_total (λ k. k) nat_list_cmp_total };

    ghost matches_partial_cmp = { λ k l. refl };

    ghost matches_eq = { λ k l. texts_ties k l };

    fn cmp(&self, other: &Self) -> Ordering {
        if self.head == other.head {
            return self.key.cmp(&other.key);
        }
        self.head.cmp(&other.head)
    }
}
