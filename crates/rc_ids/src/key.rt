// Keys.
ghost use Rattle.std.specs.Prelude.{◌≡◌, ℕ, ◌≤◌, List, [], ◌∷◌, length, take, Some, None, Ok, Err, IfOk, IfErr, MatchResult, nat_eq, IsTrue, refl};
ghost use Rattle.std.specs.Ordering.{nat_cmp};
ghost use Rattle.std.specs.Cmp.{on_equiv, on_total, on_po, on_per, partial_equiv_from_equiv};
ghost use Rattle.std.specs.Cmp.Lexicographic.{pointwise, slice_cmp, nat_list_eq_equiv, nat_list_cmp_total, texts_po, texts_ties};
ghost use Rattle.std.specs.Cmp.Rules.{hashing};
ghost use Rattle.std.specs.Hash as fed;
ghost use Rattle.std.proofs.Common.{rules};
ghost use Rattle.rc_ids.specs.Texts.{IsKey, key_fault, key_cmp, same_key};

use crate::{TextFault, check_key};
use std::cmp::Ordering;
use std::fmt;
use std::hash::{Hash, Hasher};
use std::marker::Model;

/// A key: 1 to 64 letters, digits, `_` and `-`. It holds its bytes in place.
#[derive(Drop)]
pub struct Key {
    bytes: [u8; 64],
    len: usize,
}

impl Model for Key {
    ghost use Rattle.std.specs.Prelude.{ℕ, ◌≤◌, List, take};
    ghost use Rattle.rc_ids.specs.Texts.{IsKey};

    ghost Value = { List ℕ };

    ghost view = { λ k. take k.len k.bytes };

    ghost invariant = { λ k. (k.len ≤ 64) × IsKey (take k.len k.bytes) };
}

/// These bytes in an array, with zeros behind.
fn in_place(bytes: &[u8]) -> [u8; 64]
    requires { length bytes.now ≤ 64 }
    ensures { take (length bytes.now) result ≡ bytes.now }
{
    let mut held = [0u8; 64];
    held[..bytes.len()].copy_from_slice(bytes);
    held
}

impl Key {
    /// The key of these bytes, or why they are none.
    pub fn new(bytes: &[u8]) -> Result<Key, TextFault>
        ensures ok { IfOk result (λ k. (k ≡ bytes.now) × (key_fault bytes.now ≡ None)) }
        ensures err { IfErr result (λ e. key_fault bytes.now ≡ Some e) }
    {
        check_key(bytes)?;
        Ok(Key {
            bytes: in_place(bytes),
            len: bytes.len(),
        })
    }

    /// A copy of the key.
    pub fn copy(&self) -> Key
        ensures { result ≡ self.now }
    {
        Key {
            bytes: self.bytes,
            len: self.len,
        }
    }

    /// The key's bytes.
    pub fn as_bytes(&self) -> &[u8]
        ensures bytes { result.now ≡ self.now }
        ensures key { IsKey result.now }
    {
        &self.bytes[..self.len]
    }
}

impl PartialEq for Key {
    ghost eq = { λ k l. same_key k l };

    ghost laws = { on_per (λ k. k) (partial_equiv_from_equiv nat_list_eq_equiv) };

    fn eq(&self, other: &Self) -> bool {
        self.as_bytes() == other.as_bytes()
    }
}

impl Eq for Key {
    ghost laws = { on_equiv (λ k. k) nat_list_eq_equiv };
}

impl PartialOrd for Key {
    ghost partial_cmp = { λ k l. Some (key_cmp k l) };

    ghost laws = { on_po (λ k. k) texts_po };

    fn partial_cmp(&self, other: &Self) -> Option<Ordering> {
        Some(self.cmp(other))
    }
}

impl Ord for Key {
    ghost cmp = { λ k l. key_cmp k l };

    ghost total = { on_total (λ k. k) nat_list_cmp_total };

    ghost matches_partial_cmp = { λ k l. refl };

    ghost matches_eq = { λ k l. texts_ties k l };

    fn cmp(&self, other: &Self) -> Ordering {
        self.as_bytes().cmp(other.as_bytes())
    }
}

impl Hash for Key {
    ghost hash_input = { λ k. fed.slice fed.u8 k };

    ghost respects_eq = { Prim.search (hashing, rules) };

    fn hash<H: Hasher>(&self, state: &mut H) {
        self.as_bytes().hash(state);
    }
}

impl fmt::Debug for Key {
    fn fmt<W: fmt::Write>(&self, f: &mut fmt::Formatter<W>) -> fmt::Result {
        fmt::Debug::fmt(&self.as_bytes(), f)
    }
}
