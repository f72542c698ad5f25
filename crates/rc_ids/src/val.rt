// Values.
ghost use Rattle.std.specs.Prelude.{◌≡◌, ℕ, ◌↔◌, List, None, Some, IfOk, IfErr, IsTrue, nat_eq, ◌≢◌};
ghost use Rattle.std.specs.Cmp.{on_equiv, on_per, partial_equiv_from_equiv};
ghost use Rattle.std.specs.Cmp.Lexicographic.{nat_list_eq_equiv};
ghost use Rattle.rc_ids.specs.Texts.{IsValue, value_fault, same_key};
ghost use Rattle.rc_ids.specs.Texts as texts;
ghost use Rattle.rc_ids.specs.declared.fault.TextFault.TheVariants.{NoMemory as OutOfMemory};

use crate::{NoMemory, TextFault, check_text};
use std::alloc::Global;
use std::fmt;
use std::marker::Model;

/// A value: a text of at most 1,024 bytes from the space to `~`, or gone.
#[derive(Drop)]
pub struct Val {
    text: Option<Vec<u8>>,
}

impl Model for Val {
    ghost use Rattle.std.specs.Prelude.{ℕ, List};
    ghost use Rattle.std.specs.Option.{ForSome};
    ghost use Rattle.rc_ids.specs.Tables.{maybe};
    ghost use Rattle.rc_ids.specs.Texts.{gone, IsText};

    ghost Value = { List ℕ };

    ghost view = { λ v. maybe v.text gone (λ text. text.items) };

    ghost invariant = { λ v. ForSome v.text (λ text. IsText text.items) };
}

impl Val {
    /// The text of these bytes, or why they are none.
    pub fn new(alloc: Global, bytes: &[u8]) -> Result<Val, TextFault>
        ensures ok { IfOk result (λ v. (v ≡ bytes.now) × (value_fault bytes.now ≡ None)) }
        ensures err { IfErr result (λ e. e ≢ OutOfMemory → value_fault bytes.now ≡ Some e) }
    {
        check_text(bytes)?;
        let text = Vec::from_slice(alloc, bytes)?;
        Ok(Val { text: Some(text) })
    }

    /// The gone value, by which a key is deleted.
    pub fn gone(_alloc: Global) -> Result<Val, NoMemory>
        ensures { IfOk result (λ v. v ≡ texts.gone) }
    {
        Ok(Val { text: None })
    }

    /// A copy of the value.
    pub fn copy(&self) -> Result<Val, NoMemory>
        ensures { IfOk result (λ v. v ≡ self.now) }
    {
        let text = match &self.text {
            Some(text) => Some(text.clone()?),
            None => None,
        };
        Ok(Val { text })
    }

    /// Whether the value is gone.
    pub fn is_gone(&self) -> bool
        ensures { IsTrue result ↔ (self.now ≡ texts.gone) }
    {
        self.text.is_none()
    }

    /// The text's bytes, or the one byte 0 where it is gone.
    pub fn as_bytes(&self) -> &[u8]
        ensures bytes { result.now ≡ self.now }
        ensures value { IsValue result.now }
    {
        match &self.text {
            Some(text) => text.as_slice(),
            None => &[0],
        }
    }
}

impl PartialEq for Val {
    ghost eq = { λ v w. same_key v w };

    ghost laws = { on_per (λ v. v) (partial_equiv_from_equiv nat_list_eq_equiv) };

    fn eq(&self, other: &Self) -> bool {
        self.as_bytes() == other.as_bytes()
    }
}

impl Eq for Val {
    ghost laws = { on_equiv (λ v. v) nat_list_eq_equiv };
}

impl fmt::Debug for Val {
    fn fmt<W: fmt::Write>(&self, f: &mut fmt::Formatter<W>) -> fmt::Result {
        fmt::Debug::fmt(&self.as_bytes(), f)
    }
}
