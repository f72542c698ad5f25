// Pages of outcomes.
ghost use Rattle.std.specs.Prelude.{◌≡◌, ◌<◌, ◌==◌, false, [], ◌∷◌, ◌++◌, length, Some, OnOk, OnErr, IfOk, slice_get};
ghost use Rattle.rc_body.specs.Pages.{has_tx, IsPage};

use crate::Decision;
use rc_ids::{NoMemory, TxId};
use std::alloc::Global;
use std::marker::Model;

/// At most 64 transactions, each once, with their decisions.
#[derive(Drop)]
pub struct Page {
    entries: Vec<(TxId, Decision)>,
}

impl Model for Page {
    ghost use Rattle.std.specs.Prelude.{ℕ, List};
    ghost use Rattle.rc_body.specs.declared.decision.Decision.{Decision};
    ghost use Rattle.rc_body.specs.Pages.{IsPage};

    ghost Value = { List (ℕ × Decision) };

    ghost view = { λ p. p.entries.items };

    ghost invariant = { λ p. IsPage p.entries.items };
}

impl Page {
    /// The most transactions that a page has.
    pub const MOST_ENTRIES: usize = 64;

    /// A page without transactions.
    pub fn new(alloc: Global) -> Page
        ensures { result ≡ [] }
    {
        Page {
            entries: Vec::new(alloc),
        }
    }

    /// A page with one transaction.
    pub fn one(alloc: Global, tx: TxId, decision: Decision) -> Result<Page, NoMemory>
        ensures { IfOk result (λ p. p ≡ (tx, decision) ∷ []) }
    {
        let mut page = Page::new(alloc);
        page.push(tx, decision)?;
        Ok(page)
    }

    /// Adds a transaction at the end, or leaves all as before. It is not there, and there is room.
    pub fn push(&mut self, tx: TxId, decision: Decision) -> Result<(), NoMemory>
        requires room { length self.old < 64 }
        requires absent { has_tx tx self.old ≡ false }
        ensures ok { OnOk result (self.new ≡ self.old ++ ((tx, decision) ∷ [])) }
        ensures err { OnErr result (self.new ≡ self.old) }
    {
        self.entries.push((tx, decision))?;
        Ok(())
    }

    /// How many transactions there are.
    pub fn len(&self) -> usize
        ensures count { result ≡ length self.now }
        ensures page { IsPage self.now }
    {
        self.entries.len()
    }

    /// Whether there is no transaction.
    pub fn is_empty(&self) -> bool
        ensures { result ≡ (length self.now == 0) }
    {
        self.entries.is_empty()
    }

    /// Whether the transaction is there.
    pub fn has(&self, tx: TxId) -> bool
        ensures { result ≡ has_tx tx self.now }
    {
        self.entries.iter().any(|entry| entry.0 == tx)
    }

    /// The transaction at a place, counted from 0, and its decision.
    pub fn entry(&self, index: usize) -> (TxId, &Decision)
        requires { index < length self.now }
        ensures { slice_get self.now index ≡ Some (result.0, result.1.now) }
    {
        let entry = &self.entries[index];
        (entry.0, &entry.1)
    }

    /// A copy of the page.
    pub fn copy(&self) -> Result<Page, NoMemory>
        ensures { IfOk result (λ p. p ≡ self.now) }
    {
        let mut copied = Page::new(*self.entries.allocator());
        for index in 0..self.len() {
            let (tx, decision) = self.entry(index);
            copied.push(tx, decision.copy()?)?;
        }
        Ok(copied)
    }

    /// The transactions with their decisions, as they stand in the page.
    pub fn into_entries(self) -> Vec<(TxId, Decision)>
        ensures entries { result.items ≡ self }
        ensures page { IsPage self }
    {
        self.entries
    }
}
