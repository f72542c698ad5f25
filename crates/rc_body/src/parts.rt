// Prepared parts of transactions.
ghost use Rattle.std.specs.Prelude.{◌≡◌, ◌<◌, ◌==◌, false, [], ◌∷◌, ◌++◌, length, Some, OnOk, OnErr, slice_get, nat_eq, position};
ghost use Rattle.std.specs.Ordering.{nat_cmp};
ghost use Rattle.indexmap.specs.IndexMap.{insert_entry as in_order};
ghost use Rattle.rc_ids.specs.Tables.{without};
ghost use Rattle.rc_body.specs.Pages.{has_tx, TxsDiffer};

use crate::Body;
use rc_ids::{NoMemory, TxId};
use std::alloc::Global;
use std::marker::Model;

/// Transactions, each once, with their bodies or parts of them.
#[derive(Drop)]
pub struct Parts {
    entries: Vec<(TxId, Body)>,
}

impl Model for Parts {
    ghost use Rattle.std.specs.Prelude.{ℕ, List};
    ghost use Rattle.rc_body.specs.declared.entry.Entry.{Entry};
    ghost use Rattle.rc_body.specs.Pages.{TxsDiffer};

    ghost Value = { List (ℕ × List Entry) };

    ghost view = { λ p. p.entries.items };

    ghost invariant = { λ p. TxsDiffer p.entries.items };
}

impl Parts {
    /// No transactions.
    pub fn new(alloc: Global) -> Parts
        ensures { result ≡ [] }
    {
        Parts {
            entries: Vec::new(alloc),
        }
    }

    /// Adds a transaction at the end, or leaves all as before. It is not there.
    pub fn push(&mut self, tx: TxId, body: Body) -> Result<(), NoMemory>
        requires { has_tx tx self.old ≡ false }
        ensures ok { OnOk result (self.new ≡ self.old ++ ((tx, body) ∷ [])) }
        ensures err { OnErr result (self.new ≡ self.old) }
    {
        self.entries.push((tx, body))?;
        Ok(())
    }

    /// The place of the transaction, counted from 0, where it is there.
    fn place(&self, tx: TxId) -> Option<usize>
        ensures { result ≡ position (λ x. x.0 == tx) self.now }
    {
        self.entries.iter().position(|entry| entry.0 == tx)
    }

    /// Gives the transaction this body: in its place where it is there, else at the end; or leaves all as before.
    pub fn put(&mut self, tx: TxId, body: Body) -> Result<(), NoMemory>
        ensures ok { OnOk result (self.new ≡ in_order nat_eq self.old tx body) }
        ensures err { OnErr result (self.new ≡ self.old) }
    {
        match self.place(tx) {
            Some(place) => {
                self.entries[place] = (tx, body);
                Ok(())
            }
            None => self.push(tx, body),
        }
    }

    /// Lets the transaction go, where it is there. The others keep their order.
    pub fn remove(&mut self, tx: TxId)
        ensures { self.new ≡ without nat_cmp self.old tx }
    {
        if let Some(place) = self.place(tx) {
            let _ = self.entries.remove(place);
        }
    }

    /// How many transactions there are.
    pub fn len(&self) -> usize
        ensures count { result ≡ length self.now }
        ensures apart { TxsDiffer self.now }
    {
        self.entries.len()
    }

    /// Whether there is no transaction.
    pub fn is_empty(&self) -> bool
        ensures { result ≡ (length self.now == 0) }
    {
        self.entries.is_empty()
    }

    /// Whether the transaction is there.
    pub fn has(&self, tx: TxId) -> bool
        ensures { result ≡ has_tx tx self.now }
    {
        self.entries.iter().any(|entry| entry.0 == tx)
    }

    /// The transaction at a place, counted from 0, and its body.
    pub fn entry(&self, index: usize) -> (TxId, &Body)
        requires { index < length self.now }
        ensures { slice_get self.now index ≡ Some (result.0, result.1.now) }
    {
        let entry = &self.entries[index];
        (entry.0, &entry.1)
    }

    /// The transactions with their bodies, as they stand in the list.
    pub fn into_entries(self) -> Vec<(TxId, Body)>
        ensures entries { result.items ≡ self }
        ensures apart { TxsDiffer self }
    {
        self.entries
    }
}
