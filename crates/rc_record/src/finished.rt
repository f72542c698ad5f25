// The outcomes of finished transactions.
ghost use Rattle.std.specs.Prelude.{◌≡◌, [], ◌∷◌, ◌++◌, None, is_some, OnOk, OnErr};
ghost use Rattle.std.specs.Ordering.{nat_cmp};
ghost use Rattle.rc_ids.specs.Tables.{found};
ghost use Rattle.rc_body.specs.Pages.{TxsDiffer};

use indexmap::IndexMap;
use rc_ids::{NoMemory, Outcome, TxId};
use std::alloc::Global;
use std::marker::Model;

/// The outcome of each transaction that is finished here, in the order in which they finished.
#[derive(Drop)]
pub struct FinishedTxs {
    list: IndexMap<TxId, Outcome>,
}

impl Model for FinishedTxs {
    ghost use Rattle.std.specs.Prelude.{ℕ, List};
    ghost use Rattle.rc_ids.specs.declared.names.Outcome.{Outcome};
    ghost use Rattle.rc_body.specs.Pages.{TxsDiffer};

    ghost Value = { List (ℕ × Outcome) };

    ghost view = { λ a. a.list.entries };

    ghost invariant = { λ a. TxsDiffer a.list.entries };
}

impl FinishedTxs {
    /// No outcomes.
    pub fn new(alloc: Global) -> FinishedTxs
        ensures { result ≡ [] }
    {
        FinishedTxs {
            list: IndexMap::new(alloc),
        }
    }

    /// Whether the transaction is finished.
    pub fn has(&self, tx: TxId) -> bool
        ensures { result ≡ is_some (found nat_cmp self.now tx) }
    {
        self.list.contains_key(&tx)
    }

    /// Keeps the outcome of the transaction, which has none yet, at the end; or leaves all as before.
    pub fn push(&mut self, tx: TxId, outcome: Outcome) -> Result<(), NoMemory>
        requires { found nat_cmp self.old tx ≡ None }
        ensures ok { OnOk result (self.new ≡ self.old ++ (tx, outcome) ∷ []) }
        ensures err { OnErr result (self.new ≡ self.old) }
    {
        self.list.insert(tx, outcome)?;
        Ok(())
    }

    /// The transactions with their outcomes, in the order in which they finished.
    pub fn into_map(self) -> IndexMap<TxId, Outcome>
        ensures entries { result.entries ≡ self }
        ensures apart { TxsDiffer self }
    {
        self.list
    }
}
