// The list of outcomes.
ghost use Rattle.std.specs.Prelude.{◌≡◌, None, [], ◌∷◌, ◌++◌, take, drop, OnOk, IfOk};
ghost use Rattle.std.specs.Option.{option_copied};
ghost use Rattle.rc_record.specs.CoordState.{outcome_of, outcomes_joined};

use indexmap::IndexMap;
use rc_body::{Decision, Page};
use rc_ids::{NoMemory, TxId};
use std::alloc::Global;
use std::marker::Model;

/// The transactions whose outcome is known, in the order in which it was learned.
#[derive(Drop)]
pub struct Outcomes {
    list: IndexMap<TxId, Decision>,
}

impl Model for Outcomes {
    ghost use Rattle.std.specs.Prelude.{ℕ, List};
    ghost use Rattle.rc_body.specs.declared.decision.Decision.{Decision};

    ghost Value = { List (ℕ × Decision) };

    ghost view = { λ o. o.list.entries };
}

impl Outcomes {
    pub fn new(alloc: Global) -> Outcomes
        ensures { result ≡ [] }
    {
        Outcomes {
            list: IndexMap::new(alloc),
        }
    }

    pub fn get(&self, tx: TxId) -> Option<&Decision>
        ensures { option_copied result ≡ outcome_of self.now tx }
    {
        self.list.get(&tx)
    }

    /// The entries from a place on, counted from 0, 64 at most.
    pub fn page(&self, alloc: Global, place: u32) -> Result<Page, NoMemory>
        ensures { IfOk result (λ page. page ≡ take 64 (drop place self.now)) }
    {
        let first = place as usize;
        let end = self.list.len().min(first + Page::MOST_ENTRIES);
        let mut page = Page::new(alloc);
        for index in first..end {
            if let Some((tx, decision)) = self.list.get_index(index) {
                page.push(*tx, decision.copy()?)?;
            }
        }
        Ok(page)
    }

    /// Adds the outcome of a transaction that has none, at the end.
    fn append(&mut self, tx: TxId, decision: Decision) -> Result<(), NoMemory>
        requires { outcome_of self.old tx ≡ None }
        ensures { OnOk result (self.new ≡ self.old ++ (tx, decision) ∷ []) }
    {
        self.list.insert(tx, decision)?;
        Ok(())
    }

    /// Adds an outcome at the end, where the transaction has none.
    fn join(&mut self, tx: TxId, decision: &Decision) -> Result<(), NoMemory>
        ensures { OnOk result (self.new ≡ outcomes_joined self.old ((tx, decision.now) ∷ [])) }
    {
        match self.get(tx) {
            Some(_) => Ok(()),
            None => self.append(tx, decision.copy()?),
        }
    }

    /// Adds those of the page at the end, whose transactions have no outcome.
    pub fn join_page(&mut self, page: &Page) -> Result<(), NoMemory>
        ensures { OnOk result (self.new ≡ outcomes_joined self.old page.now) }
    {
        for index in 0..page.len() {
            let (tx, decision) = page.entry(index);
            self.join(tx, decision)?;
        }
        Ok(())
    }

    /// The transactions with their outcomes, in the order in which these were learned.
    pub fn into_map(self) -> IndexMap<TxId, Decision>
        ensures { result.entries ≡ self }
    {
        self.list
    }
}
