// The list of outcomes.
ghost use Rattle.std.specs.Prelude.{◌≡◌, ◌+◌, ◌<◌, ◌≤◌, ◌^◌, ◌==◌, None, [], ◌∷◌, ◌++◌, length, IsOk, OnOk, OnErr, IfOk};
ghost use Rattle.std.specs.Option.{option_copied};
ghost use Rattle.rc_body.specs.Pages.{TxsDiffer};
ghost use Rattle.rc_record.specs.CoordState.{outcome_of};
ghost use Rattle.rc_protocol.specs.Coordinator.{page_from};

use indexmap::IndexMap;
use rc_body::{Decision, Page};
use rc_ids::{NoMemory, TxId};
use std::alloc::Global;
use std::marker::Model;

/// The transactions whose outcome is known, each once, in the order in which it came.
#[derive(Drop)]
pub struct Outcomes {
    list: IndexMap<TxId, Decision>,
}

impl Model for Outcomes {
    ghost use Rattle.indexmap.specs.IndexMap.{spare};
    ghost use Rattle.rc_catch.specs.Known.{Known, known, NameTxs};

    ghost Value = { Known };

    ghost view = { λ o. known o.list.entries (spare o.list) };

    ghost invariant = { λ o. NameTxs o.list.entries };
}

impl Outcomes {
    /// No outcome.
    pub fn new(alloc: Global) -> Outcomes
        ensures { result.entries ≡ [] }
    {
        Outcomes {
            list: IndexMap::new(alloc),
        }
    }

    /// Makes room for so many outcomes, which then enter without memory. The list stays as it is.
    pub fn room(&mut self, entries: usize) -> Result<(), NoMemory>
        ensures ok { OnOk result (entries ≤ self.new.spare) }
        ensures entries { self.new.entries ≡ self.old.entries }
        ensures spare { self.old.spare ≤ self.new.spare }
        ensures succeeds { entries ≤ self.old.spare → IsOk result }
    {
        self.list.reserve(entries)?;
        Ok(())
    }

    /// Adds an outcome at the end, or leaves the list as before. The transaction has none yet. Where there is room, there is
    /// memory.
    pub fn push(&mut self, tx: TxId, decision: Decision) -> Result<(), NoMemory>
        requires { outcome_of self.old.entries tx ≡ None }
        ensures ok { OnOk result (self.new.entries ≡ self.old.entries ++ (tx, decision) ∷ []) }
        ensures err { OnErr result (self.new.entries ≡ self.old.entries) }
        ensures spare { self.old.spare ≤ self.new.spare + 1 }
        ensures succeeds { 0 < self.old.spare → IsOk result }
    {
        // Transactions are numbers, so the list cannot outgrow its `len`.
        let _number = tx.0;
        self.list.insert(tx, decision)?;
        Ok(())
    }

    /// The outcome of a transaction, if it is known.
    pub fn get(&self, tx: TxId) -> Option<&Decision>
        ensures { option_copied result ≡ outcome_of self.now.entries tx }
    {
        self.list.get(&tx)
    }

    /// The outcomes from a place on, counted from 0; the first 64 of them where there are more.
    pub fn page(&self, place: u32) -> Result<Page, NoMemory>
        ensures { IfOk result (λ page. page ≡ page_from self.now.entries place) }
    {
        let first = place as usize;
        let end = self.list.len().min(first + Page::MOST_ENTRIES);
        let mut page = Page::new(*self.list.allocator());
        for index in first..end {
            if let Some((tx, decision)) = self.list.get_index(index) {
                page.push(*tx, decision.copy()?)?;
            }
        }
        Ok(page)
    }

    /// How many outcomes are known. There are no more than transactions.
    pub fn len(&self) -> u32
        ensures len { result ≡ length self.now.entries }
        ensures few { length self.now.entries < 2 ^ 32 }
        ensures apart { TxsDiffer self.now.entries }
    {
        self.list.len() as u32
    }

    /// Whether no outcome is known.
    pub fn is_empty(&self) -> bool
        ensures { result ≡ (length self.now.entries == 0) }
    {
        self.list.is_empty()
    }
}
