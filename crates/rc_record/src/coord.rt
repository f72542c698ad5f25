// What a coordinator's log gives back.
ghost use Rattle.std.specs.Prelude.{◌≡◌, OnOk};
ghost use Rattle.rc_record.specs.CoordState.{new_durable, coord_applied};
ghost use Rattle.rc_record.specs.declared.record.Record.TheVariants.{Promised, Accepted, Decided};

use crate::{Acceptances, Outcomes, Promises};
use rc_body::{Decision, Page};
use rc_ids::{Ballot, NoMemory, TxId};
use std::alloc::Global;

/// What a coordinator's log gives back: the promises, the accepted decisions and the outcomes.
#[derive(Drop)]
pub struct CoordDurable {
    pub promises: Promises,
    pub accepted: Acceptances,
    pub outcomes: Outcomes,
}

impl CoordDurable {
    /// Nothing yet.
    pub fn new(alloc: Global) -> CoordDurable
        ensures { result ≡ new_durable }
    {
        CoordDurable {
            promises: Promises::new(alloc),
            accepted: Acceptances::new(alloc),
            outcomes: Outcomes::new(alloc),
        }
    }

    /// Raises the promise of the transaction to the ballot.
    pub fn promise(&mut self, tx: TxId, ballot: Ballot) -> Result<(), NoMemory>
        ensures { OnOk result (self.new ≡ coord_applied self.old (Promised tx ballot)) }
    {
        self.promises.raise(tx, ballot)
    }

    /// Keeps what was accepted at the ballot, and raises the promise to it.
    pub fn accept(&mut self, tx: TxId, ballot: Ballot, decision: Decision) -> Result<(), NoMemory>
        ensures { OnOk result (self.new ≡ coord_applied self.old (Accepted tx ballot decision)) }
    {
        self.promises.raise(tx, ballot)?;
        self.accepted.put(tx, ballot, decision)
    }

    /// Adds the outcomes of the page that are not known yet.
    pub fn decide(&mut self, page: &Page) -> Result<(), NoMemory>
        ensures { OnOk result (self.new ≡ coord_applied self.old (Decided page.now)) }
    {
        self.outcomes.join_page(page)
    }
}
