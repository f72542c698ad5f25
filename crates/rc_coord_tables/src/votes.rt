// The votes of open transactions.
ghost use Rattle.std.specs.Prelude.{◌≡◌, [], OnOk, OnErr};
ghost use Rattle.std.specs.Ordering.{nat_cmp};
ghost use Rattle.rc_ids.specs.Tables.{without};
ghost use Rattle.rc_ballots.specs.Tallies.{counted_for};
ghost use Rattle.rc_coord_tables.specs.Votes.{vote_table, with_vote, would_decide as decides_with};

use indexmap::IndexMap;
use rc_ballots::Tally;
use rc_body::Decision;
use rc_ids::{Ballot, DcId, NoMemory, Outcome, Quorum, TxId};
use std::alloc::Global;
use std::marker::Model;

/// The votes of each open transaction, at each ballot, and which datacentres are a quorum.
#[derive(Drop)]
pub struct Votes {
    quorum: Quorum,
    list: IndexMap<TxId, Tally>,
}

impl Model for Votes {
    ghost use Rattle.rc_coord_tables.specs.Maps.{shown_by, IsList};
    ghost use Rattle.rc_coord_tables.specs.Votes.{VoteTable, vote_table, votes_in, IsOf};

    ghost Value = { VoteTable };

    ghost view = { λ v. vote_table v.quorum (shown_by votes_in v.list.entries) };

    ghost invariant = { λ v. IsList (IsOf v.quorum) v.list.entries };
}

/// Counts a vote in the tally of its transaction, or leaves it as before.
fn add(tally: &mut Tally, dc: DcId, ballot: Ballot, outcome: Outcome) -> Result<(), NoMemory>
    ensures quorum { tally.new.quorum ≡ tally.old.quorum }
    ensures ok { OnOk result (tally.new.votes ≡ counted_for tally.old.votes ballot dc outcome) }
    ensures err { OnErr result (tally.new ≡ tally.old) }
{
    tally.add(dc, ballot, outcome)?;
    Ok(())
}

impl Votes {
    /// No votes.
    pub fn new(alloc: Global, quorum: Quorum) -> Votes
        ensures { result ≡ vote_table quorum [] }
    {
        Votes {
            quorum,
            list: IndexMap::new(alloc),
        }
    }

    /// Whether after this vote a quorum voted as it does, at its ballot.
    pub fn would_decide(&self, tx: TxId, dc: DcId, ballot: Ballot, decision: &Decision) -> bool
        ensures { result ≡ decides_with self.now tx ballot dc decision.now }
    {
        let outcome = decision.outcome();
        match self.list.get(&tx) {
            Some(tally) => tally.would(dc, ballot, outcome).is_some(),
            None => Tally::new(*self.list.allocator(), self.quorum)
                .would(dc, ballot, outcome)
                .is_some(),
        }
    }

    /// Counts a datacentre's vote, or leaves all as before.
    pub fn count(
        &mut self,
        tx: TxId,
        dc: DcId,
        ballot: Ballot,
        decision: &Decision,
    ) -> Result<(), NoMemory>
        ensures ok { OnOk result (self.new ≡ vote_table self.old.weights (with_vote self.old.table tx ballot dc decision.now)) }
        ensures err { OnErr result (self.new ≡ self.old) }
    {
        let outcome = decision.outcome();
        match self.list.get_mut(&tx) {
            Some(tally) => add(tally, dc, ballot, outcome),
            None => {
                let mut tally = Tally::new(*self.list.allocator(), self.quorum);
                add(&mut tally, dc, ballot, outcome)?;
                self.list.insert(tx, tally)?;
                Ok(())
            }
        }
    }

    /// Forgets the votes of the transaction.
    pub fn remove(&mut self, tx: TxId)
        ensures { self.new ≡ vote_table self.old.weights (without nat_cmp self.old.table tx) }
    {
        let _tally = self.list.swap_remove(&tx);
    }
}
